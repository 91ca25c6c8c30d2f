//! What the head of a request says.
ghost use Rattle.std.specs.Prelude.{◌≡◌, ◌≤◌, ◌<◌, ℕ, List, length, take, IfOk, IfSome, IsNone, IsOkAnd, IsSomeAnd};
ghost use Rattle.httparse.specs.Grammar.{RequestHead, ReadsRequest, MayBecomeRequest};
ghost use Rattle.httparse.specs.Spans.{span_bytes, IsRequestWithin};
ghost use Rattle.websocket.specs.Headers.{fields_of};
ghost use Rattle.websocket.specs.Handshake.{requested_key};
ghost use Rattle.jup_http.specs.Frames.{longest_head, most_fields};
ghost use Rattle.jup_http.specs.Heads.{upgrade_refusal, Upgrades};
ghost use Rattle.jup_http.specs.Asked.{Tells, Says, IsSaid};

use crate::Refusal;
use crate::origins::is_own;
use httparse::Status;
use httparse::spans::{EMPTY_HEADER_SPAN, HeaderSpan, RequestSpans, parse_request};
use websocket::handshake::HandshakeError;
use websocket::handshake::server::check_request;

/// Bytes that the head of a request may have.
pub const LONGEST_HEAD: usize = 8_192;

/// Header lines that a head may have.
pub const MOST_FIELDS: usize = 64;

/// What the head of a request says that a server of pages and links asks about.
#[derive(Clone, Copy)]
pub struct Asked<'a> {
    /// What it asks for, as `/`.
    pub target: &'a [u8],
    /// Whether it names this server alone, and no page of another one.
    pub is_own: bool,
    /// Whether its method is GET.
    pub is_get: bool,
    /// The value of `Sec-WebSocket-Accept` that accepts it as an upgrade to a WebSocket, or why it is none.
    pub upgrade: Result<[u8; 28], Refusal>,
}

/// No head of a request is in front of the bytes, or it is too long.
#[derive(Clone, Copy, Debug, PartialEq, Eq)]
pub struct BadHead;

/// What the head in front of these bytes says to a server that has these origins; `None` if it takes more bytes to tell.
pub fn read_asked<'a>(bytes: &'a [u8], origins: &[&[u8]]) -> Option<Result<Asked<'a>, BadHead>>
    // A head of at most 64 header lines is read as it is, whatever follows it.
    ensures head { (h : RequestHead) (rest : List ℕ) → ReadsRequest bytes.now h rest → length h.fields ≤ most_fields
        → IsSomeAnd result (λ read. IsOkAnd read (Says origins.now h)) }
    // What it reads is what such a head says.
    ensures whole { IfSome result (λ read. IfOk read (IsSaid bytes.now origins.now)) }
    // It waits for more only while more bytes can complete a head.
    ensures unfinished { IsNone result → MayBecomeRequest bytes.now }
    ensures bounded { IsNone result → length bytes.now < longest_head }
{
    let mut spans = [EMPTY_HEADER_SPAN; MOST_FIELDS];
    match parse_request(bytes, &mut spans) {
        Ok(Status::Complete(request)) => Some(Ok(asked_by(bytes, &request, &spans, origins))),
        Ok(Status::Partial) if bytes.len() < LONGEST_HEAD => None,
        Ok(Status::Partial) | Err(_) => Some(Err(BadHead)),
    }
}

// What a head says that was read.
fn asked_by<'a>(
    bytes: &'a [u8],
    request: &RequestSpans,
    spans: &[HeaderSpan],
    origins: &[&[u8]],
) -> Asked<'a>
    requires { IsRequestWithin bytes.now spans.now request.now }
    ensures { Tells origins.now (span_bytes bytes.now request.now.method) (span_bytes bytes.now request.now.path) request.now.version
        (fields_of bytes.now (take request.now.headers spans.now)) result }
{
    Asked {
        target: request.path.of(bytes),
        is_own: is_own(bytes, &spans[..request.headers], origins),
        is_get: request.method.of(bytes) == b"GET".as_slice(),
        upgrade: upgrade_of(bytes, request, spans),
    }
}

// What accepts a request as an upgrade to a WebSocket.
fn upgrade_of(
    bytes: &[u8],
    request: &RequestSpans,
    spans: &[HeaderSpan],
) -> Result<[u8; 28], Refusal>
    requires { IsRequestWithin bytes.now spans.now request.now }
    ensures { Upgrades (requested_key (span_bytes bytes.now request.now.method) request.now.version
        (fields_of bytes.now (take request.now.headers spans.now))) result }
{
    match check_request(bytes, request, spans) {
        Ok(key) => Ok(key),
        Err(error) => Err(upgrade_refusal(error)),
    }
}

fn upgrade_refusal(error: HandshakeError) -> Refusal
    ensures { result ≡ upgrade_refusal error }
{
    match error {
        HandshakeError::MissingSecWebSocketVersionHeader => Refusal::OtherVersion,
        _ => Refusal::NoUpgrade,
    }
}
