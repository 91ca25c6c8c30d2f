//! What the head of a request asks for.
ghost use Rattle.std.specs.Prelude.{◌≡◌, ◌≤◌, ◌<◌, ◌⊎◌, ℕ, List, length, map, IsNone, IfSome, IsSomeAnd, MatchBool};
ghost use Rattle.httparse.specs.Grammar.{RequestHead, ReadsRequest, MayBecomeRequest};
ghost use Rattle.httparse.specs.Spans.{name_and_value};
ghost use Rattle.jup_http.specs.Frames.{longest_head, most_fields};
ghost use Rattle.jup_http.specs.Heads.{Asks, AsksAt, IsAsked};

use crate::Refusal;
use crate::asked::{Asked, BadHead, read_asked};

/// What a request asks for.
#[derive(Clone, Copy, Debug, PartialEq, Eq)]
pub enum Request {
    /// `GET /`
    Page,
    /// `GET /captions`
    Captions,
    /// `GET /who`
    Who,
    /// `GET /ws`, an upgrade to a WebSocket: the value of `Sec-WebSocket-Accept` that accepts it.
    Link([u8; 28]),
    Refused(Refusal),
}

/// What the head in front of these bytes asks of a server that has these origins; `None` if it takes more bytes to decide.
pub fn read_request(bytes: &[u8], origins: &[&[u8]]) -> Option<Request>
    // A head of at most 64 header lines is read as it is, whatever follows it.
    ensures head { (h : RequestHead) (rest : List ℕ) → ReadsRequest bytes.now h rest → length h.fields ≤ most_fields
        → IsSomeAnd result (Asks origins.now h.method h.target h.minor (map name_and_value h.fields)) }
    // It gives what such a head asks for. All other bytes are refused.
    ensures asked { IfSome result (λ request. IsAsked bytes.now origins.now request ⊎ (request ≡ Request.Refused Refusal.BadHead)) }
    // It waits for more only while more bytes can complete a head.
    ensures unfinished { IsNone result → MayBecomeRequest bytes.now }
    ensures bounded { IsNone result → length bytes.now < longest_head }
{
    match read_asked(bytes, origins)? {
        Ok(asked) => Some(judge(&asked)),
        Err(BadHead) => Some(Request::Refused(Refusal::BadHead)),
    }
}

// What a request asks for by its head.
fn judge(asked: &Asked<'_>) -> Request
    ensures { MatchBool asked.now.is_own
        (MatchBool asked.now.is_get (AsksAt asked.now.target.now asked.now.upgrade result) (result ≡ Request.Refused Refusal.BadMethod))
        (result ≡ Request.Refused Refusal.Foreign) }
{
    if !asked.is_own {
        return Request::Refused(Refusal::Foreign);
    }
    if !asked.is_get {
        return Request::Refused(Refusal::BadMethod);
    }
    judge_target(asked.target, asked.upgrade)
}

fn judge_target(target: &[u8], upgrade: Result<[u8; 28], Refusal>) -> Request
    ensures { AsksAt target.now upgrade result }
{
    if target == b"/".as_slice() {
        return Request::Page;
    }
    if target == b"/captions".as_slice() {
        return Request::Captions;
    }
    if target == b"/who".as_slice() {
        return Request::Who;
    }
    if target == b"/ws".as_slice() {
        return match upgrade {
            Ok(key) => Request::Link(key),
            Err(refusal) => Request::Refused(refusal),
        };
    }
    Request::Refused(Refusal::NoPage)
}
