//! What the first bytes of a connection begin.
ghost use Rattle.std.specs.Prelude.{◌≡◌, ◌↔◌, ◌<◌, length, Some, IsNone};
ghost use Rattle.std.specs.Io.{StartsWith};
ghost use Rattle.jup_service.specs.Servers.{method, surplus_refusal};

use jup_http::Refusal;

/// How each request of HTTP begins that is taken for one.
const METHOD: &[u8] = b"GET ";

/// What a connection brings.
#[derive(Clone, Copy, Debug, PartialEq, Eq)]
pub enum Opening {
    /// A request of HTTP.
    Request,
    /// The lines of a link.
    Lines,
}

/// What the first bytes of a connection begin: a request if they begin by `GET `, and else lines. `None` if it takes more bytes to tell.
pub fn opening_of(bytes: &[u8]) -> Option<Opening>
    ensures request { (result ≡ Some Opening.Request) ↔ StartsWith bytes.now method }
    ensures unknown { IsNone result ↔ ((length bytes.now < length method) × StartsWith method bytes.now) }
{
    if bytes.starts_with(METHOD) {
        return Some(Opening::Request);
    }
    if bytes.len() < METHOD.len() && METHOD.starts_with(bytes) {
        return None;
    }
    Some(Opening::Lines)
}

/// How a server refuses a connection too many, whose first bytes begin this, or do not show it yet. The lines of a session get no answer.
pub fn surplus_refusal(opening: Option<Opening>) -> Option<Refusal>
    ensures { result ≡ surplus_refusal opening }
{
    match opening {
        Some(Opening::Lines) => None,
        Some(Opening::Request) | None => Some(Refusal::Busy),
    }
}
