//! The heads of answers.
ghost use Rattle.std.specs.Prelude.{◌≡◌, ◌++◌, IfOk, codes, string_bytes};
ghost use Rattle.websocket.specs.Headers.{crlf};
ghost use Rattle.jup_http.specs.Heads.{head_of, refusal_head, refusal_body, media_type, guard_lines, body_fields};

use crate::Refusal;
use std::alloc::{AllocError, Global};

/// What a body is.
#[derive(Clone, Copy, Debug, PartialEq, Eq)]
pub enum Media {
    Html,
    Plain,
}

impl Media {
    fn name(self) -> &'static str
        ensures { result.now ≡ media_type self }
    {
        match self {
            Media::Html => "text/html; charset=utf-8",
            Media::Plain => "text/plain; charset=utf-8",
        }
    }
}

// The header lines that each body has, and the end of the head.
fn guard_lines() -> &'static str
    ensures { result.now ≡ guard_lines ++ crlf }
{
    "cache-control: no-store\r\nconnection: close\r\nx-content-type-options: nosniff\r\nreferrer-policy: no-referrer\r\ncontent-security-policy: default-src 'none'; script-src 'unsafe-inline'; style-src 'unsafe-inline'; img-src data:; connect-src 'self'; base-uri 'none'; form-action 'none'; frame-ancestors 'none'\r\n\r\n"
}

/// The head in front of a body of so many bytes.
pub fn body_head(alloc: Global, media: Media, len: usize) -> Result<String, AllocError>
    ensures { IfOk result (λ head. string_bytes head ≡ head_of (codes "200 OK") (body_fields media len)) }
{
    let name = media.name();
    let guard = guard_lines();
    format!(in alloc; "HTTP/1.1 200 OK\r\ncontent-type: {name}\r\ncontent-length: {len}\r\n{guard}")
}

/// The head of the answer to a request that is refused. The body after it is `refusal_body`; an answer to HEAD has none.
pub fn refusal_head(refusal: Refusal) -> &'static str
    ensures { result.now ≡ refusal_head refusal }
{
    match refusal {
        Refusal::BadHead =>
            "HTTP/1.1 400 Bad Request\r\ncontent-type: text/plain; charset=utf-8\r\ncontent-length: 36\r\ncache-control: no-store\r\nx-content-type-options: nosniff\r\nconnection: close\r\n\r\n",
        Refusal::Foreign =>
            "HTTP/1.1 403 Forbidden\r\ncontent-type: text/plain; charset=utf-8\r\ncontent-length: 145\r\ncache-control: no-store\r\nx-content-type-options: nosniff\r\nconnection: close\r\n\r\n",
        Refusal::NoPage =>
            "HTTP/1.1 404 Not Found\r\ncontent-type: text/plain; charset=utf-8\r\ncontent-length: 53\r\ncache-control: no-store\r\nx-content-type-options: nosniff\r\nconnection: close\r\n\r\n",
        Refusal::BadMethod =>
            "HTTP/1.1 405 Method Not Allowed\r\nallow: GET\r\ncontent-type: text/plain; charset=utf-8\r\ncontent-length: 30\r\ncache-control: no-store\r\nx-content-type-options: nosniff\r\nconnection: close\r\n\r\n",
        Refusal::NoUpgrade =>
            "HTTP/1.1 400 Bad Request\r\ncontent-type: text/plain; charset=utf-8\r\ncontent-length: 57\r\ncache-control: no-store\r\nx-content-type-options: nosniff\r\nconnection: close\r\n\r\n",
        Refusal::OtherVersion =>
            "HTTP/1.1 426 Upgrade Required\r\nupgrade: websocket\r\nsec-websocket-version: 13\r\ncontent-type: text/plain; charset=utf-8\r\ncontent-length: 50\r\ncache-control: no-store\r\nx-content-type-options: nosniff\r\nconnection: upgrade, close\r\n\r\n",
        Refusal::Busy =>
            "HTTP/1.1 503 Service Unavailable\r\nretry-after: 5\r\ncontent-type: text/plain; charset=utf-8\r\ncontent-length: 80\r\ncache-control: no-store\r\nx-content-type-options: nosniff\r\nconnection: close\r\n\r\n",
    }
}

/// The body of the answer to a request that is refused: a sentence for the person at the browser.
pub fn refusal_body(refusal: Refusal) -> &'static str
    ensures { result.now ≡ refusal_body refusal }
{
    match refusal {
        Refusal::BadHead => "The server can't read this request.\n",
        Refusal::Foreign =>
            "The server does not know this address as its own: start the server with --origin ORIGIN, the address that people type, as https://board.example.\n",
        Refusal::NoPage => "There is nothing at this address: the board is at /.\n",
        Refusal::BadMethod => "The server answers GET alone.\n",
        Refusal::NoUpgrade => "This address is for WebSockets alone: the board is at /.\n",
        Refusal::OtherVersion => "The server speaks version 13 of WebSockets alone.\n",
        Refusal::Busy =>
            "The server has as many connections as it can serve: try again in a few seconds.\n",
    }
}
