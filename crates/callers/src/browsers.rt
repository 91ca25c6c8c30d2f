//! What comes from a browser.
ghost use Rattle.std.specs.Prelude.{◌≡◌, IfOk, IfSome};
ghost use Rattle.jup_http.specs.Streams.{start, brings};

use jup_http::{MessageReader, Request, read_request, refusal_body, refusal_head};
use jup_io::Lasting;
use std::alloc::Global;
use std::io;
use std::io::Read;

/// The head and the body of the immediate answer to the first bytes of a connection, if there is one: a request that is refused.
pub fn answer_refused(bytes: &[u8], origins: &[&[u8]]) -> Option<(&'static str, &'static str)> {
    match read_request(bytes, origins) {
        Some(Request::Refused(refusal)) => Some((refusal_head(refusal), refusal_body(refusal))),
        _ => None,
    }
}

/// All bytes that a browser sends to a link: the payloads of its messages, however its frames are cut into reads.
pub fn link_bytes<I: Read + Drop>(alloc: Global, from: I) -> io::Result<Vec<u8>>
    ensures { IfOk result (λ bytes. IfSome (I.remaining from) (λ frames. bytes.items ≡ brings start frames)) }
{
    let mut reader = MessageReader::new(alloc, from, Lasting(io::sink()))?;
    let mut bytes = Vec::new(alloc);
    reader.read_to_end(&mut bytes)?;
    Ok(bytes)
}
