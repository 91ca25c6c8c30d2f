//! One connection: a request of HTTP, a session over a WebSocket, or a session by lines.
ghost use Rattle.std.specs.Prelude.{◌≡◌, ◌≤◌, ◌++◌, length, IfOk, string_bytes};
ghost use Rattle.jup_http.specs.Heads.{refusal_head, refusal_body};
ghost use Rattle.jup_hub.specs.Passes.{IsPassOf};

use crate::browser::BrowserSocket;
use crate::caller::{Call, LineBytes};
use crate::calls::serve_call;
use crate::connections::Visit;
use crate::session::Service;
use crate::turn::BROWSER_PATIENCE;
use jup_http::{
    LONGEST_HEAD, Media, Refusal, Request, body_head, read_request, refusal_body, refusal_head,
};
use jup_hub::Pass;
use jup_io::{has_waited, is_interrupted};
use jup_service::{Notice, Opening, head_wait, opening_of, surplus_refusal, who_text};
use jup_session::{Outgoing, hang_up};
use std::alloc::{AllocError, Global};
use std::io;
use std::io::{ErrorKind, Read, Write};
use std::net::{Shutdown, TcpStream};
use std::random::RandomSource;
use std::sync::Wait;
use std::thread::Threads;
use std::time::{Clock, Duration, Instant};
use websocket::handshake::server::write_response;

/// What the first bytes of a connection are.
enum Head {
    Lines,
    Request(Request),
}

/// Serves a connection to its end.
pub(crate) fn serve_connection<R: Threads + Wait + Clock + RandomSource + Eprint + Sync>(
    rt: &R,
    service: &Service<'_>,
    stream: &TcpStream,
    visit: Visit<'_, R>,
    pass: Pass,
)
    requires { IsPassOf service.now.hub.now pass }
{
    let _ = stream.set_nodelay(true);
    let mut head = [0u8; LONGEST_HEAD];
    match read_head(rt, service.origins, stream, &mut head) {
        Ok((len, Head::Lines)) => {
            return serve_lines(rt, service, stream, visit, &head[..len], pass);
        }
        Ok((_, Head::Request(Request::Link(key)))) => {
            if greet(service.alloc, stream, &key).is_ok() {
                return serve_browser(rt, service, stream, visit, pass);
            }
        }
        Ok((_, Head::Request(request))) => {
            let _ = answer(rt, service, stream, request);
        }
        Err(_) => {}
    }
    hang_up(rt, stream);
    drop(visit);
}

// Reads until it is clear what comes, and answers how many bytes were read.
fn read_head<R: Clock>(
    rt: &R,
    origins: &[&[u8]],
    stream: &TcpStream,
    head: &mut [u8; LONGEST_HEAD],
) -> io::Result<(usize, Head)>
    ensures { IfOk result (λ read. read.0 ≤ length head.new) }
{
    let start = Instant::now(rt)?;
    let mut len = 0usize;
    for _ in 0..LONGEST_HEAD {
        len += read_more(rt, start, stream, &mut head[len..])?;
        if let Some(found) = head_of(&head[..len], origins) {
            return Ok((len, found));
        }
    }
    Err(io::Error::from(ErrorKind::TimedOut))
}

// Reads once, and answers how many bytes came: none if the read was interrupted.
fn read_more<R: Clock>(
    rt: &R,
    start: Instant,
    mut stream: &TcpStream,
    buf: &mut [u8],
) -> io::Result<usize>
    ensures { IfOk result (λ more. more ≤ length buf.new) }
{
    stream.set_read_timeout(Some(wait_from(rt, start)?))?;
    match stream.read(buf) {
        Ok(0) => Err(io::Error::from(ErrorKind::UnexpectedEof)),
        Ok(more) => Ok(more),
        Err(error) if is_interrupted(&error) => Ok(0),
        Err(error) => Err(error),
    }
}

// How long the next read of a head may wait.
fn wait_from<R: Clock>(rt: &R, start: Instant) -> io::Result<Duration> {
    let elapsed = start.elapsed(rt)?.as_millis();
    let elapsed = u64::try_from(elapsed).unwrap_or(u64::MAX);
    match head_wait(elapsed) {
        Some(wait) => Ok(Duration::from_millis(wait)),
        None => Err(io::Error::from(ErrorKind::TimedOut)),
    }
}

// What the bytes are that came so far; `None` if they do not show it yet.
fn head_of(bytes: &[u8], origins: &[&[u8]]) -> Option<Head> {
    match opening_of(bytes)? {
        Opening::Lines => Some(Head::Lines),
        Opening::Request => match read_request(bytes, origins) {
            Some(request) => Some(Head::Request(request)),
            None => None,
        },
    }
}

// Serves what a connection by lines carries, whose first bytes were read.
fn serve_lines<R: Threads + Wait + Clock + RandomSource + Eprint + Sync>(
    rt: &R,
    service: &Service<'_>,
    stream: &TcpStream,
    visit: Visit<'_, R>,
    first: &[u8],
    pass: Pass,
)
    requires { IsPassOf service.now.hub.now pass }
{
    let call = Call {
        from: LineBytes::new(rt, service.stop, first, stream),
        to: Outgoing::new(stream, Outgoing::PATIENCE),
        connection: stream,
        stream,
        visit,
    };
    serve_call(rt, service, call, pass);
}

// Serves what the messages of a browser carry.
fn serve_browser<R: Threads + Wait + Clock + RandomSource + Eprint + Sync>(
    rt: &R,
    service: &Service<'_>,
    stream: &TcpStream,
    visit: Visit<'_, R>,
    pass: Pass,
)
    requires { IsPassOf service.now.hub.now pass }
{
    let socket = BrowserSocket::new(rt, service.alloc, stream);
    let (Ok(from), Ok(to)) = (socket.reader(service.stop), socket.writer()) else {
        return;
    };
    let call = Call {
        from,
        to,
        connection: &socket,
        stream,
        visit,
    };
    serve_call(rt, service, call, pass);
}

// Answers a request that does not ask for a link.
fn answer<R: Wait>(
    rt: &R,
    service: &Service<'_>,
    stream: &TcpStream,
    request: Request,
) -> io::Result<()> {
    let mut to = Outgoing::new(stream, BROWSER_PATIENCE);
    match request {
        Request::Page => send(service.alloc, &mut to, Media::Html, service.page),
        Request::Captions => send(service.alloc, &mut to, Media::Plain, service.captions),
        Request::Who => {
            let links = service.connections.count_links(rt);
            let is_full = service.notices.has(rt, Notice::OrderFull);
            let text = who_text(service.alloc, links, is_full)?;
            send(service.alloc, &mut to, Media::Plain, text.as_bytes())
        }
        Request::Refused(refusal) => {
            to.write_all(refusal_text(service.alloc, refusal)?.as_bytes())
        }
        Request::Link(_) => Ok(()),
    }
}

fn send<O: Write>(alloc: Global, to: &mut O, media: Media, body: &[u8]) -> io::Result<()> {
    let head = body_head(alloc, media, body.len())?;
    to.write_all(head.as_bytes())?;
    to.write_all(body)
}

// The whole answer to a request that is refused.
fn refusal_text(alloc: Global, refusal: Refusal) -> Result<String, AllocError>
    ensures { IfOk result (λ text. string_bytes text ≡ refusal_head refusal ++ refusal_body refusal) }
{
    let head = refusal_head(refusal);
    let body = refusal_body(refusal);
    format!(in alloc; "{head}{body}")
}

/// Answers a connection too many, without a wait: it reads what has come, and writes what the socket takes without one.
pub(crate) fn turn_away(alloc: Global, mut stream: &TcpStream) -> io::Result<()> {
    stream.set_nonblocking(true)?;
    let mut first = [0u8; LONGEST_HEAD];
    let len = match stream.read(&mut first) {
        Ok(len) => len,
        Err(error) if has_waited(&error) => 0,
        Err(error) => return Err(error),
    };
    if let Some(refusal) = surplus_refusal(opening_of(&first[..len])) {
        let text = refusal_text(alloc, refusal)?;
        let _ = stream.write(text.as_bytes())?;
    }
    stream.shutdown(Shutdown::Write)
}

// Accepts a WebSocket.
fn greet(alloc: Global, stream: &TcpStream, key: &[u8; 28]) -> io::Result<()> {
    let mut head = Vec::new(alloc);
    if write_response(key, &[], &mut head).is_err() {
        return Err(io::Error::from(ErrorKind::OutOfMemory));
    }
    let mut to = Outgoing::new(stream, BROWSER_PATIENCE);
    to.write_all(&head)
}
