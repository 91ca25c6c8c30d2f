//! A socket whose peer takes nothing, or is given up.

use crate::expect::{expect_eq, expect_that};
use jup_session::{Outgoing, Peer};
use std::io::{ErrorKind, Read, Write};
use std::net::{Net, TcpListener, TcpStream};
use std::process::Abort;
use std::time::Duration;

/// Pieces that are written: 16 MiB in total, which no socket here holds.
const PIECES: u64 = 256;

const PIECE: [u8; 65_536] = [b'x'; 65_536];

// The two ends of a connection.
fn both_ends<R: Net<Listener = TcpListener, Stream = TcpStream> + Abort>(
    rt: &R,
    addr: &str,
) -> (TcpStream, TcpStream) {
    let listener = TcpListener::bind(rt, addr).expect(rt, "an address");
    let near = TcpStream::connect(rt, addr).expect(rt, "a listener");
    let (far, _) = listener.accept().expect(rt, "a connection");
    (near, far)
}

// Writes until a write fails, and answers how.
fn fill(to: &mut Outgoing<'_>) -> Option<ErrorKind> {
    for _ in 0..PIECES {
        if let Err(error) = to.write_all(&PIECE) {
            return Some(error.kind());
        }
    }
    None
}

// The reading side of its socket ends with it, so that nobody waits there for a peer that is lost.
#[test]
fn a_write_fails_whose_peer_takes_nothing(rt: HostRuntime) {
    let (near, far) = both_ends(&rt, "127.0.0.1:47031");
    let mut to = Outgoing::new(&near, 1);
    expect_eq(&rt, fill(&mut to), Some(ErrorKind::TimedOut));
    let limit = near.set_read_timeout(Some(Duration::from_secs(10)));
    expect_that(&rt, limit.is_ok());
    drop(to);
    let mut from = &near;
    expect_eq(&rt, from.read(&mut [0u8; 1]).ok(), Some(0));
    drop(far);
}

// Both sides of its socket end, with nothing written. A flush alone ends nothing.
#[test]
fn a_peer_that_is_given_up_has_no_link(rt: HostRuntime) {
    let (near, far) = both_ends(&rt, "127.0.0.1:47032");
    let limit = Some(Duration::from_secs(10));
    expect_that(&rt, near.set_read_timeout(limit).is_ok());
    expect_that(&rt, far.set_read_timeout(limit).is_ok());
    let mut to = Outgoing::new(&near, Outgoing::PATIENCE);
    expect_eq(&rt, to.write(b"a").ok(), Some(1));
    expect_that(&rt, to.flush().is_ok());
    expect_eq(&rt, to.write(b"b").ok(), Some(1));
    to.give_up();
    expect_that(&rt, to.write(b"c").is_err());
    let (mut from_near, mut from_far) = (&near, &far);
    expect_eq(&rt, from_near.read(&mut [0u8; 1]).ok(), Some(0));
    let mut came = [0u8; 2];
    expect_that(&rt, from_far.read_exact(&mut came).is_ok());
    expect_eq(&rt, came, *b"ab");
    expect_eq(&rt, from_far.read(&mut [0u8; 1]).ok(), Some(0));
}
