//! Connecting, and connecting again.

use crate::carrying::{Connection, tell};
use crate::link::Link;
use crate::trials::Trial;
use crate::watch::Watch;
use std::alloc::Global;
use std::io;
use std::io::{ErrorKind, Write};
use std::net::{Net, TcpListener, TcpStream, ToSocketAddrs};
use std::sync::Wait;
use std::thread::Threads;
use std::time::{Clock, Duration};

/// Carries a link over one connection to the address after another, until the link is over. Meanwhile it tells the user on `errors` when the link is lost, and when it
/// goes on.
pub fn dial<
    R: Net<Listener = TcpListener, Stream = TcpStream> + Threads + Wait + Clock + Sync,
    E: Write,
>(rt: &R, alloc: Global, link: &Link, addr: &str, errors: &mut E) {
    let mut watch = Watch::new(rt);
    for _ in rt.forever() {
        if !link.ask(rt, alloc) {
            return;
        }
        let is_connected = dial_once(rt, alloc, link, addr, &mut watch, errors);
        let trial = link.lose(rt, is_connected, watch.millis(rt));
        tell(errors, link.notice(rt));
        match trial {
            Trial::After(millis) => link.wait(rt, Duration::from_millis(millis)),
            Trial::Never => return,
        }
    }
}

// Carries the link over one connection. Whether that could be made.
fn dial_once<
    R: Net<Listener = TcpListener, Stream = TcpStream> + Threads + Wait + Clock + Sync,
    E: Write,
>(rt: &R, alloc: Global, link: &Link, addr: &str, watch: &mut Watch, errors: &mut E) -> bool {
    let patience = Duration::from_millis(link.longest_attempt(rt, watch.millis(rt)));
    let stream = match connect(rt, addr, patience) {
        Ok(stream) => stream,
        Err(error) if error.kind() == ErrorKind::OutOfMemory => {
            link.fail(rt);
            return false;
        }
        Err(_) => return false,
    };
    let _ = stream.set_nodelay(true);
    let connection = Connection {
        alloc,
        link,
        stream: &stream,
    };
    connection.carry(rt, watch, errors);
    true
}

// Connects to the first address of the name that answers.
fn connect<R: Net<Listener = TcpListener, Stream = TcpStream>>(
    rt: &R,
    addr: &str,
    patience: Duration,
) -> io::Result<TcpStream> {
    let mut last = io::Error::from(ErrorKind::InvalidInput);
    for addr in addr.to_socket_addrs(rt)? {
        match TcpStream::connect_timeout(rt, &addr, patience) {
            Ok(stream) => return Ok(stream),
            Err(error) => last = error,
        }
    }
    Err(last)
}
