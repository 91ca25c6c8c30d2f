//! The writing side of a link's socket.

use jup_io::{Patience, Peer, Unwritten};
use std::io;
use std::io::{ErrorKind, Write};
use std::net::{Shutdown, TcpStream};
use std::time::Duration;

/// Writes to a socket, and fails once the peer has taken no byte for some seconds. A write that fails ends the socket's other side
/// too: the half of the session that reads is then woken.
///
/// A write waits for a second at most, and then it is interrupted or takes less than all. So a caller can give the peer up between two writes.
#[derive(Drop)]
pub struct Outgoing<'a> {
    stream: &'a TcpStream,
    patience: Patience,
}

impl<'a> Outgoing<'a> {
    /// Seconds that a peer of the daemon may take no byte: ten minutes.
    pub const PATIENCE: u32 = 600;

    /// The writing side of a socket. A write of it fails once the peer has taken no byte for so many seconds.
    pub fn new(stream: &'a TcpStream, patience: u32) -> Outgoing<'a> {
        // The kernel wakes a writer that waits once a third of the socket's room is free. A write that asks again
        // each second is given all room that there is, so a peer that reads slowly is seen to read.
        let _ = stream.set_write_timeout(Some(Duration::from_secs(1)));
        Outgoing {
            stream,
            patience: Patience::new(patience),
        }
    }
}

impl<'a> Write for Outgoing<'a> {
    fn write(&mut self, buf: &[u8]) -> io::Result<usize> {
        let mut to = self.stream;
        match self.patience.after(to.write(buf)) {
            Ok(len) => Ok(len),
            Err(Unwritten::Again) => Err(io::Error::from(ErrorKind::Interrupted)),
            Err(Unwritten::Lost(error)) => {
                self.give_up();
                Err(error)
            }
        }
    }

    fn flush(&mut self) -> io::Result<()> {
        Ok(())
    }
}

impl<'a> Peer for Outgoing<'a> {
    fn send(&mut self, bytes: &[u8]) -> io::Result<usize> {
        self.write(bytes)
    }

    fn pass_on(&mut self) -> io::Result<()> {
        self.flush()
    }

    /// Ends both sides of the socket.
    fn give_up(&mut self) {
        let _ = self.stream.shutdown(Shutdown::Both);
    }
}
