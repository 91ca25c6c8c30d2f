//! What the session of a link writes to.

use crate::link::Link;
use jup_io::Peer;
use jup_links::Unput;
use std::io;
use std::io::{ErrorKind, Write};
use std::sync::Wait;
use std::time::Clock;

/// Puts whole lines on the way down of a link, whether or not a carrier is there. A line that finds no room or no memory within a second is interrupted, so that the session can give
/// the link up. A write fails once the link is over.
#[derive(Drop)]
pub struct LinkWriter<'a, R: Wait + Clock> {
    rt: &'a R,
    link: &'a Link,
}

impl<'a, R: Wait + Clock> LinkWriter<'a, R> {
    /// A writer to a link, which has one.
    pub fn new(rt: &'a R, link: &'a Link) -> LinkWriter<'a, R> {
        LinkWriter { rt, link }
    }
}

impl<'a, R: Wait + Clock> Write for LinkWriter<'a, R> {
    fn write(&mut self, buf: &[u8]) -> io::Result<usize> {
        if buf.is_empty() {
            return Ok(0);
        }
        match self.link.put(self.rt, buf) {
            // A session writes whole lines, and nothing else is a line of a link.
            Ok(0) => Err(io::Error::from(ErrorKind::InvalidData)),
            Ok(len) => Ok(len),
            Err(Unput::Full | Unput::NoMemory) => Err(io::Error::from(ErrorKind::Interrupted)),
            Err(Unput::Over) => Err(io::Error::from(ErrorKind::BrokenPipe)),
        }
    }

    fn flush(&mut self) -> io::Result<()> {
        Ok(())
    }
}

impl<'a, R: Wait + Clock> Peer for LinkWriter<'a, R> {
    fn send(&mut self, bytes: &[u8]) -> io::Result<usize> {
        self.write(bytes)
    }

    fn pass_on(&mut self) -> io::Result<()> {
        self.flush()
    }

    /// Ends the link: its site is too far behind.
    fn give_up(&mut self) {
        self.link.give_up(self.rt);
    }
}
