//! What the client of a link writes to.

use crate::link::Link;
use crate::redialed::Unput;
use std::io;
use std::io::{ErrorKind, Write};
use std::sync::Wait;

/// Puts whole lines on the way up of a link, whether or not a connection is there. A write fails once the link is over without a last line of the server.
#[derive(Drop)]
pub struct LinkWriter<'a, R: Wait> {
    rt: &'a R,
    link: &'a Link,
}

impl<'a, R: Wait> LinkWriter<'a, R> {
    /// A writer to a link, which has one.
    pub fn new(rt: &'a R, link: &'a Link) -> LinkWriter<'a, R> {
        LinkWriter { rt, link }
    }
}

impl<'a, R: Wait> Write for LinkWriter<'a, R> {
    fn write(&mut self, buf: &[u8]) -> io::Result<usize> {
        if buf.is_empty() {
            return Ok(0);
        }
        match self.link.put(self.rt, buf) {
            Ok(len) => Ok(len),
            // A client writes whole lines, and nothing else is a line of a link.
            Err(Unput::NoLine) => Err(io::Error::from(ErrorKind::InvalidData)),
            Err(Unput::Over) => Err(io::Error::from(ErrorKind::BrokenPipe)),
        }
    }

    fn flush(&mut self) -> io::Result<()> {
        Ok(())
    }
}
