//! What the client of a link reads.

use crate::link::Link;
use std::io;
use std::io::Read;
use std::sync::Wait;

/// Reads the way down of a link, as one stream. It waits while nothing comes, whether or not a connection is there. It ends with the link, and where that begins again.
#[derive(Drop)]
pub struct LinkReader<'a, R: Wait> {
    rt: &'a R,
    link: &'a Link,
}

impl<'a, R: Wait> LinkReader<'a, R> {
    /// A reader of which nothing was read yet.
    pub fn new(rt: &'a R, link: &'a Link) -> LinkReader<'a, R> {
        LinkReader { rt, link }
    }
}

impl<'a, R: Wait> Read for LinkReader<'a, R> {
    fn read(&mut self, buf: &mut [u8]) -> io::Result<usize> {
        if buf.is_empty() {
            return Ok(0);
        }
        Ok(self.link.take(self.rt, buf))
    }
}
