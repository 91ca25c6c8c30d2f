//! What the session of a link reads.
ghost use Rattle.std.specs.Prelude.{◌≤◌, length};

use crate::link::Link;
use jup_links::MOST_GIVEN;
use std::io;
use std::io::Read;
use std::sync::Wait;

/// What the session of a link reads first. The link itself has no greeting.
const GREETING: &[u8; 8] = b"hello 3\n";

/// Reads the way up of a link, line by line, after a greeting. It waits while no line is there, whether or not a carrier is. It ends with the link.
#[derive(Drop)]
pub struct LinkReader<'a, R: Wait> {
    rt: &'a R,
    link: &'a Link,
    line: [u8; MOST_GIVEN],
    /// How many bytes the line has, and how many of them were read.
    len: usize,
    at: usize,
    ghost within: { at ≤ len },
    ghost fits: { len ≤ 257 },
}

impl<'a, R: Wait> LinkReader<'a, R> {
    /// A reader of which nothing was read yet. A link has one.
    pub fn new(rt: &'a R, link: &'a Link) -> LinkReader<'a, R> {
        let mut line = [0; MOST_GIVEN];
        line[..GREETING.len()].copy_from_slice(GREETING);
        LinkReader {
            rt,
            link,
            line,
            len: GREETING.len(),
            at: 0,
        }
    }

    // Has the next line, if this one was read.
    fn fill(&mut self) {
        if self.at < self.len {
            return;
        }
        let len = self.link.give(self.rt, &mut self.line);
        self.at = 0;
        self.len = len;
    }
}

impl<'a, R: Wait> Read for LinkReader<'a, R> {
    fn read(&mut self, buf: &mut [u8]) -> io::Result<usize> {
        if buf.is_empty() {
            return Ok(0);
        }
        self.fill();
        let len = (self.len - self.at).min(buf.len());
        buf[..len].copy_from_slice(&self.line[self.at..self.at + len]);
        self.at += len;
        Ok(len)
    }
}
