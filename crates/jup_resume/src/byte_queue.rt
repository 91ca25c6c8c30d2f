//! A queue of bytes.
ghost use Rattle.std.specs.Prelude.{◌≡◌, ◌<◌, ◌≤◌, ◌^◌, [], ◌++◌, length, drop, OnOk, OnErr};
ghost use Rattle.jup_resume.specs.Texts.{spelled};

use jup_limits::NoMemory;
use std::alloc::Global;
use std::marker::Model;

/// Bytes that are put at the end and dropped at the front, which contracts see as a list. They lie side by side.
#[derive(Drop)]
pub(crate) struct ByteQueue {
    // The first of these bytes were dropped, and are given up once they are as many as the others.
    bytes: Vec<u8>,
    start: usize,
}

impl Model for ByteQueue {
    ghost use Rattle.std.specs.Prelude.{ℕ, ◌≤◌, List, length, drop};

    ghost Value = { List ℕ };

    ghost view = { λ queue. drop queue.start queue.bytes.items };

    ghost invariant = { λ queue. queue.start ≤ length queue.bytes.items };
}

impl ByteQueue {
    /// No bytes.
    pub(crate) fn new(alloc: Global) -> ByteQueue
        ensures { result ≡ [] }
    {
        ByteQueue {
            bytes: Vec::new(alloc),
            start: 0,
        }
    }

    /// The bytes after the first so many.
    pub(crate) fn behind(&self, count: usize) -> &[u8]
        requires { count ≤ length self.now }
        ensures bytes { result.now ≡ drop count self.now }
        ensures fits { length self.now < 2 ^ 64 }
    {
        &self.bytes[self.start + count..]
    }

    /// Puts a line at the end, given without its line feed.
    pub(crate) fn push_line(&mut self, text: &[u8]) -> Result<(), NoMemory>
        ensures ok { OnOk result (self.new ≡ self.old ++ spelled text.now) }
        ensures err { OnErr result (self.new ≡ self.old) }
    {
        let Some(more) = text.len().checked_add(1) else {
            return Err(NoMemory);
        };
        if self.bytes.reserve(more).is_err() {
            return Err(NoMemory);
        }
        let _ = self.bytes.extend_from_slice(text);
        self.bytes.push_reserved(b'\n');
        Ok(())
    }

    /// Drops so many bytes at the front.
    pub(crate) fn drop_front(&mut self, count: usize)
        requires { count ≤ length self.old }
        ensures { self.new ≡ drop count self.old }
    {
        self.start += count;
        if self.start >= self.bytes.len() - self.start {
            self.compact();
        }
    }

    /// Gives up the bytes that were dropped.
    fn compact(&mut self)
        ensures { self.new ≡ self.old }
    {
        self.bytes.drain(..self.start);
        self.start = 0;
    }
}
