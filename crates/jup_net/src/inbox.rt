//! What a link has brought, and its reader has not taken.
ghost use Rattle.std.specs.Prelude.{◌≡◌, ◌++◌, [], None, Some, IfOk, ◌-◌, ◌≤◌, length, IsTrue, IsFalse, ◌↔◌};
ghost use Rattle.jup_net.specs.Inboxes.{most_unread, AreGiven, IsReadOf};

use jup_xform::NoMemory;
use std::alloc::Global;
use std::collections::VecDeque;
use std::io;
use std::io::{BufRead, ErrorKind, Write};
use std::marker::Model;

/// Bytes that may wait: 32 MiB.
const MOST_UNREAD: usize = 32 * 1_048_576;

/// How a link ended.
#[derive(Clone, Copy, Debug, PartialEq, Eq)]
pub enum LinkEnd {
    /// The peer ended it.
    Over,
    /// A read failed.
    Failed,
}

/// What a reader is given.
#[derive(Clone, Copy, Debug, PartialEq, Eq)]
pub enum Given {
    /// So many bytes.
    Bytes(usize),
    /// None ever more.
    End(LinkEnd),
}

impl Given {
    /// A read of this: a link that is over ends the bytes, and one that failed fails the read.
    pub fn into_read(self) -> io::Result<usize>
        ensures { IsReadOf self result }
    {
        match self {
            Given::Bytes(len) => Ok(len),
            Given::End(LinkEnd::Over) => Ok(0),
            Given::End(LinkEnd::Failed) => Err(io::Error::from(ErrorKind::Other)),
        }
    }
}

/// What a link has brought, and its reader has not taken: at most 32 MiB, and how the link ended, if it has. Contracts see both.
#[derive(Drop)]
pub struct Inbox {
    bytes: VecDeque<u8>,
    end: Option<LinkEnd>,
}

impl Model for Inbox {
    ghost use Rattle.std.specs.Prelude.{◌≤◌, length};
    ghost use Rattle.jup_net.specs.Inboxes.{most_unread, Arrived};

    ghost Value = { Arrived };

    ghost view = { λ i. (i.bytes.items, i.end) };

    ghost invariant = { λ i. length i.bytes.items ≤ most_unread };
}

impl Inbox {
    /// Bytes that one read of the link may ask for. Room for so many is made once, so that a piece needs no memory if nothing
    /// waits. The thread that puts it waits for the reader to take some only if there are some.
    pub const PIECE: usize = 16_384;

    /// Nothing came yet.
    pub fn new(alloc: Global) -> Result<Inbox, NoMemory>
        ensures { IfOk result (λ inbox. inbox ≡ ([], None)) }
    {
        match VecDeque::with_capacity(alloc, Inbox::PIECE) {
            Ok(bytes) => Ok(Inbox { bytes, end: None }),
            Err(_) => Err(NoMemory),
        }
    }

    /// How many bytes may be put.
    pub fn room(&self) -> usize
        ensures { result ≡ most_unread - length self.now.0 }
    {
        MOST_UNREAD - self.bytes.len()
    }

    /// Whether there is nothing to take: no byte waits, and the link has not ended.
    pub fn has_nothing(&self) -> bool
        ensures { IsTrue result ↔ (self.now ≡ ([], None)) }
    {
        self.bytes.is_empty() && self.end.is_none()
    }

    /// Puts bytes after those that wait. False, and nothing is put, if there is no room for them, or no memory.
    pub fn put(&mut self, bytes: &[u8]) -> bool
        ensures put { IsTrue result → self.new ≡ (self.old.0 ++ bytes.now, self.old.1) }
        ensures refused { IsFalse result → self.new ≡ self.old }
    {
        if bytes.len() > self.room() {
            return false;
        }
        self.reserve(bytes.len()).is_ok() && self.bytes.write(bytes).is_ok()
    }

    // Makes room for some bytes: if it grows it is doubled, up to all that may wait.
    fn reserve(&mut self, len: usize) -> Result<(), NoMemory>
        ensures { self.new ≡ self.old }
    {
        let held = self.bytes.len();
        if len <= self.bytes.capacity() - held {
            return Ok(());
        }
        match self
            .bytes
            .reserve_exact(held.max(len).min(MOST_UNREAD - held))
        {
            Ok(()) => Ok(()),
            Err(_) => Err(NoMemory),
        }
    }

    /// Notes how the link ended, after what it brought.
    pub fn end(&mut self, end: LinkEnd)
        ensures { self.new ≡ (self.old.0, Some end) }
    {
        self.end = Some(end);
    }

    /// Gives the reader the first bytes that wait, as many as are contiguous and fit. If none wait, it gives how the link ended, or
    /// nothing if it has not.
    pub fn take(&mut self, buf: &mut [u8]) -> Option<Given>
        requires { 1 ≤ length buf.old }
        ensures { AreGiven self.old self.new buf.new result }
    {
        let (front, _) = self.bytes.as_slices();
        let len = front.len().min(buf.len());
        if len == 0 {
            return self.end.map(Given::End);
        }
        buf[..len].copy_from_slice(&front[..len]);
        self.bytes.consume(len);
        Some(Given::Bytes(len))
    }
}
