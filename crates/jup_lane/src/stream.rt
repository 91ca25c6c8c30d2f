//! Bytes that are written at one end and dropped at the other.
ghost use Rattle.std.specs.Prelude.{◌≡◌, ◌≤◌, [], ◌++◌, length, drop, OnOk};
ghost use Rattle.jup_lane.specs.Lanes.{bytes_of, codec};

use jup_gather::{MOST_MESSAGE, Message, write_message};
use jup_xform::NoMemory;
use std::alloc::Global;
use std::marker::Model;

/// The bytes of a stream. Those that were dropped stay before its start until room is made.
#[derive(Drop)]
pub(crate) struct Stream {
    bytes: Vec<u8>,
    start: usize,
}

impl Model for Stream {
    ghost use Rattle.std.specs.Prelude.{◌-◌, ◌≤◌, drop};
    ghost use Rattle.std.specs.Vec.{vec_len, vec_capacity};
    ghost use Rattle.jup_lane.specs.Lanes.{StreamState};

    ghost Value = { StreamState };

    ghost view = { λ a. record {
      bytes = drop a.start a.bytes.items;
      spare = vec_capacity a.bytes - vec_len a.bytes;
    } };

    ghost invariant = { λ a. a.start ≤ vec_len a.bytes };
}

impl Stream {
    pub(crate) fn new(alloc: Global) -> Stream
        ensures { result.bytes ≡ [] }
    {
        Stream {
            bytes: Vec::new(alloc),
            start: 0,
        }
    }

    pub(crate) fn as_slice(&self) -> &[u8]
        ensures { result.now ≡ self.now.bytes }
    {
        &self.bytes[self.start..]
    }

    /// Makes room for so many more bytes. Inlined, since usually there is room.
    #[inline(always)]
    pub(crate) fn reserve(&mut self, more: usize) -> Result<(), NoMemory>
        ensures bytes { self.new.bytes ≡ self.old.bytes }
        ensures ok { OnOk result (more ≤ self.new.spare) }
    {
        if self.bytes.capacity() - self.bytes.len() >= more {
            return Ok(());
        }
        self.close_up();
        self.bytes.reserve(more).map_err(|_| NoMemory)
    }

    // Lets go of the bytes that were dropped, once they are as many as the others: so a byte is moved once.
    fn close_up(&mut self)
        ensures { self.new.bytes ≡ self.old.bytes }
    {
        if self.start > 0 && self.start >= self.bytes.len() - self.start {
            self.bytes.drain(..self.start);
            self.start = 0;
        }
    }

    /// Writes a message after the others. It takes no memory.
    pub(crate) fn write<M: Message>(&mut self, message: &M)
        requires may_go { M.may_go message.now }
        requires room { MOST_MESSAGE ≤ self.old.spare }
        ensures spelled { (codec M.Message).IsSpelled message.now }
        ensures bytes { self.new.bytes ≡ self.old.bytes ++ bytes_of (codec M.Message) message.now }
    {
        write_message(message, &mut self.bytes);
    }

    /// Drops the oldest bytes.
    pub(crate) fn drop_front(&mut self, count: usize)
        requires { count ≤ length self.old.bytes }
        ensures { self.new.bytes ≡ drop count self.old.bytes }
    {
        self.start += count;
        if self.start == self.bytes.len() {
            self.bytes.clear();
            self.start = 0;
        }
    }
}
