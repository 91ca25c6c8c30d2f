//! One way of a link: messages on their way, as bytes.
ghost use Rattle.std.specs.Prelude.{◌≡◌, ◌≤◌, [], ◌∷◌, ◌++◌, length, min, Some, IfOk, IfSome, OnOk, OnErr, IsNone, IsTrue, ◌↔◌};
ghost use Rattle.jup_lane.specs.Lanes.{bytes_of, codec, no_bytes, sent, moved, handed_over, IsIdle, messages, IsWhole, IsFilled, IsMovedOn};

use crate::first::read;
use crate::stream::Stream;
use crate::tray::Tray;
use jup_gather::{MOST_MESSAGE, Message};
use jup_xform::NoMemory;
use std::alloc::Global;
use std::marker::{Model, PhantomData};

/// One way of a link, as a queue of messages whose store is bytes.
///
/// Contracts see the bytes that the reader was given and those in the stream (`Way` of `specs/Lanes`), and the
/// messages that all of them are. A message that is read in the stream itself, with no reader, counts as given to the
/// reader.
#[derive(Drop)]
pub struct Lane<M: Message> {
    tray: Tray,
    stream: Stream,
    // How many bytes of the stream count as given to the reader: none, or those of the oldest message.
    ahead: usize,
    of: PhantomData<M>,
}

impl<M: Message> Model for Lane<M> {
    ghost use Rattle.jup_lane.specs.Lanes.{codec, LaneState, moved, IsLane};

    ghost Value = { LaneState };

    ghost view = { λ a. record {
      way = moved a.ahead (record { read = a.tray; stream = a.stream.bytes });
      spare = a.stream.spare;
    } };

    ghost invariant = { λ a. IsLane (codec M.Message) a.ahead (record { read = a.tray; stream = a.stream.bytes }) };
}

impl<M: Message> Lane<M> {
    /// A lane on which nothing was sent.
    pub fn new(alloc: Global) -> Lane<M>
        ensures way { result.way ≡ no_bytes }
        ensures messages { messages (codec M.Message) result.way ≡ [] }
    {
        Lane {
            tray: Tray::new(alloc),
            stream: Stream::new(alloc),
            ahead: 0,
            of: PhantomData,
        }
    }

    /// Makes room for one message.
    pub fn reserve(&mut self) -> Result<(), NoMemory>
        ensures way { self.new.way ≡ self.old.way }
        ensures ok { OnOk result (MOST_MESSAGE ≤ self.new.spare) }
    {
        self.stream.reserve(MOST_MESSAGE)
    }

    /// Writes a message into the stream. It takes no memory.
    pub fn send(&mut self, message: &M)
        requires may_go { M.may_go message.now }
        requires room { MOST_MESSAGE ≤ self.old.spare }
        ensures spelled { (codec M.Message).IsSpelled message.now }
        ensures way { self.new.way ≡ sent (bytes_of (codec M.Message) message.now) self.old.way }
        ensures messages { messages (codec M.Message) self.new.way ≡ messages (codec M.Message) self.old.way ++ message.now ∷ [] }
    {
        self.stream.write(message);
    }

    /// The oldest message. Those of its bytes that the reader has not are moved first; if an allocation
    /// fails, some may have been moved.
    pub fn first(&mut self, alloc: Global) -> Result<Option<M>, NoMemory>
        ensures first { IfOk result (λ first. IsFilled (codec M.Message) self.old.way self.new.way first) }
        ensures whole { IfOk result (λ first. IsWhole (codec M.Message) self.new.way first) }
        ensures err { OnErr result (IsMovedOn self.old.way self.new.way) }
        ensures messages { messages (codec M.Message) self.new.way ≡ messages (codec M.Message) self.old.way }
    {
        if let Some(message) = self.read_ahead() {
            return Ok(Some(message));
        }
        self.tray
            .take_in(alloc, &self.stream.as_slice()[..self.ahead])?;
        self.stream.drop_front(self.ahead);
        self.ahead = 0;
        loop {
            if let Some(message) = self.tray.first(alloc)? {
                return Ok(Some(message));
            }
            match self.tray.take_line(alloc, self.stream.as_slice())? {
                Some(count) => self.stream.drop_front(count),
                None => return Ok(None),
            }
        }
    }

    // The oldest message, if it can be read in place. Its bytes count as given to the reader then.
    fn read_ahead(&mut self) -> Option<M>
        ensures first { IfSome result (λ message. IsFilled (codec M.Message) self.old.way self.new.way (Some message)) }
        ensures whole { IfSome result (λ message. IsWhole (codec M.Message) self.new.way (Some message)) }
        ensures none { IsNone result → self.new.way ≡ self.old.way }
    {
        if !self.tray.is_empty() {
            return None;
        }
        let (message, len) = read(self.stream.as_slice())?;
        self.ahead = len;
        Some(message)
    }

    /// Drops the oldest message, whose bytes the reader has.
    pub fn drop_first(&mut self, message: &M)
        requires { IsWhole (codec M.Message) self.old.way (Some message.now) }
        ensures way { self.new.way ≡ handed_over (length (bytes_of (codec M.Message) message.now)) self.old.way }
        ensures messages { messages (codec M.Message) self.old.way ≡ message.now ∷ messages (codec M.Message) self.new.way }
    {
        if self.ahead == 0 {
            self.tray.drop_first(message);
        } else {
            self.stream.drop_front(self.ahead);
            self.ahead = 0;
        }
    }

    /// Moves the oldest bytes of the stream into the reader, up to so many, and answers how many.
    pub fn push(&mut self, alloc: Global, most: u32) -> Result<usize, NoMemory>
        ensures count { IfOk result (λ count. count ≡ min most (length self.old.way.stream)) }
        ensures ok { IfOk result (λ count. self.new.way ≡ moved count self.old.way) }
        ensures err { OnErr result (self.new.way ≡ self.old.way) }
        ensures messages { messages (codec M.Message) self.new.way ≡ messages (codec M.Message) self.old.way }
    {
        let most = most as usize;
        let there = self.stream.as_slice().len() - self.ahead;
        let count = if most < there { most } else { there };
        let end = self.ahead + count;
        self.tray.take_in(alloc, &self.stream.as_slice()[..end])?;
        self.stream.drop_front(end);
        self.ahead = 0;
        Ok(count)
    }

    /// Whether the stream has no byte. There may still be some that the reader was given.
    pub fn is_stream_empty(&self) -> bool
        ensures { IsTrue result ↔ (self.now.way.stream ≡ []) }
    {
        self.stream.as_slice().len() == self.ahead
    }

    /// Whether no byte is on its way, which is so exactly if no message is.
    pub fn is_idle(&self) -> bool
        ensures idle { IsTrue result ↔ IsIdle self.now.way }
        ensures messages { IsTrue result ↔ (messages (codec M.Message) self.now.way ≡ []) }
    {
        self.tray.is_empty() && self.stream.as_slice().is_empty()
    }
}
