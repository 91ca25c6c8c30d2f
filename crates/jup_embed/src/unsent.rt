//! Bytes for the server.
ghost use Rattle.std.specs.Prelude.{◌≡◌, ◌+◌, ◌≤◌, ◌++◌, [], length, min, take, drop, OnOk, IfOk};
ghost use Rattle.jup_wire.specs.Lines.{line_bytes};
ghost use Rattle.jup_wire.specs.declared.line.Line.TheVariants.{Hello};
ghost use Rattle.jup_embed.specs.Sessions.{held_of, said_bytes};

use jup_gather::{MOST_MESSAGE, write_message};
use jup_stream::Said;
use jup_wire::{Line, write_reserved};
use jup_xform::NoMemory;
use std::alloc::Global;
use std::marker::Model;

/// Bytes for the server, which wait for the caller to send them. Contracts see these, how many bytes that were taken are still held, and for
/// how many more there is room.
#[derive(Drop)]
pub(crate) struct Unsent {
    text: Vec<u8>,
    // How many of them were taken.
    sent: usize,
}

impl Model for Unsent {
    ghost use Rattle.std.specs.Prelude.{◌-◌, ◌≤◌, drop, length, vec_len, vec_capacity};
    ghost use Rattle.jup_embed.specs.Sessions.{Waiting};

    ghost Value = { Waiting };

    ghost view = { λ a. record { bytes = drop a.sent a.text.items; sent = a.sent; room = vec_capacity a.text - vec_len a.text } };

    ghost invariant = { λ a. a.sent ≤ length a.text.items };
}

impl Unsent {
    /// The greeting of a client.
    pub(crate) fn new(alloc: Global) -> Result<Unsent, NoMemory>
        ensures bytes { IfOk result (λ unsent. unsent.bytes ≡ line_bytes Hello) }
        ensures sent { IfOk result (λ unsent. unsent.sent ≡ 0) }
    {
        let mut unsent = Unsent::none(alloc);
        unsent.reserve()?;
        write_reserved(&Line::Hello, &mut unsent.text);
        Ok(unsent)
    }

    /// Nothing. It takes no memory.
    pub(crate) fn none(alloc: Global) -> Unsent
        ensures bytes { result.bytes ≡ [] }
        ensures sent { result.sent ≡ 0 }
    {
        Unsent {
            text: Vec::new(alloc),
            sent: 0,
        }
    }

    /// The bytes that wait, the oldest first.
    pub(crate) fn as_slice(&self) -> &[u8]
        ensures { result.now ≡ self.now.bytes }
    {
        &self.text.as_slice()[self.sent..]
    }

    /// Drops so many bytes, the oldest first. Once none waits, none is held.
    pub(crate) fn drop_front(&mut self, count: usize)
        requires { count ≤ length self.old.bytes }
        ensures left { self.new.bytes ≡ drop count self.old.bytes }
        ensures held { self.new.sent ≡ held_of (drop count self.old.bytes) (self.old.sent + count) }
    {
        self.sent += count;
        if self.sent == self.text.len() {
            self.text.clear();
            self.sent = 0;
        }
    }

    /// How many bytes wait.
    pub(crate) fn len(&self) -> usize
        ensures { result ≡ length self.now.bytes }
    {
        self.text.len() - self.sent
    }

    /// Moves bytes out, the oldest first, as far as there is room, and returns how many. Once none waits, none is held.
    pub(crate) fn move_out(&mut self, to: &mut [u8]) -> usize
        ensures count { result ≡ min (length self.old.bytes) (length to.old) }
        ensures moved { take result to.new ≡ take result self.old.bytes }
        ensures beyond { drop result to.new ≡ drop result to.old }
        ensures left { self.new.bytes ≡ drop result self.old.bytes }
        ensures held { self.new.sent ≡ held_of (drop result self.old.bytes) (self.old.sent + result) }
        ensures long { length to.new ≡ length to.old }
    {
        let waiting = &self.text.as_slice()[self.sent..];
        let count = waiting.len().min(to.len());
        to[..count].copy_from_slice(&waiting[..count]);
        self.drop_front(count);
        count
    }

    /// Makes room for what a client says by one call.
    pub(crate) fn reserve(&mut self) -> Result<(), NoMemory>
        ensures same { self.new.bytes ≡ self.old.bytes }
        ensures sent { self.new.sent ≡ self.old.sent }
        ensures room { OnOk result (MOST_MESSAGE ≤ self.new.room) }
    {
        Ok(self.text.reserve(MOST_MESSAGE)?)
    }

    /// Puts the lines of what the client says, if anything. There is room for them.
    #[tactic(auto, using(crate::proofs::Sessions::none_more, crate::proofs::Sessions::one_line))]
    pub(crate) fn say(&mut self, said: Option<Said>)
        requires { MOST_MESSAGE ≤ self.old.room }
        ensures said { self.new.bytes ≡ self.old.bytes ++ said_bytes said }
        ensures sent { self.new.sent ≡ self.old.sent }
    {
        match said {
            Some(Said::Up(up)) => write_message(&up, &mut self.text),
            Some(Said::Bye) => write_reserved(&Line::Bye, &mut self.text),
            None => {}
        }
    }
}
