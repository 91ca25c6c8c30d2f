//! Lines and bytes on their way to a writer.
ghost use Rattle.std.specs.Prelude.{◌≡◌, ◌≤◌, [], ◌∷◌, vec_capacity, IsTrue, IsFalse, IsOk, IsErr, IfOk, IfErr};
ghost use Rattle.std.specs.Io.KnownBytes.{Keeps};
ghost use Rattle.jup_wire.specs.Lines.{line_bytes};
ghost use Rattle.jup_wire.specs.Streams.{HasRoom};
ghost use Rattle.jup_stream.specs.Streams.{put_as, Puts, PutsLines, IsFlushed, WritesFront, fresh_put};

use crate::StreamFault;
use jup_io::{Peer, write_whole};
use jup_wire::{LONGEST, Line, LineSink, MOST, write_reserved};
use std::alloc::Global;
use std::convert::Infallible;
use std::marker::Model;

/// Bytes that are gathered before they are written: 16 lines of the longest kind. Each session keeps this room while it is idle.
const ROOM: usize = 2_048;

/// A peer that gathers lines. It makes its room once, so that no line needs an allocation. Once the peer has failed it takes
/// lines and drops them, and [`send`](Output::send) says so.
///
/// Contracts see what the peer holds, if that is known, whether each call for it did what it was made for, and whether it has failed or was given up. They
/// see the bytes that are gathered, and whether the output counts the peer as failed.
#[derive(Drop)]
pub struct Output<O: Peer + Drop> {
    to: O,
    text: Vec<u8>,
    has_failed: bool,
    ghost has_room: { 2048 ≤ vec_capacity text },
    ghost is_failed: { IsTrue has_failed → IsTrue (O.has_failed to) },
}

impl<O: Peer + Drop> Model for Output<O> {
    ghost use Rattle.jup_stream.specs.Streams.{Put, put_as};

    ghost Value = { Put };

    ghost view = { λ a. put_as (O.contents a.to) (O.is_well a.to) (O.has_failed a.to) a.text.items a.has_failed };
}

impl<O: Peer + Drop> Output<O> {
    /// An output with its room. If an allocation fails, it gives the bare peer back.
    pub fn new(alloc: Global, to: O) -> Result<Output<O>, O>
        ensures new { IfOk result (λ output. output ≡ fresh_put (O.contents to) (O.is_well to) (O.has_failed to)) }
        ensures err { IfErr result (λ back. back ≡ to) }
    {
        match Vec::with_capacity(alloc, ROOM) {
            Ok(text) => Ok(Output {
                to,
                text,
                has_failed: false,
            }),
            Err(_) => Err(to),
        }
    }

    /// Puts a line after those before.
    pub fn push(&mut self, line: &Line)
        ensures { PutsLines self.old (line.now ∷ []) self.new }
    {
        put_out(&mut self.to, &mut self.text, &mut self.has_failed, line);
    }

    /// Writes what is gathered, and has the peer pass it on. It is refused if one of these fails, and once the peer has failed.
    #[tactic(auto, using(crate::proofs::Streams::puts_on))]
    pub fn send(&mut self) -> Result<(), StreamFault>
        ensures fault { IfErr result (λ fault. fault ≡ StreamFault.WriteFailed) }
        ensures puts { Puts self.old [] self.new }
        ensures well { IsOk result → IsFalse self.new.failed × (IsTrue self.old.well → IsTrue self.new.well) }
        ensures failed { IsErr result → IsTrue self.new.failed × IsTrue self.new.lost }
        ensures flushed { IsFlushed self.new }
    {
        write_out(&mut self.to, &mut self.text, &mut self.has_failed);
        if !self.has_failed {
            self.has_failed = !pass_bytes(&mut self.to);
        }
        if self.has_failed {
            return Err(StreamFault::WriteFailed);
        }
        Ok(())
    }

    /// Gives the peer up, unless it has failed: later writes fail, and a read of the same link ends. What was written stays, and so does what is gathered.
    #[tactic(auto, using(crate::proofs::Streams::puts_lost, crate::specs::Streams::puts_none))]
    pub fn give_up(&mut self)
        ensures puts { Puts self.old [] self.new }
        ensures lost { IsTrue self.new.lost }
        ensures same { (self.new.held ≡ self.old.held) × (self.new.failed ≡ self.old.failed) }
    {
        if !self.has_failed {
            self.to.give_up();
        }
    }

    /// Whether the peer has failed.
    pub fn has_failed(&self) -> bool
        ensures value { result ≡ self.now.failed }
        ensures lost { IsTrue result → IsTrue self.now.lost }
    {
        self.has_failed
    }

    /// The peer. What is gathered is dropped.
    pub fn into_peer(self) -> O
        ensures written { O.contents result ≡ self.written }
        ensures well { O.is_well result ≡ self.well }
        ensures lost { O.has_failed result ≡ self.lost }
        ensures failed { IsTrue self.failed → IsTrue (O.has_failed result) }
    {
        let Output { to, .. } = self;
        to
    }
}

impl<O: Peer + Drop> LineSink for Output<O> {
    ghost use Rattle.jup_stream.specs.Streams.{PutsLines, puts_none, puts_more};

    type Fault = Infallible;

    ghost takes = { PutsLines };

    ghost takes_none = { puts_none };

    ghost takes_more = { puts_more };

    fn put(&mut self, line: Line) -> Result<(), Infallible> {
        self.push(&line);
        Ok(())
    }
}

/// Writes bytes, up to a write that fails or takes nothing. Whether all were written. A write that was interrupted is made again.
#[tactic(auto, using(crate::proofs::Streams::front_written))]
pub fn write_bytes<O: Peer + Drop>(to: &mut O, bytes: &[u8]) -> bool
    ensures front { WritesFront (O.contents to.old) (O.contents to.new) bytes.now result }
    ensures failed { IsFalse result → IsTrue (O.has_failed to.new) }
    ensures well { IsTrue result → IsTrue (O.is_well to.old) → IsTrue (O.is_well to.new) }
{
    write_whole(to, bytes).is_ok()
}

/// Has a peer pass on what it took. Whether it did.
pub fn pass_bytes<O: Peer + Drop>(to: &mut O) -> bool
    ensures bytes { Keeps (O.contents to.old) (O.contents to.new) }
    ensures failed { IsFalse result → IsTrue (O.has_failed to.new) }
    ensures well { IsTrue result → IsTrue (O.is_well to.old) → IsTrue (O.is_well to.new) }
{
    to.pass_on().is_ok()
}

// Writes what is gathered, unless the peer has failed.
#[tactic(auto, using(crate::proofs::Streams::puts_out, crate::specs::Streams::puts_none))]
fn write_out<O: Peer + Drop>(to: &mut O, text: &mut Vec<u8>, has_failed: &mut bool)
    requires failed { IsTrue has_failed.old → IsTrue (O.has_failed to.old) }
    ensures puts { Puts (put_as (O.contents to.old) (O.is_well to.old) (O.has_failed to.old) text.old.items has_failed.old) [] (put_as (O.contents to.new) (O.is_well to.new) (O.has_failed to.new) text.new.items has_failed.new) }
    ensures empty { IsFalse has_failed.new → text.new.items ≡ [] }
    ensures failed { IsTrue has_failed.new → IsTrue (O.has_failed to.new) }
    ensures room { vec_capacity text.old ≤ vec_capacity text.new }
{
    if *has_failed {
        return;
    }
    let is_well = write_bytes(to, text.as_slice());
    *has_failed = !is_well;
    text.clear();
}

// Writes what is gathered if a line may not fit after it.
#[tactic(auto, using(crate::specs::Streams::puts_none))]
fn make_room<O: Peer + Drop>(to: &mut O, text: &mut Vec<u8>, has_failed: &mut bool)
    requires room { 2048 ≤ vec_capacity text.old }
    requires failed { IsTrue has_failed.old → IsTrue (O.has_failed to.old) }
    ensures puts { Puts (put_as (O.contents to.old) (O.is_well to.old) (O.has_failed to.old) text.old.items has_failed.old) [] (put_as (O.contents to.new) (O.is_well to.new) (O.has_failed to.new) text.new.items has_failed.new) }
    ensures room { IsFalse has_failed.new → HasRoom text.new LONGEST }
    ensures failed { IsTrue has_failed.new → IsTrue (O.has_failed to.new) }
    ensures capacity { vec_capacity text.old ≤ vec_capacity text.new }
{
    if text.len() + MOST > text.capacity() {
        write_out(to, text, has_failed);
    }
}

// Puts a line, unless the peer has failed.
fn put_out<O: Peer + Drop>(to: &mut O, text: &mut Vec<u8>, has_failed: &mut bool, line: &Line)
    requires room { 2048 ≤ vec_capacity text.old }
    requires failed { IsTrue has_failed.old → IsTrue (O.has_failed to.old) }
    ensures puts { Puts (put_as (O.contents to.old) (O.is_well to.old) (O.has_failed to.old) text.old.items has_failed.old) (line_bytes line.now) (put_as (O.contents to.new) (O.is_well to.new) (O.has_failed to.new) text.new.items has_failed.new) }
    ensures failed { IsTrue has_failed.new → IsTrue (O.has_failed to.new) }
    ensures capacity { vec_capacity text.old ≤ vec_capacity text.new }
{
    make_room(to, text, has_failed);
    if *has_failed {
        return;
    }
    write_reserved(line, text);
}
