//! Bytes that wait for the connection.
ghost use Rattle.std.specs.Prelude.{◌≡◌, ◌↔◌, IsTrue, min, length, take, drop, [], OnOk, OnErr, IfOk};
ghost use Rattle.jup_resume.specs.Texts.{spelled};
ghost use Rattle.jup_resume.specs.Notes.{note_text};
ghost use Rattle.jup_resume.specs.Keepers.{WritesNext};

use jup_limits::NoMemory;
use jup_resume::{Keeper, Note};
use std::alloc::Global;
use std::marker::Model;

/// The rest of the line that is on its way to the connection. Contracts see its bytes.
#[derive(Drop)]
pub(crate) struct Outgoing {
    bytes: Vec<u8>,
    // How many of them were moved out.
    moved: usize,
}

impl Model for Outgoing {
    ghost use Rattle.std.specs.Prelude.{ℕ, ◌≤◌, List, length, drop};

    ghost Value = { List ℕ };

    ghost view = { λ o. drop o.moved o.bytes.items };

    ghost invariant = { λ o. o.moved ≤ length o.bytes.items };
}

impl Outgoing {
    /// Nothing.
    pub(crate) fn new(alloc: Global) -> Outgoing
        ensures { result ≡ [] }
    {
        Outgoing {
            bytes: Vec::new(alloc),
            moved: 0,
        }
    }

    pub(crate) fn len(&self) -> usize
        ensures { result ≡ length self.now }
    {
        self.bytes.len() - self.moved
    }

    pub(crate) fn clear(&mut self)
        ensures { self.new ≡ [] }
    {
        self.bytes.clear();
        self.moved = 0;
    }

    /// Puts a note where nothing waits.
    pub(crate) fn put_note(&mut self, alloc: Global, note: &Note) -> Result<(), NoMemory>
        requires { self.old ≡ [] }
        ensures ok { OnOk result (self.new ≡ spelled (note_text note.now)) }
        ensures err { OnErr result (self.new ≡ []) }
    {
        self.clear();
        note.write(alloc, &mut self.bytes)
    }

    /// Puts the next line of the link where nothing waits, if there is one.
    pub(crate) fn put_line(&mut self, up: &mut Keeper) -> Result<bool, NoMemory>
        requires { self.old ≡ [] }
        ensures wrote { IfOk result (λ wrote. WritesNext wrote up.old up.new [] self.new) }
        ensures err { OnErr result ((up.new ≡ up.old) × (self.new ≡ [])) }
    {
        self.clear();
        up.write_next(&mut self.bytes)
    }

    /// Moves bytes out, the oldest first, and returns how many.
    pub(crate) fn move_out(&mut self, to: &mut [u8]) -> usize
        ensures count { result ≡ min (length self.old) (length to.old) }
        ensures moved { take result to.new ≡ take result self.old }
        ensures left { self.new ≡ drop result self.old }
        ensures long { length to.new ≡ length to.old }
    {
        let waiting = &self.bytes.as_slice()[self.moved..];
        let count = waiting.len().min(to.len());
        to[..count].copy_from_slice(&waiting[..count]);
        self.moved += count;
        count
    }
}
