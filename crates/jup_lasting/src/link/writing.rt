//! What the client's end of a link writes, and when.
ghost use Rattle.std.specs.Prelude.{◌≡◌, ◌↔◌, ◌≤◌, [], length, take, IsTrue, IsFalse, IfOk, OnOk, OnErr};
ghost use Rattle.jup_lasting.specs.Links.{HasMore, Begins, IsBegun, TellsGot, MovesLines, MovesOut, OwesGot, HasLine, elapsed, IsSilent};

use super::{ClientLink, LONGEST_SILENCE};
use crate::carriage::Carriage;
use jup_limits::NoMemory;
use jup_resume::Note;
use std::alloc::Global;

impl ClientLink {
    /// Whether something is to be written now.
    pub fn is_waiting(&self) -> bool
        ensures { IsTrue result ↔ HasMore self.now }
    {
        self.outgoing.len() > 0 || self.owes_got() || self.has_line()
    }

    // Whether a `got` is due.
    fn owes_got(&self) -> bool
        ensures { IsTrue result ↔ OwesGot self.now }
    {
        matches!(self.carriage, Carriage::Carried | Carriage::Last)
            && self.confirming.due().is_some()
    }

    // Whether a line of the link is to be written.
    fn has_line(&self) -> bool
        ensures { IsTrue result ↔ HasLine self.now }
    {
        self.carriage == Carriage::Carried && self.up.next().is_some()
    }
}

// How bytes come out, a line at a time.
impl ClientLink {
    // Begins the next line if none is on its way, and tells whether there is one.
    fn begin_line(&mut self, alloc: Global) -> Result<bool, NoMemory>
        ensures begun { IfOk result (λ begun. Begins begun self.old self.new) }
        ensures err { OnErr result (self.new ≡ self.old) }
    {
        if self.outgoing.len() > 0 {
            return Ok(true);
        }
        if self.owes_got() {
            self.put_got(alloc)?;
            return Ok(true);
        }
        if self.carriage != Carriage::Carried {
            return Ok(false);
        }
        self.outgoing.put_line(&mut self.up)
    }

    // Puts the `got` that is due, where nothing waits.
    fn put_got(&mut self, alloc: Global) -> Result<(), NoMemory>
        requires none { self.old.waiting ≡ [] }
        requires due { OwesGot self.old }
        ensures told { OnOk result (TellsGot self.old self.new) }
        ensures err { OnErr result (self.new ≡ self.old) }
    {
        if let Some(taken) = self.confirming.due() {
            self.outgoing.put_note(alloc, &Note::Got { taken })?;
            self.confirming.told();
        }
        Ok(())
    }

    // Begins the next line if it can.
    fn has_begun(&mut self, alloc: Global) -> bool
        ensures begun { IsTrue result → IsBegun self.old self.new }
        ensures none { IsFalse result → self.new ≡ self.old }
    {
        matches!(self.begin_line(alloc), Ok(true))
    }

    /// Moves bytes out for the connection, as they come, and returns how many. Without memory it moves fewer, and the others wait.
    pub fn move_out(&mut self, alloc: Global, to: &mut [u8]) -> usize
        ensures fits { result ≤ length to.old }
        ensures moved { MovesOut (take result to.new) self.old self.new }
        ensures long { length to.new ≡ length to.old }
    {
        let count = self.move_lines(alloc, to);
        if count > 0 {
            self.confirming.wrote();
        }
        count
    }

    // Moves lines out, and the first bytes of one if there is no room for all of it.
    fn move_lines(&mut self, alloc: Global, to: &mut [u8]) -> usize
        ensures fits { result ≤ length to.old }
        ensures moved { MovesLines (take result to.new) self.old self.new }
        ensures long { length to.new ≡ length to.old }
    {
        let mut count = 0;
        while count < to.len() && self.has_begun(alloc) {
            count += self.outgoing.move_out(&mut to[count..]);
        }
        count
    }

    /// So many seconds have passed. Returns whether no byte has come on this connection for 90: then it is to be given up.
    pub fn elapse(&mut self, seconds: u32) -> bool
        ensures elapsed { self.new ≡ elapsed seconds self.old.carriage self.old }
        ensures silent { IsTrue result ↔ IsSilent self.new }
    {
        match self.carriage {
            Carriage::Asking => self.silence = self.silence.saturating_add(seconds),
            Carriage::Carried => {
                self.confirming.elapse(seconds);
                self.silence = self.silence.saturating_add(seconds);
            }
            Carriage::Cut | Carriage::Last | Carriage::Over => {}
        }
        matches!(self.carriage, Carriage::Asking | Carriage::Carried)
            && self.silence >= LONGEST_SILENCE
    }

    /// Bytes came on the connection.
    pub fn note_bytes(&mut self)
        ensures { self.new ≡ record self.old { silence = 0 } }
    {
        self.silence = 0;
    }
}
