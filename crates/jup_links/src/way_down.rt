//! The way down of a link: the lines that its session puts, until the site has them for good.
ghost use Rattle.std.specs.Prelude.{◌≡◌, ◌≢◌, ◌⊎◌, ◌↔◌, ◌+◌, ◌≤◌, ◌<◌, Err, None, Some, [], List, ℕ, length, codes, IsOk, OnOk, OnErr, IfOk, IsTrue};
ghost use Rattle.jup_resume.specs.Keepers.{nothing_put, after_begin, after_got, size_of, IsAllWritten, IsPlace, IsGot, WritesNext};
ghost use Rattle.jup_resume.specs.Texts.{HasNoFeed, spelled};
ghost use Rattle.jup_links.specs.Ways.{most_kept, new_down, HasPut, IsClosed, IsLineNext, IsLastNext, AreNextLines, AreAll};

use crate::last_line::LastLine;
use jup_faults::Fault;
use jup_limits::NoMemory;
use jup_resume::{KeepFault, Keeper};
use std::alloc::Global;
use std::marker::Model;

/// How many bytes the server keeps of a way down. A line that would exceed this waits.
pub const MOST_KEPT: usize = 262_144;

/// How many bytes a carrier is given to write at a time, and then one line more.
pub const MOST_WRITTEN: usize = 8_192;

/// The number of the line that is the last that a count can name.
const LAST_LINE: u32 = u32::MAX;

/// Why a line was not put.
#[derive(Clone, Copy, Debug, PartialEq, Eq)]
pub enum Unput {
    /// It has to wait for room.
    Full,
    /// It has to wait for memory.
    NoMemory,
    /// The link takes no further line.
    Over,
}

/// What comes next for a carrier.
#[derive(Clone, Copy, Debug, PartialEq, Eq)]
pub enum NextLine {
    Nothing,
    Line,
    /// The last line of the link.
    Last,
}

/// The lines that a session puts and a carrier writes, which contracts see. The last line waits until the session has ended, since only then it is known what it covers.
#[derive(Drop)]
pub struct WayDown {
    keeper: Keeper,
    put: u32,
    is_open: bool,
    is_ready: bool,
    /// How many bytes the line has that waits for room, or 0.
    wanted: usize,
    last: Option<LastLine>,
}

impl Model for WayDown {
    ghost use Rattle.jup_links.specs.Ways.{Down};

    ghost Value = { Down };

    ghost view = { λ w. record { lines = w.keeper; is_open = w.is_open; is_ready = w.is_ready; last = w.last } };
}

impl WayDown {
    /// Nothing was put yet.
    pub fn new(alloc: Global) -> WayDown
        ensures { result ≡ new_down }
    {
        let mut keeper = Keeper::new(alloc);
        let _ = keeper.begin(0);
        WayDown {
            keeper,
            put: 0,
            is_open: false,
            is_ready: false,
            wanted: 0,
            last: None,
        }
    }

    /// Whether a line was put that is not the last: the site has joined.
    pub fn is_open(&self) -> bool
        ensures { result ≡ self.now.is_open }
    {
        self.is_open
    }

    /// Whether `ready` was put.
    pub fn is_ready(&self) -> bool
        ensures { result ≡ self.now.is_ready }
    {
        self.is_ready
    }

    /// The last line, if the session has put it.
    pub fn last(&self) -> Option<LastLine>
        ensures { result ≡ self.now.last }
    {
        self.last
    }

    /// Whether nothing is kept.
    #[tactic(auto, using(crate::proofs::Kept::nothing_has_size))]
    pub fn is_empty(&self) -> bool
        ensures { IsTrue result ↔ (self.now.lines.kept ≡ []) }
    {
        self.keeper.kept_bytes() == 0
    }

    /// Whether the session waits for room that only the site can make.
    pub fn lacks_room(&self) -> bool {
        !self.has_room_for(self.wanted)
    }

    fn has_room_for(&self, len: usize) -> bool
        ensures { IsTrue result ↔ ((len ≡ 0) ⊎ (len + size_of self.now.lines.kept ≤ most_kept)) }
    {
        len == 0 || len.saturating_add(self.keeper.kept_bytes()) <= MOST_KEPT
    }

    /// Puts a line, given without its line feed. The last line is only noted.
    #[tactic(auto, using(crate::proofs::Kept::size_of_put))]
    pub fn put(&mut self, text: &[u8]) -> Result<(), Unput>
        requires { HasNoFeed text.now }
        ensures put { OnOk result (HasPut text.now self.old self.new) }
        ensures over { self.old.last ≢ None → (result ≡ Err Unput.Over) × (self.new ≡ self.old) }
        ensures spent { result ≡ Err Unput.Over → self.old.last ≡ None → self.new ≡ record self.old { last = Some (LastLine.Error 37) } }
        ensures full { result ≡ Err Unput.Full → (most_kept < size_of self.old.lines.kept + length text.now + 1) × (self.new ≡ self.old) }
        ensures memory { result ≡ Err Unput.NoMemory → self.new ≡ self.old }
        ensures bound { size_of self.old.lines.kept ≤ most_kept → size_of self.new.lines.kept ≤ most_kept }
    {
        if self.last.is_some() {
            return Err(Unput::Over);
        }
        if let Some(last) = LastLine::read(text) {
            self.last = Some(last);
            return Ok(());
        }
        if self.put >= LAST_LINE - 1 {
            self.last = Some(LastLine::of(Fault::LinesSpent));
            return Err(Unput::Over);
        }
        let len = text.len().saturating_add(1);
        self.wanted = len;
        if !self.has_room_for(len) {
            return Err(Unput::Full);
        }
        if self.keeper.put(text).is_err() {
            return Err(Unput::NoMemory);
        }
        self.note_put(text);
        Ok(())
    }

    // Notes that a line was put that is not the last.
    fn note_put(&mut self, text: &[u8])
        ensures lines { self.new.lines ≡ self.old.lines }
        ensures open { IsTrue self.new.is_open }
        ensures ready { IsTrue self.new.is_ready ↔ (IsTrue self.old.is_ready ⊎ (text.now ≡ codes "ready")) }
        ensures last { self.new.last ≡ self.old.last }
    {
        self.put = self.put.saturating_add(1);
        self.wanted = 0;
        self.is_open = true;
        self.is_ready |= text == b"ready".as_slice();
    }

    /// Ends the link by this line, unless it has one.
    pub fn end_by(&mut self, last: LastLine)
        ensures first { self.old.last ≡ None → self.new ≡ record self.old { last = Some last } }
        ensures same { self.old.last ≢ None → self.new ≡ self.old }
    {
        if self.last.is_none() {
            self.last = Some(last);
        }
    }

    /// Puts the last line, which always has room. If memory for it is refused, nothing changes.
    pub fn close(&mut self, alloc: Global, last: LastLine) -> Result<(), NoMemory>
        ensures closed { OnOk result (IsClosed last self.old self.new) }
        ensures err { OnErr result (self.new ≡ self.old) }
    {
        last.fits();
        let Ok(text) = format!(in alloc; "{last}") else {
            return Err(NoMemory);
        };
        match self.keeper.put(text.as_bytes()) {
            Ok(()) => self.put = self.put.saturating_add(1),
            Err(KeepFault::NoMemory) => return Err(NoMemory),
            Err(KeepFault::LinesSpent | KeepFault::BadTaken) => {}
        }
        self.last = Some(last);
        self.wanted = 0;
        Ok(())
    }

    /// A carrier begins, whose client has taken so many lines. Refused if it can't have them, and then nothing changes.
    pub fn begin(&mut self, taken: u32) -> Result<(), KeepFault>
        ensures ok { IsOk result ↔ IsPlace self.old.lines taken }
        ensures begun { OnOk result (self.new ≡ record self.old { lines = after_begin taken self.old.lines }) }
        ensures err { OnErr result (self.new ≡ self.old) }
    {
        self.keeper.begin(taken)
    }

    /// The client has so many lines for good. Refused if it can't have them, and then nothing changes.
    pub fn got(&mut self, taken: u32) -> Result<(), KeepFault>
        ensures ok { IsOk result ↔ IsGot self.old.lines taken }
        ensures dropped { OnOk result (self.new ≡ record self.old { lines = after_got taken self.old.lines }) }
        ensures err { OnErr result (self.new ≡ self.old) }
    {
        self.keeper.got(taken)
    }

    /// What comes next for the carrier.
    pub fn next_line(&self) -> NextLine
        ensures nothing { result ≡ NextLine.Nothing → IsAllWritten self.now.lines }
        ensures line { result ≡ NextLine.Line → IsLineNext self.now.lines }
        ensures last { result ≡ NextLine.Last → IsLastNext self.now.lines }
    {
        let Some(line) = self.keeper.next() else {
            return NextLine::Nothing;
        };
        match LastLine::read(text_of(line)) {
            Some(_) => NextLine::Last,
            None => NextLine::Line,
        }
    }

    /// Appends that line, and notes that it was written.
    pub fn write_next(&mut self, out: &mut Vec<u8>) -> Result<bool, NoMemory>
        ensures wrote { IfOk result (λ wrote. WritesNext wrote self.old.lines self.new.lines out.old.items out.new.items) }
        ensures same { self.new ≡ record self.old { lines = self.new.lines } }
        ensures err { OnErr result ((self.new ≡ self.old) × (out.new.items ≡ out.old.items)) }
    {
        self.keeper.write_next(out)
    }

    /// Appends the lines that come next, as many as begin within the room of a piece, up to the last line of the link. They count as written.
    pub fn write_lines(&mut self, out: &mut Vec<u8>) -> Result<(), NoMemory>
        ensures lines { OnOk result (AreNextLines self.old self.new out.old.items out.new.items) }
        ensures all { OnOk result (AreAll self.new out.new.items) }
        ensures same { self.new ≡ record self.old { lines = record self.old.lines { sent = self.new.lines.sent } } }
    {
        for _ in 0..MOST_WRITTEN {
            if out.len() >= MOST_WRITTEN || self.next_line() != NextLine::Line {
                return Ok(());
            }
            self.write_next(out)?;
        }
        Ok(())
    }

    /// Keeps nothing more.
    pub fn clear(&mut self, alloc: Global)
        ensures { self.new ≡ record self.old { lines = nothing_put } }
    {
        self.keeper = Keeper::new(alloc);
    }
}

// The text of a line, which is given with its line feed.
#[tactic(auto, using(crate::proofs::Kept::text_of_line))]
fn text_of(line: &[u8]) -> &[u8]
    ensures { (text : List ℕ) → line.now ≡ spelled text → result.now ≡ text }
{
    &line[..line.len().saturating_sub(1)]
}
