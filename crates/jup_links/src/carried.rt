//! What the carriers of a link and its session share.
ghost use Rattle.std.specs.Prelude.{◌≡◌, ◌≢◌, ◌↔◌, ◌≤◌, Ok, Err, None, Some, [], ◌++◌, length, IfOk, OnOk, OnErr, IsSome, IsTrue, IsFalse, true, false};
ghost use Rattle.jup_links.specs.Carriages.{IsPresent, after_taking_over, after_losing};
ghost use Rattle.jup_links.specs.Linked.{new_link, IsOutOfTime, IsEnding, IsSpent, IsRefused, HasBegun, IsIn, got_bytes, after_got_bytes, AreNotes, WritesLines, WritesLast, IsOfCarrier, HasLines, IsOnlyWritten};
ghost use Rattle.jup_links.specs.Ways.{IsLastNext};

use crate::carriage::Carriage;
use crate::change::Change;
use crate::last_line::LastLine;
use crate::way_down::{MOST_WRITTEN, NextLine, Unput, WayDown};
use crate::way_up::{MOST_GIVEN, Step, WayUp};
use jup_faults::Fault;
use jup_limits::NoMemory;
use jup_resume::{Confirming, LONGEST_QUIET, Note, Token, split};
use std::alloc::Global;
use std::marker::Model;

/// For how many milliseconds a carrier is read after the last line: just below ten seconds, since it is cut after more than these.
const LONGEST_ENDING: u64 = 9_999;

/// What became of a piece of bytes.
#[derive(Clone, Copy, Debug, PartialEq, Eq)]
pub enum Heard {
    /// All was taken, or had no effect.
    All,
    /// So many bytes of it wait for room.
    Waits(usize),
    /// Nothing of the link is left.
    Spent,
    /// The carrier is cut.
    Cut,
}

/// Whether bytes of a carrier find room.
#[derive(Clone, Copy, Debug, PartialEq, Eq)]
pub enum Room {
    /// They do, or have no effect.
    Open,
    /// They have to wait until the session has taken a line.
    Full,
    /// Nothing of the link is left.
    Spent,
    /// Another carrier has the link, or this one has had the last line for long enough.
    Cut,
}

/// What a carrier writes next.
#[derive(Clone, Copy, Debug, PartialEq, Eq)]
pub enum Piece {
    /// These bytes, of which the last line is none.
    Bytes,
    /// These bytes, and then nothing more.
    Last,
    /// Nothing more, since nothing of the link is left.
    End,
    /// Nothing more: another carrier has the link, or this one can't carry more.
    Cut,
}

/// What a server does with a link when it looks at all of them.
#[derive(Clone, Copy, Debug, PartialEq, Eq)]
pub enum State {
    /// Nothing: it is carried, or waits for a carrier.
    Runs,
    /// It has no carrier from this time on, and the star took no edit of it. A newcomer may have its place.
    Unused { since: u64 },
    /// Its session returned at this time. It has no carrier, and lines that its site may still lack.
    Holds { ended: u64 },
    /// Only its count is left.
    Spent,
    /// There never was a link: its site could not join.
    Refused,
}

/// What a server asks of a link when it looks at all of them.
#[derive(Clone, Copy)]
pub struct Summary {
    pub token: Token,
    /// How many lines of the way up had their effect.
    pub handled: u32,
    /// Whether the star took an edit of it.
    pub has_edits: bool,
    pub state: State,
}

/// Why a carrier can't carry a link on.
#[derive(Clone, Copy, Debug, PartialEq, Eq)]
pub enum Refused {
    /// The client can't have taken so many lines.
    BadTaken,
    /// Only the count of the link is left, or will be once its session has returned.
    Ended,
}

/// What the carriers of a link and its session share. Times are milliseconds since the server began. Contracts see its token, both ways, which carrier the link has,
/// whether its session has returned, and whether it ended without a last line.
#[derive(Drop)]
pub struct Carried {
    alloc: Global,
    token: Token,
    seconds: u32,
    up: WayUp,
    down: WayDown,
    confirming: Confirming,
    carriage: Carriage,
    /// The first note of the present carrier, if it was not written yet.
    opening: Option<Note>,
    /// Whether nothing was handed to the present carrier for a minute after its client had ended its bytes.
    has_stalled: bool,
    /// When the session returned, if it has.
    ended: Option<u64>,
    /// What ends the link after the lines that were taken, and whether its session has come so far.
    fault: Option<Fault>,
    has_met_fault: bool,
    /// Whether the link ended without a last line.
    is_lost: bool,
    /// Whether the server stops.
    stops: bool,
}

impl Model for Carried {
    ghost use Rattle.std.specs.Prelude.{◌≤◌};
    ghost use Rattle.jup_links.specs.Linked.{Linked};

    ghost Value = { Linked };

    ghost view = { λ c. record { token = c.token; seconds = c.seconds; up = c.up; down = c.down; confirming = c.confirming; carriage = c.carriage; opening = c.opening; ended = c.ended; is_lost = c.is_lost } };

    ghost invariant = { λ c. c.confirming.taken ≤ c.up.handled };
}

impl Carried {
    /// A link of this token that waits so many seconds for a carrier. Its first carrier is there, and its session is about to begin.
    pub fn new(alloc: Global, token: Token, seconds: u32) -> Carried
        ensures { result ≡ new_link token seconds }
    {
        Carried {
            alloc,
            token,
            seconds,
            up: WayUp::new(alloc),
            down: WayDown::new(alloc),
            confirming: Confirming::new(),
            carriage: Carriage::new(),
            opening: Some(Note::Link {
                token,
                seconds,
                kept: false,
            }),
            has_stalled: false,
            ended: None,
            fault: None,
            has_met_fault: false,
            is_lost: false,
            stops: false,
        }
    }

    /// Whether this is the token of the link.
    pub fn is_of(&self, token: &Token) -> bool
        ensures { IsTrue result ↔ (self.now.token ≡ token.now) }
    {
        self.token.matches(token)
    }

    /// How many lines of the way up had their effect.
    pub fn handled(&self) -> u32
        ensures { result ≡ self.now.up.handled }
    {
        self.up.handled()
    }

    /// Whether its session has returned.
    pub fn has_ended(&self) -> bool
        ensures { IsTrue result ↔ IsSome self.now.ended }
    {
        self.ended.is_some()
    }

    /// Whether only the count of the link is left, once its session has returned.
    pub fn is_spent(&self) -> bool
        ensures { IsTrue result ↔ IsSpent self.now }
    {
        self.is_lost || self.has_ended() && self.down.is_empty()
    }

    /// Whether what the link took is final only once its session has returned.
    pub fn is_ending(&self) -> bool
        ensures { IsTrue result ↔ IsEnding self.now }
    {
        !self.has_ended() && (self.is_lost || self.down.last().is_some())
    }

    /// What a server asks of the link when it looks at all of them.
    pub fn summary(&self) -> Summary
        ensures token { result.token ≡ self.now.token }
        ensures handled { result.handled ≡ self.now.up.handled }
        ensures has_edits { result.has_edits ≡ self.now.up.has_edits }
        ensures state { IsIn self.now result.state }
    {
        Summary {
            token: self.token,
            handled: self.up.handled(),
            has_edits: self.up.has_edits(),
            state: self.state(),
        }
    }

    fn state(&self) -> State
        ensures { IsIn self.now result }
    {
        let Some(ended) = self.ended else {
            return self.running_state();
        };
        if self.is_refused() {
            State::Refused
        } else if self.is_spent() {
            State::Spent
        } else if self.carriage.is_there() {
            State::Runs
        } else {
            State::Holds { ended }
        }
    }

    // What a newcomer may claim waits for a carrier, and the star took no edit of it.
    fn running_state(&self) -> State
        requires { self.now.ended ≡ None }
        ensures { IsIn self.now result }
    {
        match self.carriage.since() {
            Some(since) if !self.is_ending() && !self.up.has_edits() => State::Unused { since },
            _ => State::Runs,
        }
    }

    // What the session does.

    /// Whether the session has to wait for a line.
    pub fn has_nothing_for_session(&self) -> bool {
        !self.up.has_line() && !self.has_end_for_session()
    }

    // Whether the way up has ended for the session.
    fn has_end_for_session(&self) -> bool {
        self.is_lost || self.stops || self.fault.is_some() || self.down.last().is_some()
    }

    /// The session asks for more: it has handled all that it was given.
    pub fn ask(&mut self) -> Change {
        self.up.handle();
        self.note_handled()
    }

    /// Gives the session the next line, with its line feed, and answers how many bytes that has: none at the end of the way up.
    pub fn give(&mut self, line: &mut [u8; MOST_GIVEN]) -> (usize, Change)
        ensures len { result.0 ≤ 257 }
        ensures ended { self.old.down.last ≢ None → (result.0 ≡ 0) × (self.new ≡ self.old) }
    {
        if self.down.last().is_some() {
            return (0, Change::for_nobody());
        }
        let was_full = !self.up.has_room();
        let len = self.up.give(line);
        self.has_met_fault = len == 0 && self.fault.is_some();
        if self.up.is_all_handled() && self.up.has_bye() {
            self.confirming.end();
        }
        let change = self.note_handled();
        if was_full {
            (len, change.and(Change::for_carriers()))
        } else {
            (len, change)
        }
    }

    // Counts for `got` the lines that had their effect.
    fn note_handled(&mut self) -> Change {
        self.confirming.take(self.up.handled());
        if self.confirming.due().is_some() {
            Change::for_carriers()
        } else {
            Change::for_nobody()
        }
    }

    /// Whether the session has to wait before it puts what it has.
    pub fn lacks_room(&self) -> bool {
        !self.is_lost && self.down.last().is_none() && self.down.lacks_room()
    }

    /// Puts the lines of the session that these bytes have, as many as find room, and answers how many bytes these have. If none finds room, or the link is over,
    /// it refuses. What comes after the last line feed is no line yet.
    pub fn put(&mut self, bytes: &[u8]) -> (Result<usize, Unput>, Change)
        ensures len { IfOk result.0 (λ len. len ≤ length bytes.now) }
        ensures lost { IsTrue self.old.is_lost → (result.0 ≡ Err Unput.Over) × (self.new ≡ self.old) }
    {
        if self.is_lost {
            return (Err(Unput::Over), Change::for_nobody());
        }
        let mut rest = bytes;
        for _ in 0..bytes.len() {
            let Some((text, behind)) = split(rest, b'\n') else {
                break;
            };
            match self.down.put(text) {
                Ok(()) => rest = behind,
                Err(Unput::Full | Unput::NoMemory) if rest.len() < bytes.len() => break,
                Err(unput) => return (Err(unput), Change::for_all()),
            }
        }
        (
            Ok(bytes.len().saturating_sub(rest.len())),
            Change::for_all(),
        )
    }

    /// The session gives the link up: its site is too far behind.
    pub fn give_up(&mut self) -> Change
        ensures counts { self.new.up ≡ self.old.up }
    {
        self.down.end_by(LastLine::of(Fault::WriteFailed));
        Change::for_all()
    }

    /// The session has returned. If memory for the last line is refused, nothing changes.
    pub fn close(&mut self, now: u64) -> Result<Change, NoMemory>
        ensures counts { self.new.up ≡ self.old.up }
        ensures ended { OnOk result (self.new.ended ≡ Some now) }
        ensures err { OnErr result (self.new ≡ self.old) }
    {
        if !self.is_lost {
            let last = self.last_line();
            self.down.close(self.alloc, last)?;
        }
        self.confirming.take(self.up.handled());
        self.up.shut();
        self.ended = Some(now);
        Ok(Change::for_all())
    }

    // The last line of the link. Its fault counts only if no line before it ended the session.
    fn last_line(&self) -> LastLine {
        let own = self.down.last();
        match self.fault {
            Some(fault) if self.has_met_fault => LastLine::of(fault),
            _ => own.unwrap_or(LastLine::of(Fault::WriteFailed)),
        }
    }

    // What a carrier does.

    /// Whether bytes of a carrier find room.
    pub fn room(&self, carrier: u64, now: u64) -> Room {
        if !self.carriage.is_present(carrier) || self.carriage.has_waited(now, LONGEST_ENDING) {
            Room::Cut
        } else if self.is_spent() {
            Room::Spent
        } else if self.up.has_room() {
            Room::Open
        } else {
            Room::Full
        }
    }

    // Whether what a carrier brings can still have an effect.
    fn is_heard(&self, carrier: u64) -> bool {
        self.carriage.is_present(carrier) && !self.is_spent()
    }

    /// Whether lines of a carrier have no effect any more: the site has said `bye`, or the link ends.
    pub fn drops_lines(&self) -> bool {
        !self.up.is_taking()
    }

    /// Takes bytes of a carrier. Those of one that is not the present one have no effect.
    pub fn hear(&mut self, carrier: u64, piece: &[u8]) -> (Heard, Change)
        ensures late { (IsPresent carrier self.old.carriage → ⊥) → (result.0 ≡ Heard.Cut) × (self.new ≡ self.old) }
    {
        if !self.carriage.is_present(carrier) {
            return (Heard::Cut, Change::for_nobody());
        }
        self.hear_present(piece)
    }

    // Takes bytes of the present carrier.
    fn hear_present(&mut self, piece: &[u8]) -> (Heard, Change) {
        let mut rest = piece;
        for _ in 0..piece.len() {
            if self.is_spent() {
                return (Heard::Spent, Change::for_all());
            }
            if rest.is_empty() {
                break;
            }
            let (step, behind) = self.up.take(rest);
            rest = behind;
            match step {
                Step::Nothing | Step::Line => {}
                Step::Got(taken) => self.confirm(taken),
                Step::Full => return (Heard::Waits(rest.len()), Change::for_all()),
                Step::NoMemory => return (Heard::Cut, Change::for_all()),
                Step::Spent => self.end_by(Fault::LinesSpent),
            }
        }
        (Heard::All, Change::for_all())
    }

    // Keeps the lines no longer that the client has. A wrong count ends the link, if lines still have an effect.
    fn confirm(&mut self, taken: u32) {
        if self.down.got(taken).is_err() && self.up.is_taking() {
            self.end_by(Fault::BadTaken);
        }
    }

    fn end_by(&mut self, fault: Fault) {
        self.up.shut();
        self.fault = Some(fault);
    }

    /// Learns that the bytes of a carrier have ended. Whether it goes on writing: only after the client's `bye`.
    pub fn end_bytes(&mut self, carrier: u64, now: u64) -> (bool, Change) {
        if self.is_heard(carrier) && self.up.has_bye() {
            self.carriage.end_bytes();
            return (true, Change::for_carriers());
        }
        (false, self.cut(carrier, now))
    }

    /// Whether this carrier carries the link now.
    pub fn is_carried_by(&self, carrier: u64) -> bool
        ensures { IsTrue result ↔ IsPresent carrier self.now.carriage }
    {
        self.carriage.is_present(carrier)
    }

    /// Whether lines are still to be written to a carrier: it has the link, and was not given the last line.
    pub fn writes_on(&self, carrier: u64) -> bool {
        self.carriage.is_present(carrier) && self.carriage.since().is_none() && !self.is_spent()
    }

    /// A carrier breaks. If it is the present one, the link waits for another.
    pub fn cut(&mut self, carrier: u64, now: u64) -> Change
        ensures late { (IsPresent carrier self.old.carriage → ⊥) → self.new ≡ self.old }
        ensures waits { IsPresent carrier self.old.carriage → self.new.carriage ≡ after_losing now self.old.carriage }
        ensures stays { IsTrue self.old.down.is_ready → 1 ≤ self.old.seconds → self.new.is_lost ≡ self.old.is_lost }
        ensures lines { IsTrue self.old.down.is_ready → 1 ≤ self.old.seconds → (self.new.up ≡ self.old.up) × (self.new.down ≡ self.old.down) }
    {
        if !self.carriage.cut(carrier, now) {
            return Change::for_nobody();
        }
        self.up.cut();
        self.lose_unless_ready();
        // Without a grace nothing waits.
        if self.seconds == 0 {
            self.mark_lost();
        }
        Change::for_all()
    }

    // A link whose site has not its board yet ends with its carrier. So does what is held for a site that was refused.
    fn lose_unless_ready(&mut self)
        ensures carriage { self.new.carriage ≡ self.old.carriage }
        ensures seconds { self.new.seconds ≡ self.old.seconds }
        ensures ready { IsTrue self.old.down.is_ready → self.new ≡ self.old }
    {
        if self.down.is_ready() {
            return;
        }
        if self.down.last().is_none() || self.is_refused() {
            self.mark_lost();
        }
    }

    /// Has a new carrier take the link, whose client has taken so many lines, and answers its number. If it is refused, nothing changes except for a link that
    /// had not put `ready`.
    pub fn resume(&mut self, taken: u32, now: u64) -> (Result<u64, Refused>, Change)
        ensures taken_over { IfOk result.0 (λ carrier. (self.new.carriage ≡ after_taking_over self.old.carriage) × (carrier ≡ self.new.carriage.number)) }
        ensures refused { result.0 ≡ Err Refused.BadTaken → self.new ≡ self.old }
    {
        if let Err(refused) = self.begin(taken) {
            return (Err(refused), Change::for_nobody());
        }
        self.up.cut();
        self.lose_unless_ready();
        if self.is_lost {
            self.carriage.cut(self.carriage.number(), now);
            return (Err(Refused::Ended), Change::for_all());
        }
        self.carriage.take_over();
        self.has_stalled = false;
        self.opening = Some(Note::Resumed {
            taken: self.counted(),
        });
        self.confirming.begin();
        (Ok(self.carriage.number()), Change::for_all())
    }

    fn begin(&mut self, taken: u32) -> Result<(), Refused>
        ensures carriage { self.new.carriage ≡ self.old.carriage }
        ensures err { OnErr result (self.new ≡ self.old) }
    {
        if self.is_spent() {
            return Err(Refused::Ended);
        }
        self.down.begin(taken).map_err(|_| Refused::BadTaken)
    }

    // How many lines of the way up count for a carrier that begins: all that were taken, and at the end those that had their effect.
    fn counted(&self) -> u32 {
        if self.has_ended() {
            self.up.handled()
        } else {
            self.up.taken()
        }
    }

    /// Whether a carrier has nothing to write for now.
    pub fn has_nothing_for(&self, carrier: u64) -> bool {
        self.carriage.is_present(carrier)
            && !self.is_spent()
            && !self.has_next()
            && !self.is_stuck()
    }

    // Whether nothing that comes makes room: the client has ended its bytes, and its session has handled them all, or has not for a minute.
    fn is_stuck(&self) -> bool {
        self.has_stalled
            || self.carriage.has_ended() && self.up.is_all_handled() && self.down.lacks_room()
    }

    // Whether a note or a line is to be written.
    fn has_next(&self) -> bool {
        self.has_begun()
            && (self.opening.is_some()
                || self.confirming.due().is_some()
                || self.down.next_line() != NextLine::Nothing)
    }

    // Whether the link may be told of: its site has joined, or was refused.
    fn has_begun(&self) -> bool
        ensures { IsTrue result ↔ HasBegun self.now }
    {
        self.down.is_open() || self.has_ended()
    }

    /// Notes that nothing was handed to a carrier for a minute. One on which the client has ended its bytes is cut then.
    pub fn elapse(&mut self, carrier: u64) {
        if !self.carriage.is_present(carrier) {
            return;
        }
        if self.carriage.has_ended() {
            self.has_stalled = true;
        } else if self.has_begun() {
            self.confirming.elapse(LONGEST_QUIET);
        }
    }

    /// Puts into `out` what a carrier writes next, as far as it is the present one. That is the notes that are due, and then the lines that follow on those it wrote, as far
    /// as there is room. They count as written from now on. Nothing is written before the site has joined or was refused.
    pub fn next_piece(&mut self, carrier: u64, out: &mut Vec<u8>) -> Result<Piece, NoMemory>
        ensures late { (IsPresent carrier self.old.carriage → ⊥) → (result ≡ Ok Piece.Cut) × (out.new.items ≡ []) × (self.new ≡ self.old) }
        ensures spent { IsPresent carrier self.old.carriage → IsSpent self.old → (result ≡ Ok Piece.End) × (out.new.items ≡ []) × (self.new ≡ self.old) }
        ensures silent { IsPresent carrier self.old.carriage → (IsSpent self.old → ⊥) → (HasBegun self.old → ⊥) → (result ≡ Ok Piece.Bytes) × (out.new.items ≡ []) × (self.new ≡ self.old) }
        ensures bytes { IfOk result (λ piece. piece ≡ Piece.Bytes → IsOfCarrier carrier self.old → HasLines false self.old self.new out.new.items) }
        ensures last { IfOk result (λ piece. piece ≡ Piece.Last → HasLines true self.old self.new out.new.items) }
        ensures cut { IfOk result (λ piece. piece ≡ Piece.Cut → IsOfCarrier carrier self.old → HasLines false self.old self.new []) }
        ensures end { result ≡ Ok Piece.End → IsSpent self.old }
        ensures same { IsOnlyWritten self.old self.new }
    {
        out.clear();
        if !self.carriage.is_present(carrier) {
            return Ok(Piece::Cut);
        }
        if self.is_spent() {
            return Ok(Piece::End);
        }
        if !self.has_begun() {
            return Ok(Piece::Bytes);
        }
        self.put_notes(out)?;
        if self.put_lines(out)? {
            return Ok(Piece::Last);
        }
        if !out.is_empty() {
            self.confirming.wrote();
        } else if self.is_stuck() {
            return Ok(Piece::Cut);
        }
        Ok(Piece::Bytes)
    }

    // Puts the notes that come before lines. A site that was refused gets no `link`.
    fn put_notes(&mut self, out: &mut Vec<u8>) -> Result<(), NoMemory>
        requires { out.old.items ≡ [] }
        ensures notes { OnOk result (AreNotes self.old self.new out.new.items) }
        ensures same { self.new ≡ record self.old { confirming = self.new.confirming; opening = self.new.opening } }
    {
        if let Some(opening) = self.opening.take() {
            if self.down.is_open() {
                opening.write(self.alloc, out)?;
            }
        }
        let due = self.confirming.due();
        self.put_got(due, out)
    }

    // Puts a `got`, if one is due.
    fn put_got(&mut self, due: Option<u32>, out: &mut Vec<u8>) -> Result<(), NoMemory>
        ensures bytes { OnOk result (out.new.items ≡ out.old.items ++ got_bytes due) }
        ensures told { OnOk result (self.new ≡ record self.old { confirming = after_got_bytes due self.old.confirming }) }
        ensures err { OnErr result (self.new ≡ self.old) }
    {
        let Some(taken) = due else {
            return Ok(());
        };
        Note::Got { taken }.write(self.alloc, out)?;
        self.confirming.told();
        Ok(())
    }

    // Puts the lines that are to be written, as many as fit. Whether the last line of the link is among them.
    fn put_lines(&mut self, out: &mut Vec<u8>) -> Result<bool, NoMemory>
        ensures lines { IfOk result (λ has_last. WritesLines has_last self.old self.new out.old.items out.new.items) }
        ensures same { IsOnlyWritten self.old self.new }
    {
        self.down.write_lines(out)?;
        if out.len() >= MOST_WRITTEN || self.down.next_line() != NextLine::Last {
            return Ok(false);
        }
        self.put_last(out)?;
        Ok(true)
    }

    // Puts the last line, and a `got` before it if one is due.
    fn put_last(&mut self, out: &mut Vec<u8>) -> Result<(), NoMemory>
        requires { IsLastNext self.old.down.lines }
        ensures last { OnOk result (WritesLast self.old self.new out.old.items out.new.items) }
        ensures same { IsOnlyWritten self.old self.new }
    {
        if self.down.is_open() {
            let due = self.confirming.due_at_end();
            self.put_got(due, out)?;
        }
        self.down.write_next(out)?;
        Ok(())
    }

    /// Notes that the last line was written to a carrier. Of a site that was refused nothing is held any more.
    pub fn wrote_last(&mut self, carrier: u64, now: u64) -> Change {
        if self.carriage.is_present(carrier) {
            self.carriage.wrote_last(now);
        }
        if self.is_refused() {
            self.lose()
        } else {
            Change::for_all()
        }
    }

    // What time does.

    /// Ends the link if it has waited for long enough. Until its session has put the last line, only one without a carrier waits.
    pub fn tend(&mut self, now: u64) -> Change
        ensures leaves { IsOutOfTime now self.old → IsTrue self.new.is_lost }
        ensures stays { (IsOutOfTime now self.old → ⊥) → self.new ≡ self.old }
    {
        let most = u64::from(self.seconds) * 1_000;
        if !self.is_lost && self.carriage.has_waited(now, most) {
            return self.lose();
        }
        Change::for_nobody()
    }

    /// The server stops. It takes no more lines of the link, which ends after those that were taken, and waits for no carrier any more.
    pub fn stop(&mut self) -> Change
        ensures taken { self.new.up ≡ self.old.up }
        ensures carriage { self.new.carriage ≡ self.old.carriage }
        ensures grace { self.new.seconds ≡ 0 }
        ensures carried { IsTrue self.old.carriage.is_there → self.new ≡ record self.old { seconds = 0 } }
        ensures alone { IsFalse self.old.carriage.is_there → IsTrue self.new.is_lost }
    {
        self.stops = true;
        self.seconds = 0;
        self.up.shut();
        if !self.carriage.is_there() {
            self.mark_lost();
        }
        Change::for_all()
    }

    /// Ends the link without a last line. Nothing of the way down is kept any more.
    pub fn lose(&mut self) -> Change
        ensures { IsTrue self.new.is_lost }
    {
        self.mark_lost();
        Change::for_all()
    }

    fn mark_lost(&mut self)
        ensures lost { IsTrue self.new.is_lost }
        ensures taken { self.new.up ≡ self.old.up }
        ensures carriage { self.new.carriage ≡ self.old.carriage }
        ensures seconds { self.new.seconds ≡ self.old.seconds }
    {
        self.is_lost = true;
        self.up.shut();
        self.down.clear(self.alloc);
    }

    /// Whether its site could not join: there never was a link.
    pub fn is_refused(&self) -> bool
        ensures { IsTrue result ↔ IsRefused self.now }
    {
        self.has_ended() && !self.down.is_open()
    }
}
