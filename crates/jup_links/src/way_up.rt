//! The way up of a link: the lines that its site sends, until its session has handled them.
ghost use Rattle.std.specs.Prelude.{◌≡◌, ◌≢◌, ◌+◌, ◌≤◌, length};
ghost use Rattle.jup_resume.specs.Takers.{IsFeedless};
ghost use Rattle.jup_resume.specs.Texts.{HasNoFeed};
ghost use Rattle.jup_links.specs.Ways.{most_taken, new_up};

use crate::framing::{Framing, Standing};
use jup_resume::{Arrival, Keeper, Note, Taker, Took};
use memchr::memchr;
use std::alloc::Global;
use std::marker::Model;

/// After how many bytes no further line is taken until the session has been given some.
const MOST_WAITING: usize = 4_096;

/// The number of the line that has to be `bye`, since the count of no further line fits a note.
const LAST_LINE: u32 = u32::MAX - 1;

/// The most bytes that a line has for a session, with its line feed.
pub const MOST_GIVEN: usize = 257;

/// Whether lines of the site still have an effect.
#[derive(Clone, Copy, Debug, PartialEq, Eq)]
enum Taking {
    All,
    /// Its `bye` was taken.
    SaidBye,
    /// The link ends for another reason.
    Nothing,
}

/// What a piece of bytes of a carrier brought, up to the end of the first line in it.
#[derive(Clone, Copy, Debug, PartialEq, Eq)]
pub enum Step {
    /// A part of a line, or a line that has no effect.
    Nothing,
    /// A line for the session.
    Line,
    /// The site has so many lines for good.
    Got(u32),
    /// The bytes have to wait, since there is no room for a line.
    Full,
    /// A line for which there is no memory. It was not taken.
    NoMemory,
    /// A line too many. The link ends by it.
    Spent,
}

/// The lines of a site: those that wait for its session, and how many had their effect. Contracts see how many were taken, those that wait, and how many had their effect.
///
/// A session is given a line at a time. It asks for more only once it has handled all before, and a message has its effect before its session asks on.
#[derive(Drop)]
pub struct WayUp {
    taker: Taker,
    /// Whether the bytes up to the next line feed belong to a line that was too long.
    is_skipping: bool,
    taking: Taking,
    /// Where the last line stands that was taken.
    taken_to: Framing,
    lines: Keeper,
    given: u32,
    /// Where the last line stands that was given, how many lines the messages before its end have, and whether the last of these is an edit.
    given_to: Framing,
    whole: u32,
    is_edit: bool,
    handled: u32,
    has_edits: bool,
}

impl Model for WayUp {
    ghost use Rattle.std.specs.Prelude.{◌≤◌};
    ghost use Rattle.jup_links.specs.Ways.{Up};

    ghost Value = { Up };

    ghost view = { λ w. record { taken = w.taker.taken; waiting = w.lines; handled = w.handled; has_edits = w.has_edits } };

    ghost invariant = { λ w. (w.handled ≤ w.whole) × (w.whole ≤ w.given) };
}

impl WayUp {
    /// Nothing was taken yet.
    pub fn new(alloc: Global) -> WayUp
        ensures { result ≡ new_up }
    {
        let mut lines = Keeper::new(alloc);
        let _ = lines.begin(0);
        WayUp {
            taker: Taker::new(),
            is_skipping: false,
            taking: Taking::All,
            taken_to: Framing::new(),
            lines,
            given: 0,
            given_to: Framing::new(),
            whole: 0,
            is_edit: false,
            handled: 0,
            has_edits: false,
        }
    }

    /// How many lines were taken.
    pub fn taken(&self) -> u32
        ensures { result ≡ self.now.taken }
    {
        self.taker.taken()
    }

    /// How many of them had their effect, up to the end of a message.
    pub fn handled(&self) -> u32
        ensures { result ≡ self.now.handled }
    {
        self.handled
    }

    /// Whether all lines that were taken had their effect.
    pub fn is_all_handled(&self) -> bool {
        self.handled == self.taker.taken()
    }

    /// Whether one of them was an edit.
    pub fn has_edits(&self) -> bool
        ensures { result ≡ self.now.has_edits }
    {
        self.has_edits
    }

    /// Whether further lines have an effect.
    pub fn is_taking(&self) -> bool {
        self.taking == Taking::All
    }

    /// Whether the site has said `bye`.
    pub fn has_bye(&self) -> bool {
        self.taking == Taking::SaidBye
    }

    /// Whether a line waits for the session.
    pub fn has_line(&self) -> bool {
        self.lines.next().is_some()
    }

    /// Whether a line more may wait. If lines have no effect, they need no room.
    pub fn has_room(&self) -> bool {
        !self.is_taking() || self.lines.kept_bytes() < MOST_WAITING
    }

    /// No further line has an effect.
    pub fn shut(&mut self)
        ensures { self.new ≡ self.old }
    {
        if self.taking == Taking::All {
            self.taking = Taking::Nothing;
        }
    }

    /// The carrier broke. What came of a line is dropped, since the line comes again whole.
    pub fn cut(&mut self)
        ensures { self.new ≡ self.old }
    {
        self.taker.cut();
        self.is_skipping = false;
    }

    /// Takes a piece of the carrier's bytes up to the end of the first line in it, and answers what that is and the bytes after it. If there is no room, it
    /// takes nothing.
    pub fn take<'a>(&mut self, piece: &'a [u8]) -> (Step, &'a [u8])
        ensures last { result.0 ≡ Step.Line → self.new.taken ≤ most_taken }
        ensures spent { result.0 ≡ Step.Spent → most_taken ≤ self.old.taken + 1 }
        ensures handled { self.new.handled ≡ self.old.handled }
        ensures shorter { length result.1.now ≤ length piece.now }
    {
        if !self.has_room() {
            return (Step::Full, piece);
        }
        if self.is_skipping {
            return (Step::Nothing, self.skip(piece));
        }
        let Took { arrival, rest } = self.taker.take(piece);
        (self.step_by(arrival), rest)
    }

    // What a piece of bytes is.
    fn step_by(&mut self, arrival: Arrival) -> Step
        requires { IsFeedless arrival }
        ensures last { result ≡ Step.Line → self.new.taken ≤ most_taken }
        ensures spent { result ≡ Step.Spent → most_taken ≤ self.old.taken + 1 }
        ensures handled { self.new.handled ≡ self.old.handled }
    {
        match arrival {
            Arrival::Part => Step::Nothing,
            Arrival::Note(Note::Got { taken }) => Step::Got(taken),
            Arrival::Note(note) => self.hand_on(stray(&note)),
            Arrival::Line(line) => self.hand_on(line.as_slice()),
            Arrival::LongLine(line) => {
                self.is_skipping = true;
                self.hand_on(line.as_slice())
            }
        }
    }

    // Passes over the bytes up to the next line feed.
    fn skip<'a>(&mut self, piece: &'a [u8]) -> &'a [u8]
        ensures handled { self.new.handled ≡ self.old.handled }
        ensures shorter { length result.now ≤ length piece.now }
    {
        match memchr(b'\n', piece) {
            Some(at) => {
                self.is_skipping = false;
                &piece[at + 1..]
            }
            None => &piece[piece.len()..],
        }
    }

    // Hands a line on to the session, if it has an effect.
    fn hand_on(&mut self, text: &[u8]) -> Step
        requires { HasNoFeed text.now }
        ensures handled { self.new.handled ≡ self.old.handled }
        ensures line { result ≡ Step.Line → self.new.taken ≡ self.old.taken + 1 }
        ensures none { result ≢ Step.Line → self.new.taken ≡ self.old.taken }
        ensures last { result ≡ Step.Line → self.new.taken ≤ most_taken }
        ensures spent { result ≡ Step.Spent → most_taken ≤ self.old.taken + 1 }
    {
        if !self.is_taking() {
            return Step::Nothing;
        }
        let is_bye = text == b"bye".as_slice() && self.taken_to.is_between();
        let taken = self.taker.taken();
        if taken >= LAST_LINE || taken >= LAST_LINE - 1 && !is_bye {
            self.taking = Taking::Nothing;
            return Step::Spent;
        }
        if self.lines.put(text).is_err() {
            return Step::NoMemory;
        }
        self.taken_to.pass(text);
        self.taker.hand_on();
        if is_bye {
            self.taking = Taking::SaidBye;
        }
        Step::Line
    }

    /// Notes that the session has handled all that it was given.
    pub fn handle(&mut self)
        ensures handled { self.old.handled ≤ self.new.handled }
        ensures taken { self.new.taken ≡ self.old.taken }
    {
        self.handled = self.whole;
        self.has_edits |= self.is_edit;
    }

    /// Gives the session the next line, with its line feed, and answers how many bytes that has: none if no line waits.
    pub fn give(&mut self, buf: &mut [u8; MOST_GIVEN]) -> usize
        ensures handled { self.old.handled ≤ self.new.handled }
        ensures taken { self.new.taken ≡ self.old.taken }
        ensures len { result ≤ 257 }
    {
        let Some(line) = self.lines.next() else {
            return 0;
        };
        let len = line.len().min(MOST_GIVEN);
        buf[..len].copy_from_slice(&line[..len]);
        self.lines.wrote();
        self.given = self.given.saturating_add(1);
        let _ = self.lines.got(self.given);
        self.note_given(&buf[..len.saturating_sub(1)]);
        len
    }

    // Notes where the line stands that was given.
    fn note_given(&mut self, text: &[u8])
        ensures handled { self.old.handled ≤ self.new.handled }
        ensures taken { self.new.taken ≡ self.old.taken }
    {
        let is_bye = text == b"bye".as_slice() && self.given_to.is_between();
        let standing = self.given_to.pass(text);
        if is_bye || standing != Standing::Within {
            self.whole = self.given;
            self.is_edit = standing == Standing::EndsEdit;
        }
        // Its session takes a `bye` by reading it.
        if is_bye {
            self.handled = self.given;
        }
    }
}

// What a session is given for a note that no client sends after its first line: the first word, which is no line either. Only `hello` is refused by its
// number.
fn stray(note: &Note) -> &'static [u8]
    ensures { HasNoFeed result.now }
{
    match note {
        Note::Hello => b"hello 4",
        Note::Link { .. } => b"link",
        Note::Resume { .. } => b"resume",
        Note::Resumed { .. } => b"resumed",
        Note::Ended { .. } => b"ended",
        Note::Got { .. } => b"got",
    }
}
