//! The end of one way of a link that takes lines.
ghost use Rattle.std.specs.Prelude.{◌≡◌, ◌+◌, ◌<◌, ◌≤◌, [], ◌++◌, length};
ghost use Rattle.jup_resume.specs.Takers.{Brings, IsFeedless, IsLineOf};

use crate::bytes::split;
use crate::line_bytes::{LONGEST_LINE, LineBytes};
use crate::note::Note;
use std::marker::Model;
use std::mem;

/// What a piece of bytes brought.
#[derive(Drop)]
pub enum Arrival {
    /// A part of a line, which is kept.
    Part,
    /// A note of the carrier.
    Note(Note),
    /// A line of the link, without its line feed. It counts once it is handed on.
    Line(LineBytes),
    /// 256 bytes of a line with no line feed. They are handed on as they are, and end the session.
    LongLine(LineBytes),
}

/// What a piece brought, and the bytes of it that come after that.
#[derive(Drop)]
pub struct Took<'a> {
    pub arrival: Arrival,
    pub rest: &'a [u8],
}

/// What one end has of the line that comes, and how many lines it has handed on. The count is what it says as a carrier begins.
#[derive(Drop)]
pub struct Taker {
    part: LineBytes,
    taken: u32,
}

impl Model for Taker {
    ghost use Rattle.jup_resume.specs.Takers.{Taking, IsPart};

    ghost Value = { Taking };

    ghost view = { λ t. record { part = t.part; taken = t.taken } };

    ghost invariant = { λ t. IsPart t.part };
}

impl Taker {
    /// An end to which nothing came. It takes no memory.
    pub fn new() -> Taker
        ensures part { result.part ≡ [] }
        ensures taken { result.taken ≡ 0 }
    {
        Taker {
            part: LineBytes::new(),
            taken: 0,
        }
    }

    /// Takes a piece up to the end of the first line in it, or all of it.
    pub fn take<'a>(&mut self, piece: &'a [u8]) -> Took<'a>
        ensures arrival { Brings self.old.part piece.now result.arrival self.new.part result.rest.now }
        ensures feedless { IsFeedless result.arrival }
        ensures taken { self.new.taken ≡ self.old.taken }
    {
        let room = LONGEST_LINE - self.part.len();
        match split(piece, b'\n') {
            Some((text, rest)) if text.len() < room => Took {
                arrival: line_of(self.end_line(text)),
                rest,
            },
            None if piece.len() < room => {
                self.part.extend(piece);
                Took {
                    arrival: Arrival::Part,
                    rest: &piece[piece.len()..],
                }
            }
            Some(_) | None => {
                let (text, rest) = piece.split_at(room);
                Took {
                    arrival: Arrival::LongLine(self.end_line(text)),
                    rest,
                }
            }
        }
    }

    /// The part with these bytes after it. What comes next begins a line.
    fn end_line(&mut self, bytes: &[u8]) -> LineBytes
        requires { length self.old.part + length bytes.now ≤ 256 }
        ensures line { result ≡ self.old.part ++ bytes.now }
        ensures part { self.new.part ≡ [] }
        ensures taken { self.new.taken ≡ self.old.taken }
    {
        let mut line = mem::replace(&mut self.part, LineBytes::new());
        line.extend(bytes);
        line
    }

    /// Notes that a line was handed on.
    pub fn hand_on(&mut self)
        requires { self.old.taken < u32.MAX }
        ensures part { self.new.part ≡ self.old.part }
        ensures taken { self.new.taken ≡ self.old.taken + 1 }
    {
        self.taken += 1;
    }

    /// The carrier broke. What came of a line is dropped, since the line comes again whole.
    pub fn cut(&mut self)
        ensures part { self.new.part ≡ [] }
        ensures taken { self.new.taken ≡ self.old.taken }
    {
        self.part.clear();
    }

    /// How many lines were handed on.
    pub fn taken(&self) -> u32
        ensures { result ≡ self.now.taken }
    {
        self.taken
    }
}

/// The note that a line is, or else a line of the link.
fn line_of(line: LineBytes) -> Arrival
    ensures { IsLineOf line result }
{
    match Note::read(line.as_slice()) {
        Some(note) => Arrival::Note(note),
        None => Arrival::Line(line),
    }
}
