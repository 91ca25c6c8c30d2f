//! Notes: the lines that belong to a carrier and not to the link that it carries.
ghost use Rattle.std.specs.Prelude.{◌≡◌, ◌++◌, OnOk, OnErr, codes};
ghost use Rattle.jup_number.specs.Numbers.{IsReadingOf};
ghost use Rattle.jup_resume.specs.Texts.{spelled};
ghost use Rattle.jup_resume.specs.Notes.{note_text, waiting_text, IsNote, IsWaiting, IsReadingBehind};

use crate::bytes::split;
use crate::token::Token;
use jup_limits::NoMemory;
use jup_number::read_number;
use std::alloc::Global;
use std::fmt;

/// A line that belongs to a carrier. Each note has one spelling, and no link has a line that begins with its word.
#[derive(Clone, Copy)]
pub enum Note {
    /// `hello 4`, a client's first line: it opens a link that can be resumed.
    Hello,
    /// `link TOKEN SECONDS` or `link TOKEN SECONDS kept`, a server's first line after that: the link waits so many seconds
    /// for a carrier once it has none. `kept`: what is confirmed outlives the server.
    Link {
        token: Token,
        seconds: u32,
        kept: bool,
    },
    /// `resume TOKEN TAKEN`, a client's first line: the carrier carries that link, of which the client has taken so many lines.
    Resume {
        token: Token,
        taken: u32,
    },
    /// `resumed TAKEN`, a server's first line after that: it has taken so many lines.
    Resumed {
        taken: u32,
    },
    /// `ended TAKEN`, a server's only line after `resume` if the link is over.
    Ended {
        taken: u32,
    },
    /// `got TAKEN`: so many lines are taken for good, and the other end needs to keep them no more.
    Got {
        taken: u32,
    },
}

impl Note {
    /// The note that a line is, without its line feed.
    pub fn read(text: &[u8]) -> Option<Note>
        ensures { IsReadingOf note_text IsNote text.now result }
    {
        let (word, fields) = split(text, b' ')?;
        read_behind(word, fields)
    }

    /// Appends the note as a line. If memory lacks, it appends nothing.
    pub fn write(&self, alloc: Global, out: &mut Vec<u8>) -> Result<(), NoMemory>
        ensures ok { OnOk result (out.new.items ≡ out.old.items ++ spelled (note_text self.now)) }
        ensures err { OnErr result (out.new.items ≡ out.old.items) }
    {
        let Ok(line) = format!(in alloc; "{self}\n") else {
            return Err(NoMemory);
        };
        out.extend_from_slice(line.as_bytes()).map_err(|_| NoMemory)
    }
}

impl fmt::Display for Note {
    ghost use Rattle.std.specs.Prelude.{Some};
    ghost use Rattle.jup_resume.specs.Notes.{note_text};

    ghost output = { λ note. Some (note_text note) };

    fn fmt<W: fmt::Write>(&self, f: &mut fmt::Formatter<W>) -> fmt::Result {
        match self {
            Note::Hello => write!(f, "hello 4"),
            Note::Link {
                token,
                seconds,
                kept: true,
            } => write!(f, "link {token} {seconds} kept"),
            Note::Link {
                token,
                seconds,
                kept: false,
            } => write!(f, "link {token} {seconds}"),
            Note::Resume { token, taken } => write!(f, "resume {token} {taken}"),
            Note::Resumed { taken } => write!(f, "resumed {taken}"),
            Note::Ended { taken } => write!(f, "ended {taken}"),
            Note::Got { taken } => write!(f, "got {taken}"),
        }
    }
}

/// The note with this word and these fields.
fn read_behind(word: &[u8], fields: &[u8]) -> Option<Note>
    ensures { IsReadingBehind word.now fields.now result }
{
    if word == b"hello".as_slice() {
        return read_hello(fields);
    }
    if word == b"link".as_slice() {
        return read_link(fields);
    }
    if word == b"resume".as_slice() {
        return read_resume(fields);
    }
    if word == b"resumed".as_slice() {
        return Some(Note::Resumed {
            taken: read_number(fields)?,
        });
    }
    if word == b"ended".as_slice() {
        return Some(Note::Ended {
            taken: read_number(fields)?,
        });
    }
    if word == b"got".as_slice() {
        return Some(Note::Got {
            taken: read_number(fields)?,
        });
    }
    None
}

fn read_hello(fields: &[u8]) -> Option<Note>
    ensures { IsReadingBehind (codes "hello") fields.now result }
{
    if fields == b"4".as_slice() {
        Some(Note::Hello)
    } else {
        None
    }
}

fn read_link(fields: &[u8]) -> Option<Note>
    ensures { IsReadingBehind (codes "link") fields.now result }
{
    let (token, rest) = split(fields, b' ')?;
    let token = Token::read(token)?;
    let (seconds, kept) = read_waiting(rest)?;
    Some(Note::Link {
        token,
        seconds,
        kept,
    })
}

/// For how many seconds a link waits, and whether what is confirmed is kept.
fn read_waiting(fields: &[u8]) -> Option<(u32, bool)>
    ensures { IsReadingOf waiting_text IsWaiting fields.now result }
{
    let Some((seconds, word)) = split(fields, b' ') else {
        return Some((read_number(fields)?, false));
    };
    if word != b"kept".as_slice() {
        return None;
    }
    Some((read_number(seconds)?, true))
}

fn read_resume(fields: &[u8]) -> Option<Note>
    ensures { IsReadingBehind (codes "resume") fields.now result }
{
    let (token, taken) = split(fields, b' ')?;
    Some(Note::Resume {
        token: Token::read(token)?,
        taken: read_number(taken)?,
    })
}
