//! What a client says of a board before it opens a link.
ghost use Rattle.std.specs.Prelude.{◌≡◌, ◌++◌, OnOk, OnErr, codes};
ghost use Rattle.jup_number.specs.Numbers.{IsReadingOf};
ghost use Rattle.jup_resume.specs.Texts.{spelled};
ghost use Rattle.jup_keys.specs.Notes.{
  request_word,
  request_text,
  source_text,
  made_fields,
  IsRequest,
  IsAlone,
  IsRequestBehind,
  IsSource,
  AreMadeFields,
};

use crate::id::BoardId;
use crate::key::Key;
use crate::template::TemplateName;
use jup_limits::NoMemory;
use jup_resume::split;
use std::alloc::Global;
use std::fmt;

/// What a board is made from.
#[derive(Clone, Copy, Debug, PartialEq, Eq)]
pub enum Source {
    /// A template of the server.
    Template(TemplateName),
    /// The lines of a printed board, which follow.
    Printed,
}

/// A note by which a client asks for a board, or asks its server. Each has one spelling.
///
/// It can hold a key, so it has neither `Display` nor `Debug`.
#[derive(Clone, Copy)]
pub enum Request {
    /// `open ID KEY`, a first line: the board of this ID, with a key of it.
    Open {
        id: BoardId,
        key: Key,
    },
    /// `make ID KEY TEMPLATE` or `make ID KEY -`, a first line: a new board of this ID, whose own key this is.
    Make {
        id: BoardId,
        key: Key,
        source: Source,
    },
    /// `owner KEY`, a first line: the client shows the key of the server's owner.
    Owner {
        key: Key,
    },
    /// `templates`, a first line: the client asks who makes boards, and from which templates.
    Templates,
    /// `news`: the carrier wants what changes beside the board.
    News,
    /// `keys`: the keys that the right of the carrier gives.
    Keys,
}

impl Request {
    /// The note that a line is, without its line feed.
    pub fn read(text: &[u8]) -> Option<Request>
        ensures { IsReadingOf request_text IsRequest text.now result }
    {
        let Some((word, fields)) = split(text, b' ') else {
            return read_alone(text);
        };
        read_behind(word, fields)
    }

    /// Appends the note as a line. If memory lacks, it appends nothing.
    pub fn write(&self, alloc: Global, out: &mut Vec<u8>) -> Result<(), NoMemory>
        ensures ok { OnOk result (out.new.items ≡ out.old.items ++ spelled (request_text self.now)) }
        ensures err { OnErr result (out.new.items ≡ out.old.items) }
    {
        let Ok(line) = format!(in alloc; "{}\n", Spelled { note: *self }) else {
            return Err(NoMemory);
        };
        out.extend_from_slice(line.as_bytes()).map_err(|_| NoMemory)
    }
}

/// A note as a text. Only this file can print one, since it can have a key in it.
#[derive(Clone, Copy)]
struct Spelled {
    note: Request,
}

impl fmt::Display for Spelled {
    ghost use Rattle.std.specs.Prelude.{Some};
    ghost use Rattle.jup_keys.specs.Notes.{request_text};

    ghost output = { λ spelled. Some (request_text spelled.note) };

    fn fmt<W: fmt::Write>(&self, f: &mut fmt::Formatter<W>) -> fmt::Result {
        match &self.note {
            Request::Open { id, key } => write!(f, "open {id} {}", key.token()),
            Request::Make {
                id,
                key,
                source: Source::Template(name),
            } => write!(f, "make {id} {} {name}", key.token()),
            Request::Make {
                id,
                key,
                source: Source::Printed,
            } => write!(f, "make {id} {} -", key.token()),
            Request::Owner { key } => write!(f, "owner {}", key.token()),
            Request::Templates => write!(f, "templates"),
            Request::News => write!(f, "news"),
            Request::Keys => write!(f, "keys"),
        }
    }
}

/// The note that is this word alone.
fn read_alone(word: &[u8]) -> Option<Request>
    ensures { IsReadingOf request_word IsAlone word.now result }
{
    if word == b"templates".as_slice() {
        return Some(Request::Templates);
    }
    if word == b"news".as_slice() {
        return Some(Request::News);
    }
    if word == b"keys".as_slice() {
        return Some(Request::Keys);
    }
    None
}

/// The note with this word and these fields.
fn read_behind(word: &[u8], fields: &[u8]) -> Option<Request>
    ensures { IsRequestBehind word.now fields.now result }
{
    if word == b"open".as_slice() {
        return read_open(fields);
    }
    if word == b"make".as_slice() {
        return read_make(fields);
    }
    if word == b"owner".as_slice() {
        return read_owner(fields);
    }
    None
}

fn read_open(fields: &[u8]) -> Option<Request>
    ensures { IsRequestBehind (codes "open") fields.now result }
{
    let (id, key) = split(fields, b' ')?;
    Some(Request::Open {
        id: BoardId::read(id)?,
        key: Key::read(key)?,
    })
}

fn read_make(fields: &[u8]) -> Option<Request>
    ensures { IsRequestBehind (codes "make") fields.now result }
{
    let (id, made) = split(fields, b' ')?;
    let id = BoardId::read(id)?;
    let (key, source) = read_made(made)?;
    Some(Request::Make { id, key, source })
}

fn read_owner(fields: &[u8]) -> Option<Request>
    ensures { IsRequestBehind (codes "owner") fields.now result }
{
    Some(Request::Owner {
        key: Key::read(fields)?,
    })
}

/// The own key of a new board, and what that is made from.
fn read_made(fields: &[u8]) -> Option<(Key, Source)>
    ensures { IsReadingOf made_fields AreMadeFields fields.now result }
{
    let (key, source) = split(fields, b' ')?;
    Some((Key::read(key)?, read_source(source)?))
}

fn read_source(text: &[u8]) -> Option<Source>
    ensures { IsReadingOf source_text IsSource text.now result }
{
    if text == b"-".as_slice() {
        return Some(Source::Printed);
    }
    Some(Source::Template(TemplateName::read(text)?))
}
