//! The first line of a connection, which says whether it carries a link.
ghost use Rattle.std.specs.Prelude.{◌↔◌, IsTrue};
ghost use Rattle.jup_resume.specs.FirstLines.{IsOfCarrier, IsNoNote, NamesVersion, AsksFor};
ghost use Rattle.jup_resume.specs.Notes.{note_text, IsNote};

use crate::note::Note;
use crate::token::Token;
use jup_number::read_number;

/// What the first line of a connection asks for.
#[derive(Clone, Copy)]
pub enum FirstLine {
    /// A session that ends with its connection: the line is the first of protocol 3.
    Session,
    /// A link that can be resumed.
    Opens,
    /// To carry the link of this token, of which the client has taken so many lines.
    Resumes { token: Token, taken: u32 },
    /// Another version than 3 and 4. The answer is `error 42`.
    OtherVersion,
    /// Nothing, since it only begins as a note. The answer is `error 40`.
    Misspelled,
}

impl FirstLine {
    /// What a line asks for, given without its line feed.
    pub fn read(text: &[u8]) -> FirstLine
        ensures { AsksFor text.now result }
    {
        if !is_of_carrier(text) {
            return FirstLine::Session;
        }
        match Note::read(text) {
            Some(note) => asked_by(&note),
            None => refused(text),
        }
    }
}

/// What a note asks for.
fn asked_by(note: &Note) -> FirstLine
    requires note { IsNote note.now }
    requires carrier { IsOfCarrier (note_text note.now) }
    ensures { AsksFor (note_text note.now) result }
{
    match note {
        Note::Hello => FirstLine::Opens,
        Note::Resume { token, taken } => FirstLine::Resumes {
            token: *token,
            taken: *taken,
        },
        Note::Link { .. } | Note::Resumed { .. } | Note::Ended { .. } | Note::Got { .. } => {
            FirstLine::Misspelled
        }
    }
}

/// How a line that is no note is refused.
fn refused(text: &[u8]) -> FirstLine
    requires carrier { IsOfCarrier text.now }
    requires note { IsNoNote text.now }
    ensures { AsksFor text.now result }
{
    if names_version(text) {
        FirstLine::OtherVersion
    } else {
        FirstLine::Misspelled
    }
}

/// Whether bytes begin a first line that belongs to a carrier. The first seven bytes decide.
pub fn is_of_carrier(bytes: &[u8]) -> bool
    ensures { IsTrue result ↔ IsOfCarrier bytes.now }
{
    bytes.starts_with(b"hello 4") || bytes.starts_with(b"resume ")
}

/// Whether a line greets in a version of the protocol.
fn names_version(text: &[u8]) -> bool
    ensures { IsTrue result ↔ NamesVersion text.now }
{
    match text.strip_prefix(b"hello ") {
        Some(version) => read_number(version).is_some(),
        None => false,
    }
}
