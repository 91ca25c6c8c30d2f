//! What a server says of a board before the link opens.
ghost use Rattle.std.specs.Prelude.{◌≡◌, ◌++◌, OnOk, OnErr, IfOk, codes, string_bytes};
ghost use Rattle.jup_number.specs.Numbers.{IsReadingOf};
ghost use Rattle.jup_resume.specs.Texts.{spelled};
ghost use Rattle.jup_keys.specs.Notes.{answer_text, IsAnswer, IsAnswerBehind};

use crate::key::Key;
use crate::makers::Makers;
use crate::right::Right;
use crate::template::TemplateName;
use jup_limits::NoMemory;
use jup_resume::{Token, split};
use std::alloc::{AllocError, Global};

/// A note by which a server answers who asks for a board. Each has one spelling.
///
/// It can hold a key, so it has neither `Display` nor `Debug`.
#[derive(Clone, Copy)]
pub enum Answer {
    /// `may own`, `may edit` or `may read`: what the key that was shown allows.
    May { right: Right },
    /// `may owner`: the client has shown the key of the server's owner, and may make boards.
    MayMake,
    /// `run HEX`: what names the time for which the board is open, spelled as a token.
    Run { name: Token },
    /// `key own KEY`, `key edit KEY` or `key read KEY`: a key of the board, and its right.
    Key { right: Right, key: Key },
    /// `create anyone`, `create owner` or `create nobody`: those that may make boards.
    Create { makers: Makers },
    /// `template NAME`: boards can be made from this template.
    Template { name: TemplateName },
}

impl Answer {
    /// The note that a line is, without its line feed.
    pub fn read(text: &[u8]) -> Option<Answer>
        ensures { IsReadingOf answer_text IsAnswer text.now result }
    {
        let (word, fields) = split(text, b' ')?;
        read_behind(word, fields)
    }

    /// Appends the note as a line. If memory lacks, it appends nothing.
    pub fn write(&self, alloc: Global, out: &mut Vec<u8>) -> Result<(), NoMemory>
        ensures ok { OnOk result (out.new.items ≡ out.old.items ++ spelled (answer_text self.now)) }
        ensures err { OnErr result (out.new.items ≡ out.old.items) }
    {
        let Ok(line) = self.line(alloc) else {
            return Err(NoMemory);
        };
        out.extend_from_slice(line.as_bytes()).map_err(|_| NoMemory)
    }

    /// The note as a line.
    fn line(&self, alloc: Global) -> Result<String, AllocError>
        ensures { IfOk result (λ line. string_bytes line ≡ spelled (answer_text self.now)) }
    {
        match self {
            Answer::May { right } => format!(in alloc; "may {right}\n"),
            Answer::MayMake => format!(in alloc; "may owner\n"),
            Answer::Run { name } => format!(in alloc; "run {name}\n"),
            Answer::Key { right, key } => format!(in alloc; "key {right} {}\n", key.token()),
            Answer::Create { makers } => format!(in alloc; "create {makers}\n"),
            Answer::Template { name } => format!(in alloc; "template {name}\n"),
        }
    }
}

/// The note with this word and these fields.
fn read_behind(word: &[u8], fields: &[u8]) -> Option<Answer>
    ensures { IsAnswerBehind word.now fields.now result }
{
    if word == b"may".as_slice() {
        return read_may(fields);
    }
    if word == b"run".as_slice() {
        return read_run(fields);
    }
    if word == b"key".as_slice() {
        return read_key(fields);
    }
    if word == b"create".as_slice() {
        return read_create(fields);
    }
    if word == b"template".as_slice() {
        return read_template(fields);
    }
    None
}

fn read_may(fields: &[u8]) -> Option<Answer>
    ensures { IsAnswerBehind (codes "may") fields.now result }
{
    if fields == b"owner".as_slice() {
        return Some(Answer::MayMake);
    }
    Some(Answer::May {
        right: Right::read(fields)?,
    })
}

fn read_run(fields: &[u8]) -> Option<Answer>
    ensures { IsAnswerBehind (codes "run") fields.now result }
{
    Some(Answer::Run {
        name: Token::read(fields)?,
    })
}

fn read_key(fields: &[u8]) -> Option<Answer>
    ensures { IsAnswerBehind (codes "key") fields.now result }
{
    let (right, key) = split(fields, b' ')?;
    Some(Answer::Key {
        right: Right::read(right)?,
        key: Key::read(key)?,
    })
}

fn read_create(fields: &[u8]) -> Option<Answer>
    ensures { IsAnswerBehind (codes "create") fields.now result }
{
    Some(Answer::Create {
        makers: Makers::read(fields)?,
    })
}

fn read_template(fields: &[u8]) -> Option<Answer>
    ensures { IsAnswerBehind (codes "template") fields.now result }
{
    Some(Answer::Template {
        name: TemplateName::read(fields)?,
    })
}
