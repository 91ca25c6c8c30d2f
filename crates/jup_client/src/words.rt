//! Words for people: the lines that a user types, and what a client prints.
ghost use Rattle.std.specs.Prelude.{IfOk, ◌≡◌, [], Some, OnOk, OnErr, IsTrue, ◌↔◌, ◌++◌, ◌∷◌, decimal};
ghost use Rattle.jup_client.specs.Clients.{typed_on, text_of};
ghost use Rattle.jup_client.specs.Clients as texts;

use crate::Told;
use jup_text::{write_board, write_edit};
use jup_window::Board;
use jup_xform::NoMemory;
use std::alloc::Global;
use std::marker::Model;

/// The longest line, without its line feed.
const LONGEST_TYPED: usize = 4_096;

/// A line of a user, byte by byte. Contracts see its bytes, and nothing once it has more than 4,096.
#[derive(Drop)]
pub struct TypedLine {
    bytes: Vec<u8>,
    is_long: bool,
}

impl Model for TypedLine {
    ghost use Rattle.std.specs.Prelude.{ℕ, List, Option, Some, None, if◌then◌else◌};

    ghost Value = { Option (List ℕ) };

    ghost view = { λ l. if l.is_long then None else Some l.bytes.items };
}

impl TypedLine {
    /// An empty line.
    pub fn new(alloc: Global) -> TypedLine
        ensures { result ≡ Some [] }
    {
        TypedLine {
            bytes: Vec::new(alloc),
            is_long: false,
        }
    }

    /// Begins a new one.
    pub fn clear(&mut self)
        ensures { self.new ≡ Some [] }
    {
        self.bytes.clear();
        self.is_long = false;
    }

    /// Whether no byte has come.
    pub fn is_empty(&self) -> bool
        ensures { IsTrue result ↔ (self.now ≡ Some []) }
    {
        !self.is_long && self.bytes.is_empty()
    }

    /// One more byte.
    pub fn push(&mut self, byte: u8) -> Result<(), NoMemory>
        ensures ok { OnOk result (self.new ≡ typed_on self.old byte) }
        ensures err { OnErr result (self.new ≡ self.old) }
    {
        if self.bytes.len() >= LONGEST_TYPED {
            self.is_long = true;
            return Ok(());
        }
        match self.bytes.push(byte) {
            Ok(()) => Ok(()),
            Err(_) => Err(NoMemory),
        }
    }

    /// What is read of it: one that is too long is read as an empty one, which is no command either.
    pub fn text(&self) -> &[u8]
        ensures { result.now ≡ text_of self.now }
    {
        if self.is_long {
            return &[];
        }
        self.bytes.as_slice()
    }
}

/// What a client prints for its user, each line with its line feed.
pub fn told_text(alloc: Global, told: &Told, board: &Board) -> Result<Vec<u8>, NoMemory>
    ensures { IfOk result (λ text. text.items ≡ texts.told_text told.now board.now) }
{
    let mut text = Vec::new(alloc);
    match told {
        Told::Site(number) => append_number(alloc, "site", *number as usize, &mut text)?,
        Told::Made(edits) => {
            append(b"made ", &mut text)?;
            write_edit(alloc, edits, &mut text)?;
            append(b"\n", &mut text)?;
        }
        Told::Refused(fault) => append_number(
            alloc,
            "refused",
            fault.number() as usize,
            &mut text,
        )?,
        Told::Synced => append(b"synced\n", &mut text)?,
        Told::Board => write_board(alloc, board, &mut text)?,
        Told::Bye => append(b"bye\n", &mut text)?,
        Told::BadCommand => append(b"bad command\n", &mut text)?,
    }
    Ok(text)
}

fn append(bytes: &[u8], text: &mut Vec<u8>) -> Result<(), NoMemory>
    ensures { OnOk result (text.new.items ≡ text.old.items ++ bytes.now) }
{
    text.extend_from_slice(bytes).map_err(|_| NoMemory)
}

fn append_number(
    alloc: Global,
    word: &str,
    number: usize,
    text: &mut Vec<u8>,
) -> Result<(), NoMemory>
    ensures { OnOk result (text.new.items ≡ text.old.items ++ (word.now ++ 32 ∷ (decimal number ++ 10 ∷ []))) }
{
    let Ok(line) = format!(in alloc; "{word} {number}\n") else {
        return Err(NoMemory);
    };
    append(line.as_bytes(), text)
}
