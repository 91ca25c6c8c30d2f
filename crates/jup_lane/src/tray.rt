//! What a reader was given.
ghost use Rattle.std.specs.Prelude.{◌≡◌, ◌++◌, ◌∷◌, [], List, ℕ, length, drop, IfOk, OnOk, OnErr, IsTrue, ◌↔◌};
ghost use Rattle.jup_wire.specs.declared.line.Line.{Line};
ghost use Rattle.jup_wire.specs.Lines.{line_text, HasSpelling};
ghost use Rattle.jup_lane.specs.Lanes.{bytes_of, IsFirstRead, codec, Leads, TakesLine};

use crate::first::{count, first_of, is_short, single};
use jup_gather::{Message, message_of};
use jup_window::Within;
use jup_wire::{Line, Reader, feed_of, read_line};
use jup_xform::NoMemory;
use std::alloc::Global;
use std::collections::VecDeque;
use std::marker::{Model, PhantomData};

/// The lines that were read and not handed over, and the part of a line that the reader holds. Contracts see their bytes.
#[derive(Drop)]
pub(crate) struct Tray {
    lines: VecDeque<Line>,
    reader: Reader,
    within: PhantomData<Within>,
}

// Drops the oldest lines.
fn drop_lines(lines: &mut VecDeque<Line>, count: usize)
    ensures { lines.new.items ≡ drop count lines.old.items }
{
    for _ in 0..count {
        lines.pop_front();
    }
}

// Puts the line that a text spells last.
fn push_spelled(lines: &mut VecDeque<Line>, text: &[u8]) -> Result<(), NoMemory>
    requires { (line : Line) × HasSpelling line × (text.now ≡ line_text line) }
    ensures ok { OnOk result ((line : Line) × HasSpelling line × (text.now ≡ line_text line) × (lines.new.items ≡ lines.old.items ++ line ∷ [])) }
    ensures err { OnErr result (lines.new.items ≡ lines.old.items) }
{
    let _of: Within = PhantomData;
    lines.reserve(1).map_err(|_| NoMemory)?;
    match read_line(text) {
        Ok(line) => lines.push_back_reserved(line),
        Err(_) => unreachable!(),
    }
    Ok(())
}

impl Model for Tray {
    ghost use Rattle.std.specs.Prelude.{ℕ, List};
    ghost use Rattle.jup_lane.specs.Lanes.{tray_bytes, IsTray};

    ghost Value = { List ℕ };

    ghost view = { λ a. tray_bytes a.lines.items a.reader };

    ghost invariant = { λ a. IsTray a.lines.items a.reader };
}

impl Tray {
    pub(crate) fn new(alloc: Global) -> Tray
        ensures { result ≡ [] }
    {
        Tray {
            lines: VecDeque::new(alloc),
            reader: Reader::new(),
            within: PhantomData,
        }
    }

    pub(crate) fn is_empty(&self) -> bool
        ensures { IsTrue result ↔ (self.now ≡ []) }
    {
        match self.reader.finish() {
            Ok(()) => self.lines.is_empty(),
            Err(_) => false,
        }
    }

    /// Takes more bytes of lines.
    pub(crate) fn take_in(&mut self, alloc: Global, bytes: &[u8]) -> Result<(), NoMemory>
        requires { Leads (self.old ++ bytes.now) }
        ensures ok { OnOk result (self.new ≡ self.old ++ bytes.now) }
        ensures err { OnErr result (self.new ≡ self.old) }
    {
        if bytes.is_empty() {
            return Ok(());
        }
        let mut reader = self.reader.copy();
        let fed = reader.feed(alloc, bytes)?;
        let mut lines = VecDeque::from_vec(fed.lines.into_items());
        self.lines.append(&mut lines).map_err(|_| NoMemory)?;
        self.reader = reader;
        Ok(())
    }

    /// Takes the bytes through the next line feed, if there is one, and answers how many.
    pub(crate) fn take_line(
        &mut self,
        alloc: Global,
        stream: &[u8],
    ) -> Result<Option<usize>, NoMemory>
        requires { Leads (self.old ++ stream.now) }
        ensures ok { IfOk result (λ count. TakesLine self.old stream.now count self.new) }
        ensures err { OnErr result (self.new ≡ self.old) }
    {
        let Some(at) = feed_of(stream) else {
            return Ok(None);
        };
        let Ok(()) = self.reader.finish() else {
            self.take_in(alloc, &stream[..at + 1])?;
            return Ok(Some(at + 1));
        };
        // The reader holds no part of a line, so this one is read in place.
        push_spelled(&mut self.lines, &stream[..at])?;
        Ok(Some(at + 1))
    }

    /// The message that its bytes begin with, if all its bytes are there.
    pub(crate) fn first<M: Message>(&self, alloc: Global) -> Result<Option<M>, NoMemory>
        ensures { IfOk result (λ first. IsFirstRead (codec M.Message) self.now first) }
    {
        if is_short(&self.lines) {
            return Ok(None);
        }
        // Most messages are of one operation, and need no gathering.
        if let Some(msg) = single(&self.lines) {
            return Ok(Some(M::edit(msg)));
        }
        match first_of(alloc, &self.lines)? {
            Some(gathered) => Ok(message_of(gathered).ok()),
            None => Ok(None),
        }
    }

    /// Drops the message that its bytes begin with.
    pub(crate) fn drop_first<M: Message>(&mut self, message: &M)
        requires { (later : List ℕ) × (codec M.Message).IsSpelled message.now × (self.old ≡ bytes_of (codec M.Message) message.now ++ later) }
        ensures { self.old ≡ bytes_of (codec M.Message) message.now ++ self.new }
    {
        drop_lines(&mut self.lines, count(message));
    }
}
