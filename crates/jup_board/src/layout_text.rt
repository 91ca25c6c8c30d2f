//! The bytes of a board's layout.
ghost use Rattle.std.specs.Prelude.{◌≡◌, ◌≤◌, [], length, vec_len, IfOk};
ghost use Rattle.jup_limits.specs.Limits.{longest_input};
ghost use Rattle.jup_board.specs.Boards.{IsLayoutOf};

use crate::BoardEnd;
use jup_layout::put_board;
use jup_limits::LONGEST_INPUT;
use jup_value::Name;
use jup_window::{Board, Within};
use jup_wire::{Line, LineSink, MOST, write_reserved};
use jup_xform::NoMemory;
use std::alloc::Global;
use std::marker::{Model, PhantomData};

/// The layout of a board, its items named 0.1, 0.2 and so on in the order of its lines. One of more than 16,777,216 bytes is
/// refused with its length.
pub fn write_layout(alloc: Global, board: &Board) -> Result<Vec<u8>, BoardEnd>
    ensures layout { IfOk result (λ made. IsLayoutOf board.now made.items) }
    ensures short { IfOk result (λ made. vec_len made ≤ longest_input) }
{
    let mut sink = LayoutText::new(alloc);
    if let Err(NoMemory) = put_board(&mut sink, board) {
        return Err(BoardEnd::NoMemory);
    }
    sink.whole()
}

/// Takes lines, names their items, and gathers their bytes. Once these are too many for a layout they are only counted.
#[derive(Drop)]
struct LayoutText {
    text: Vec<u8>,
    // The number of the last item.
    last: u32,
    // How many bytes were dropped.
    dropped: u64,
}

impl Model for LayoutText {
    ghost use Rattle.jup_board.specs.Boards.{Gathered};

    ghost Value = { Gathered };

    ghost view = { λ a. (a.text.items, a.last, a.dropped) };
}

impl LayoutText {
    ghost use Rattle.std.specs.Prelude.{◌+◌, OnOk};
    ghost use Rattle.jup_board.specs.Boards.{item_name, numbered_line, number_after};

    // No line yet. It takes no memory.
    fn new(alloc: Global) -> LayoutText
        ensures { result ≡ ([], 0, 0) }
    {
        LayoutText {
            text: Vec::new(alloc),
            last: 0,
            dropped: 0,
        }
    }

    // The layout, or how long it is if it is too long.
    fn whole(self) -> Result<Vec<u8>, BoardEnd>
        ensures whole { IfOk result (λ made. made.items ≡ self.0) }
        ensures all { IfOk result (λ made. self.2 ≡ 0) }
        ensures short { IfOk result (λ made. vec_len made ≤ longest_input) }
    {
        let bytes = self.text.len() as u64;
        if self.dropped > 0 || bytes > LONGEST_INPUT {
            return Err(BoardEnd::LongLayout(self.dropped.saturating_add(bytes)));
        }
        Ok(self.text)
    }

    // The line as it is in a layout: an item has the next number. So many numbers that they end would take more memory than any
    // board that is read.
    fn numbered(&mut self, line: Line) -> Result<Line, NoMemory>
        ensures line { IfOk result (λ made. made ≡ numbered_line self.old.1 line) }
        ensures counted { OnOk result (self.new ≡ (self.old.0, number_after self.old.1 line, self.old.2)) }
    {
        let line = match line {
            Line::Char(_, value) => Line::Char(self.next_name()?, value),
            Line::Item(_, label) => Line::Item(self.next_name()?, label),
            line => line,
        };
        Ok(line)
    }

    fn next_name(&mut self) -> Result<Name, NoMemory>
        ensures name { IfOk result (λ name. name ≡ item_name (self.old.1 + 1)) }
        ensures counted { OnOk result (self.new ≡ (self.old.0, self.old.1 + 1, self.old.2)) }
    {
        let Some(number) = self.last.checked_add(1) else {
            return Err(NoMemory);
        };
        self.last = number;
        Ok(Name { site: 0, number })
    }

    // Drops the bytes so far if they are too many for a layout.
    fn shorten(&mut self)
        ensures kept { self.new.2 ≡ 0 → self.new ≡ self.old }
        ensures number { self.new.1 ≡ self.old.1 }
    {
        let bytes = self.text.len() as u64;
        if bytes > LONGEST_INPUT {
            self.dropped = self.dropped.saturating_add(bytes);
            self.text.clear();
        }
    }
}

impl LineSink for LayoutText {
    ghost use Rattle.jup_board.specs.Boards.{PutsNumbered, puts_none, puts_more};

    type Fault = NoMemory;

    ghost takes = { PutsNumbered };

    ghost takes_none = { puts_none };

    ghost takes_more = { puts_more };

    fn put(&mut self, line: Line) -> Result<(), NoMemory> {
        let _of: Within = PhantomData;
        let line = self.numbered(line)?;
        if self.text.reserve(MOST).is_err() {
            return Err(NoMemory);
        }
        write_reserved(&line, &mut self.text);
        self.shorten();
        Ok(())
    }
}
