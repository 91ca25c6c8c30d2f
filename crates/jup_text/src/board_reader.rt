//! Boards that are read line by line, as they are printed. The items are named 0.1, 0.2 and so on, through
//! the whole board in the order of its lines.
ghost use Rattle.std.specs.Prelude.{◌≡◌, ℕ, List, [], ◌++◌, Some, None, OnOk, OnErr, IsOkUnless, codes};
ghost use Rattle.jup_window.specs.Entries.{widget_fault};
ghost use Rattle.jup_text.specs.declared.board_reader.UnreadLine.TheVariants as untaken;
ghost use Rattle.jup_text.specs.Boards.{IsTaken, TakesWindow, TakesWidget, IsNext, IsNextWindow, IsWidgetLine};

use self::line_faults::line_fault;
use self::widget_lines::{WidgetLine, read_widget};
use super::words::{id_of, next_word};
use jup_window::{Board, BoardFault};
use jup_wire::value_due;
use jup_xform::NoMemory;
use std::alloc::Global;
use std::marker::Model;

mod line_faults;
mod numbered;
mod widget_lines;

pub use line_faults::BoardLineFault;

/// Why a line of a board is not taken.
#[derive(Clone, Copy, Debug, PartialEq, Eq)]
pub enum UnreadLine {
    BadLine,
    NoMemory,
}

impl From<BoardFault> for UnreadLine {
    ghost use Rattle.jup_window.specs.declared.faults.BoardFault.TheVariants as faults;
    ghost use Rattle.jup_text.specs.declared.board_reader.UnreadLine.TheVariants as untaken;

    ghost from_gives = { λ fault made. fault ≡ faults.NoMemory → made ≡ untaken.NoMemory };

    fn from(fault: BoardFault) -> UnreadLine {
        match fault {
            BoardFault::NoMemory => UnreadLine::NoMemory,
            _ => UnreadLine::BadLine,
        }
    }
}

/// Whether the first word of a line is one of a board's.
pub fn is_board_line(line: &str) -> bool {
    let (word, _) = line.split_once(' ').unwrap_or((line, ""));
    matches!(word, "window" | "text" | "list") || value_due(word).is_some()
}

/// Reads a board line by line, as it is printed.
///
/// Contracts see the board so far, its last window, and the number of its last item.
#[derive(Drop)]
pub struct BoardReader {
    board: Board,
    // The widgets that follow belong to this window.
    window: Option<u16>,
    // The number of the last item.
    last: u32,
}

impl Model for BoardReader {
    ghost use Rattle.jup_text.specs.Boards.{Draft};

    ghost Value = { Draft };

    ghost view = { λ r. (r.board, r.window, r.last) };
}

impl BoardReader {
    /// No line was read yet. It takes no memory.
    pub fn new(alloc: Global) -> BoardReader
        ensures { result ≡ ([], None, 0) }
    {
        BoardReader {
            board: Board::new(alloc),
            window: None,
            last: 0,
        }
    }

    /// The board that the lines describe.
    pub fn whole(self) -> Board
        ensures { result ≡ self.0 }
    {
        self.board
    }

    /// Takes one more line. A line that is refused, also because an allocation failed, leaves all as it was.
    pub fn take(&mut self, alloc: Global, line: &str) -> Result<(), UnreadLine>
        ensures ok { OnOk result (IsTaken self.old line.now self.new) }
        ensures err { OnErr result (self.new ≡ self.old) }
        ensures every { IsNext self.old line.now → IsOkUnless result untaken.NoMemory }
    {
        let Some((word, rest)) = next_word(line.as_bytes()) else {
            return Err(UnreadLine::BadLine);
        };
        if word == b"window".as_slice() {
            return self.take_window(alloc, rest);
        }
        let read = read_widget(alloc, self.last, word, rest)?;
        self.put(read)
    }

    /// What is wrong with a line that [`take`](BoardReader::take) calls bad.
    pub fn fault(self, alloc: Global, line: &str) -> Result<BoardLineFault, NoMemory> {
        line_fault(alloc, self.board, self.window, line)
    }

    // Takes the line of a window, whose id this is.
    fn take_window(&mut self, alloc: Global, id: &[u8]) -> Result<(), UnreadLine>
        ensures ok { OnOk result (TakesWindow self.old (codes "window " ++ id.now) self.new) }
        ensures err { OnErr result (self.new ≡ self.old) }
        ensures every { IsNextWindow self.old (codes "window " ++ id.now) → IsOkUnless result untaken.NoMemory }
    {
        let Some(win) = id_of(id) else {
            return Err(UnreadLine::BadLine);
        };
        self.board.add_window(alloc, win)?;
        self.window = Some(win);
        Ok(())
    }

    // Adds the widget of a line to the last window.
    fn put(&mut self, read: WidgetLine) -> Result<(), UnreadLine>
        ensures ok { (line : List ℕ) → IsWidgetLine self.old.2 line read.wid read.widget read.last
            → OnOk result (TakesWidget self.old line self.new) }
        ensures err { OnErr result (self.new ≡ self.old) }
        ensures every { (win : ℕ) → self.old.1 ≡ Some win → widget_fault win read.wid self.old.0 ≡ None
            → IsOkUnless result untaken.NoMemory }
    {
        let WidgetLine { wid, widget, last } = read;
        let Some(win) = self.window else {
            return Err(UnreadLine::BadLine);
        };
        self.board.add_widget(win, wid, widget)?;
        self.last = last;
        Ok(())
    }
}
