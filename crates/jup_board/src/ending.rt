//! Why the program ends early.
ghost use Rattle.std.specs.Prelude.{◌≡◌, ◌≤◌};
ghost use Rattle.jup_board.specs.Boards.{board_end_status};

use crate::LineFault;
use jup_layout::LayoutFault;
use jup_xform::NoMemory;
use std::io;
use std::io::ErrorKind;
use thiserror::Error;

/// Why a board is not made a layout, or a layout not printed.
#[derive(Debug, Drop, Error)]
pub enum BoardEnd {
    /// The line of this number, from 1, is no line of a printed board, or is refused there.
    #[error("line {0}: bad board")]
    Line(u32, LineFault),
    #[error("layout {0}")]
    Layout(LayoutFault),
    /// A text is too long to be read as a board.
    #[error("board too long")]
    LongBoard,
    /// A text is too long to be read as a layout.
    #[error("layout too long")]
    LongInput,
    /// The layout of a board has so many bytes, more than a layout may have.
    #[error("layout too long")]
    LongLayout(u64),
    /// The input can't be read.
    #[error("io fault")]
    Unread,
    /// What was made can't be printed.
    #[error("io fault")]
    Unprinted,
    #[error("{}", NoMemory)]
    NoMemory,
}

impl BoardEnd {
    /// The end of a failed read or write: this one, unless memory ran out.
    pub fn of_failure(end: BoardEnd, error: &io::Error) -> BoardEnd {
        if error.kind() == ErrorKind::OutOfMemory {
            BoardEnd::NoMemory
        } else {
            end
        }
    }

    /// The exit status of a program that ends so.
    pub fn status(&self) -> u8
        ensures status { result ≡ board_end_status self.now }
        ensures most { result ≤ 5 }
    {
        match self {
            BoardEnd::Unread | BoardEnd::Unprinted => 1,
            BoardEnd::NoMemory => 3,
            BoardEnd::Line(..)
            | BoardEnd::Layout(_)
            | BoardEnd::LongBoard
            | BoardEnd::LongInput
            | BoardEnd::LongLayout(_) => 5,
        }
    }
}

impl From<LayoutFault> for BoardEnd {
    fn from(fault: LayoutFault) -> BoardEnd {
        // A layout for which an allocation failed has no line.
        if fault.line == 0 {
            BoardEnd::NoMemory
        } else {
            BoardEnd::Layout(fault)
        }
    }
}
