//! What is wrong with a line of a printed board.

use jup_text::BoardLineFault;
use thiserror::Error;

/// Why a line of a printed board is bad.
#[derive(Clone, Copy, Debug, Error)]
pub enum LineFault {
    #[error("the line is not UTF-8")]
    NotText,
    #[error("the line has no line feed")]
    Unended,
    /// It is no line of a board, or is refused after the lines before it.
    #[error("{0}")]
    Board(BoardLineFault),
}
