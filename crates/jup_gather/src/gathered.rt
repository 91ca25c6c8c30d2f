//! What lines give.

use jup_batch::BoardBatch;
use jup_link::Msg;
use jup_wire::Line;

/// What a line gives, after those before it.
#[derive(Debug, Drop, PartialEq, Eq)]
pub enum Gathered {
    /// It is the last line of this message.
    Whole(Msg<BoardBatch>),
    /// It stands alone.
    Plain(Line),
    /// It is held: lines of its message are missing.
    Held,
    /// It has no place there, or one before it had none.
    Misplaced,
}
