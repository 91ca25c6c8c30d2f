//! What is wrong with a line of a script.

use jup_text::BoardLineFault;
use std::error::Error;
use std::fmt;

/// Why a line of a script is bad. All have the number 40.
#[derive(Clone, Copy, Debug, PartialEq, Eq)]
pub enum ScriptFault {
    NotText,
    Unended,
    Missing,
    Surplus,
    NoMode,
    NoPair,
    NoSetting,
    NoStart,
    NoTextEdit,
    NoEvent,
    NoCommand,
    NoBatch,
    BadLimit,
    BadNumber,
    BadInteger,
    BadSwitch,
    BadText,
    BadChar,
    NoBounds,
    OutOfBounds,
    LongText,
    /// It is a board's, and is refused after the lines before it.
    Board(BoardLineFault),
}

impl ScriptFault {
    // The text that people read of it.
    fn text(self) -> &'static str {
        match self {
            ScriptFault::NotText => "the line is not UTF-8",
            ScriptFault::Unended => "the line has no line feed",
            ScriptFault::Missing => "the script ends where a line is due",
            ScriptFault::Surplus => "the line is one too many",
            ScriptFault::NoMode => "`pair WIDGET`, `two` or `star LIMIT` is due",
            ScriptFault::NoPair => "`toggle START` or `slider LO HI START` is due",
            ScriptFault::NoSetting => "`client VALUE` and then `server VALUE` are due",
            ScriptFault::NoStart => "`start Q` is due",
            ScriptFault::NoTextEdit => "`ins PLACE Q` or `del PLACE` is due",
            ScriptFault::NoEvent => "the line is no event",
            ScriptFault::NoCommand =>
                "`ins W I PLACE char Q`, `ins W I PLACE item Q`, `del W I PLACE`, `rel W I PLACE Q` or `set W I VALUE` is due",
            ScriptFault::NoBatch => "`batch K` is due, K from 0 to 64",
            ScriptFault::BadLimit => "a limit from 1 to 16777216 is due",
            ScriptFault::BadNumber =>
                "a number up to 4294967295 is due, with no sign and no leading zero",
            ScriptFault::BadInteger =>
                "a number from -2147483648 to 2147483647 is due, with no plus sign, no leading zero and no -0",
            ScriptFault::BadSwitch => "`on` or `off` is due",
            ScriptFault::BadText => "a text in quotes is due, in its one spelling",
            ScriptFault::BadChar => "one character in quotes is due, in its one spelling",
            ScriptFault::NoBounds => "`LO HI VALUE` is due",
            ScriptFault::OutOfBounds => "the value is not within the bounds",
            ScriptFault::LongText => "a text or a list has more than 65536 items",
            ScriptFault::Board(_) => "the line of the board is bad",
        }
    }
}

impl fmt::Display for ScriptFault {
    fn fmt<W: fmt::Write>(&self, f: &mut fmt::Formatter<W>) -> fmt::Result {
        match self {
            ScriptFault::Board(fault) => write!(f, "{fault}"),
            fault => f.write_str(fault.text()),
        }
    }
}

impl Error for ScriptFault {}
