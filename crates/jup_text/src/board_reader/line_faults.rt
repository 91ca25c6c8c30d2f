//! What is wrong with a line that a reader of boards does not take.

use crate::is_board_line;
use crate::quoted::read_quoted;
use crate::words::read_number;
use jup_setting::Toggle;
use jup_window::{Board, BoardFault, Widget};
use jup_wire::{VALUE_LINES, read_value, value_due};
use jup_xform::NoMemory;
use std::alloc::Global;
use std::error::Error;
use std::fmt;

/// Why a line of a board is bad.
#[derive(Clone, Copy, Debug, PartialEq, Eq)]
pub enum BoardLineFault {
    NoBoardLine,
    BadId,
    NoWindow,
    DoubleId,
    TooMany,
    BadText,
    BadLabels,
    /// The text of this id has so many characters.
    LongText(u16, u64),
    /// The list of this id has so many items.
    LongList(u16, u64),
    /// What is due after the id of a widget without items.
    BadValue(&'static str),
    OutOfBounds,
}

impl BoardLineFault {
    // The text that people read of it, without an id, a length and the lines of the kinds.
    fn text(self) -> &'static str {
        match self {
            BoardLineFault::NoBoardLine => "a line of a board is due",
            BoardLineFault::BadId => "an id from 1 to 65535 is due",
            BoardLineFault::NoWindow => "a window is due above its widgets",
            BoardLineFault::DoubleId => "the id is taken",
            BoardLineFault::TooMany => "64 are there already",
            BoardLineFault::BadText => "a text in quotes is due, in its one spelling",
            BoardLineFault::BadLabels =>
                "labels of 1 to 48 bytes in quotes are due, a space before each",
            BoardLineFault::LongText(..) => "a text is too long",
            BoardLineFault::LongList(..) => "a list is too long",
            BoardLineFault::BadValue(due) => due,
            BoardLineFault::OutOfBounds => "the value is not within the bounds",
        }
    }
}

impl fmt::Display for BoardLineFault {
    fn fmt<W: fmt::Write>(&self, f: &mut fmt::Formatter<W>) -> fmt::Result {
        let (kind, id, count, items) = match *self {
            BoardLineFault::NoBoardLine => {
                return write!(
                    f,
                    "`window W`, `text I Q`, `list I Q ..`, {VALUE_LINES} is due"
                );
            }
            BoardLineFault::LongText(id, count) => ("text", id, count, "characters"),
            BoardLineFault::LongList(id, count) => ("list", id, count, "items"),
            fault => return f.write_str(fault.text()),
        };
        write!(
            f,
            "{kind} {id} has {count} {items}, and a layout takes 65536"
        )
    }
}

impl Error for BoardLineFault {}

/// What is wrong with a line that was not taken after the lines of this board, the last of whose windows has this id. The board
/// itself says whether it refuses the id, before it asks for memory.
pub(super) fn line_fault(
    alloc: Global,
    mut board: Board,
    window: Option<u16>,
    line: &str,
) -> Result<BoardLineFault, NoMemory> {
    if !is_board_line(line) {
        return Ok(BoardLineFault::NoBoardLine);
    }
    let (word, rest) = line.split_once(' ').unwrap_or((line, ""));
    let (id, value) = rest.split_once(' ').unwrap_or((rest, ""));
    let Some(id) = id_of(id) else {
        return Ok(BoardLineFault::BadId);
    };
    let added = match (word, window) {
        ("window", _) => board.add_window(alloc, id),
        (_, None) => return Ok(BoardLineFault::NoWindow),
        (_, Some(win)) => board.add_widget(win, id, Widget::Toggle(Toggle { on: false })),
    };
    match added {
        Err(BoardFault::BadId) => Ok(BoardLineFault::BadId),
        Err(BoardFault::DoubleId) => Ok(BoardLineFault::DoubleId),
        Err(BoardFault::TooMany) => Ok(BoardLineFault::TooMany),
        _ if word == "text" || word == "list" => items_fault(alloc, word, id, value),
        _ => Ok(value_fault(word, rest)),
    }
}

fn id_of(word: &str) -> Option<u16> {
    match read_number(word)? {
        id @ 0..=0xFFFF => Some(id as u16),
        _ => None,
    }
}

// What is wrong after the id of a text or a list that the board takes.
fn items_fault(
    alloc: Global,
    word: &str,
    id: u16,
    value: &str,
) -> Result<BoardLineFault, NoMemory> {
    if word == "list" {
        return Ok(list_fault(id, value));
    }
    Ok(match read_quoted(alloc, value)? {
        Some(chars) => BoardLineFault::LongText(id, chars.len() as u64),
        None => BoardLineFault::BadText,
    })
}

// What is wrong after the word of a widget without items, or of a window, whose id the board takes. A line that is read says a
// value outside its bounds.
fn value_fault(word: &str, rest: &str) -> BoardLineFault {
    match (
        value_due(word),
        read_value(word.as_bytes(), rest.as_bytes()),
    ) {
        (None, _) => BoardLineFault::BadId,
        (Some(_), Some(_)) => BoardLineFault::OutOfBounds,
        (Some(due), None) => BoardLineFault::BadValue(due),
    }
}

// A list's line with too many quoted texts is too long; otherwise one of its labels is bad.
fn list_fault(id: u16, value: &str) -> BoardLineFault {
    let count = quoted_texts(value.as_bytes());
    if count > u64::from(jup_limits::LONGEST_SEQUENCE) {
        BoardLineFault::LongList(id, count)
    } else {
        BoardLineFault::BadLabels
    }
}

// How many quoted texts begin in a line. Every other quote begins one, unless a backslash escapes it.
fn quoted_texts(value: &[u8]) -> u64 {
    let (mut quotes, mut is_escaped) = (0u64, false);
    for byte in value {
        if *byte == b'"' && !is_escaped {
            quotes = quotes.saturating_add(1);
        }
        is_escaped = *byte == b'\\' && !is_escaped;
    }
    quotes.div_ceil(2)
}
