//! A board from the text that it is printed as.
ghost use Rattle.std.specs.Prelude.{◌≡◌, ◌<◌, ◌^◌, length, IfOk, IsOkUnless};
ghost use Rattle.jup_text.specs.Boards.{board_text};
ghost use Rattle.jup_board.specs.declared.ending.BoardEnd.TheVariants as ends;
ghost use Rattle.jup_board.specs.Prelude.{Windows};
ghost use Rattle.jup_board.specs.Boards.{AreAscending, IsPrinted, IsPrintOf};

use crate::heading::behind_heading;
use crate::lines::BoardLines;
use crate::{BoardEnd, LineFault};
use jup_text::{BoardReader, UnreadLine};
use jup_window::Board;
use jup_xform::NoMemory;
use std::alloc::Global;

/// The board that a text prints, windows and widgets in any order of ids. The lines `listening ADDR` and `order K`, which a server
/// prints, may come before it. The items are named 0.1, 0.2 and so on in the order of the lines.
pub fn read_printed(alloc: Global, text: &[u8]) -> Result<Board, BoardEnd>
    ensures board { IfOk result (λ made. IsPrintOf made text.now) }
    // A board that is read from what another is printed as is printed as that.
    ensures again { IfOk result (λ made. (windows : Windows) → AreAscending windows → text.now ≡ board_text windows → board_text made ≡ text.now) }
    ensures every { length text.now < 2 ^ 32 → IsPrinted text.now → IsOkUnless result ends.NoMemory }
{
    let (rest, passed) = behind_heading(text);
    let mut lines = BoardLines::new(rest, passed);
    let mut reader = BoardReader::new(alloc);
    while let Some(line) = lines.next_line()? {
        match reader.take(alloc, line) {
            Ok(()) => {}
            Err(UnreadLine::NoMemory) => return Err(BoardEnd::NoMemory),
            Err(UnreadLine::BadLine) => return Err(refusal(alloc, reader, line, &lines)),
        }
    }
    Ok(reader.whole())
}

// Why the line that was read last is not taken after those before it.
fn refusal(alloc: Global, reader: BoardReader, line: &str, lines: &BoardLines<'_>) -> BoardEnd {
    match reader.fault(alloc, line) {
        Ok(fault) => lines.bad(LineFault::Board(fault)),
        Err(NoMemory) => BoardEnd::NoMemory,
    }
}
