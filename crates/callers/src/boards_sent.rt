//! A board as lines, and back.
ghost use Rattle.std.specs.Prelude.{◌≡◌, IfOk};
ghost use Rattle.jup_window.specs.Boards.{bare};

use jup_layout::{LayoutFault, board_of, lines_of};
use jup_window::Board;
use std::alloc::Global;

/// The lines of a board are that board, if it has fewer than 4,294,967,295 of them.
pub fn send_board(alloc: Global, board: &Board) -> Result<Board, LayoutFault>
    ensures { IfOk result (λ sent. bare sent ≡ bare board.now) }
{
    let Ok(lines) = lines_of(alloc, board) else {
        return Err(LayoutFault { line: 0, number: 8 });
    };
    if lines.as_slice().len() >= u32::MAX as usize {
        return Err(LayoutFault {
            line: u32::MAX,
            number: 11,
        });
    }
    board_of(alloc, lines.as_slice())
}
