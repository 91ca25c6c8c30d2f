//! Printed boards as layouts, and layouts as printed boards.
ghost use Rattle.std.specs.Prelude.{◌≡◌, ◌⊎◌, ◌≤◌, length, Err, IfOk, IfErr};
ghost use Rattle.jup_limits.specs.Limits.{longest_input};
ghost use Rattle.jup_layout.specs.Drafts.{Describes, no_memory};
ghost use Rattle.jup_board.specs.Boards.{IsLayoutOfPrinted, IsPrintOfLayout};

use crate::{BoardEnd, read_printed, write_layout};
use jup_layout::{LayoutFault, layout};
use jup_text::write_board;
use jup_xform::NoMemory;
use std::alloc::Global;

/// The layout of the board that a text prints.
pub fn layout_of_printed(alloc: Global, text: &[u8]) -> Result<Vec<u8>, BoardEnd>
    ensures { IfOk result (λ made. IsLayoutOfPrinted text.now made.items) }
{
    let board = read_printed(alloc, text)?;
    write_layout(alloc, &board)
}

/// The board of a layout, as it is printed.
pub fn printed_of_layout(alloc: Global, text: &[u8]) -> Result<Vec<u8>, LayoutFault>
    requires { length text.now ≤ longest_input }
    ensures printed { IfOk result (λ made. IsPrintOfLayout text.now made.items) }
    ensures fault { IfErr result (λ fault. (fault ≡ no_memory) ⊎ Describes text.now (Err fault)) }
{
    let board = layout(alloc, text)?;
    let mut made = Vec::new(alloc);
    match write_board(alloc, &board, &mut made) {
        Ok(()) => Ok(made),
        Err(NoMemory) => Err(LayoutFault {
            line: 0,
            number: NoMemory.number(),
        }),
    }
}
