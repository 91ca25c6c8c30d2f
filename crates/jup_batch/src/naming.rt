//! The operations that commands become one after another. The board stays as it is, and no memory is taken.
ghost use Rattle.std.specs.Prelude.{◌≡◌, ◌+◌, ◌<◌, ◌≤◌, length, Ok, Err, IfErr, OnOk};
ghost use Rattle.jup_xform.specs.Grids.{after_all, AreValid};
ghost use Rattle.jup_window.specs.Boards.{bare};
ghost use Rattle.jup_window.specs.Operations.{boards, board_operations};
ghost use Rattle.jup_window.specs.Commands.{named, edit_fault_number};
ghost use Rattle.jup_batch.specs.Batched.{AreKnown, operations_of};

use crate::later::told_after;
use jup_limits::MOST_OPERATIONS;
use jup_value::Name;
use jup_window::{Board, BoardOp, Command, EditFault};

/// The most commands that a batch is made of.
pub const MOST_COMMANDS: usize = MOST_OPERATIONS as usize;

/// The operation that a command becomes on the board as it is after some operations, each of which may be applied
/// after those before it. It is an insertion under the given name, or a deletion or a relabel of the item that is
/// then at the place. The refusals are those of [`Board::name_it`] there.
pub fn name_after(
    board: &Board,
    command: &Command,
    name: Name,
    earlier: &[BoardOp],
) -> Result<BoardOp, EditFault>
    requires { AreValid boards earlier.now (bare board.now) }
    ensures named { result
        ≡ named command.now name (after_all boards earlier.now (bare board.now)) }
    ensures low { IfErr result (λ fault. edit_fault_number fault ≤ 6) }
{
    let (win, wid) = command.ids();
    let widget = board.named_widget(win, wid)?;
    told_after(command, name, earlier, widget)
}

/// Writes the operations that commands become, each on the board as it is after those before it. They get the next
/// names of the site, which named `count` insertions before. It answers the first refusal; which operations were
/// written by then is left open.
pub fn name_all(
    board: &Board,
    commands: &[Command],
    site: u32,
    count: u32,
    ops: &mut [BoardOp],
) -> Result<(), EditFault>
    requires long { length ops.old ≡ length commands.now }
    requires count { count + length commands.now < 4294967295 }
    requires known { AreKnown board_operations (bare board.now) site count }
    ensures ok { OnOk result
        (operations_of board_operations (bare board.now) commands.now site count ≡ Ok ops.new) }
    ensures refused { IfErr result
        (λ fault. operations_of board_operations (bare board.now) commands.now site count ≡ Err fault) }
    ensures low { IfErr result (λ fault. edit_fault_number fault ≤ 6) }
{
    let mut next = count;
    for (at, command) in commands.iter().enumerate() {
        let name = Name {
            site,
            number: next + 1,
        };
        let op = name_after(board, command, name, &ops[..at])?;
        next += op.meaning().insertions();
        ops[at] = op;
    }
    Ok(())
}
