//! An edit as lines, and back.
ghost use Rattle.std.specs.Prelude.{◌≡◌, Some, IfOk};

use jup_batch::BoardBatch;
use jup_gather::{Gather, Gathered, lines_of_op, message_comes_whole};
use jup_link::Msg;
use jup_xform::NoMemory;
use std::alloc::Global;

/// An edit goes over as lines, and comes out of them as the edit that it was.
pub fn send_edit(alloc: Global, msg: &Msg<BoardBatch>) -> Result<Option<Msg<BoardBatch>>, NoMemory>
    ensures { IfOk result (λ sent. sent ≡ Some msg.now) }
{
    message_comes_whole();
    // It says that an edit has 1 to 32 operations.
    let _ops = msg.op.as_slice();
    let mut gather = Gather::new();
    let mut sent = None;
    for line in lines_of_op(alloc, msg)?.as_slice() {
        sent = match gather.push(alloc, line)? {
            Gathered::Whole(msg) => Some(msg),
            Gathered::Plain(_) | Gathered::Held | Gathered::Misplaced => None,
        };
    }
    Ok(sent)
}
