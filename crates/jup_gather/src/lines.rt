//! The lines of a message.

ghost use Rattle.std.specs.Prelude.{◌≡◌, OnOk, IfOk};
ghost use Rattle.jup_gather.specs.Gathering.{message_lines};

use jup_batch::BoardBatch;
use jup_link::Msg;
use jup_wire::{Line, LineSink, Lines};
use jup_xform::NoMemory;
use std::alloc::Global;

/// Puts the lines of a message: its batch line, and a line for each operation, in order.
pub fn put_op<S: LineSink>(sink: &mut S, msg: &Msg<BoardBatch>) -> Result<(), S::Fault>
    ensures { OnOk result (S.takes sink.old (message_lines msg.now) sink.new) }
{
    let ops = msg.op.as_slice();
    sink.put(Line::Batch {
        mine: msg.mine,
        heard: msg.heard,
        count: ops.len() as u32,
    })?;
    for op in ops {
        sink.put(Line::Do(*op))?;
    }
    Ok(())
}

/// A message as lines, as [`put_op`] puts them.
pub fn lines_of_op(alloc: Global, msg: &Msg<BoardBatch>) -> Result<Lines, NoMemory>
    ensures { IfOk result (λ lines. lines ≡ message_lines msg.now) }
{
    let mut lines = Lines::new(alloc);
    put_op(&mut lines, msg)?;
    Ok(lines)
}
