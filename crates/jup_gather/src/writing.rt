//! The bytes of a message.
ghost use Rattle.std.specs.Prelude.{◌≡◌, ◌≤◌, ◌++◌};
ghost use Rattle.std.specs.List.{flat_map, AllByRecursion};
ghost use Rattle.std.specs.Vec.{vec_capacity};
ghost use Rattle.jup_star.specs.Messages.{RelabelNoText};
ghost use Rattle.jup_wire.specs.Lines.{line_bytes, IsLine};
ghost use Rattle.jup_wire.specs.Streams.{HasRoom};
ghost use Rattle.jup_gather.specs.Gathering.{message_lines, piece_lines};

use crate::ways::{Message, Shape};
use jup_batch::BoardBatch;
use jup_limits::MOST_OPERATIONS;
use jup_link::Msg;
use jup_wire::{LONGEST, Line, write_reserved};

/// No batch line has a longer spelling.
const LONGEST_BATCH: usize = 31;

/// No message has a longer spelling: a batch line, and 32 more lines.
pub const MOST_MESSAGE: usize = LONGEST_BATCH + MOST_OPERATIONS as usize * LONGEST;

/// Appends the lines of a message for which there is room. It takes no memory.
pub fn write_message<M: Message>(message: &M, out: &mut Vec<u8>)
    requires { HasRoom out.old MOST_MESSAGE }
    ensures items { out.new.items ≡ out.old.items ++ flat_map line_bytes (piece_lines (M.piece message.now)) }
    ensures spelled { M.may_go message.now → AllByRecursion (λ line. IsLine (line_bytes line) line) (piece_lines (M.piece message.now)) }
    ensures capacity { vec_capacity out.old ≤ vec_capacity out.new }
{
    match message.shape() {
        Shape::Edit(msg) => write_op(msg, out),
        Shape::Alone(line) => write_reserved(&line, out),
    }
}

// The same of an edit.
fn write_op(msg: &Msg<BoardBatch>, out: &mut Vec<u8>)
    requires { HasRoom out.old MOST_MESSAGE }
    ensures items { out.new.items ≡ out.old.items ++ flat_map line_bytes (message_lines msg.now) }
    ensures spelled { RelabelNoText msg.now.op → AllByRecursion (λ line. IsLine (line_bytes line) line) (message_lines msg.now) }
    ensures capacity { vec_capacity out.old ≤ vec_capacity out.new }
{
    let ops = msg.op.as_slice();
    let batch = Line::Batch {
        mine: msg.mine,
        heard: msg.heard,
        count: ops.len() as u32,
    };
    write_reserved(&batch, out);
    for op in ops {
        write_reserved(&Line::Do(*op), out);
    }
}
