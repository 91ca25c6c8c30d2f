//! What one line makes of what is held.

ghost use Rattle.std.specs.Prelude.{◌≡◌, [], ◌∷◌, Some, IfOk, OnErr, ◌≤◌};
ghost use Rattle.jup_wire.specs.declared.line.Line.TheVariants as lines;
ghost use Rattle.jup_gather.specs.Gathering.{Gathers, AsksMemory, held, part_lines};

use crate::gathered::Gathered;
use crate::part::Part;
use jup_batch::BoardBatch;
use jup_limits::MOST_OPERATIONS;
use jup_link::Msg;
use jup_window::{BoardOp, Within};
use jup_wire::Line;
use jup_xform::{Batch, NoMemory};
use std::alloc::Global;
use std::marker::PhantomData;

/// What is held of the lines so far.
#[derive(Drop)]
pub(crate) enum State {
    /// No line.
    Nothing,
    /// The lines of a message that has begun.
    Begun(Part),
    /// No more lines are gathered: one had no place.
    Stopped,
}

/// What is held after a line, and what the line came to.
#[derive(Drop)]
pub(crate) struct Taken {
    pub(crate) state: State,
    pub(crate) gathered: Gathered,
}

impl Taken {
    /// The message is there.
    fn whole(mine: u32, heard: u32, op: BoardBatch) -> Taken
        ensures { result ≡ record { state = State.Nothing; gathered = Gathered.Whole (record { mine = mine; heard = heard; op = op }) } }
    {
        Taken {
            state: State::Nothing,
            gathered: Gathered::Whole(Msg { mine, heard, op }),
        }
    }

    /// A line has no place.
    pub(crate) fn stop() -> Taken
        ensures { result ≡ record { state = State.Stopped; gathered = Gathered.Misplaced } }
    {
        Taken {
            state: State::Stopped,
            gathered: Gathered::Misplaced,
        }
    }
}

/// A batch line if nothing is held.
fn begin_message(alloc: Global, mine: u32, heard: u32, count: u32) -> Result<Taken, NoMemory>
    ensures step { IfOk result (λ step. Gathers (Some []) (lines.Batch mine heard count) step.gathered (held step.state)) }
    ensures refused { OnErr result (2 ≤ count) }
{
    if !(1..=MOST_OPERATIONS).contains(&count) {
        return Ok(Taken::stop());
    }
    // One operation is not put into a list.
    let room = if count == 1 { 0 } else { count as usize };
    let Ok(ops) = Vec::with_capacity(alloc, room) else {
        return Err(NoMemory);
    };
    Ok(Taken {
        state: State::Begun(Part {
            mine,
            heard,
            count,
            ops,
        }),
        gathered: Gathered::Held,
    })
}

/// A line if nothing is held.
pub(crate) fn begin(alloc: Global, line: Line) -> Result<Taken, NoMemory>
    ensures step { IfOk result (λ step. Gathers (Some []) line step.gathered (held step.state)) }
    ensures refused { OnErr result (AsksMemory line) }
{
    match line {
        Line::Batch { mine, heard, count } => begin_message(alloc, mine, heard, count),
        Line::Do(_) => Ok(Taken::stop()),
        line => Ok(Taken {
            state: State::Nothing,
            gathered: Gathered::Plain(line),
        }),
    }
}

/// An operation after a message that has begun.
fn take(part: Part, op: BoardOp) -> Taken
    ensures { Gathers (Some (part_lines part)) (lines.Do op) result.gathered (held result.state) }
{
    let _of: Within = PhantomData;
    let Part {
        mine,
        heard,
        count,
        mut ops,
    } = part;
    if count == 1 {
        return Taken::whole(mine, heard, Batch::one(op));
    }
    ops.push_reserved(op);
    if ops.len() == count as usize {
        return Taken::whole(mine, heard, Batch::new(ops));
    }
    Taken {
        state: State::Begun(Part {
            mine,
            heard,
            count,
            ops,
        }),
        gathered: Gathered::Held,
    }
}

/// A line after a message that has begun. It takes no memory.
pub(crate) fn go_on(part: Part, line: Line) -> Taken
    ensures { Gathers (Some (part_lines part)) line result.gathered (held result.state) }
{
    match line {
        Line::Do(op) => take(part, op),
        _ => Taken::stop(),
    }
}
