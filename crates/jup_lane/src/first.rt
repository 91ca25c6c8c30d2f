//! The first message of some bytes or lines.
ghost use Rattle.std.specs.Prelude.{◌≡◌, length, IfOk, IfSome, IsTrue};
ghost use Rattle.jup_gather.specs.declared.gathered.Gathered.TheVariants as gathered;
ghost use Rattle.jup_wire.specs.Lines.{BeginsLines};
ghost use Rattle.jup_gather.specs.Gathering.{BeginsNone, message_lines};
ghost use Rattle.jup_lane.specs.Lanes.{IsFirstOf, codec};

use jup_batch::BoardBatch;
use jup_gather::{Gather, Gathered, Message, Shape};
use jup_link::Msg;
use jup_wire::{Line, read_single};
use jup_xform::{Batch, NoMemory};
use std::alloc::Global;
use std::collections::VecDeque;

/// The message that begins some bytes, and how many bytes it has; none if that cannot be decided without gathering lines.
pub(crate) fn read<M: Message>(bytes: &[u8]) -> Option<(M, usize)>
    ensures { IfSome result (λ x. BeginsLines ((codec M.Message).lines x.0) x.1 bytes.now) }
{
    let (msg, len) = single_in(bytes)?;
    Some((M::edit(msg), len))
}

// The message of one operation that begins these bytes, if one does, and how many bytes it has. Inlined, so that it is made in its place.
#[inline(always)]
fn single_in(bytes: &[u8]) -> Option<(Msg<BoardBatch>, usize)>
    ensures { IfSome result (λ x. BeginsLines (message_lines x.0) x.1 bytes.now) }
{
    let Some(single) = read_single(bytes) else {
        return None;
    };
    let msg = Msg {
        mine: single.mine,
        heard: single.heard,
        op: Batch::one(single.op),
    };
    Some((msg, single.len))
}

/// Whether lines of the first message are missing, as the first line says.
pub(crate) fn is_short(there: &VecDeque<Line>) -> bool
    ensures { IsTrue result → BeginsNone there.now.items }
{
    match there.front() {
        Some(Line::Batch { count, .. }) => there.len() <= *count as usize,
        Some(_) => false,
        None => true,
    }
}

/// The message of one operation that begins these lines, if one does.
pub(crate) fn single(there: &VecDeque<Line>) -> Option<Msg<BoardBatch>>
    ensures { IfSome result (λ msg. IsFirstOf there.now.items (Some (gathered.Whole msg))) }
{
    let Some(
        Line::Batch {
            mine,
            heard,
            count: 1,
        },
    ) = there.front()
    else {
        return None;
    };
    let Some(Line::Do(op)) = there.get(1) else {
        return None;
    };
    Some(Msg {
        mine: *mine,
        heard: *heard,
        op: Batch::one(*op),
    })
}

/// What some lines begin with: a message or a line that stands alone, if all its lines are there.
pub(crate) fn first_of(alloc: Global, there: &VecDeque<Line>) -> Result<Option<Gathered>, NoMemory>
    ensures { IfOk result (λ first. IsFirstOf there.now.items first) }
{
    let mut gather = Gather::new();
    for line in there.iter() {
        match gather.push(alloc, line)? {
            Gathered::Held => {}
            gathered => return Ok(Some(gathered)),
        }
    }
    Ok(None)
}

/// How many lines a message has.
pub(crate) fn count<M: Message>(message: &M) -> usize
    ensures { result ≡ length ((codec M.Message).lines message.now) }
{
    match message.shape() {
        Shape::Edit(msg) => msg.op.as_slice().len() + 1,
        Shape::Alone(_) => 1,
    }
}
