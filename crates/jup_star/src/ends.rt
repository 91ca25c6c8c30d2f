//! What the star and a site do alike at their ends of a link.
ghost use Rattle.std.specs.Prelude.{◌≡◌, ◌≤◌, [], ◌∷◌, length, MatchOption, IfOk, OnErr, if◌then◌else◌};
ghost use Rattle.jup_link.specs.Links.{owes, IsNumber, IsCount, answered};
ghost use Rattle.jup_batch.specs.Boards.{board_batches};
ghost use Rattle.jup_star.specs.Stars.{operation_at, end_after};
ghost use Rattle.jup_star.specs.Faults.{count_tests, first_fault, fault_of};

use jup_batch::BoardBatch;
use jup_link::{End, LinkFault, Msg};
use jup_window::{BoardOp, Within};
use jup_xform::{Batch, NoMemory, Transform};
use std::alloc::Global;
use std::marker::PhantomData;

/// The first fault in the counts of a message.
pub(crate) fn check_counts(end: &End<BoardBatch>, msg: &Msg<BoardBatch>) -> Result<(), LinkFault>
    ensures { fault_of result ≡ first_fault (count_tests LinkFault.BadCount LinkFault.BadAck end.now.link msg.now) }
{
    end.check(msg)
}

/// Receives an edit, and answers its operation as it is to be applied to the board. Inlined, so that neither is copied.
#[inline(always)]
pub(crate) fn receive(end: &mut End<BoardBatch>, msg: Msg<BoardBatch>) -> BoardBatch
    requires number { IsNumber end.old.link msg.mine }
    requires count { IsCount end.old.link msg.heard }
    ensures op { result ≡ operation_at board_batches end.old.link msg }
    ensures end { end.new.link ≡ end_after board_batches end.old.link msg }
    ensures spare { end.old.spare ≤ end.new.spare }
{
    let _within: Within = PhantomData;
    end.receive(msg)
}

/// The operation of a batch that has no other, which is copied without memory.
pub(crate) fn lone(op: &BoardBatch) -> Option<&BoardOp>
    ensures { MatchOption result (2 ≤ length op.now) (λ one. op.now ≡ one.now ∷ []) }
{
    match op.as_slice() {
        [one] => Some(one),
        _ => None,
    }
}

// A copy of a batch.
fn batch_copy(alloc: Global, op: &BoardBatch) -> Result<BoardBatch, NoMemory>
    ensures copied { IfOk result (λ copied. copied ≡ op.now) }
    ensures refused { OnErr result (2 ≤ length op.now) }
{
    match lone(op) {
        Some(one) => Ok(Batch::one(*one)),
        None => op.copy(alloc),
    }
}

/// A copy of a message.
pub(crate) fn copy_of(alloc: Global, msg: &Msg<BoardBatch>) -> Result<Msg<BoardBatch>, NoMemory>
    ensures copied { IfOk result (λ copied. copied ≡ msg.now) }
    ensures refused { OnErr result (2 ≤ length msg.now.op) }
{
    Ok(Msg {
        mine: msg.mine,
        heard: msg.heard,
        op: batch_copy(alloc, &msg.op)?,
    })
}

/// Acknowledges what an end owes, if it does: how many operations it received.
pub(crate) fn acknowledge(end: &mut End<BoardBatch>) -> Option<u32>
    ensures count { result ≡ (if owes end.old.link.unanswered then Some end.old.link.received else None) }
    ensures end { end.new.link ≡ answered end.old.link }
    ensures spare { end.new.spare ≡ end.old.spare }
{
    if end.owes() { Some(end.ack()) } else { None }
}
