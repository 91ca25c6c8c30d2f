//! The edits of operations.
ghost use Rattle.std.specs.Prelude.{◌≡◌, IfOk};
ghost use Rattle.jup_batch.specs.Boards as board;

use jup_batch::{BoardBatch, BoardEdits};
use jup_window::WidgetEdit;
use jup_xform::{NoMemory, Transform};
use std::alloc::Global;
use std::marker::PhantomData;

/// The edits that a batch makes.
pub(crate) fn edits_of(alloc: Global, op: &BoardBatch) -> Result<BoardEdits, NoMemory>
    ensures { IfOk result (λ edits. edits ≡ board.edit_of op.now) }
{
    // The checker learns of the type within an edit from this.
    let _within: PhantomData<WidgetEdit> = PhantomData;
    op.edit(alloc)
}
