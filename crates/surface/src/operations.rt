//! `jup_xform`: the trait of operations, rows, grids and batches.
ghost use Rattle.std.specs.Prelude.{◌≡◌, ◌≤◌, length};
ghost use Rattle.jup_limits.specs.Limits.{most_operations};

use jup_xform::{Batch, Few, NoMemory, Side, Single, Transform, across, grid};
use std::alloc::Global;

/// `Transform::valid`, `apart` and `fresh_after`.
pub fn judge<T: Transform>(op: &T, other: &T, state: &T::State) {
    let _valid: bool = op.valid(state);
    let _apart: bool = op.apart(other);
    let _fresh: bool = op.fresh_after(other);
}

/// `Transform::reserve`.
pub fn reserve<T: Transform>(
    op: &T,
    alloc: Global,
    beside: u32,
    state: &mut T::State,
) -> Result<(), NoMemory>
    requires { T.can_reserve beside }
{
    op.reserve(alloc, beside, state)
}

/// `Transform::apply`.
pub fn apply<T: Transform>(op: &T, state: &mut T::State)
    requires valid { T.is_valid op.now (T.bare state.old) }
    requires room { T.has_room op.now 0 state.old }
{
    op.apply(state);
}

/// `Transform::transform`.
pub fn transform<T: Transform>(c: &mut T, s: &mut T) {
    T::transform(c, s);
}

/// `Transform::copy`.
pub fn copy<T: Transform>(op: &T, alloc: Global) -> Result<T, NoMemory> {
    op.copy(alloc)
}

/// `Transform::write_to`.
pub fn write_to<T: Transform>(op: &T, into: &mut T)
    requires { T.shape op.now ≡ T.shape into.old }
{
    op.write_to(into);
}

/// `Transform::edit`.
pub fn edit<T: Transform>(op: &T, alloc: Global) -> Result<T::Edit, NoMemory> {
    op.edit(alloc)
}

/// Both sides of a link, and `across`.
pub fn pass_queue<T: Transform>(op: &mut T, queue: &mut [T], of_client: bool) {
    let side = if of_client {
        Side::Client
    } else {
        Side::Server
    };
    across(op, queue, side);
}

/// `grid`.
pub fn pass_lists<T: Transform>(a: &mut [T], b: &mut [T]) {
    grid(a, b);
}

/// `Batch::new`.
pub fn new_batch<T: Single>(ops: Vec<T>) -> Batch<T>
    requires some { 1 ≤ length ops.items }
    requires few { length ops.items ≤ most_operations }
{
    Batch::new(ops)
}

/// A batch is an operation on the states of its operations.
pub fn edit_of_batch<T: Single>(
    batch: &Batch<T>,
    alloc: Global,
    state: &T::State,
) -> Result<Few<T::Edit>, NoMemory> {
    let _valid: bool = batch.valid(state);
    batch.edit(alloc)
}
