//! A message that has begun.

ghost use Rattle.std.specs.Prelude.{◌≤◌, ◌<◌};
ghost use Rattle.std.specs.Vec.{vec_len, vec_capacity};
ghost use Rattle.jup_limits.specs.Limits.{most_operations};

use jup_window::BoardOp;

/// A message of so many operations, at most 32, of which some are missing. There is room for all, but one alone
/// needs none.
#[derive(Drop)]
pub(crate) struct Part {
    pub(crate) mine: u32,
    pub(crate) heard: u32,
    pub(crate) count: u32,
    pub(crate) ops: Vec<BoardOp>,
    ghost missing: { vec_len ops < count },
    ghost few: { count ≤ most_operations },
    ghost room: { 2 ≤ count → count ≤ vec_capacity ops },
}
