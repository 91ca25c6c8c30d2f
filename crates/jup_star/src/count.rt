//! The number of the edits that a star took.
ghost use Rattle.std.specs.Prelude.{◌≡◌, length};

use crate::taken::Taken;

/// How many entries an order has, with the entries themselves for contracts.
#[derive(Drop)]
pub(crate) struct Count {
    pub(crate) count: usize,
    pub(crate) taken: Taken,
    pub(crate) ghost counted: { count ≡ length taken.entries },
}
