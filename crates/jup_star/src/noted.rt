//! An edit whose entry is not made, since its order only counts.

use jup_batch::BoardBatch;
use jup_link::Msg;
use std::snapshot::Snapshot;

/// The message of a site, which contracts alone see.
#[derive(Drop)]
pub(crate) struct Noted {
    pub(crate) site: u32,
    pub(crate) msg: Snapshot<Msg<BoardBatch>>,
}
