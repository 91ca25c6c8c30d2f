//! Batches of operations on boards: what a user does in one gesture is one edit.
//!
//! [`jup_xform::Batch`] makes a list of operations one operation. Here is what a star and its sites ask of such a
//! list, and that it has every law that they rest on.
#![tactic(auto)]

use jup_window::{BoardEdit, BoardOp, Command};
use jup_xform::{Batch, Few};

mod edits;
mod later;
pub mod laws;
mod naming;

pub use edits::{all_insertions, bear_next, one_bears_site, one_is_nothing};
pub use naming::{MOST_COMMANDS, name_after, name_all};

/// What a link of boards carries: 1 to 32 operations that are one edit.
pub type BoardBatch = Batch<BoardOp>;

/// The edits of such a batch, in the order of its operations.
pub type BoardEdits = Few<BoardEdit>;

/// What a user asks for in one gesture: commands in order, each of the board after those before it.
pub type Commands = Few<Command>;
