//! What windows hold: names of items, labels, and sequences of named items.
#![tactic(auto)]

mod block;
mod equality;
mod iter;
mod labels;
mod layout;
mod marks;
mod names;
mod sequence;
mod table;

pub use equality::ItemValue;
pub use iter::Iter;
pub use jup_limits::NoMemory;
pub use labels::{BadLabel, Label};
pub use names::{Item, Name};
pub use sequence::Seq;
