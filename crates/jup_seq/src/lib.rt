//! Operations on sequences of named items, and how two that were made at the same time are
//! transformed past one another.
#![tactic(auto)]

pub mod laws;
mod operations;
mod singles;
mod sources;

pub use operations::{ListOp, SeqEdit, SeqOp, TextOp};
pub use singles::SeqTrace;
pub use sources::Source;
