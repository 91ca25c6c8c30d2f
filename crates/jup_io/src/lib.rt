//! Reads and writes that are tried again after a failure that is none, bytes that are written whole, and how long a peer that takes nothing is waited
//! for. Also writers whose peer can be given up, and standard streams that were closed.
#![tactic(auto)]

mod again;
mod patience;
mod peer;
mod streams;
mod whole;

pub use again::{has_waited, is_interrupted};
pub use patience::{Patience, Unwritten};
pub use peer::{Lasting, Peer};
pub use streams::hold_streams;
pub use whole::write_whole;
