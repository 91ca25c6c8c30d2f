//! A client of a link that outlives its connections, as a value: a session of `jup_embed`, and the client's end of the link that carries
//! its lines. While no connection carries the link, the user edits on.
#![tactic(auto)]

mod any;
mod asking;
mod client;
mod faults;
mod feeding;
mod laws;

pub use any::{AnyClient, NOT_LASTING};
pub use client::LastingClient;
pub use faults::{LastingFault, lasting_number};
pub use laws::{cut_sessions_go_on, cuts_are_unseen};
