//! What a client decides: what its user asks for, what it makes of its server's lines, and what it prints. Also how it ends, with which number and
//! exit status. Nothing here reads or writes, and nothing here is of a server.
#![tactic(auto)]

mod asking;
mod batch_part;
mod client;
mod ends;
mod opening;
mod words;

pub use asking::{Asking, Request};
pub use client::{Answer, ClientState, Heard, Told};
pub use ends::ClientEnd;
pub use opening::Opening;
pub use words::{TypedLine, told_text};
