//! What can be wrong with a link, a layout or a server, each fault once: its number in messages and printed texts, and its words for people.
#![tactic(auto)]

mod table;

pub use table::{Fault, cause_of};
