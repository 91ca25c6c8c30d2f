//! The client's end of a link that outlives its connections: what it makes of the bytes of each connection, and what it writes there.
//! It has no board, no thread and no clock.
#![tactic(auto)]

mod carriage;
mod edits;
mod first_answer;
mod laws;
mod line_kind;
mod link;
mod outgoing;
mod terms;

pub use carriage::Carriage;
pub use laws::{cut_lines_come_once, cuts_change_nothing};
pub use link::{ClientLink, Heard, Hearing, LONGEST_SILENCE};
pub use terms::{MOST_SECONDS, Terms};
