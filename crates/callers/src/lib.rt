//! Callers of the libraries, as the pages `CALLING.md` show them. Each rests on the public contracts of what it calls alone, and
//! what it promises follows from these.
#![tactic(auto)]

mod boards_sent;
mod browsers;
mod edits_sent;
mod embedding;
mod hub_ends;
mod hub_joins;
mod lines_read;
mod sites;
mod strangers;
mod worlds;

pub use boards_sent::send_board;
pub use browsers::{answer_refused, link_bytes};
pub use edits_sent::send_edit;
pub use embedding::edit_and_move_out;
pub use hub_ends::close_hub;
pub use hub_joins::join_hub;
pub use lines_read::{read_in_two, spell_and_read};
pub use sites::{attach, detach, make_edit};
pub use strangers::meet_a_stranger;
pub use worlds::settle;
