//! Whole runs of the system.
//!
//! A [`World`] is a star with its sites, played by [`Event`]s; whenever no message is on its way all its
//! boards are equal ([`World::quiet`]). [`worlds_agree`] is what every list of events keeps, as a theorem, and
//! [`bytes_agree`] the same of bytes; [`orders_agree`] is what any two of its boards keep at every moment.
//! [`Two`] plays one link.
#![tactic(auto)]

mod events;
mod pair;
mod promises;
mod two;
mod world;

pub use events::{Event, Happened, Reply, room_for};
pub use jup_text::{read_command, write_board, write_edit};
pub use pair::{pair_slider, pair_toggle};
pub use promises::{bytes_agree, orders_agree, worlds_agree};
pub use two::{Two, TwoEdit, TwoEvent, TwoReply};
pub use world::{Attached, Halted, World, star_refusal};
