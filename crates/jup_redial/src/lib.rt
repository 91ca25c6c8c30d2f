//! A client's link that outlives its connections, over sockets: what its client reads and writes, and the threads that connect, carry it, wait, and connect again.
//! [`jup_lasting`] decides what the bytes of a connection mean.
#![tactic(auto)]

mod carrying;
mod change;
mod dialing;
mod fate;
mod link;
mod notice;
mod reader;
mod redialed;
mod trials;
mod watch;
mod writer;

pub use change::Change;
pub use dialing::dial;
pub use fate::Fate;
pub use link::Link;
pub use notice::Notice;
pub use reader::LinkReader;
pub use redialed::{Piece, Redialed, Unput};
pub use trials::{Trial, Trials};
pub use writer::LinkWriter;
