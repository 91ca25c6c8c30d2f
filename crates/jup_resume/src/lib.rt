//! A link that outlives the connections that carry it: what each end keeps, what it says as a connection begins, and why nothing is lost.
#![tactic(auto)]

mod byte_queue;
mod bytes;
mod confirming;
mod first_line;
mod keeper;
mod line_bytes;
mod note;
mod taker;
mod token;
mod ways;

pub use bytes::split;
pub use confirming::{Confirming, LONGEST_QUIET, MOST_UNCONFIRMED};
pub use first_line::{FirstLine, is_of_carrier};
pub use keeper::{KeepFault, Keeper};
pub use line_bytes::{LONGEST_LINE, LineBytes};
pub use note::Note;
pub use taker::{Arrival, Taker, Took};
pub use token::{TOKEN_BYTES, Token};
pub use ways::{a_line_comes_once, a_piece_comes_as_its_bytes, nothing_is_lost};
