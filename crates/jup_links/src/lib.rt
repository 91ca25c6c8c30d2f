//! What a server decides of links that outlive their connections. It takes and keeps the lines of a link while one carrier after another carries it. It knows links that
//! ended by their tokens. It waits for nothing, and has no clock: its caller gives it the time.
#![tactic(auto)]

mod carriage;
mod carried;
mod change;
mod counts;
mod first_bytes;
mod framing;
mod last_line;
mod way_down;
mod way_up;

pub use carriage::Carriage;
pub use carried::{Carried, Heard, Piece, Refused, Room, State, Summary};
pub use change::Change;
pub use counts::{Count, Counts};
pub use first_bytes::{FirstBytes, LONGEST_FIRST};
pub use framing::{Framing, Standing};
pub use last_line::LastLine;
pub use way_down::{MOST_KEPT, MOST_WRITTEN, NextLine, Unput, WayDown};
pub use way_up::{MOST_GIVEN, Step, WayUp};
