//! What a session decides: what a line of its site means, and which lines a message to it is. Also how far the site may be behind, and how the
//! session ends, with which number. Nothing here reads or writes.
#![tactic(auto)]

mod behind;
mod end_mark;
mod ends;
mod rings;
mod session;

pub use behind::{Admission, FarBehind, Lag, Noted, Rests, Uncounted, operations_in};
pub use end_mark::{BothNoted, EndMark, EndNoted};
pub use ends::{Ending, SessionFault, Untaken};
pub use rings::{Rings, place_of};
pub use session::{
    Awaits, Gatekeeper, Incoming, MOST_FETCHED, Next, OwedPong, Pongs, Ring, WrittenPongs,
    check_greeting, hear_site, is_last_fetch, pongs_in, put_downs, refused_fetch, ring_after,
};
