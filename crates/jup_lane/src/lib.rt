//! The two ways of a link as bytes.
//!
//! A [`Lane`] is one way: a queue of messages whose store is bytes. `jup_wire` writes what is sent into its
//! stream. Bytes are moved from there to its reader, any number at a time. A message is handed over once the
//! reader has all its bytes. A message is one line or several.
#![tactic(auto)]

ghost use Rattle.jup_lane.specs.Lanes.{IsCodec, ups, downs};

mod first;
mod lane;
mod stream;
mod tray;

pub use lane::Lane;

/// The messages of a link are lines: each has a line at least, its lines have spellings, and the lines of some
/// messages are these messages.
///
/// It does nothing: its contract is the theorem.
pub fn messages_are_lines()
    ensures up { IsCodec ups }
    ensures down { IsCodec downs }
{}
