//! A link over a socket: how a thread of its own reads it, while nobody takes what it brings, how it is written, and how it is closed.
//!
//! A client's link is read also while its user thinks. One thread runs [`drain`]. Another reads what came by a
//! [`Drained`], and [`leaves`](Intake::leave) the [`Intake`] at its end. An [`Outgoing`] writes a
//! link, and gives up a peer that takes nothing. [`hang_up`] closes a link so that its last line arrives.
#![tactic(auto)]

mod drained;
mod draining;
mod handover;
mod hangup;
mod inbox;
mod intake;
mod outgoing;

pub use drained::Drained;
pub use draining::{Came, drain};
pub use handover::{Change, Handover, Unput};
pub use hangup::{LastBytes, hang_up, next_wait};
pub use inbox::{Given, Inbox, LinkEnd};
pub use intake::Intake;
pub use outgoing::Outgoing;
