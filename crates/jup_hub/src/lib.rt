//! A star that threads share.
//!
//! Threads call one [`Hub`], each with a [`Pass`] of its own. Each call on the star is one event of one
//! history, whatever the schedule. The contract of a call says what its pass has then seen and made: a
//! [`View`].
#![tactic(auto)]

mod ask;
mod asks;
mod calls;
mod desk;
mod doors;
mod fault;
mod hub;
mod rule;
mod turns;
mod view;

pub use fault::HubFault;
pub use hub::{Closed, Hub, Pass};
pub use view::{HubEvent, Tally, View};
