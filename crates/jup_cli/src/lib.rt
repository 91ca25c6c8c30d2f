//! The inside of `jup`: its command line, and a client of one link, which does what its user types.
#![tactic(auto)]

mod after;
mod commands;
mod connecting;
mod endings;
mod lasting;
mod options;
mod running;
mod typed;

pub use after::After;
pub use connecting::client_main;
pub use endings::{ending_of, leaves_more};
pub use lasting::lasting_client_main;
pub use options::{ClientWords, client_words, lasting_client_words};
pub use running::run_client;
pub use typed::Typed;
