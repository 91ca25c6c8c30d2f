//! A server that has sessions by a WebSocket or by lines at one address, serves a page there too, and keeps its board in a file.
//!
//! [`web_main`] is the body of the program. `jup_service` makes the decisions; this crate has the threads, sockets and standard streams.
#![tactic(auto)]

mod browser;
mod caller;
mod calls;
mod connection;
mod connections;
mod keeping;
mod notices;
mod operating;
mod serving;
mod session;
mod setup;
mod stop;
mod stopping;
mod telling;
mod turn;
mod until_stop;

pub use keeping::{board_text, take_news};
pub use serving::web_main;
