//! Whole runs in threads.
//!
//! [`run_two`] and [`run_many`] play whole runs, with each site in a thread of its own, and at the end all
//! show one board. Sessions are those of `jup_session`, and the insides of the programs those of `jup_daemon` and `jup_cli`.
#![tactic(auto)]

mod runs;

pub use jup_cli::{client_main, client_words, run_client};
pub use jup_client::ClientEnd;
pub use jup_daemon::{DaemonWords, daemon_main, daemon_words};
pub use jup_session::{Bell, Ending, Gate, Open, serve_link};
pub use runs::{RunEnd, RunFault, SiteEnd, run_many, run_two};
