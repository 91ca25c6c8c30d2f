//! The inside of `jupd`: its command line, and a daemon with one hub, which serves each session in a thread of its own.
#![tactic(auto)]

mod connection;
mod door;
mod doorway;
mod ends;
mod late;
mod options;
mod report;
mod serving;
mod telling;

pub use door::{Admission, Door, Turn};
pub use ends::{Attempt, DaemonEnd, star_of_layout};
pub use options::{DaemonWords, LinkWords, daemon_words, lasting_daemon_words};
pub use report::report_text;
pub use serving::{daemon_main, lasting_daemon_main};
