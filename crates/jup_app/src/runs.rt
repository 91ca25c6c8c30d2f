//! Whole runs of many sites through one hub. No log is kept: it would take a list in memory for each site, and prove nothing more.

mod calls;
mod drain;
mod fault;
mod halt;
mod joiner;
mod player;
mod receive;
mod run;
mod seating;
mod threads;

pub use drain::SiteEnd;
pub use fault::RunFault;
pub use run::{RunEnd, run_many, run_two};
