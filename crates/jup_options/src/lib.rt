//! Command lines of the programs: a table of options in, the values that were given out. `clap` reads them.
#![tactic(auto)]

mod given;
mod system;
mod table;
mod unread;

pub use given::Given;
pub use system::arguments;
pub use table::{CommandLine, OptionRow, Takes};
pub use unread::Unread;
