//! The client's values in plain numbers, for callers in languages without enums. `c/jup.h` has these numbers by name.

mod changes;
mod commands;
mod kinds;
mod numbers;
mod texts;
mod widgets;

pub use changes::PlainChange;
pub use commands::PlainCommand;
pub use numbers::{CLOSED, NO_STAGE, UNTOLD, end_number, outcome_number};
pub use texts::copy_bytes;
pub use widgets::PlainWidget;
