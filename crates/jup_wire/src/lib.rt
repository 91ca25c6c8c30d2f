//! The lines that a link carries and that a layout has, as bytes. Each line has one spelling. The reader
//! refuses bytes outside the grammar, however they are cut into pieces. `jup_layout` says what the lines of a
//! layout mean.
#![tactic(auto)]

mod faults;
mod fields;
mod kinds;
mod laws;
mod line;
mod parse;
mod part;
mod reader;
mod single;
mod sink;
mod spell;
mod writing;

pub use faults::WireFault;
pub use fields::feed_of;
pub use kinds::{
    PrintedSetting, VALUE_LINES, WidgetValue, read_setting, read_switch, read_value, value_due,
};
pub use laws::{has_spelling, on_the_way, one_reading, one_spelling};
pub use line::Line;
pub use parse::read_line;
pub use reader::{Fed, Lines, Reader};
pub use single::{LoneEdit, read_single};
pub use sink::LineSink;
pub use writing::{LONGEST, MOST, write, write_reserved};
