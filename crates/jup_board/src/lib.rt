//! Boards as they are printed and as layouts, each made of the other, and the insides of the program that does it.
#![tactic(auto)]

mod converting;
mod cut;
mod ending;
mod faults;
mod heading;
mod layout_text;
mod lines;
mod program;
mod reading;

pub use converting::{layout_of_printed, printed_of_layout};
pub use cut::cut_at;
pub use ending::BoardEnd;
pub use faults::LineFault;
pub use layout_text::write_layout;
pub use program::{lay_out, print_layout};
pub use reading::read_printed;
