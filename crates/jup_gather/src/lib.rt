//! The lines of a message, and messages of lines.
//!
//! An edit is a message of several lines: a `batch` line and a line for each of its operations. [`put_op`] puts
//! them, and a [`Gather`] takes the lines of a link one by one and gives the messages that they are.
#![tactic(auto)]

mod gather;
mod gathered;
mod laws;
mod lines;
mod part;
mod taken;
mod ways;
mod writing;

pub use gather::Gather;
pub use gathered::Gathered;
pub use laws::{message_comes_whole, one_gathering};
pub use lines::{lines_of_op, put_op};
pub use ways::{Message, Shape, message_of, put_message};
pub use writing::{MOST_MESSAGE, write_message};
