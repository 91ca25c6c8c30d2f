//! The spellings of values, commands, edits and boards that scripts and programs share. What is printed
//! and what is read have one spelling each.
#![tactic(auto)]

mod board_reader;
mod boards;
mod commands;
mod edits;
mod quoted;
mod words;

pub use board_reader::{BoardLineFault, BoardReader, UnreadLine, is_board_line};
pub use boards::{PrintedBoard, write_board};
pub use commands::{read_batch, read_command};
pub use edits::{PrintedEdits, write_edit};
pub use quoted::{Quoted, read_quoted, read_quoted_char};
pub use words::{read_integer, read_number, read_switch, switch_word};
