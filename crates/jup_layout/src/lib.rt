//! Boards as lines: the lines of a board, the board that lines describe, and layouts.
#![tactic(auto)]

mod board_lines;
mod builder;
mod drafts;
mod layouts;
mod names;
mod naming;
mod refusals;

pub use board_lines::{lines_of, put_board};
pub use builder::BoardBuilder;
pub use layouts::{LayoutFault, board_of, layout};
