//! The lines of a link and of a layout.

use crate::kinds::WidgetValue;
use jup_value::{Label, Name};
use jup_window::BoardOp;

/// A line.
#[derive(Clone, Copy, Debug, PartialEq, Eq)]
pub enum Line {
    Hello,
    Welcome { site: u32, limit: u32 },
    Window(u16),
    Text(u16),
    List(u16),
    /// A widget without items.
    Value(u16, WidgetValue),
    Char(Name, char),
    Item(Name, Label),
    Ready,
    /// A message of so many operations, each of which follows on a line of its own.
    Batch { mine: u32, heard: u32, count: u32 },
    Do(BoardOp),
    Ack(u32),
    Ping(u32),
    Pong(u32),
    Bye,
    Error(u32),
}
