//! Boards of windows and widgets, and the commands that edit them.
//!
//! [`BoardOp`] is the one operation type for all that a board shows, so that links and stars know
//! nothing of widgets. [`laws`] says in plain facts what boards hold and what their edits mean.
#![tactic(auto)]

use jup_seq::{SeqEdit, SeqOp};
use jup_value::Label;
use std::marker::PhantomData;

mod board_operations;
mod boards;
mod commands;
mod edits;
mod entries;
mod faults;
mod kinds;
pub mod laws;
mod singles;
mod sites;
mod widget_operations;
mod widgets;

pub use board_operations::BoardOp;
pub use boards::{Board, Window};
pub use commands::{Command, Value};
pub use edits::{BoardEdit, Edit};
pub use faults::{BoardFault, EditFault};
pub use kinds::{Effect, Setting, Widget, WidgetEdit, WidgetOp};
pub use singles::WidgetTrace;

/// The types within operations, commands and edits of a board. A field or a local of this type names them to the borrow checker, which
/// learns of a type only where it is named.
pub type Within = PhantomData<
    (
        SeqOp<Label>,
        Label,
        WidgetOp,
        BoardOp,
        Command,
        Value,
        Setting,
        SeqEdit<Label>,
        WidgetEdit,
        BoardEdit,
        Effect,
        Edit,
    ),
>;
