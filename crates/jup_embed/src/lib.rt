//! A client of one session, without threads, sockets or waiting. The caller gives it the bytes of its server, and sends the bytes that it
//! hands out. In between it makes edits, and reads the board as it is, or change by change. For callers in languages without enums all of
//! this is there in plain numbers.
#![tactic(auto)]

mod board_view;
mod changes;
mod client;
mod phase;
mod plain;
mod refusals;
mod unsent;

pub use board_view::{WidgetKind, WidgetView, copy_label, copy_text, widget_view, window_view};
pub use client::{Client, Stage};
pub use jup_wire::WidgetValue;
pub use phase::Phase;
pub use plain::{
    CLOSED, NO_STAGE, PlainChange, PlainCommand, PlainWidget, UNTOLD, copy_bytes, end_number,
    outcome_number,
};
pub use refusals::EmbedFault;
