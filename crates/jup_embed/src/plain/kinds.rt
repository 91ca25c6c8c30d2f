//! The numbers by which callers in other languages know kinds of commands and changes, and kinds of widgets.

pub(super) const INSERT_CHAR: u32 = 1;

pub(super) const INSERT_LABEL: u32 = 2;

pub(super) const DELETE: u32 = 3;

pub(super) const RELABEL: u32 = 4;

/// The kind of a change that left the board as it was.
pub(super) const NOTHING: u32 = 0;

pub(super) const TEXT: u32 = 1;

pub(super) const LIST: u32 = 2;

// Widgets without items have their numbers in `jup_wire`, and settings have theirs in `jup_window`.
pub(super) const UNKNOWN: u32 = 0;
