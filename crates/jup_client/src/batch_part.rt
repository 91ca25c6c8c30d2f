//! A batch of commands that has begun. It has a file of its own, since a struct with facts imports each `ghost use` of its file.
ghost use Rattle.std.specs.Prelude.{◌≤◌, ◌+◌};
ghost use Rattle.std.specs.Vec.{vec_len, vec_capacity};

use jup_window::Command;

/// A batch of which so many lines are missing, and its commands so far. There is room for all.
#[derive(Drop)]
pub(crate) struct BatchPart {
    pub(crate) missing: u32,
    pub(crate) commands: Vec<Command>,
    /// Whether a line was no command.
    pub(crate) is_bad: bool,
    ghost some: { 1 ≤ missing },
    ghost room: { vec_len commands + missing ≤ vec_capacity commands },
}
