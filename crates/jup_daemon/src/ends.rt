//! Why a daemon ends, with its exit status, and what it opens.
ghost use Rattle.std.specs.IoError.{error_kind};
ghost use Rattle.std.specs.Prelude.{◌≡◌, ◌≢◌, ◌≤◌, ◌↔◌, true, IsSome, length, IfOk, IfErr};
ghost use Rattle.jup_limits.specs.Limits.{longest_input};
ghost use Rattle.jup_daemon.specs.Ends.{IsStarOf, IsRefusalOf, IsEndOfFailure, attempt_is_explained, daemon_end_is_explained, daemon_end_status};

use jup_layout::{LayoutFault, layout};
use jup_star::{OpenFault, Star, is_short};
use jup_window::BoardFault;
use jup_xform::NoMemory;
use std::alloc::{AllocError, Global};
use std::io;
use std::io::ErrorKind;
use thiserror::Error;

/// What a daemon tried when a read or a write failed, or what comes before one.
#[derive(Clone, Copy, Debug, PartialEq, Eq)]
pub enum Attempt {
    ReadLayout,
    Listen,
    Accept,
    Print,
}

impl Attempt {
    // What it prints if the attempt failed. The caller knows the address to listen at.
    fn cause(self) -> Option<&'static str>
        ensures { IsSome result ↔ (attempt_is_explained self ≡ true) }
    {
        match self {
            Attempt::ReadLayout => Some("cannot read the layout"),
            Attempt::Listen => None,
            Attempt::Accept => Some("cannot accept a session"),
            Attempt::Print => Some("cannot print"),
        }
    }
}

/// Why the daemon ends early.
#[derive(Clone, Copy, Debug, Error)]
pub enum DaemonEnd {
    #[error("layout {0}")]
    Layout(LayoutFault),
    #[error("layout too long")]
    LongLayout,
    #[error("io fault")]
    Io(Attempt),
    #[error("{}", NoMemory)]
    NoMemory,
    #[error("hub held")]
    Held,
}

impl DaemonEnd {
    /// The end of a daemon that tried this and failed so: because an allocation failed, or by a failed read or write.
    pub fn of_failure(attempt: Attempt, error: &io::Error) -> DaemonEnd
        ensures { IsEndOfFailure attempt (error_kind error.now) result }
    {
        if error.kind() == ErrorKind::OutOfMemory {
            DaemonEnd::NoMemory
        } else {
            DaemonEnd::Io(attempt)
        }
    }

    /// The cause of this end, for people. It is `None` if the end's own text says so, and for an address, which the caller has.
    pub fn cause(&self) -> Option<&'static str>
        ensures { IsSome result ↔ (daemon_end_is_explained self.now ≡ true) }
    {
        match self {
            DaemonEnd::Layout(fault) => Some(fault.cause()),
            DaemonEnd::Io(attempt) => attempt.cause(),
            DaemonEnd::LongLayout | DaemonEnd::NoMemory | DaemonEnd::Held => None,
        }
    }

    /// The exit status of a daemon that ends so.
    pub fn status(&self) -> u8
        ensures status { result ≡ daemon_end_status self.now }
        ensures most { result ≤ 6 }
    {
        match self {
            DaemonEnd::Io(_) => 1,
            DaemonEnd::NoMemory => 3,
            DaemonEnd::Layout(_) | DaemonEnd::LongLayout => 5,
            DaemonEnd::Held => 6,
        }
    }
}

impl From<AllocError> for DaemonEnd {
    ghost use Rattle.jup_daemon.specs.declared.ends.DaemonEnd.TheVariants.{NoMemory as Ended};

    ghost from_gives = { λ _ made. made ≡ Ended };

    fn from(_error: AllocError) -> DaemonEnd {
        DaemonEnd::NoMemory
    }
}

impl From<NoMemory> for DaemonEnd {
    ghost use Rattle.jup_daemon.specs.declared.ends.DaemonEnd.TheVariants.{NoMemory as Ended};

    ghost from_gives = { λ _ made. made ≡ Ended };

    fn from(_error: NoMemory) -> DaemonEnd {
        DaemonEnd::NoMemory
    }
}

impl From<LayoutFault> for DaemonEnd {
    ghost use Rattle.jup_daemon.specs.Ends.{end_of_layout};

    ghost from_gives = { λ fault made. made ≡ end_of_layout fault };

    fn from(fault: LayoutFault) -> DaemonEnd {
        // A layout for which an allocation failed has no line.
        if fault.line == 0 {
            DaemonEnd::NoMemory
        } else {
            DaemonEnd::Layout(fault)
        }
    }
}

/// A star over the board of a layout, which takes at most so many edits and only counts them.
pub fn star_of_layout(alloc: Global, text: &[u8], limit: u32) -> Result<Star, DaemonEnd>
    requires { length text.now ≤ longest_input }
    ensures star { IfOk result (λ star. IsStarOf text.now limit star) }
    ensures refusal { IfErr result (λ end. IsRefusalOf text.now limit end) }
{
    let board = layout(alloc, text)?;
    // The words and the layout rule these refusals out: each is reported as a fault of the whole layout.
    if !is_short(&board) {
        return Err(whole_layout(BoardFault::TooMany.number()));
    }
    match Star::open_counting(alloc, board, limit) {
        Ok(star) => Ok(star),
        Err(OpenFault::NoMemory) => Err(DaemonEnd::NoMemory),
        Err(fault) => Err(whole_layout(fault.number())),
    }
}

// A fault of the whole layout.
fn whole_layout(number: u32) -> DaemonEnd
    ensures { result ≡ DaemonEnd.Layout (record { line = 0; number = number }) }
{
    DaemonEnd::Layout(LayoutFault { line: 0, number })
}
