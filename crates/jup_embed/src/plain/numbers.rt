//! The numbers of outcomes: 0 of a call that was done, the numbers of faults that all programs share, and from 90 on those of clients in other
//! programs alone. And the numbers of stages.
ghost use Rattle.std.specs.Prelude.{◌≢◌, ◌≡◌, IsErr, IsOk};
ghost use Rattle.jup_client.specs.Ends.{client_end_number};
ghost use Rattle.jup_embed.specs.Numbers.{stage_number, stage_fault, end_answer, answer};

use crate::client::Stage;
use crate::refusals::EmbedFault;
use jup_client::ClientEnd;

// A label that is none.
pub(super) const BAD_LABEL: u32 = 14;

/// In place of a stage, where there is no client.
pub const NO_STAGE: u32 = 4;

/// There is no client.
pub const CLOSED: u32 = 90;

// A command of no kind, or a character that is no Unicode scalar value.
pub(super) const BAD_COMMAND: u32 = 92;

// The server ended the session with a number that is no fault's here.
const STRANGE: u32 = 93;

/// A line was done, and an allocation failed for what it tells.
pub const UNTOLD: u32 = 94;

/// The number of the end of a session, which is never 0. A server can end a session with any number. One that is no fault's here becomes 93.
pub fn end_number(end: ClientEnd) -> u32
    ensures number { result ≡ end_answer (client_end_number end) }
    ensures some { result ≢ 0 }
{
    let number = end.number();
    if number == 0 || number >= CLOSED {
        STRANGE
    } else {
        number
    }
}

/// 0 of a call that was done, or the number of its fault.
#[tactic(auto, using(crate::proofs::Numbers::some_fault))]
pub fn outcome_number(outcome: Result<(), EmbedFault>) -> u32
    ensures answer { result ≡ answer outcome }
    ensures refused { result ≢ 0 → IsErr outcome }
    ensures done { result ≡ 0 → IsOk outcome }
{
    match outcome {
        Ok(()) => 0,
        Err(EmbedFault::Over(end)) => end_number(end),
        Err(fault) => fault.number(),
    }
}

impl Stage {
    /// The number of this stage.
    pub fn number(self) -> u32
        ensures { result ≡ stage_number self }
    {
        match self {
            Stage::Greeting => 0,
            Stage::Opening => 1,
            Stage::Open => 2,
            Stage::Over(_) => 3,
        }
    }

    /// The number of the end of a session that is over, or 0.
    pub fn fault_number(self) -> u32
        ensures { result ≡ stage_fault self }
    {
        match self {
            Stage::Over(end) => end_number(end),
            Stage::Greeting | Stage::Opening | Stage::Open => 0,
        }
    }
}
