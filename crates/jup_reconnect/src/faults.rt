//! Why a call of a client of a lasting link is refused.
ghost use Rattle.std.specs.Prelude.{◌≡◌};
ghost use Rattle.jup_reconnect.specs.LastingNumbers.{lasting_answer};

use jup_embed::{EmbedFault, outcome_number};
use jup_faults::Fault;
use jup_window::EditFault;
use jup_xform::NoMemory;
use thiserror::Error;

/// Why a call of a client of a lasting link is refused.
#[derive(Clone, Copy, Debug, PartialEq, Eq, Error)]
pub enum LastingFault {
    /// As a client of one connection refuses it.
    #[error(transparent)]
    Refused(EmbedFault),
    /// No connection carries the link, or this one does not.
    #[error("no connection carries the link")]
    Cut,
    /// A connection carries the link, or is to.
    #[error("a connection carries the link already")]
    Carried,
    /// The server has not answered 1,000 pings.
    #[error("too many pings are not answered")]
    Pings,
    /// All lines of the link were put but its last.
    #[error("{}", Fault::LinesSpent)]
    LinesSpent,
}

/// The number of an outcome: 0 of a call that was done. A refusal has its number of `outcome_number`, 7 or 37 of the protocol, 95 where no connection
/// carries the link, or 96 where one does.
pub fn lasting_number(outcome: Result<(), LastingFault>) -> u32
    ensures { result ≡ lasting_answer outcome }
{
    match outcome {
        Ok(()) => 0,
        Err(LastingFault::Refused(fault)) => outcome_number(Err(fault)),
        Err(LastingFault::Cut) => 95,
        Err(LastingFault::Carried) => 96,
        Err(LastingFault::Pings) => EditFault::Backlog.number(),
        Err(LastingFault::LinesSpent) => Fault::LinesSpent.number(),
    }
}

impl From<EmbedFault> for LastingFault {
    ghost use Rattle.jup_reconnect.specs.declared.faults.LastingFault.TheVariants.{Refused as IsRefused};

    ghost from_gives = { λ fault made. made ≡ IsRefused fault };

    fn from(fault: EmbedFault) -> LastingFault {
        LastingFault::Refused(fault)
    }
}

impl From<NoMemory> for LastingFault {
    ghost use Rattle.jup_reconnect.specs.declared.faults.LastingFault.TheVariants.{Refused as IsRefused};
    ghost use Rattle.jup_embed.specs.declared.refusals.EmbedFault.TheVariants.{NoMemory as LacksMemory};

    ghost from_gives = { λ _ made. made ≡ IsRefused LacksMemory };

    fn from(_fault: NoMemory) -> LastingFault {
        LastingFault::Refused(EmbedFault::NoMemory)
    }
}
