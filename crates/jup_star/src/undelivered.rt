//! Why a message that was handed over to a site is not delivered.
ghost use Rattle.std.specs.Prelude.{◌≡◌};

use crate::{Down, SiteFault};
use jup_faults::Fault;
use thiserror::Error;

/// Why a site did not take a message that was handed over to it.
#[derive(Debug, Drop, PartialEq, Eq, Error)]
pub enum Undelivered {
    /// An allocation failed. The site is as it was, and this is the message.
    #[error("{}", Fault::NoMemory)]
    NoMemory(Down),
    /// Any other fault. The message is gone.
    #[error(transparent)]
    Fault(SiteFault),
}

impl From<SiteFault> for Undelivered {
    ghost use Rattle.jup_star.specs.declared.undelivered.Undelivered.TheVariants.{Fault};

    ghost from_gives = { λ fault made. made ≡ Fault fault };

    fn from(fault: SiteFault) -> Undelivered {
        Undelivered::Fault(fault)
    }
}

impl From<Undelivered> for SiteFault {
    ghost use Rattle.jup_star.specs.Sites.{fault_in};

    ghost from_gives = { λ refusal made. made ≡ fault_in refusal };

    fn from(refusal: Undelivered) -> SiteFault {
        match refusal {
            Undelivered::NoMemory(_) => SiteFault::NoMemory,
            Undelivered::Fault(fault) => fault,
        }
    }
}
