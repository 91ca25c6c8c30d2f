//! Why a call of the hub is refused.
ghost use Rattle.std.specs.Prelude.{◌≡◌};
ghost use Rattle.jup_star.specs.Stars.{lacks_memory};
ghost use Rattle.jup_hub.specs.Histories.{told, hub_fault_number};

use jup_faults::Fault;
use jup_star::StarFault;
use thiserror::Error;

/// Why the hub refuses a call.
#[derive(Clone, Copy, Debug, PartialEq, Eq, Error)]
pub enum HubFault {
    /// The star refused it.
    #[error(transparent)]
    Star(StarFault),
    /// The count of events can't grow.
    #[error("{}", Fault::HubSpent)]
    Spent,
}

impl HubFault {
    /// The number of this fault in messages and printed texts.
    pub fn number(self) -> u32
        ensures { result ≡ hub_fault_number self }
    {
        match self {
            HubFault::Star(fault) => fault.number(),
            HubFault::Spent => Fault::HubSpent.number(),
        }
    }
}

impl From<StarFault> for HubFault {
    ghost use Rattle.jup_hub.specs.declared.fault.HubFault.TheVariants.{Star};

    ghost from_gives = { λ fault made. made ≡ Star fault };

    fn from(fault: StarFault) -> HubFault {
        HubFault::Star(fault)
    }
}

// Whether an allocation failed.
pub(crate) fn lacks_memory<T>(answer: &Result<T, StarFault>) -> bool
    ensures { result ≡ lacks_memory answer.now }
{
    matches!(answer, Err(StarFault::NoMemory))
}

// The star's answer, as the hub reports it.
pub(crate) fn hub_answer<T>(answer: Result<T, StarFault>) -> Result<T, HubFault>
    ensures { result ≡ told answer }
{
    answer.map_err(HubFault::Star)
}
