//! Why a run that has begun is stopped.
ghost use Rattle.std.specs.Prelude.{◌≡◌};

use jup_hub::HubFault;
use jup_star::{SiteFault, StarFault};
use std::alloc::{AllocError, AllocFailed};

/// What stops a site, or the pass that joins and drains the sites. It is no `RunFault`, so that what is refused before a run begins
/// cannot come from within the run.
#[derive(Clone, Copy, Drop)]
pub(crate) enum Halt {
    NoMemory,
    LogFull,
    GateShut,
    /// What no run should meet.
    RunBroken,
}

impl From<HubFault> for Halt {
    ghost use Rattle.jup_app.specs.RunFaults.{stop_of_hub};

    ghost from_gives = { λ fault made. made ≡ stop_of_hub fault };

    fn from(fault: HubFault) -> Halt {
        match fault {
            HubFault::Star(StarFault::NoMemory) => Halt::NoMemory,
            HubFault::Star(StarFault::LogFull) => Halt::LogFull,
            _ => Halt::RunBroken,
        }
    }
}

impl From<SiteFault> for Halt {
    ghost use Rattle.jup_app.specs.RunFaults.{stop_of_site};

    ghost from_gives = { λ fault made. made ≡ stop_of_site fault };

    fn from(fault: SiteFault) -> Halt {
        match fault {
            SiteFault::NoMemory => Halt::NoMemory,
            _ => Halt::RunBroken,
        }
    }
}

impl From<AllocError> for Halt {
    ghost use Rattle.jup_app.specs.declared.runs.halt.Halt.TheVariants.{NoMemory as Lacking};

    ghost from_gives = { λ _ made. made ≡ Lacking };

    fn from(_refused: AllocError) -> Halt {
        Halt::NoMemory
    }
}

impl<T: Drop> From<AllocFailed<T>> for Halt {
    ghost use Rattle.jup_app.specs.declared.runs.halt.Halt.TheVariants.{NoMemory as Lacking};

    ghost from_gives = { λ _ made. made ≡ Lacking };

    fn from(_refused: AllocFailed<T>) -> Halt {
        Halt::NoMemory
    }
}
