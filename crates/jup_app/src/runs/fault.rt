//! Why a run is refused.
ghost use Rattle.std.specs.Prelude.{◌≡◌};
ghost use Rattle.jup_app.specs.RunFaults.{run_fault_number};

use crate::runs::halt::Halt;
use jup_faults::Fault;
use jup_star::OpenFault;
use thiserror::Error;

/// Why a run is refused.
#[derive(Clone, Copy, Debug, PartialEq, Eq, Error)]
pub enum RunFault {
    #[error("{}", Fault::NoMemory)]
    NoMemory,
    #[error("{}", Fault::LogFull)]
    LogFull,
    #[error("{}", Fault::BadLimit)]
    BadLimit,
    #[error("not a board of a layout")]
    BadSite,
    #[error("{}", Fault::GateShut)]
    GateShut,
    #[error("not 1 to 64 sites")]
    BadSites,
    #[error("the run is broken")]
    RunBroken,
}

impl RunFault {
    /// The number of this fault in messages and printed texts.
    pub fn number(self) -> u32
        ensures { result ≡ run_fault_number self }
    {
        match self {
            RunFault::NoMemory => Fault::NoMemory.number(),
            RunFault::LogFull => Fault::LogFull.number(),
            RunFault::BadLimit => Fault::BadLimit.number(),
            RunFault::BadSite => Fault::BadSite.number(),
            RunFault::GateShut => Fault::GateShut.number(),
            RunFault::BadSites => 61,
            RunFault::RunBroken => 62,
        }
    }
}

impl From<OpenFault> for RunFault {
    ghost use Rattle.jup_app.specs.RunFaults.{open_refusal};

    ghost from_gives = { λ fault made. made ≡ open_refusal fault };

    fn from(fault: OpenFault) -> RunFault {
        match fault {
            OpenFault::NoMemory => RunFault::NoMemory,
            OpenFault::BadLimit => RunFault::BadLimit,
            OpenFault::BadSite => RunFault::BadSite,
        }
    }
}

impl From<Halt> for RunFault {
    ghost use Rattle.jup_app.specs.RunFaults.{stopped_by};

    ghost from_gives = { λ stop made. made ≡ stopped_by stop };

    fn from(stop: Halt) -> RunFault {
        match stop {
            Halt::NoMemory => RunFault::NoMemory,
            Halt::LogFull => RunFault::LogFull,
            Halt::GateShut => RunFault::GateShut,
            Halt::RunBroken => RunFault::RunBroken,
        }
    }
}
