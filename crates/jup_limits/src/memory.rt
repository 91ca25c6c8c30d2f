//! The refusal that any call may meet.
ghost use Rattle.std.specs.Prelude.{◌≡◌};
ghost use Rattle.jup_faults.specs.Faults.{fault_number};

use jup_faults::Fault;
use std::alloc::AllocError;
use thiserror::Error;

/// An allocation failed. What the call would have changed is as it was.
#[derive(Clone, Copy, Debug, PartialEq, Eq, Error)]
#[error("{}", Fault::NoMemory)]
pub struct NoMemory;

impl NoMemory {
    /// The number of this fault in messages and printed texts.
    pub fn number(self) -> u32
        ensures { result ≡ fault_number Fault.NoMemory }
    {
        Fault::NoMemory.number()
    }
}

impl From<AllocError> for NoMemory {
    fn from(_error: AllocError) -> NoMemory {
        NoMemory
    }
}
