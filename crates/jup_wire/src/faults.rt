//! What can be wrong with the bytes of a link.
ghost use Rattle.std.specs.Prelude.{◌≡◌};
ghost use Rattle.jup_wire.specs.Lines.{wire_fault_number};

use jup_faults::Fault;
use thiserror::Error;

/// A fault in the bytes that a link carries.
#[derive(Clone, Copy, Debug, PartialEq, Eq, Error)]
pub enum WireFault {
    #[error("{}", Fault::BadLine)]
    BadLine,
    #[error("{}", Fault::LongLine)]
    LongLine,
    #[error("{}", Fault::BadVersion)]
    BadVersion,
    #[error("the bytes end within a line")]
    EarlyEnd,
}

impl WireFault {
    /// The number of this fault in messages and printed texts.
    pub fn number(self) -> u32
        ensures { result ≡ wire_fault_number self }
    {
        match self {
            WireFault::BadLine => Fault::BadLine.number(),
            WireFault::LongLine => Fault::LongLine.number(),
            WireFault::BadVersion => Fault::BadVersion.number(),
            WireFault::EarlyEnd => Fault::EarlyEnd.number(),
        }
    }
}
