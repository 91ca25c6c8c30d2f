//! What is wrong with a link, and why no further line comes.
ghost use Rattle.std.specs.Prelude.{◌≡◌};
ghost use Rattle.jup_stream.specs.Faults.{stream_fault_number};

use jup_faults::Fault;
use jup_wire::WireFault;
use thiserror::Error;

/// What is wrong with a link: with its bytes, with the place of a line, or with its reads and writes.
#[derive(Clone, Copy, Debug, PartialEq, Eq, Error)]
pub enum StreamFault {
    /// Bytes that are no line, or that end within one.
    #[error(transparent)]
    Wire(WireFault),
    #[error("{}", Fault::NoMemory)]
    NoMemory,
    #[error("{}", Fault::Misplaced)]
    Misplaced,
    #[error("{}", Fault::ReadsSpent)]
    ReadsSpent,
    #[error("{}", Fault::ReadFailed)]
    ReadFailed,
    #[error("a write failed")]
    WriteFailed,
}

impl StreamFault {
    /// The number of this fault in messages and printed texts.
    pub fn number(self) -> u32
        ensures { result ≡ stream_fault_number self }
    {
        match self {
            StreamFault::Wire(fault) => fault.number(),
            StreamFault::NoMemory => Fault::NoMemory.number(),
            StreamFault::Misplaced => Fault::Misplaced.number(),
            StreamFault::ReadsSpent => Fault::ReadsSpent.number(),
            StreamFault::ReadFailed => Fault::ReadFailed.number(),
            StreamFault::WriteFailed => Fault::WriteFailed.number(),
        }
    }
}

/// Why no further line comes.
#[derive(Clone, Copy, Debug, PartialEq, Eq)]
pub enum Stop {
    /// The link ended between lines.
    End,
    Fault(StreamFault),
}

impl From<StreamFault> for Stop {
    ghost use Rattle.jup_stream.specs.declared.faults.Stop.TheVariants.{Fault};

    ghost from_gives = { λ fault made. made ≡ Fault fault };

    fn from(fault: StreamFault) -> Stop {
        Stop::Fault(fault)
    }
}
