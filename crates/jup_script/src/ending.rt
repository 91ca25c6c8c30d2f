//! How a script ends early.
ghost use Rattle.std.specs.Prelude.{◌≡◌};
ghost use Rattle.jup_script.specs.ScriptEnds.{script_end_fault, script_end_number, script_end_status};

use crate::ScriptFault;
use jup_faults::Fault;
use thiserror::Error;

/// Why a script was not played to its end.
#[derive(Clone, Copy, Debug, PartialEq, Eq, Error)]
pub enum ScriptEnd {
    /// The line of this number, from 1, is no line of the script's mode, or is refused there.
    #[error("line {0}: bad script")]
    Bad(u32, ScriptFault),
    #[error("script too long")]
    LongInput,
    #[error("{}", Fault::NoMemory)]
    NoMemory,
    #[error("io fault")]
    ReadFailed,
    #[error("io fault")]
    WriteFailed,
}

impl ScriptEnd {
    /// What is wrong with the line, if one is bad.
    pub fn fault(self) -> Option<ScriptFault>
        ensures { result ≡ script_end_fault self }
    {
        match self {
            ScriptEnd::Bad(_, fault) => Some(fault),
            _ => None,
        }
    }

    /// The number of this fault in messages and printed texts.
    pub fn number(self) -> u32
        ensures { result ≡ script_end_number self }
    {
        match self {
            ScriptEnd::NoMemory => Fault::NoMemory.number(),
            ScriptEnd::Bad(..) => Fault::BadLine.number(),
            ScriptEnd::LongInput => 47,
            ScriptEnd::ReadFailed => Fault::ReadFailed.number(),
            ScriptEnd::WriteFailed => Fault::WriteFailed.number(),
        }
    }

    /// The exit status of a program that plays the script.
    pub fn status(self) -> u8
        ensures { result ≡ script_end_status self }
    {
        match self {
            ScriptEnd::ReadFailed | ScriptEnd::WriteFailed => 1,
            ScriptEnd::Bad(..) | ScriptEnd::LongInput => 2,
            ScriptEnd::NoMemory => 3,
        }
    }
}
