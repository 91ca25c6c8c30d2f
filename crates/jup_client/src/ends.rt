//! Why a client ends, with its number and its exit status.
ghost use Rattle.std.specs.IoError.{error_kind};
ghost use Rattle.std.specs.Prelude.{◌≡◌, ◌≢◌, ◌≤◌, ◌↔◌, true, IsSome};
ghost use Rattle.jup_client.specs.Ends.{client_end_number, client_end_status, client_end_is_explained};

use jup_layout::LayoutFault;
use jup_star::{OpenFault, SiteFault, Undelivered};
use jup_stream::{Stop, StreamFault, cause_of};
use jup_wire::WireFault;
use jup_xform::NoMemory;
use std::io;
use std::io::ErrorKind;
use thiserror::Error;

/// Why a client ends early.
#[derive(Clone, Copy, Debug, PartialEq, Eq, Error)]
pub enum ClientEnd {
    /// The number of a fault in what the server sent, or of one that the server reported.
    #[error("fault {0}")]
    Fault(u32),
    #[error("{}", NoMemory)]
    NoMemory,
    /// It could not connect.
    #[error("io fault")]
    Unconnected,
    #[error("io fault")]
    ReadFailed,
    #[error("io fault")]
    WriteFailed,
}

impl ClientEnd {
    /// The number of this fault in messages and printed texts.
    pub fn number(self) -> u32
        ensures { result ≡ client_end_number self }
    {
        match self {
            ClientEnd::Fault(number) => number,
            ClientEnd::NoMemory => StreamFault::NoMemory.number(),
            ClientEnd::Unconnected | ClientEnd::ReadFailed => StreamFault::ReadFailed.number(),
            ClientEnd::WriteFailed => StreamFault::WriteFailed.number(),
        }
    }

    /// The end of a client that could not connect: because an allocation failed, or as it is.
    pub fn of_connecting(error: &io::Error) -> ClientEnd
        ensures memory { error_kind error.now ≡ ErrorKind.OutOfMemory → result ≡ ClientEnd.NoMemory }
        ensures other { error_kind error.now ≢ ErrorKind.OutOfMemory → result ≡ ClientEnd.Unconnected }
    {
        if error.kind() == ErrorKind::OutOfMemory {
            ClientEnd::NoMemory
        } else {
            ClientEnd::Unconnected
        }
    }

    /// The cause of this end, for people. It is `None` if the end's own text says so, and if no link could be made: the caller
    /// knows the address.
    pub fn cause(self) -> Option<&'static str>
        ensures { IsSome result ↔ (client_end_is_explained self ≡ true) }
    {
        match self {
            ClientEnd::NoMemory | ClientEnd::Unconnected => None,
            ClientEnd::Fault(_) | ClientEnd::ReadFailed | ClientEnd::WriteFailed => {
                Some(cause_of(self.number()))
            }
        }
    }

    /// The exit status of a client that ends so.
    pub fn status(self) -> u8
        ensures status { result ≡ client_end_status self }
        ensures most { result ≤ 4 }
    {
        match self {
            ClientEnd::Unconnected | ClientEnd::ReadFailed | ClientEnd::WriteFailed => 1,
            ClientEnd::NoMemory => 3,
            ClientEnd::Fault(_) => 4,
        }
    }
}

impl From<NoMemory> for ClientEnd {
    ghost use Rattle.jup_client.specs.declared.ends.ClientEnd.TheVariants.{NoMemory as Ended};

    ghost from_gives = { λ _ made. made ≡ Ended };

    fn from(_fault: NoMemory) -> ClientEnd {
        ClientEnd::NoMemory
    }
}

impl From<StreamFault> for ClientEnd {
    ghost use Rattle.jup_client.specs.Ends.{end_of_fault};

    ghost from_gives = { λ fault made. made ≡ end_of_fault fault };

    fn from(fault: StreamFault) -> ClientEnd {
        match fault {
            StreamFault::NoMemory => ClientEnd::NoMemory,
            StreamFault::ReadFailed => ClientEnd::ReadFailed,
            StreamFault::WriteFailed => ClientEnd::WriteFailed,
            _ => ClientEnd::Fault(fault.number()),
        }
    }
}

impl From<Stop> for ClientEnd {
    ghost use Rattle.jup_client.specs.Ends.{end_of_stop};

    ghost from_gives = { λ fault made. made ≡ end_of_stop fault };

    fn from(stop: Stop) -> ClientEnd {
        match stop {
            // A server says that it ends.
            Stop::End => ClientEnd::Fault(WireFault::EarlyEnd.number()),
            Stop::Fault(fault) => fault.into(),
        }
    }
}

impl From<LayoutFault> for ClientEnd {
    ghost use Rattle.jup_client.specs.Ends.{end_of_layout};

    ghost from_gives = { λ fault made. made ≡ end_of_layout fault };

    fn from(fault: LayoutFault) -> ClientEnd {
        if fault.line == 0 {
            ClientEnd::NoMemory
        } else {
            ClientEnd::Fault(fault.number)
        }
    }
}

impl From<OpenFault> for ClientEnd {
    ghost use Rattle.jup_client.specs.Ends.{end_of_open};

    ghost from_gives = { λ fault made. made ≡ end_of_open fault };

    fn from(fault: OpenFault) -> ClientEnd {
        match fault {
            OpenFault::NoMemory => ClientEnd::NoMemory,
            _ => ClientEnd::Fault(fault.number()),
        }
    }
}

impl From<SiteFault> for ClientEnd {
    ghost use Rattle.jup_client.specs.Ends.{end_of_site};

    ghost from_gives = { λ fault made. made ≡ end_of_site fault };

    fn from(fault: SiteFault) -> ClientEnd {
        match fault {
            SiteFault::NoMemory => ClientEnd::NoMemory,
            _ => ClientEnd::Fault(fault.number()),
        }
    }
}

impl From<Undelivered> for ClientEnd {
    ghost use Rattle.jup_star.specs.Sites.{fault_in};
    ghost use Rattle.jup_client.specs.Ends.{end_of_site};

    ghost from_gives = { λ refusal made. made ≡ end_of_site (fault_in refusal) };

    fn from(refusal: Undelivered) -> ClientEnd {
        SiteFault::from(refusal).into()
    }
}
