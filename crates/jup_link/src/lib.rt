//! The two-way link of the Jupiter collaboration system (Nichols, Curtis, Dixon and Lamping, UIST 1995),
//! over any operations that can be transformed past one another.
//!
//! Both ends of a link apply their own operations immediately and send them. An [`End`] counts what it sent
//! and received, keeps the operations that are not known to be received, and says what is to be applied for a
//! message that comes. It holds no state: its owner applies the operations. Messages between two ends must
//! come in order, none lost and none twice. Then the ends agree: see [`ends_agree`].
#![tactic(auto)]

ghost use Rattle.std.specs.Prelude.{◌≡◌};
ghost use Rattle.jup_faults.specs.Faults.{fault_number};

use jup_faults::Fault;
use thiserror::Error;

mod agree;
mod end;

pub use agree::ends_agree;
pub use end::End;

/// An operation on its way to the other end of a link.
#[derive(Debug, Drop, PartialEq, Eq)]
pub struct Msg<T> {
    /// The operation's number: how many its end generated before it.
    pub mine: u32,
    /// How many operations of the other end its end had received. It acknowledges those.
    pub heard: u32,
    pub op: T,
}

/// Why an end refuses a message or an acknowledgement. Two ends that are in step refuse none.
#[derive(Clone, Copy, Debug, PartialEq, Eq, Error)]
pub enum LinkFault {
    #[error("{}", Fault::BadCount)]
    BadCount,
    #[error("{}", Fault::BadAck)]
    BadAck,
}

impl LinkFault {
    /// The number of this fault in messages and printed texts.
    pub fn number(self) -> u32
        ensures count { self ≡ LinkFault.BadCount → result ≡ fault_number Fault.BadCount }
        ensures ack { self ≡ LinkFault.BadAck → result ≡ fault_number Fault.BadAck }
    {
        match self {
            LinkFault::BadCount => Fault::BadCount.number(),
            LinkFault::BadAck => Fault::BadAck.number(),
        }
    }
}
