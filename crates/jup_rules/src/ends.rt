//! Why sessions end, with their numbers.
ghost use Rattle.std.specs.Prelude.{◌≡◌, ◌≢◌, [], Some, IsSomeAnd};
ghost use Rattle.jup_faults.specs.Faults.{fault_number};
ghost use Rattle.jup_faults.specs.declared.table.Fault.TheVariants.{EarlyEnd};
ghost use Rattle.jup_stream.specs.declared.faults.StreamFault.{StreamFault};
ghost use Rattle.jup_rules.specs.Ends.{last_line, standing, ending_of, ended_by, ended_untaken, session_fault_number};

use crate::FarBehind;
use jup_faults::Fault;
use jup_gather::Gather;
use jup_hub::HubFault;
use jup_stream::{Stop, StreamFault};
use jup_wire::{Line, WireFault};
use thiserror::Error;

/// Why a session ends early.
#[derive(Clone, Copy, Debug, PartialEq, Eq, Error)]
pub enum SessionFault {
    /// The hub refused a call, or its star did.
    #[error(transparent)]
    Hub(HubFault),
    /// Its link is at fault, or an allocation failed.
    #[error(transparent)]
    Stream(StreamFault),
    #[error("{}", Fault::GateShut)]
    GateShut,
    /// The site is more operations behind than a site of a running server may be.
    #[error("the site is too far behind")]
    FarBehind(FarBehind),
}

impl SessionFault {
    /// The number of this fault in messages and printed texts.
    pub fn number(self) -> u32
        ensures { result ≡ session_fault_number self }
    {
        match self {
            SessionFault::Hub(fault) => fault.number(),
            SessionFault::Stream(fault) => fault.number(),
            SessionFault::GateShut => Fault::GateShut.number(),
            SessionFault::FarBehind(_) => Fault::WriteFailed.number(),
        }
    }
}

impl From<HubFault> for SessionFault {
    ghost use Rattle.jup_rules.specs.declared.ends.SessionFault.TheVariants.{Hub};

    ghost from_gives = { λ fault made. made ≡ Hub fault };

    fn from(fault: HubFault) -> SessionFault {
        SessionFault::Hub(fault)
    }
}

impl From<FarBehind> for SessionFault {
    ghost use Rattle.jup_rules.specs.declared.ends.SessionFault.TheVariants.{FarBehind};

    ghost from_gives = { λ far made. made ≡ FarBehind far };

    fn from(far: FarBehind) -> SessionFault {
        SessionFault::FarBehind(far)
    }
}

impl From<StreamFault> for SessionFault {
    ghost use Rattle.jup_rules.specs.declared.ends.SessionFault.TheVariants.{Stream};

    ghost from_gives = { λ fault made. made ≡ Stream fault };

    fn from(fault: StreamFault) -> SessionFault {
        SessionFault::Stream(fault)
    }
}

/// Why a message of a site was not taken although the star was not asked.
#[derive(Clone, Copy, Debug, PartialEq, Eq)]
pub enum Untaken {
    /// The site was too far behind.
    FarBehind(FarBehind),
    /// The gate stayed shut for this edit of the site: which one it is, from 1.
    GateShut(u32),
    /// The session ended before few enough pongs were owed.
    Over,
}

/// How a session ended.
#[derive(Clone, Copy, Debug, PartialEq, Eq)]
pub enum Ending {
    /// The site said so.
    Bye,
    /// The site's bytes ended between lines.
    Gone,
    /// The number of a fault.
    Fault(u32),
}

impl Ending {
    /// The last line of a session that ends so.
    pub fn line(self) -> Line
        ensures { result ≡ last_line self }
    {
        match self {
            Ending::Bye | Ending::Gone => Line::Bye,
            Ending::Fault(number) => Line::Error(number),
        }
    }

    /// How a session ends if no further line of its site comes, and these lines are held of a message. The
    /// site is gone only if its bytes end between messages.
    pub fn behind(gather: &Gather, stop: Stop) -> Ending
        ensures early { stop ≡ Stop.End → IsSomeAnd gather.now (λ part. part ≢ []) → result ≡ Ending.Fault (fault_number EarlyEnd) }
        ensures gone { stop ≡ Stop.End → gather.now ≡ Some [] → result ≡ Ending.Gone }
        ensures fault { (fault : StreamFault) → stop ≡ Stop.Fault fault → result ≡ ending_of (SessionFault.Stream fault) }
    {
        match stop {
            Stop::End if gather.part() => Ending::Fault(WireFault::EarlyEnd.number()),
            stop => stop.into(),
        }
    }

    /// The ending that counts if this one comes after what was noted: the first that was noted.
    pub fn after(self, noted: Option<Ending>) -> Ending
        ensures { result ≡ standing noted self }
    {
        noted.unwrap_or(self)
    }
}

impl From<SessionFault> for Ending {
    ghost from_gives = { λ fault made. made ≡ ending_of fault };

    fn from(fault: SessionFault) -> Ending {
        Ending::Fault(fault.number())
    }
}

impl From<Untaken> for Ending {
    ghost from_gives = { λ why made. made ≡ ended_untaken why };

    fn from(why: Untaken) -> Ending {
        match why {
            Untaken::FarBehind(far) => SessionFault::FarBehind(far).into(),
            Untaken::GateShut(_) => SessionFault::GateShut.into(),
            Untaken::Over => Ending::Gone,
        }
    }
}

impl From<StreamFault> for Ending {
    ghost use Rattle.jup_rules.specs.declared.ends.SessionFault.TheVariants.{Stream};

    ghost from_gives = { λ fault made. made ≡ ending_of (Stream fault) };

    fn from(fault: StreamFault) -> Ending {
        SessionFault::Stream(fault).into()
    }
}

impl From<Stop> for Ending {
    ghost from_gives = { λ stop made. made ≡ ended_by stop };

    fn from(stop: Stop) -> Ending {
        match stop {
            Stop::End => Ending::Gone,
            Stop::Fault(fault) => fault.into(),
        }
    }
}
