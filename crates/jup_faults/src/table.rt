//! The table of faults.
ghost use Rattle.std.specs.Prelude.{◌≡◌, IfSome};
ghost use Rattle.jup_faults.specs.Faults.{fault_number};

use thiserror::Error;

/// A fault that one end of a link tells the other by its number, or that a layout has. Where several faults have one number, the words here fit each of them:
/// 11, 22, 43 and 71.
#[derive(Clone, Copy, Debug, PartialEq, Eq, Error)]
#[error("{}", self.words())]
pub enum Fault {
    NoMemory = 8,
    DoubleId = 10,
    TooMany = 11,
    BadId = 12,
    BadBounds = 13,
    BadCount = 20,
    BadAck = 21,
    BadName = 22,
    BadOp = 23,
    NotAnEdit = 24,
    Stopped = 25,
    Full = 30,
    SitesSpent = 31,
    LogFull = 32,
    NoLink = 33,
    HubSpent = 34,
    NoSuchLink = 35,
    BadTaken = 36,
    LinesSpent = 37,
    NoSuchBoard = 38,
    NotAllowed = 39,
    BadLine = 40,
    LongLine = 41,
    BadVersion = 42,
    EarlyEnd = 43,
    Misplaced = 44,
    BadItemName = 45,
    ReadsSpent = 46,
    NoRoom = 48,
    UnreadableBoard = 49,
    BadLimit = 50,
    BadSite = 51,
    GateShut = 60,
    ReadFailed = 70,
    WriteFailed = 71,
}

/// Each fault.
const FAULTS: [Fault; 35] = [
    Fault::NoMemory,
    Fault::DoubleId,
    Fault::TooMany,
    Fault::BadId,
    Fault::BadBounds,
    Fault::BadCount,
    Fault::BadAck,
    Fault::BadName,
    Fault::BadOp,
    Fault::NotAnEdit,
    Fault::Stopped,
    Fault::Full,
    Fault::SitesSpent,
    Fault::LogFull,
    Fault::NoLink,
    Fault::HubSpent,
    Fault::NoSuchLink,
    Fault::BadTaken,
    Fault::LinesSpent,
    Fault::NoSuchBoard,
    Fault::NotAllowed,
    Fault::BadLine,
    Fault::LongLine,
    Fault::BadVersion,
    Fault::EarlyEnd,
    Fault::Misplaced,
    Fault::BadItemName,
    Fault::ReadsSpent,
    Fault::NoRoom,
    Fault::UnreadableBoard,
    Fault::BadLimit,
    Fault::BadSite,
    Fault::GateShut,
    Fault::ReadFailed,
    Fault::WriteFailed,
];

impl Fault {
    /// The number of this fault in messages and printed texts.
    pub fn number(self) -> u32
        ensures { result ≡ fault_number self }
    {
        self as u32
    }

    /// What it says to people.
    pub fn words(self) -> &'static str {
        match self {
            Fault::NoMemory => "no memory",
            Fault::DoubleId => "the id is taken",
            Fault::TooMany => "there are too many already",
            Fault::BadId => "0 is no id",
            Fault::BadBounds => "the value is not within the bounds",
            Fault::BadCount => "not the next operation",
            Fault::BadAck => "not a count that may be acknowledged",
            Fault::BadName => "not the next name of the site",
            Fault::BadOp => "the operation does not fit the board",
            Fault::NotAnEdit => "the operation is no edit",
            Fault::Stopped => "the site has stopped",
            Fault::Full => "all links are taken",
            Fault::SitesSpent => "all site numbers are spent",
            Fault::LogFull => "the order is full",
            Fault::NoLink => "the site has no link",
            Fault::HubSpent => "the count of events is spent",
            Fault::NoSuchLink => "no such link",
            Fault::BadTaken => "not a count of lines that this end can have",
            Fault::LinesSpent => "all lines of the link were put",
            Fault::NoSuchBoard => "no such board, or not its key",
            Fault::NotAllowed => "the key does not allow that",
            Fault::BadLine => "no line of the protocol",
            Fault::LongLine => "256 bytes without the end of a line",
            Fault::BadVersion => "a greeting of another version",
            Fault::EarlyEnd => "the bytes end too early",
            Fault::Misplaced => "a line out of its place",
            Fault::BadItemName => "the item is not named as its place asks",
            Fault::ReadsSpent => "all reads were made",
            Fault::NoRoom => "no room for another board or link",
            Fault::UnreadableBoard => "the board can't be read",
            Fault::BadLimit => "the limit is not 1 to 16,777,216",
            Fault::BadSite => "not a number or a board of this site",
            Fault::GateShut => "the gate stayed shut",
            Fault::ReadFailed => "a read failed",
            Fault::WriteFailed => "a write failed, or the site is too far behind",
        }
    }

    /// The fault that has this number.
    pub fn of_number(number: u32) -> Option<Fault>
        ensures { IfSome result (λ fault. fault_number fault ≡ number) }
    {
        for fault in &FAULTS {
            if fault.number() == number {
                return Some(*fault);
            }
        }
        None
    }
}

/// What went wrong if a fault has this number, in words for people. A peer gets the number alone.
pub fn cause_of(number: u32) -> &'static str {
    match Fault::of_number(number) {
        Some(fault) => fault.words(),
        None => "a fault that is not known here",
    }
}
