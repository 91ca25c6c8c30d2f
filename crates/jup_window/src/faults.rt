//! Why a board or a command is refused.
ghost use Rattle.std.specs.Prelude.{◌≡◌};
ghost use Rattle.jup_window.specs.Commands.{board_fault_number, edit_fault_number};

use jup_faults::Fault;
use jup_limits::NoMemory;
use thiserror::Error;

/// Why a window or a widget is not added.
#[derive(Clone, Copy, Debug, PartialEq, Eq, Error)]
pub enum BoardFault {
    #[error("no such window")]
    NoWindow,
    #[error("{}", Fault::NoMemory)]
    NoMemory,
    #[error("{}", Fault::DoubleId)]
    DoubleId,
    #[error("there are 64 already")]
    TooMany,
    #[error("{}", Fault::BadId)]
    BadId,
}

impl BoardFault {
    /// The number of this fault in messages and printed texts.
    pub fn number(self) -> u32
        ensures { result ≡ board_fault_number self }
    {
        match self {
            BoardFault::NoWindow => 1,
            BoardFault::NoMemory => Fault::NoMemory.number(),
            BoardFault::DoubleId => Fault::DoubleId.number(),
            BoardFault::TooMany => Fault::TooMany.number(),
            BoardFault::BadId => Fault::BadId.number(),
        }
    }
}

/// Why a command is refused. [`Board::name_it`](crate::Board::name_it) answers the first six; the
/// others are a site's.
#[derive(Clone, Copy, Debug, PartialEq, Eq, Error)]
pub enum EditFault {
    #[error("{}", BoardFault::NoWindow)]
    NoWindow,
    #[error("no such widget in the window")]
    NoWidget,
    #[error("the command does not fit the widget")]
    WrongKind,
    #[error("the place is past the end")]
    BadPlace,
    #[error("the value is not within the bounds")]
    BadValue,
    #[error("the sequence is too long to insert into")]
    LongText,
    #[error("too many edits are not acknowledged")]
    Backlog,
    #[error("{}", Fault::NoMemory)]
    NoMemory,
    #[error("the site has made all of its edits")]
    Spent,
    #[error("not 1 to 32 commands")]
    BadBatch,
    #[error("{}", Fault::Stopped)]
    Stopped,
}

impl EditFault {
    /// The number of this fault in messages and printed texts.
    pub fn number(self) -> u32
        ensures { result ≡ edit_fault_number self }
    {
        match self {
            EditFault::NoWindow => BoardFault::NoWindow.number(),
            EditFault::NoWidget => 2,
            EditFault::WrongKind => 3,
            EditFault::BadPlace => 4,
            EditFault::BadValue => 5,
            EditFault::LongText => 6,
            EditFault::Backlog => 7,
            EditFault::NoMemory => Fault::NoMemory.number(),
            EditFault::Spent => 9,
            EditFault::BadBatch => 15,
            EditFault::Stopped => Fault::Stopped.number(),
        }
    }
}

impl From<NoMemory> for EditFault {
    ghost use Rattle.jup_window.specs.declared.faults.EditFault.TheVariants.{NoMemory as Refused};

    ghost from_gives = { λ _ made. made ≡ Refused };

    fn from(_fault: NoMemory) -> EditFault {
        EditFault::NoMemory
    }
}
