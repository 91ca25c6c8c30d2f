//! Why lines are no board.
ghost use Rattle.std.specs.Prelude.{◌≡◌};
ghost use Rattle.jup_layout.specs.Drafts.{refusal_number, refusal_of};

use jup_faults::Fault;
use jup_window::BoardFault;

/// Why a line may not come after those before it.
#[derive(Clone, Copy, PartialEq, Eq)]
pub(crate) enum Refusal {
    NoMemory,
    DoubleId,
    TooMany,
    BadId,
    BadBounds,
    /// A line of another kind, or after no line that it may belong to.
    Misplaced,
    BadItemName,
}

impl Refusal {
    /// The number of this fault in messages and printed texts.
    pub(crate) fn number(self) -> u32
        ensures { result ≡ refusal_number self }
    {
        match self {
            Refusal::NoMemory => Fault::NoMemory.number(),
            Refusal::DoubleId => Fault::DoubleId.number(),
            Refusal::TooMany => Fault::TooMany.number(),
            Refusal::BadId => Fault::BadId.number(),
            Refusal::BadBounds => Fault::BadBounds.number(),
            Refusal::Misplaced => Fault::Misplaced.number(),
            Refusal::BadItemName => Fault::BadItemName.number(),
        }
    }

    /// A board's refusal of a window or a widget, as one of its line.
    pub(crate) fn of_board(fault: BoardFault) -> Refusal
        ensures { result ≡ refusal_of fault }
    {
        match fault {
            BoardFault::NoWindow => Refusal::Misplaced,
            BoardFault::NoMemory => Refusal::NoMemory,
            BoardFault::DoubleId => Refusal::DoubleId,
            BoardFault::TooMany => Refusal::TooMany,
            BoardFault::BadId => Refusal::BadId,
        }
    }
}
