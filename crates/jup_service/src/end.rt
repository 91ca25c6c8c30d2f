//! Why a server of browsers ends early.
ghost use Rattle.std.specs.Prelude.{◌≡◌, ◌≢◌, ◌≤◌};
ghost use Rattle.std.specs.IoError.{error_kind};
ghost use Rattle.jup_service.specs.Servers.{service_end_status};

use crate::{CaptionFault, KeptFileFault};
use jup_board::{BoardEnd, LineFault};
use jup_xform::NoMemory;
use std::alloc::AllocError;
use std::io;
use std::io::ErrorKind;
use thiserror::Error;

/// What a server tried when a read or a write failed.
#[derive(Clone, Copy, Debug)]
pub enum Attempt {
    OpenBoard,
    WriteBoard,
    ReadPage,
    ReadCaptions,
    Listen,
    Print,
}

impl Attempt {
    /// What the operator reads of it, after the word `cannot`.
    pub fn text(self) -> &'static str {
        match self {
            Attempt::OpenBoard => "open the board",
            Attempt::WriteBoard => "write the board",
            Attempt::ReadPage => "read the page",
            Attempt::ReadCaptions => "read the captions",
            Attempt::Listen => "listen there",
            Attempt::Print => "print",
        }
    }
}

/// Why a server ends early.
#[derive(Clone, Copy, Debug, Error)]
pub enum ServiceEnd {
    #[error("no origin")]
    NoOrigin,
    #[error("io fault")]
    Io(Attempt),
    #[error("board in use")]
    BoardTaken,
    #[error("{}", NoMemory)]
    NoMemory,
    /// The line of this number, from 1, is no line of a printed board, or is refused there.
    #[error("line {0}: bad board")]
    BadBoard(u32, LineFault),
    /// A text or a list of the board has more items than a star may be opened with.
    #[error("board too long")]
    LongBoard,
    #[error("line {0}: bad captions")]
    BadCaptions(u32, CaptionFault),
}

impl ServiceEnd {
    /// The end of a server that tried this and failed so: out of memory, or by a failed read or write.
    pub fn of_failure(attempt: Attempt, error: &io::Error) -> ServiceEnd
        ensures memory { error_kind error.now ≡ ErrorKind.OutOfMemory → result ≡ ServiceEnd.NoMemory }
        ensures other { error_kind error.now ≢ ErrorKind.OutOfMemory → result ≡ ServiceEnd.Io attempt }
    {
        if error.kind() == ErrorKind::OutOfMemory {
            ServiceEnd::NoMemory
        } else {
            ServiceEnd::Io(attempt)
        }
    }

    /// The end of a server whose captions are refused at this line.
    pub fn of_captions(line: u32, fault: CaptionFault) -> ServiceEnd
        ensures memory { fault ≡ CaptionFault.NoMemory → result ≡ ServiceEnd.NoMemory }
        ensures other { fault ≢ CaptionFault.NoMemory → result ≡ ServiceEnd.BadCaptions line fault }
    {
        if fault == CaptionFault::NoMemory {
            ServiceEnd::NoMemory
        } else {
            ServiceEnd::BadCaptions(line, fault)
        }
    }

    /// The exit status of a server that ends so.
    pub fn status(&self) -> u8
        ensures status { result ≡ service_end_status self.now }
        ensures most { result ≤ 5 }
    {
        match self {
            ServiceEnd::Io(_) | ServiceEnd::BoardTaken => 1,
            ServiceEnd::NoOrigin => 2,
            ServiceEnd::NoMemory => 3,
            ServiceEnd::BadBoard(..) | ServiceEnd::LongBoard | ServiceEnd::BadCaptions(..) => 5,
        }
    }
}

impl From<AllocError> for ServiceEnd {
    ghost use Rattle.jup_service.specs.declared.end.ServiceEnd.TheVariants.{NoMemory as Ended};

    ghost from_gives = { λ _ made. made ≡ Ended };

    fn from(_error: AllocError) -> ServiceEnd {
        ServiceEnd::NoMemory
    }
}

impl From<KeptFileFault> for ServiceEnd {
    ghost use Rattle.jup_service.specs.Ends.{IsEndOfFile};

    ghost from_gives = { λ fault made. IsEndOfFile fault made };

    fn from(fault: KeptFileFault) -> ServiceEnd {
        match fault {
            KeptFileFault::Taken => ServiceEnd::BoardTaken,
            KeptFileFault::Io(error) => ServiceEnd::of_failure(Attempt::OpenBoard, &error),
        }
    }
}

impl From<BoardEnd> for ServiceEnd {
    ghost use Rattle.jup_service.specs.Ends.{end_of_board};

    ghost from_gives = { λ end made. made ≡ end_of_board end };

    fn from(end: BoardEnd) -> ServiceEnd {
        match end {
            BoardEnd::Line(line, fault) => ServiceEnd::BadBoard(line, fault),
            BoardEnd::NoMemory => ServiceEnd::NoMemory,
            BoardEnd::LongBoard
            | BoardEnd::Layout(_)
            | BoardEnd::LongInput
            | BoardEnd::LongLayout(_)
            | BoardEnd::Unread
            | BoardEnd::Unprinted => ServiceEnd::LongBoard,
        }
    }
}
