//! The last line of a link.
ghost use Rattle.std.specs.Prelude.{◌≡◌};
ghost use Rattle.jup_number.specs.Numbers.{IsReadingOf};
ghost use Rattle.jup_faults.specs.Faults.{fault_number};
ghost use Rattle.jup_links.specs.LastLines.{last_text, IsLast};

use jup_faults::Fault;
use jup_number::read_number;
use std::fmt;

/// The line by which a server ends a link.
#[derive(Clone, Copy, Debug, PartialEq, Eq)]
pub enum LastLine {
    Bye,
    /// `error` and the number of a fault.
    Error(u32),
}

impl LastLine {
    /// The last line that a text is, given without its line feed. A session writes such a text only at its end.
    pub fn read(text: &[u8]) -> Option<LastLine>
        ensures { IsReadingOf last_text IsLast text.now result }
    {
        if text == b"bye".as_slice() {
            return Some(LastLine::Bye);
        }
        Some(LastLine::Error(read_number(text.strip_prefix(b"error ")?)?))
    }

    // Contracts see a number, and learn here that a `u32` has it.
    pub(crate) fn fits(self)
        ensures { IsLast self }
    {
        match self {
            LastLine::Bye => {}
            LastLine::Error(_number) => {}
        }
    }

    /// The last line that reports this fault.
    pub fn of(fault: Fault) -> LastLine
        ensures { result ≡ LastLine.Error (fault_number fault) }
    {
        LastLine::Error(fault.number())
    }
}

impl fmt::Display for LastLine {
    ghost use Rattle.std.specs.Prelude.{Some};
    ghost use Rattle.jup_links.specs.LastLines.{last_text};

    ghost output = { λ last. Some (last_text last) };

    fn fmt<W: fmt::Write>(&self, f: &mut fmt::Formatter<W>) -> fmt::Result {
        match self {
            LastLine::Bye => write!(f, "bye"),
            LastLine::Error(number) => write!(f, "error {number}"),
        }
    }
}
