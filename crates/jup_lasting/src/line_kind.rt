//! What a line of the server means to the link that brings it.
ghost use Rattle.jup_number.specs.Numbers.{IsU32, IsReadingOf};
ghost use Rattle.jup_lasting.specs.LineKinds.{error_text, IsOfKind};

use jup_number::read_number;

/// What a line of the server means to the link that brings it.
#[derive(Clone, Copy, Debug, PartialEq, Eq)]
pub(crate) enum LineKind {
    /// The board is whole.
    Ready,
    /// No line comes after it.
    Last,
    /// Nothing: only the site asks what it says.
    Other,
}

impl LineKind {
    /// The kind of a line, which is given without its line feed.
    pub(crate) fn of(text: &[u8]) -> LineKind
        ensures { IsOfKind text.now result }
    {
        if text == b"ready".as_slice() {
            return LineKind::Ready;
        }
        if text == b"bye".as_slice() {
            return LineKind::Last;
        }
        match error_number(text) {
            Some(_) => LineKind::Last,
            None => LineKind::Other,
        }
    }
}

/// The number in a line `error N`.
pub(crate) fn error_number(text: &[u8]) -> Option<u32>
    ensures { IsReadingOf error_text IsU32 text.now result }
{
    read_number(text.strip_prefix(b"error ")?)
}
