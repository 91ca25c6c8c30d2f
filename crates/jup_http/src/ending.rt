//! How the frames of a client end.
ghost use Rattle.std.specs.Prelude.{◌≡◌};
ghost use Rattle.jup_http.specs.Frames.{answer_code};

use crate::Breach;

/// How the frames of a client end.
#[derive(Clone, Copy, Debug, PartialEq, Eq)]
pub enum Ending {
    /// By a close, with this status code if it has one.
    Closed(Option<u16>),
    /// By a broken rule.
    Broken(Breach),
}

impl Ending {
    /// The status code of the close that answers: the client's own, or that of the breach.
    pub fn answer(self) -> Option<u16>
        ensures { result ≡ answer_code self }
    {
        match self {
            Ending::Closed(code) => code,
            Ending::Broken(breach) => Some(breach.number()),
        }
    }
}
