//! What has become of a link.
ghost use Rattle.std.specs.Prelude.{◌≡◌};
ghost use Rattle.jup_redial.specs.Fates.{is_told};

use jup_faults::cause_of;
use std::fmt;

/// What has become of a link.
#[derive(Clone, Copy, Debug, PartialEq, Eq)]
pub enum Fate {
    /// It goes on, with a connection or without one.
    Goes,
    /// The server's last line has come.
    Finished,
    /// There never was a link: the server answered `hello 4` by `error N`.
    Refused(u32),
    /// The server answered `resume` by `error N`, and will not take another.
    Forgotten(u32),
    /// The server has only its count. So many of the last edits had no effect.
    Ended { lost: u32 },
    /// What the server sent has this fault.
    Faulty(u32),
    /// No connection has carried it for too long.
    Late,
    /// There never was a link: connections broke before the server had answered.
    Unanswered,
    /// There never was a link, and no connection.
    Unconnected,
    /// An allocation failed.
    NoMemory,
    /// Its client has ended without a `bye`.
    Abandoned,
}

impl Fate {
    /// Whether it tells people more than how their client ends.
    pub fn is_told(self) -> bool
        ensures { result ≡ is_told self }
    {
        match self {
            Fate::Forgotten(_)
            | Fate::Ended { .. }
            | Fate::Faulty(_)
            | Fate::Late
            | Fate::Unanswered => true,
            Fate::Goes
            | Fate::Finished
            | Fate::Refused(_)
            | Fate::Unconnected
            | Fate::NoMemory
            | Fate::Abandoned => false,
        }
    }
}

/// What it says to people of a link that did not end as its client does.
impl fmt::Display for Fate {
    fn fmt<W: fmt::Write>(&self, f: &mut fmt::Formatter<W>) -> fmt::Result {
        match self {
            Fate::Forgotten(number) => {
                write!(f, "the server can't resume the link: {}", cause_of(*number))
            }
            Fate::Ended { lost: 1 } => write!(f, "the link is over, and 1 edit did not arrive"),
            Fate::Ended { lost } => write!(f, "the link is over, and {lost} edits did not arrive"),
            Fate::Faulty(number) => write!(f, "the link was given up: {}", cause_of(*number)),
            Fate::Late => write!(f, "the link could not be resumed in time"),
            Fate::Unanswered => write!(f, "the server did not answer"),
            Fate::Goes
            | Fate::Finished
            | Fate::Refused(_)
            | Fate::Unconnected
            | Fate::NoMemory
            | Fate::Abandoned => Ok(()),
        }
    }
}
