//! The close that ends a WebSocket.
ghost use Rattle.std.specs.Prelude.{◌≡◌};
ghost use Rattle.jup_service.specs.Servers.{close_code, closes, is_away};

use jup_http::Ending;
use std::marker::Model;

/// The status code of a normal close.
const NORMAL: u16 = 1_000;

/// The status code of a close by a server that stops.
const GOING_AWAY: u16 = 1_001;

/// How a server parts from a browser.
#[derive(Clone, Copy, Debug, PartialEq, Eq)]
pub enum Parted {
    /// After the last line of a session or of a link.
    Over,
    /// Without one: the server stops, another connection carries the link, or no link is there.
    Away,
}

/// The close of a WebSocket. Contracts see how the browser's frames ended, if they have, and whether the server has sent its close.
#[derive(Drop)]
pub struct Closing {
    ending: Option<Ending>,
    is_sent: bool,
}

impl Model for Closing {
    ghost use Rattle.jup_service.specs.Servers.{Closes, closes};

    ghost Value = { Closes };

    ghost view = { λ c. closes c.ending c.is_sent };
}

impl Closing {
    ghost use Rattle.std.specs.Prelude.{true, false, None, Some};

    /// Neither end has closed.
    pub fn new() -> Closing
        ensures { result ≡ closes None false }
    {
        Closing {
            ending: None,
            is_sent: false,
        }
    }

    /// The browser's frames have ended so.
    pub fn note(&mut self, ending: Ending)
        ensures { self.new ≡ closes (Some ending) self.old.sent }
    {
        self.ending = Some(ending);
    }

    /// The close that the server is to send, with its status code if it has one. `None` if it has sent one.
    pub fn close(&mut self, parted: Parted) -> Option<Option<u16>>
        ensures first { self.old.sent ≡ false → result ≡ Some (close_code self.old.ending (is_away parted)) }
        ensures again { self.old.sent ≡ true → result ≡ None }
        ensures sent { self.new ≡ closes self.old.ending true }
    {
        if self.is_sent {
            return None;
        }
        self.is_sent = true;
        Some(close_code(self.ending, parted == Parted::Away))
    }
}

/// The status code of the close that a server sends last, if the close has one. It answers the close or the breach that ended the
/// browser's frames. If neither did, it says whether the server stops.
pub fn close_code(ending: Option<Ending>, stops: bool) -> Option<u16>
    ensures { result ≡ close_code ending stops }
{
    match ending {
        Some(ending) => ending.answer(),
        None if stops => Some(GOING_AWAY),
        None => Some(NORMAL),
    }
}
