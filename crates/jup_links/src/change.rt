//! Changes of a link, and the threads that wait for them.

ghost use Rattle.std.specs.Prelude.{◌≡◌, true, false};
ghost use Rattle.jup_links.specs.Changes.{concerns, both};

use std::marker::Model;
use std::sync::Condvar;

/// A change of a link. It can't be dropped, so code that makes one also tells those who wait for it. Contracts see whom it concerns.
pub struct Change {
    /// Whether the session of the link may wait for it.
    session: bool,
    /// Whether the threads of its carriers may.
    carriers: bool,
}

impl Model for Change {
    ghost use Rattle.jup_links.specs.Changes.{Concerns, concerns};

    ghost Value = { Concerns };

    ghost view = { λ c. concerns c.session c.carriers };
}

impl Change {
    /// What a carrier changes for the session.
    pub(crate) fn for_session() -> Change
        ensures { result ≡ concerns true false }
    {
        Change {
            session: true,
            carriers: false,
        }
    }

    /// What the session changes for the carriers.
    pub(crate) fn for_carriers() -> Change
        ensures { result ≡ concerns false true }
    {
        Change {
            session: false,
            carriers: true,
        }
    }

    /// What changes for all.
    pub(crate) fn for_all() -> Change
        ensures { result ≡ concerns true true }
    {
        Change {
            session: true,
            carriers: true,
        }
    }

    /// What changes for nobody.
    pub(crate) fn for_nobody() -> Change
        ensures { result ≡ concerns false false }
    {
        Change {
            session: false,
            carriers: false,
        }
    }

    /// Both changes.
    pub(crate) fn and(self, other: Change) -> Change
        ensures { result ≡ both self other }
    {
        let Change { session, carriers } = self;
        let Change {
            session: for_session,
            carriers: for_carriers,
        } = other;
        Change {
            session: session || for_session,
            carriers: carriers || for_carriers,
        }
    }

    /// Those who wait look again: a session at the first, carriers at the second.
    pub fn tell(self, session: &Condvar, carriers: &Condvar) {
        let Change {
            session: for_session,
            carriers: for_carriers,
        } = self;
        if for_session {
            session.notify_all();
        }
        if for_carriers {
            carriers.notify_all();
        }
    }
}
