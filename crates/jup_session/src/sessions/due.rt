//! Whom a session has still to wake.
ghost use Rattle.std.specs.Prelude.{◌≡◌, ◌≢◌, ◌⊎◌, ◌↔◌, None, Some};
ghost use Rattle.jup_rules.specs.declared.session.Ring.TheVariants.{All};

use super::link::SessionLink;
use jup_rules::Ring;
use std::sync::Wait;

/// Whom a session has still to wake. While further lines are at hand it wakes nobody, so that a burst of edits wakes the others once.
///
/// Whatever waits requires that nobody is due, since what it waits for may be for them to do. It is not `Drop`, so its owner has to close it.
pub(crate) struct Due {
    ring: Option<Ring>,
}

impl Due {
    /// Nobody is to be woken.
    pub(crate) fn new() -> Due
        ensures { result.ring ≡ None }
    {
        Due { ring: None }
    }

    /// One more ring. A ring for all is one for the own half too.
    pub(crate) fn add(&mut self, ring: Ring)
        ensures due { self.new.ring ≢ None }
        ensures all { (self.new.ring ≡ Some All) ↔ ((self.old.ring ≡ Some All) ⊎ (ring ≡ All)) }
    {
        if self.ring != Some(Ring::All) {
            self.ring = Some(ring);
        }
    }

    /// Wakes those who are to be woken.
    pub(crate) fn ring<R: Wait>(&mut self, rt: &R, link: &SessionLink<'_>)
        ensures { self.new.ring ≡ None }
    {
        match self.ring.take() {
            Some(Ring::All) => link.bell.ring(rt),
            Some(Ring::Own) => link.ring(rt),
            None => {}
        }
    }

    /// The same for the last time.
    pub(crate) fn close<R: Wait>(self, rt: &R, link: &SessionLink<'_>) {
        let mut due = self;
        due.ring(rt, link);
        let Due { ring: _ } = due;
    }
}
