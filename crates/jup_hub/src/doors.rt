//! Where calls that wait for the turn sleep.

use std::sync::{Mutex, MutexGuard, Wait};

/// At which door a call waits for the turn.
#[derive(Clone, Copy, PartialEq, Eq)]
pub(crate) enum Door {
    /// That of takes. All other sites wait for what an edit brings, so a take first tries for the turn.
    Takes,
    /// That of all other calls.
    Others,
}

/// The doors of a hub. One thread at each tries for the turn, and those after it sleep. So a take is in line with takes alone. The doors
/// decide nothing: the word of the turn does.
pub(crate) struct Doors {
    takes: Mutex<()>,
    others: Mutex<()>,
}

impl Doors {
    pub(crate) fn new() -> Doors {
        Doors {
            takes: Mutex::new(()),
            others: Mutex::new(()),
        }
    }

    /// Waits at a door. It is held until the guard is dropped.
    pub(crate) fn lock<R: Wait>(&self, rt: &R, door: Door) -> MutexGuard<'_, ()> {
        match door {
            Door::Takes => self.takes.lock(rt),
            Door::Others => self.others.lock(rt),
        }
    }
}

// Written out: a crate that drops a hub then proves one call.
impl Drop for Doors {
    fn drop(self) {
        let Doors {
            takes: _,
            others: _,
        } = self;
    }
}
