//! What the sessions at one bell share, so that no link costs the others too much.

use jup_rules::Uncounted;
use std::sync::atomic::{AtomicU64, Ordering};
use std::sync::{Mutex, MutexGuard, Wait};

/// How many operations the hub has taken, and the turns of takes that are not light.
#[derive(Drop)]
pub(crate) struct Share {
    /// Operations that the hub has taken, wrapping.
    taken: AtomicU64,
    /// Held for a take that is not light. So one such take at a time asks for the turn of the hub, which is given in no order.
    heavy: Mutex<Heavy>,
    /// Held for a costly take, and for the rest after it.
    costly: Mutex<Costly>,
}

/// The turn of a take that is not light.
#[derive(Drop)]
pub(crate) struct Heavy;

/// The turn of a costly take.
#[derive(Drop)]
pub(crate) struct Costly;

impl Share {
    pub(crate) fn new() -> Share {
        Share {
            taken: AtomicU64::new(0),
            heavy: Mutex::new(Heavy),
            costly: Mutex::new(Costly),
        }
    }

    /// Counts operations that the hub has taken.
    pub(crate) fn count(&self, uncounted: Uncounted) {
        self.taken
            .fetch_add(u64::from(uncounted.operations()), Ordering::SeqCst);
    }

    /// How many operations were counted.
    pub(crate) fn taken(&self) -> u64 {
        self.taken.load(Ordering::SeqCst)
    }

    /// Waits for the turn of a take that is not light.
    pub(crate) fn wait_for_heavy<R: Wait>(&self, rt: &R) -> MutexGuard<'_, Heavy> {
        self.heavy.lock(rt)
    }

    /// Waits for the turn of a costly take.
    pub(crate) fn wait_for_costly<R: Wait>(&self, rt: &R) -> MutexGuard<'_, Costly> {
        self.costly.lock(rt)
    }
}
