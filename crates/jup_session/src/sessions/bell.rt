//! A bell that wakes all who wait for news, or one site.
ghost use Rattle.std.specs.Prelude.{◌≢◌};

use super::share::Share;
use jup_limits::MOST_ATTACHED;
use jup_rules::{Rings, Uncounted, place_of};
use std::array;
use std::sync::atomic::{AtomicU64, Ordering};
use std::sync::{Condvar, Mutex, MutexGuard, Wait};

/// Rings at all places, or where one site waits. Each place counts its rings, wrapping. There are as many places as sites are
/// attached at a time, and sites whose numbers follow one another wait each at its own.
#[derive(Drop)]
pub struct Bell {
    places: [Place; MOST_ATTACHED],
    /// How often it rang at all places.
    rings: AtomicU64,
    share: Share,
}

/// Where some sites wait.
#[derive(Drop)]
struct Place {
    /// How often it rang here alone.
    rings: Mutex<Rings>,
    rung: Condvar,
    /// How many wait here, so that a ring at all places passes those where nobody does.
    waiting: AtomicU64,
}

// One who waits at a place, and is counted there until it leaves. It is not `Drop`, so no caller leaves without a call of `leave`.
struct Waiter<'a> {
    place: &'a Place,
}

impl<'a> Waiter<'a> {
    // Waits until the count of rings here and at all places is not the one that was seen, and answers it.
    fn wait<R: Wait>(&self, rt: &R, rings: MutexGuard<'_, Rings>, all: &AtomicU64, seen: u64) -> u64
        ensures { result ≢ seen }
    {
        let mut rings = rings;
        for _ in rt.forever() {
            let count = rings.count_with(all.load(Ordering::SeqCst));
            if count != seen {
                return count;
            }
            rings = self.place.rung.wait(rt, rings);
        }
        unreachable!()
    }

    fn leave(self) {
        let Waiter { place } = self;
        place.waiting.fetch_sub(1, Ordering::SeqCst);
    }
}

impl Place {
    fn new() -> Place {
        Place {
            rings: Mutex::new(Rings::new()),
            rung: Condvar::new(),
            waiting: AtomicU64::new(0),
        }
    }

    // Counts one who is about to wait here.
    fn enter(&self) -> Waiter<'_> {
        self.waiting.fetch_add(1, Ordering::SeqCst);
        Waiter { place: self }
    }

    // Wakes those who wait. A thread that is about to wait has compared the counts, and holds the lock until it waits. So this takes the
    // lock and releases it immediately, and the ring comes after the wait has begun. Without it a ring between the two is lost, which no
    // test can be sure to meet.
    fn wake<R: Wait>(&self, rt: &R) {
        drop(self.rings.lock(rt));
        self.rung.notify_all();
    }
}

impl Bell {
    pub fn new() -> Bell {
        Bell {
            places: array::from_fn(|_| Place::new()),
            rings: AtomicU64::new(0),
            share: Share::new(),
        }
    }

    /// Counts operations of an edit that the hub has taken. A site that joins later is not behind by them. A session counts those of its own
    /// site. Any other caller of the hub counts those of an edit before it rings.
    pub fn count(&self, operations: u32) {
        self.share.count(Uncounted::new(operations));
    }

    /// What the sessions at this bell share.
    pub(crate) fn share(&self) -> &Share {
        &self.share
    }

    /// Wakes all sites.
    pub fn ring<R: Wait>(&self, rt: &R) {
        self.rings.fetch_add(1, Ordering::SeqCst);
        for place in &self.places {
            if place.waiting.load(Ordering::SeqCst) > 0 {
                place.wake(rt);
            }
        }
    }

    /// Wakes one site, and those that share its place.
    pub fn ring_for<R: Wait>(&self, rt: &R, site: u32) {
        let place = &self.places[place_of(site)];
        place.rings.lock(rt).ring();
        place.rung.notify_all();
    }

    /// Waits until the count of rings at a site's place is not the one that was seen, and answers it. No ring is
    /// missed: a thread that waits says so before it compares the counts, and a ring is counted before it looks
    /// for threads that wait.
    pub fn wait<R: Wait>(&self, rt: &R, site: u32, seen: u64) -> u64
        ensures { result ≢ seen }
    {
        let place = &self.places[place_of(site)];
        let rings = place.rings.lock(rt);
        let waiter = place.enter();
        let count = waiter.wait(rt, rings, &self.rings, seen);
        waiter.leave();
        count
    }
}
