//! How far the site of a session is behind, as both halves see it.
ghost use Rattle.std.specs.Prelude.{◌≡◌, ◌<◌, IfErr, IfOk, length};
ghost use Rattle.jup_limits.specs.Limits.{most_behind};

use super::Bell;
use super::share::Share;
use jup_rules::{Admission, FarBehind, Lag, Noted, Ring};
use jup_star::{Down, Up};
use jup_stream::StreamFault;
use std::alloc::Global;
use std::sync::{Mutex, Wait};

/// How far the site of a session is behind. Both halves note what they see of it.
#[derive(Drop)]
pub(crate) struct Watch<'a> {
    share: &'a Share,
    lag: Mutex<Lag>,
}

/// A message of the site that the star took, and whom it wakes. It is not `Drop`, and [`Watch::take`] alone uses it up: so its operations are
/// counted, and before anybody is woken for it.
pub(crate) struct Taken<'m> {
    up: &'m Up,
    ring: Ring,
}

impl<'m> Taken<'m> {
    pub(crate) fn new(up: &'m Up, ring: Ring) -> Taken<'m>
        ensures up { result.up.now ≡ up.now }
        ensures ring { result.ring ≡ ring }
    {
        Taken { up, ring }
    }
}

impl<'a> Watch<'a> {
    /// Watches a site that has not joined yet.
    pub(crate) fn new(alloc: Global, bell: &'a Bell) -> Watch<'a> {
        let share = bell.share();
        Watch {
            share,
            lag: Mutex::new(Lag::new(alloc, share.taken())),
        }
    }

    /// Notes that the site has just joined.
    pub(crate) fn join<R: Wait>(&self, rt: &R) {
        self.lag.lock(rt).join(self.share.taken());
    }

    /// Refused if the site is too far behind.
    pub(crate) fn check<R: Wait>(&self, rt: &R) -> Result<(), FarBehind>
        ensures { IfErr result (λ far. most_behind < far.operations) }
    {
        self.lag.lock(rt).check(self.share.taken())
    }

    /// Decides what becomes of a message of the site. Refused if the site is too far behind.
    pub(crate) fn admit<R: Wait>(&self, rt: &R, up: &Up) -> Result<Admission, FarBehind>
        ensures { IfErr result (λ far. most_behind < far.operations) }
    {
        self.lag.lock(rt).admit(up, self.share.taken())
    }

    /// Notes a message of the site that the star took, and answers whom it wakes. The site knows its own operations before they are counted. Else it
    /// would seem to be behind by them.
    pub(crate) fn take<R: Wait>(&self, rt: &R, taken: Taken<'_>) -> Ring
        ensures { result ≡ taken.entry.ring }
    {
        let Taken { up, ring } = taken;
        let uncounted = self.lag.lock(rt).take(up);
        self.share.count(uncounted);
        ring
    }

    /// Notes messages that were fetched for the site.
    pub(crate) fn fetch<R: Wait>(&self, rt: &R, downs: &[Down]) -> Result<Noted, StreamFault>
        ensures noted { IfOk result (λ noted. noted ≡ length downs.now) }
        ensures memory { IfErr result (λ fault. fault ≡ StreamFault.NoMemory) }
    {
        match self.lag.lock(rt).fetch_all(downs) {
            Ok(noted) => Ok(noted),
            Err(_) => Err(StreamFault::NoMemory),
        }
    }
}
