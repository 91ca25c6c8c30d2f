//! What both halves of a session share.
ghost use Rattle.std.specs.Prelude.{◌≡◌, ◌≢◌, None};

use super::Bell;
use super::due::Due;
use super::watch::Watch;
use jup_hub::Hub;
use jup_rules::{BothNoted, EndMark, EndNoted, OwedPong, Pongs, WrittenPongs};
use std::alloc::Global;
use std::sync::{Mutex, Wait};
use std::thread;
use std::time::{Clock, Duration};

/// How often a half that reported a fault looks whether the other has ended, and milliseconds between two looks: ten seconds in total.
const LOOKS: u32 = 100;

const LOOK: u64 = 100;

/// What both halves of a session share.
#[derive(Drop)]
pub(crate) struct SessionLink<'a> {
    pub(crate) alloc: Global,
    pub(crate) hub: &'a Hub,
    pub(crate) bell: &'a Bell,
    /// How far the site is behind.
    pub(crate) watch: &'a Watch<'a>,
    /// Which halves have ended.
    pub(crate) end_mark: EndMark,
    /// The pongs that the session owes the site.
    pub(crate) pongs: Mutex<Pongs>,
    pub(crate) site: u32,
}

impl<'a> SessionLink<'a> {
    /// Rings at the place where this site waits.
    pub(crate) fn ring<R: Wait>(&self, rt: &R) {
        self.bell.ring_for(rt, self.site);
    }

    /// Waits for a ring after those that were seen.
    pub(crate) fn wait<R: Wait>(&self, rt: &R, seen: u64) -> u64
        ensures { result ≢ seen }
    {
        self.bell.wait(rt, self.site, seen)
    }

    /// Notes that one half has ended, and rings for the other.
    pub(crate) fn end<R: Wait>(&self, rt: &R) -> EndNoted {
        let over = self.end_mark.set();
        self.ring(rt);
        over
    }

    /// Waits until both halves have ended, for ten seconds at most. `None` if they have not by then.
    pub(crate) fn wait_for_both<R: Clock>(&self, rt: &R) -> Option<BothNoted> {
        for _ in 0..LOOKS {
            if let Some(both) = self.end_mark.both() {
                return Some(both);
            }
            thread::sleep(rt, Duration::from_millis(LOOK));
        }
        self.end_mark.both()
    }

    /// Counts a ping that the hub is to take, if the session owes the site fewer pongs than it may.
    pub(crate) fn try_ping<R: Wait>(&self, rt: &R) -> Option<OwedPong> {
        self.pongs.lock(rt).take_ping()
    }

    /// The same, once the session owes the site fewer pongs than it may. Refused if the other half ended before that. Nobody may be due, since the
    /// other half has to write pongs first.
    pub(crate) fn take_ping<R: Wait>(&self, rt: &R, due: &Due) -> Result<OwedPong, EndNoted>
        requires { due.now.ring ≡ None }
    {
        let mut seen = 0;
        for _ in rt.forever() {
            if let Some(owed) = self.try_ping(rt) {
                return Ok(owed);
            }
            if let Some(over) = self.end_mark.get() {
                return Err(over);
            }
            seen = self.wait(rt, seen);
        }
        unreachable!()
    }

    /// Counts pongs that were written as paid, and rings if the other half may wait for that.
    pub(crate) fn pay<R: Wait>(&self, rt: &R, written: WrittenPongs) {
        let may_wait = self.pongs.lock(rt).pay(written);
        if may_wait {
            self.ring(rt);
        }
    }
}
