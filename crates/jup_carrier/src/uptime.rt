//! The time of a server.
ghost use Rattle.std.specs.Prelude.{◌≡◌, ◌≤◌};

use std::sync::{Mutex, Wait};
use std::time::{Clock, Instant};

/// How long a server runs. It never goes back. If the clock can't be read, it is as late as it was.
#[derive(Drop)]
pub struct Uptime {
    time: Mutex<Time>,
}

#[derive(Drop)]
struct Time {
    /// When the clock could be read for the first time.
    began: Option<Instant>,
    /// How many milliseconds later it was read last.
    latest: u64,
}

impl Uptime {
    /// The server begins now, or as soon as the clock can be read.
    pub fn new(clock: &impl Clock) -> Uptime {
        Uptime {
            time: Mutex::new(Time {
                began: Instant::now(clock).ok(),
                latest: 0,
            }),
        }
    }

    /// How many milliseconds ago it began.
    pub fn millis<R: Wait + Clock>(&self, rt: &R) -> u64 {
        self.time.lock(rt).read(rt)
    }
}

impl Time {
    // Reads the clock.
    fn read(&mut self, clock: &impl Clock) -> u64
        ensures forward { self.old.latest ≤ result }
        ensures latest { self.new.latest ≡ result }
    {
        let Some(began) = self.began else {
            self.began = Instant::now(clock).ok();
            return self.latest;
        };
        if let Ok(time) = began.elapsed(clock) {
            let millis = u64::try_from(time.as_millis()).unwrap_or(u64::MAX);
            self.latest = self.latest.max(millis);
        }
        self.latest
    }
}
