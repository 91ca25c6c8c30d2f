//! The time of a client.
ghost use Rattle.std.specs.Prelude.{◌≡◌, ◌≤◌};

use std::time::{Clock, Instant};

/// How long a client runs. It never goes back. If the clock can't be read, it is as late as it was.
#[derive(Drop)]
pub(crate) struct Watch {
    began: Option<Instant>,
    latest: u64,
}

impl Watch {
    /// The client begins now, or as soon as the clock can be read.
    pub(crate) fn new(clock: &impl Clock) -> Watch {
        Watch {
            began: Instant::now(clock).ok(),
            latest: 0,
        }
    }

    /// How many milliseconds ago it began.
    pub(crate) fn millis(&mut self, clock: &impl Clock) -> u64
        ensures forward { self.old.latest ≤ result }
        ensures latest { self.new.latest ≡ result }
    {
        let Some(began) = self.began else {
            self.began = Instant::now(clock).ok();
            return self.latest;
        };
        if let Ok(time) = began.elapsed(clock) {
            let millis = u64::try_from(time.as_millis()).unwrap_or(u64::MAX);
            self.latest = self.latest.max(millis);
        }
        self.latest
    }
}
