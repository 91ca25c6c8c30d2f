//! How often a bell rang, and where a site waits for it.
ghost use Rattle.std.specs.Prelude.{◌≡◌, ◌≢◌, ℕ, ◌+◌, ◌%◌, ◌<◌, ◌^◌};
ghost use Rattle.jup_limits.specs.Limits.{most_attached};

use jup_limits::MOST_ATTACHED;
use std::marker::Model;

/// At which place of a bell a site waits, from 0. There are as many places as sites are attached at a time.
pub fn place_of(site: u32) -> usize
    ensures within { result < most_attached }
    ensures place { result ≡ site % most_attached }
    // Sites whose numbers follow one another wait each at its own.
    ensures apart { (other : ℕ) → other < site → site < other + most_attached → result ≢ other % most_attached }
{
    site as usize % MOST_ATTACHED
}

/// How often it rang at one place of a bell alone, wrapping. Contracts see that number.
#[derive(Debug, Drop)]
pub struct Rings {
    here: u64,
}

impl Model for Rings {
    ghost use Rattle.std.specs.Prelude.{ℕ};

    ghost Value = { ℕ };

    ghost view = { λ r. r.here };
}

impl Rings {
    /// It has not rung yet.
    pub fn new() -> Rings
        ensures { result ≡ 0 }
    {
        Rings { here: 0 }
    }

    /// Counts one more ring.
    pub fn ring(&mut self)
        ensures { self.new ≡ (self.old + 1) % 2 ^ 64 }
    {
        self.here = self.here.wrapping_add(1);
    }

    /// The count of rings at this place, where it rang so often at all places, wrapping.
    pub fn count_with(&self, all: u64) -> u64
        ensures { result ≡ (self.now + all) % 2 ^ 64 }
    {
        self.here.wrapping_add(all)
    }
}
