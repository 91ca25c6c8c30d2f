//! How many boards a server makes in a time.
ghost use Rattle.std.specs.Prelude.{◌≡◌, ◌↔◌, ◌<◌, ◌++◌, [], ◌∷◌, IsTrue, OnOk, OnErr, vec_len, vec_capacity};
ghost use Rattle.jup_reception.specs.Makings.{HasRoom, MayMake, latest, after_making};

use jup_limits::NoMemory;
use std::alloc::Global;
use std::marker::Model;

/// How many boards a server makes in a minute.
const MOST_A_MINUTE: usize = 10;

/// How many boards strangers make in a day.
const MOST_A_DAY: usize = 100;

/// Milliseconds of a minute.
const MINUTE: u64 = 60_000;

/// Milliseconds of a day.
const DAY: u64 = 86_400_000;

/// When the latest boards were made, in milliseconds of the server's time: of all, and of those that the owner did not make.
#[derive(Drop)]
pub struct Makings {
    all: Vec<u64>,
    strange: Vec<u64>,
}

impl Model for Makings {
    ghost use Rattle.jup_reception.specs.Makings.{Made};

    ghost Value = { Made };

    ghost view = { λ makings. record { all = makings.all.items; strange = makings.strange.items } };
}

impl Makings {
    /// None was made.
    pub fn new(alloc: Global) -> Makings
        ensures all { result.all ≡ [] }
        ensures strange { result.strange ≡ [] }
    {
        Makings {
            all: Vec::new(alloc),
            strange: Vec::new(alloc),
        }
    }

    /// Whether another board may be made now.
    pub fn have_room(&self, now: u64, is_owner: bool) -> bool
        ensures { IsTrue result ↔ MayMake self.now now is_owner }
    {
        has_room(&self.all, MOST_A_MINUTE, MINUTE, now)
            && (is_owner || has_room(&self.strange, MOST_A_DAY, DAY, now))
    }

    /// A board was made now.
    pub fn note(&mut self, now: u64, is_owner: bool) -> Result<(), NoMemory>
        ensures ok { OnOk result (self.new ≡ after_making self.old now is_owner) }
        ensures err { OnErr result (self.new ≡ self.old) }
    {
        self.all.reserve(1).map_err(|_| NoMemory)?;
        if !is_owner {
            self.strange.reserve(1).map_err(|_| NoMemory)?;
            keep_latest(&mut self.strange, MOST_A_DAY, now);
        }
        keep_latest(&mut self.all, MOST_A_MINUTE, now);
        Ok(())
    }
}

// Whether fewer than so many were made in a time up to now.
fn has_room(made: &[u64], most: usize, time: u64, now: u64) -> bool
    ensures { IsTrue result ↔ HasRoom most time now made.now }
{
    if made.len() < most {
        return true;
    }
    match made.first() {
        Some(first) => now.saturating_sub(*first) >= time,
        None => true,
    }
}

// Adds the time, and forgets the first if there are then more than so many.
fn keep_latest(made: &mut Vec<u64>, most: usize, now: u64)
    requires { vec_len made.old < vec_capacity made.old }
    ensures { made.new.items ≡ latest most (made.old.items ++ now ∷ []) }
{
    made.push_reserved(now);
    if made.len() > most {
        made.remove(0);
    }
}
