//! How a server ends the connections that are open when it stops.
ghost use Rattle.std.specs.Prelude.{◌≡◌, ◌≢◌, ◌≤◌, ◌<◌, ◌+◌, true, false};

use std::marker::Model;

/// How many looks a server waits for its connections to end.
const MOST_LOOKS: u32 = 50;

/// After how many looks it cuts those that carry links.
const LOOKS_OF_CARRIERS: u32 = 20;

/// Milliseconds between two looks.
const PAUSE: u64 = 100;

/// What a server does after a look at its connections.
#[derive(Clone, Copy, Debug, PartialEq, Eq)]
pub enum Parting {
    /// All have ended.
    Over,
    /// It waits for so many milliseconds, and looks again.
    Pause(u64),
    /// It ends both sides of those that carry links. Then it waits for so many milliseconds, and looks again.
    CutCarriers(u64),
    /// It ends both sides of those that are left, whatever they do.
    Cut,
}

/// The end of a server's connections: first they may end by themselves, for five seconds. Contracts see how many looks there were.
#[derive(Drop)]
pub struct Farewell {
    looks: u32,
}

impl Model for Farewell {
    ghost use Rattle.std.specs.Prelude.{ℕ, ◌≤◌};

    ghost Value = { ℕ };

    ghost view = { λ farewell. farewell.looks };

    ghost invariant = { λ farewell. farewell.looks ≤ 50 };
}

impl Farewell {
    /// There was no look.
    pub fn new() -> Farewell
        ensures { result ≡ 0 }
    {
        Farewell { looks: 0 }
    }

    /// What to do after a look that found whether all connections have ended.
    pub fn after_look(&mut self, are_over: bool) -> Parting
        ensures over { are_over ≡ true → result ≡ Parting.Over }
        ensures wait { are_over ≡ false → self.old < 50 → self.old ≢ 20 → (result ≡ Parting.Pause 100) × (self.new ≡ self.old + 1) }
        ensures carriers { are_over ≡ false → self.old ≡ 20 → (result ≡ Parting.CutCarriers 100) × (self.new ≡ self.old + 1) }
        ensures cut { are_over ≡ false → 50 ≤ self.old → result ≡ Parting.Cut }
    {
        if are_over {
            return Parting::Over;
        }
        if self.looks == MOST_LOOKS {
            return Parting::Cut;
        }
        self.looks += 1;
        if self.looks == LOOKS_OF_CARRIERS + 1 {
            Parting::CutCarriers(PAUSE)
        } else {
            Parting::Pause(PAUSE)
        }
    }
}
