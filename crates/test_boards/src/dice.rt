//! Numbers for tests that play at random.

/// Numbers that look random and are the same in each run: a linear congruence, of which the upper half counts.
#[derive(Drop)]
pub struct Dice {
    state: u32,
}

impl Dice {
    /// The numbers that begin with this one.
    pub fn of(seed: u32) -> Dice {
        Dice { state: seed }
    }

    /// A number below this, which is not 0.
    pub fn roll(&mut self, below: u32) -> u32 {
        let next = self.state.wrapping_mul(1_664_525);
        self.state = next.wrapping_add(1_013_904_223);
        (self.state >> 16).checked_rem(below).unwrap_or(0)
    }

    /// Once in so many times.
    pub fn once_in(&mut self, times: u32) -> bool {
        self.roll(times) == 0
    }
}
