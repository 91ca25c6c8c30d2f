//! When an end confirms the lines that it has taken.
ghost use Rattle.std.specs.Prelude.{◌≡◌, ◌+◌, ◌≤◌, min, true};
ghost use Rattle.std.specs.Option.{SomeIff};
ghost use Rattle.jup_resume.specs.Confirmations.{Confirmation, nothing_taken, IsDue, IsDueAtEnd, after_telling, after_beginning};

use std::marker::Model;

/// How many lines are taken before they are confirmed.
pub const MOST_UNCONFIRMED: u32 = 64;

/// For how many seconds an end hands nothing to a connection before it confirms again.
pub const LONGEST_QUIET: u32 = 60;

/// When an end owes the other a `got`, and of which count.
///
/// It has no clock: its caller tells how many seconds have passed.
#[derive(Drop)]
pub struct Confirming {
    taken: u32,
    told: u32,
    quiet: u32,
    is_owed: bool,
}

impl Model for Confirming {
    ghost use Rattle.std.specs.Prelude.{◌≤◌};
    ghost use Rattle.jup_resume.specs.Confirmations.{Confirmation};

    ghost Value = { Confirmation };

    ghost view = { λ c. record { taken = c.taken; told = c.told; quiet = c.quiet; is_owed = c.is_owed } };

    ghost invariant = { λ c. c.told ≤ c.taken };
}

impl Confirming {
    /// An end that has taken no line, on the carrier that opened the link.
    pub fn new() -> Confirming
        ensures { result ≡ nothing_taken }
    {
        Confirming {
            taken: 0,
            told: 0,
            quiet: 0,
            is_owed: false,
        }
    }

    /// Notes that so many lines are taken for good, all that came before among them. A server's message counts once it is whole
    /// and the star took it.
    pub fn take(&mut self, taken: u32)
        requires { self.old.taken ≤ taken }
        ensures { self.new ≡ record self.old { taken = taken } }
    {
        self.taken = taken;
    }

    /// A new carrier carries the link: its first `got` is owed.
    pub fn begin(&mut self)
        ensures { self.new ≡ after_beginning self.old }
    {
        self.quiet = 0;
        self.is_owed = true;
    }

    /// The other end said `bye` or `error N`. That is confirmed immediately.
    pub fn end(&mut self)
        ensures { self.new ≡ record self.old { is_owed = true } }
    {
        self.is_owed = true;
    }

    /// So many seconds have passed since this was last told.
    pub fn elapse(&mut self, seconds: u32)
        ensures { self.new ≡ record self.old { quiet = min (self.old.quiet + seconds) 4294967295 } }
    {
        self.quiet = self.quiet.saturating_add(seconds);
    }

    /// Something was handed to the connection.
    pub fn wrote(&mut self)
        ensures { self.new ≡ record self.old { quiet = 0 } }
    {
        self.quiet = 0;
    }

    /// A `got` of all lines that are taken was handed to the connection.
    pub fn told(&mut self)
        ensures { self.new ≡ after_telling self.old }
    {
        self.told = self.taken;
        self.quiet = 0;
        self.is_owed = false;
    }

    /// The count of the `got` that is to be written now, if one is. It is owed, or 64 lines were taken since the last, or nothing
    /// was handed to the connection for 60 seconds.
    pub fn due(&self) -> Option<u32>
        ensures { SomeIff result (IsDue self.now) self.now.taken }
    {
        if self.is_owed
            || self.taken - self.told >= MOST_UNCONFIRMED
            || self.quiet >= LONGEST_QUIET
        {
            Some(self.taken)
        } else {
            None
        }
    }

    /// The count of the `got` that is to be written before the last line, if one is. It is owed, or the count has grown.
    pub fn due_at_end(&self) -> Option<u32>
        ensures { SomeIff result (IsDueAtEnd self.now) self.now.taken }
    {
        if self.is_owed || self.taken > self.told {
            Some(self.taken)
        } else {
            None
        }
    }
}
