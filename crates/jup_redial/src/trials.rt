//! When a client tries to carry its link again, and when it gives that up.
ghost use Rattle.std.specs.Prelude.{◌≡◌, is_some};
ghost use Rattle.jup_redial.specs.Trials.{never_linked, after_answer, after_failing, trial_after, wait_after, longest_attempt, patience_by, seconds_by, left_of};

use jup_lasting::Terms;
use std::marker::Model;

/// Milliseconds of the shortest wait between two attempts.
const SHORTEST_WAIT: u64 = 200;

/// Milliseconds of the longest. Each wait is twice as long as the one before, up to this.
const LONGEST_WAIT: u64 = 5_000;

/// For how many milliseconds a connection has to carry the link until the waits begin short again.
const LONG_LIFE: u64 = 10_000;

/// How many attempts a client makes that never had a link.
const MOST_ATTEMPTS: u32 = 3;

/// Milliseconds that an attempt may take until the server has answered.
const LONGEST_ATTEMPT: u64 = 90_000;

/// Milliseconds that an attempt may take in any case.
const SHORTEST_ATTEMPT: u64 = 1_000;

/// How much later than a client a server may notice that a connection broke, in seconds: three minutes.
const NOTICED_AFTER: u64 = 180;

/// For how many seconds a client tries at least, if the server said that the link outlives its process: an hour.
const KEPT_FOR: u64 = 3_600;

/// What comes of an attempt that came to nothing.
#[derive(Clone, Copy, Debug, PartialEq, Eq)]
pub enum Trial {
    /// Another attempt, after so many milliseconds.
    After(u64),
    /// The client gives up.
    Never,
}

/// When a client tries again. Times are milliseconds since it began. Contracts see what it goes by.
#[derive(Drop)]
pub struct Trials {
    limit: Option<u32>,
    patience: Option<u64>,
    attempts: u32,
    wait: u64,
    since: Option<u64>,
    lost: u64,
}

impl Model for Trials {
    ghost use Rattle.jup_redial.specs.Trials.{Trying};

    ghost Value = { Trying };

    ghost view = { λ t. record { limit = t.limit; patience = t.patience; attempts = t.attempts; wait = t.wait; since = t.since; lost = t.lost } };
}

impl Trials {
    /// A client that never had a link. Its user may say for how many seconds it tries to carry one on.
    pub fn new(limit: Option<u32>) -> Trials
        ensures { result ≡ never_linked limit }
    {
        Trials {
            limit,
            patience: None,
            attempts: 0,
            wait: SHORTEST_WAIT,
            since: None,
            lost: 0,
        }
    }

    /// Whether it has had a link.
    pub fn has_linked(&self) -> bool
        ensures { result ≡ is_some self.now.patience }
    {
        self.patience.is_some()
    }

    /// The server has answered that this connection carries the link.
    pub fn answer(&mut self, terms: Terms, now: u64)
        ensures { self.new ≡ after_answer terms now self.old }
    {
        self.patience = Some(patience(self.limit, terms));
        self.since = Some(now);
    }

    /// The connection broke, or could not be made.
    pub fn fail(&mut self, now: u64) -> Trial
        ensures changed { self.new ≡ after_failing now self.old }
        ensures trial { result ≡ trial_after now self.old }
    {
        let wait = self.next_wait(now);
        self.wait = wait.saturating_mul(2).min(LONGEST_WAIT);
        if self.since.is_some() {
            self.lost = now;
        }
        self.since = None;
        let Some(patience) = self.patience else {
            self.attempts = self.attempts.saturating_add(1);
            return if self.attempts < MOST_ATTEMPTS {
                Trial::After(wait)
            } else {
                Trial::Never
            };
        };
        match left(self.lost, patience, now) {
            0 => Trial::Never,
            left => Trial::After(wait.min(left)),
        }
    }

    // How long the next wait is: short, if the last connection carried the link for long enough.
    fn next_wait(&self, now: u64) -> u64
        ensures { result ≡ wait_after now self.now }
    {
        match self.since {
            Some(since) if now.saturating_sub(since) >= LONG_LIFE => SHORTEST_WAIT,
            _ => self.wait,
        }
    }

    /// For how many milliseconds from now the server may leave a connection without an answer.
    pub fn longest_attempt(&self, now: u64) -> u64
        ensures { result ≡ longest_attempt now self.now }
    {
        match self.patience {
            None => LONGEST_ATTEMPT,
            Some(patience) => left(self.lost, patience, now).clamp(
                SHORTEST_ATTEMPT,
                LONGEST_ATTEMPT,
            ),
        }
    }
}

// For how many milliseconds a client tries after its last connection broke.
fn patience(limit: Option<u32>, terms: Terms) -> u64
    ensures { result ≡ patience_by limit terms }
{
    let seconds = match limit {
        Some(seconds) => u64::from(seconds),
        None => server_patience(terms),
    };
    seconds * 1_000
}

// For how many seconds it tries by what the server said.
fn server_patience(terms: Terms) -> u64
    ensures { result ≡ seconds_by terms }
{
    let seconds = u64::from(terms.seconds) + NOTICED_AFTER;
    if terms.kept {
        seconds.max(KEPT_FOR)
    } else {
        seconds
    }
}

// How much is left of the time after a loss.
fn left(lost: u64, patience: u64, now: u64) -> u64
    ensures { result ≡ left_of lost patience now }
{
    lost.saturating_add(patience).saturating_sub(now)
}
