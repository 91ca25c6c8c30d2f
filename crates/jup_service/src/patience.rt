//! How long a server of browsers waits for whom.
ghost use Rattle.std.specs.IoError.{error_kind};
ghost use Rattle.std.specs.Prelude.{◌≡◌, ◌+◌, ◌≤◌, ◌↔◌, min, Ok, Err, IfOk, IfErr, IsNone, IfSome};
ghost use Rattle.jup_io.specs.Patience.{IsWait};
ghost use Rattle.jup_service.specs.Servers.{heard_after};

use jup_io::has_waited;
use std::io;
use std::marker::Model;

/// Milliseconds that the head of a request may take.
const HEAD: u64 = 10_000;

/// Seconds after which a browser that sends nothing is asked by a ping whether it is there, and after which it is given up once it was asked.
const LONGEST_SILENCE: u32 = 20;

/// How many milliseconds more the head of a request may take that has taken so many. `None` after 10 seconds.
pub fn head_wait(elapsed: u64) -> Option<u64>
    ensures over { IsNone result ↔ (10000 ≤ elapsed) }
    ensures wait { IfSome result (λ wait. wait + elapsed ≡ 10000) }
{
    if elapsed >= HEAD {
        return None;
    }
    Some(HEAD - elapsed)
}

/// What a read of a browser's bytes means.
#[derive(Clone, Copy, Debug, PartialEq, Eq)]
pub enum Heard {
    /// So many bytes came. None came at their end.
    Bytes(usize),
    /// None came for a second.
    Nothing,
    /// None came for 20 seconds: the browser is to be asked by a ping.
    Silence,
    /// None came for 20 seconds after it was asked: it is gone.
    Gone,
}

/// For how many seconds a browser was silent. Contracts see that number.
#[derive(Drop)]
pub struct Presence {
    silent: u32,
}

impl Model for Presence {
    ghost use Rattle.std.specs.Prelude.{ℕ, ◌≤◌};

    ghost Value = { ℕ };

    ghost view = { λ presence. presence.silent };

    ghost invariant = { λ presence. presence.silent ≤ 40 };
}

impl Presence {
    /// It was heard.
    pub fn new() -> Presence
        ensures { result ≡ 0 }
    {
        Presence { silent: 0 }
    }

    /// Learns what a read came to that waits for a second. A failure that is no such wait says nothing of the browser.
    pub fn hear(&mut self, read: io::Result<usize>) -> io::Result<Heard>
        ensures bytes { IfOk read (λ len. (result ≡ Ok (Heard.Bytes len)) × (self.new ≡ 0)) }
        ensures waited { IfErr read (λ error. IsWait (error_kind error) → self.new ≡ min 40 (self.old + 1)) }
        ensures heard { IfErr read (λ error. IsWait (error_kind error) → result ≡ Ok (heard_after self.new)) }
        ensures failed { IfErr read (λ error. (IsWait (error_kind error) → ⊥) → (result ≡ Err error) × (self.new ≡ self.old)) }
    {
        match read {
            Ok(len) => {
                self.silent = 0;
                Ok(Heard::Bytes(len))
            }
            Err(error) if has_waited(&error) => Ok(self.wait_on()),
            Err(error) => Err(error),
        }
    }

    // One more second has passed in which nothing came.
    fn wait_on(&mut self) -> Heard
        ensures waited { self.new ≡ min 40 (self.old + 1) }
        ensures heard { result ≡ heard_after self.new }
    {
        if self.silent < 2 * LONGEST_SILENCE {
            self.silent += 1;
        }
        if self.silent == LONGEST_SILENCE {
            Heard::Silence
        } else if self.silent == 2 * LONGEST_SILENCE {
            Heard::Gone
        } else {
            Heard::Nothing
        }
    }
}
