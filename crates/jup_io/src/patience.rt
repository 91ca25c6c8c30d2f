//! How long a peer that takes nothing is waited for.
ghost use Rattle.std.specs.IoError.{error_kind};
ghost use Rattle.std.specs.Prelude.{◌≡◌, ◌≢◌, ◌≤◌, ◌<◌, ◌+◌, min, Ok, Err, IfOk, IfErr};
ghost use Rattle.jup_io.specs.Patience.{waiting, IsWait, IsLostBy};

use crate::again::{has_waited, is_interrupted};
use std::io;
use std::io::ErrorKind;
use std::marker::Model;

/// Why a write to a peer took nothing.
#[derive(Drop)]
pub enum Unwritten {
    /// It is to be made again.
    Again,
    /// The peer is to be given up: a write failed so, or it has waited for long enough.
    Lost(io::Error),
}

/// How many waits in a row a peer is given in which it takes nothing, and how many it has had since it last took a byte.
#[derive(Drop)]
pub struct Patience {
    most: u32,
    waited: u32,
}

impl Model for Patience {
    ghost use Rattle.std.specs.Prelude.{◌≤◌};
    ghost use Rattle.jup_io.specs.Patience.{Waiting, waiting};

    ghost Value = { Waiting };

    ghost view = { λ p. waiting p.most p.waited };

    ghost invariant = { λ p. p.waited ≤ p.most };
}

impl Patience {
    /// A peer that is given so many waits has had none.
    pub fn new(most: u32) -> Patience
        ensures { result ≡ waiting most 0 }
    {
        Patience { most, waited: 0 }
    }

    /// Learns what a write came to that is cut off after one wait, and answers how many bytes were taken. If it took none, it is to be made again, or the
    /// peer is to be given up.
    pub fn after(&mut self, written: io::Result<usize>) -> Result<usize, Unwritten>
        ensures most { self.new.most ≡ self.old.most }
        ensures taken { IfOk written (λ taken. (result ≡ Ok taken) × (self.new.waited ≡ 0)) }
        ensures waited { IfErr written (λ error. IsWait (error_kind error) → self.new.waited ≡ min self.old.most (self.old.waited + 1)) }
        ensures patient { IfErr written (λ error. IsWait (error_kind error) → self.old.waited + 1 < self.old.most → result ≡ Err Unwritten.Again) }
        ensures spent { IfErr written (λ error. IsWait (error_kind error) → self.old.most ≤ self.old.waited + 1 → IsLostBy ErrorKind.TimedOut result) }
        ensures interrupted { IfErr written (λ error. error_kind error ≡ ErrorKind.Interrupted → (result ≡ Err Unwritten.Again) × (self.new ≡ self.old)) }
        ensures failed { IfErr written (λ error. (IsWait (error_kind error) → ⊥) → error_kind error ≢ ErrorKind.Interrupted
            → (result ≡ Err (Unwritten.Lost error)) × (self.new ≡ self.old)) }
    {
        match written {
            Ok(len) => {
                self.waited = 0;
                Ok(len)
            }
            Err(error) if has_waited(&error) => Err(self.wait_on()),
            Err(error) if is_interrupted(&error) => Err(Unwritten::Again),
            Err(error) => Err(Unwritten::Lost(error)),
        }
    }

    // One more wait has passed in which the peer took nothing. What that means.
    fn wait_on(&mut self) -> Unwritten
        ensures most { self.new.most ≡ self.old.most }
        ensures waited { self.new.waited ≡ min self.old.most (self.old.waited + 1) }
        ensures patient { self.old.waited + 1 < self.old.most → result ≡ Unwritten.Again }
        ensures spent { self.old.most ≤ self.old.waited + 1 → IsLostBy ErrorKind.TimedOut (Err result) }
    {
        if self.waited < self.most {
            self.waited += 1;
        }
        if self.waited < self.most {
            Unwritten::Again
        } else {
            Unwritten::Lost(io::Error::from(ErrorKind::TimedOut))
        }
    }
}
