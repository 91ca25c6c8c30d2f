//! How long a carrier is read.
ghost use Rattle.std.specs.IoError.{error_kind};
ghost use Rattle.std.specs.Prelude.{◌≡◌, ◌≢◌, ◌≤◌, ◌<◌, ◌+◌, min, Ok, IfOk, IfErr, IsTrue, IsFalse};
ghost use Rattle.jup_io.specs.Patience.{IsWait};
ghost use Rattle.jup_carrier.specs.Hearings.{longest_silence, most_dropped};

use jup_io::{has_waited, is_interrupted};
use std::io;
use std::io::ErrorKind;
use std::marker::Model;

/// For how many seconds a carrier may be silent while it is read: three minutes.
const LONGEST_SILENCE: u32 = 180;

/// How many bytes a carrier may bring that have no effect: 4 MiB.
const MOST_DROPPED: u64 = 4_194_304;

/// What a read of a carrier means.
#[derive(Clone, Copy, Debug, PartialEq, Eq)]
pub enum Read {
    /// So many bytes came.
    Bytes(usize),
    /// The carrier is to be read again.
    Again,
    /// Its bytes have ended.
    End,
    /// It is to be cut.
    Cut,
}

/// How long a carrier was silent, and how much it brought that had no effect. Contracts see both.
#[derive(Drop)]
pub struct Hearing {
    silent: u32,
    dropped: u64,
}

impl Model for Hearing {
    ghost use Rattle.jup_carrier.specs.Hearings.{Heard};

    ghost Value = { Heard };

    ghost view = { λ h. record { silent = h.silent; dropped = h.dropped } };
}

impl Hearing {
    /// A carrier of which nothing was read yet.
    pub fn new() -> Hearing
        ensures silent { result.silent ≡ 0 }
        ensures dropped { result.dropped ≡ 0 }
    {
        Hearing {
            silent: 0,
            dropped: 0,
        }
    }

    /// What a read means that waits for a second at most. Lines that it brought have an effect or not.
    pub fn hear(&mut self, read: io::Result<usize>, drops_lines: bool) -> Read
        ensures end { read ≡ Ok 0 → (result ≡ Read.End) × (self.new ≡ self.old) }
        ensures heard { IfOk read (λ len. 1 ≤ len → self.new.silent ≡ 0) }
        ensures kept { IfOk read (λ len. 1 ≤ len → IsFalse drops_lines → self.new.dropped ≡ self.old.dropped) }
        ensures dropped { IfOk read (λ len. 1 ≤ len → IsTrue drops_lines → self.new.dropped ≡ min 18446744073709551615 (self.old.dropped + len)) }
        ensures bytes { IfOk read (λ len. 1 ≤ len → self.new.dropped < most_dropped → result ≡ Read.Bytes len) }
        ensures much { IfOk read (λ len. 1 ≤ len → most_dropped ≤ self.new.dropped → result ≡ Read.Cut) }
        ensures waited { IfErr read (λ error. IsWait (error_kind error) → self.new ≡ record self.old { silent = min 4294967295 (self.old.silent + 1) }) }
        ensures patient { IfErr read (λ error. IsWait (error_kind error) → self.old.silent + 1 < longest_silence → result ≡ Read.Again) }
        ensures silent { IfErr read (λ error. IsWait (error_kind error) → longest_silence ≤ self.old.silent + 1 → result ≡ Read.Cut) }
        ensures interrupted { IfErr read (λ error. error_kind error ≡ ErrorKind.Interrupted → (result ≡ Read.Again) × (self.new ≡ self.old)) }
        ensures failed { IfErr read (λ error. (IsWait (error_kind error) → ⊥) → error_kind error ≢ ErrorKind.Interrupted → (result ≡ Read.Cut) × (self.new ≡ self.old)) }
    {
        match read {
            Ok(0) => Read::End,
            Ok(len) => self.hear_bytes(len, drops_lines),
            Err(error) if has_waited(&error) => self.wait_on(),
            Err(error) if is_interrupted(&error) => Read::Again,
            Err(_) => Read::Cut,
        }
    }

    // So many bytes came.
    fn hear_bytes(&mut self, len: usize, drops_lines: bool) -> Read
        ensures heard { self.new.silent ≡ 0 }
        ensures kept { IsFalse drops_lines → self.new.dropped ≡ self.old.dropped }
        ensures dropped { IsTrue drops_lines → self.new.dropped ≡ min 18446744073709551615 (self.old.dropped + len) }
        ensures bytes { self.new.dropped < most_dropped → result ≡ Read.Bytes len }
        ensures much { most_dropped ≤ self.new.dropped → result ≡ Read.Cut }
    {
        self.silent = 0;
        if drops_lines {
            self.dropped = self.dropped.saturating_add(len as u64);
        }
        if self.dropped >= MOST_DROPPED {
            Read::Cut
        } else {
            Read::Bytes(len)
        }
    }

    // One more second has passed in which nothing came.
    fn wait_on(&mut self) -> Read
        ensures waited { self.new ≡ record self.old { silent = min 4294967295 (self.old.silent + 1) } }
        ensures patient { self.old.silent + 1 < longest_silence → result ≡ Read.Again }
        ensures silent { longest_silence ≤ self.old.silent + 1 → result ≡ Read.Cut }
    {
        self.silent = self.silent.saturating_add(1);
        if self.silent >= LONGEST_SILENCE {
            Read::Cut
        } else {
            Read::Again
        }
    }
}
