//! The writer of a session, which is given up once its site is too far behind.
ghost use Rattle.std.specs.Prelude.{◌≡◌, ◌⊎◌, ◌↔◌, ◌<◌, ◌≤◌, [], IfErr, IfOk, IfSome, IsFalse, IsTrue, OnErr, None, Ok, length};
ghost use Rattle.std.specs.IoError.{error_kind};
ghost use Rattle.std.specs.Io.{WritesAtMost};
ghost use Rattle.std.specs.Io.KnownBytes.{WriteAppends};
ghost use Rattle.jup_limits.specs.Limits.{most_behind};

use super::watch::Watch;
use jup_io::Peer;
use jup_rules::FarBehind;
use std::io;
use std::io::{ErrorKind, Write};
use std::sync::Wait;

/// Writes to another writer. If the site is too far behind after a write that took less than all, it gives the site up, and fails.
#[derive(Drop)]
pub(crate) struct Watched<'a, R: Wait, O: Peer + Drop> {
    rt: &'a R,
    watch: &'a Watch<'a>,
    to: O,
    /// Whether the last write took less than all.
    is_waiting: bool,
}

impl<'a, R: Wait, O: Peer + Drop> Watched<'a, R, O> {
    pub(crate) fn new(rt: &'a R, watch: &'a Watch<'a>, to: O) -> Watched<'a, R, O>
        ensures to { result.to ≡ to }
        ensures waiting { IsFalse result.is_waiting }
    {
        Watched {
            rt,
            watch,
            to,
            is_waiting: false,
        }
    }

    /// The other writer.
    pub(crate) fn into_inner(self) -> O
        ensures { result ≡ self.entry.to }
    {
        let Watched { to, .. } = self;
        to
    }

    // By how much the site is too far behind. It is asked for only after a write that took less than all.
    fn far_behind(&self) -> Option<FarBehind>
        ensures far { IfSome result (λ far. most_behind < far.operations) }
        ensures whole { IsFalse self.now.is_waiting → result ≡ None }
    {
        if !self.is_waiting {
            return None;
        }
        self.watch.check(self.rt).err()
    }
}

// Whether a write took less than all.
fn took_less(sent: &io::Result<usize>, len: usize) -> bool
    ensures { IsFalse result ↔ (sent.now ≡ Ok len) }
{
    !matches!(sent, Ok(taken) if *taken == len)
}

impl<'a, R: Wait, O: Peer + Drop> Write for Watched<'a, R, O> {
    ghost contents = { λ w. O.contents w.to };

    fn write(&mut self, buf: &[u8]) -> io::Result<usize> {
        self.send(buf)
    }

    fn flush(&mut self) -> io::Result<()> {
        self.pass_on()
    }
}

impl<'a, R: Wait, O: Peer + Drop> Peer for Watched<'a, R, O> {
    ghost has_failed = { λ w. O.has_failed w.to };

    ghost is_well = { λ w. O.is_well w.to };

    fn send(&mut self, bytes: &[u8]) -> io::Result<usize>
        ensures bound { WritesAtMost result bytes.now }
        ensures bytes { WriteAppends (O.contents self.old.to) (O.contents self.new.to) result bytes.now }
        ensures failed { OnErr result (IsTrue (O.has_failed self.new.to)) }
        ensures stuck { IfOk result (λ n. n ≡ 0 → (bytes.now ≡ []) ⊎ IsTrue (O.has_failed self.new.to)) }
        ensures well { IfOk result (λ n. 1 ≤ n → IsTrue (O.is_well self.old.to) → IsTrue (O.is_well self.new.to)) }
        ensures again { IfErr result (λ error. error_kind error ≡ ErrorKind.Interrupted → IsTrue (O.is_well self.old.to) → IsTrue (O.is_well self.new.to)) }
        ensures waiting { IsFalse self.new.is_waiting ↔ (result ≡ Ok (length bytes.now)) }
    {
        if self.far_behind().is_some() {
            self.to.give_up();
            return Err(io::Error::from(ErrorKind::TimedOut));
        }
        let sent = self.to.send(bytes);
        self.is_waiting = took_less(&sent, bytes.len());
        sent
    }

    fn pass_on(&mut self) -> io::Result<()> {
        self.to.pass_on()
    }

    fn give_up(&mut self) {
        self.to.give_up();
    }
}
