//! The other end of a link, for those who write to it.

use std::io;
use std::io::{ErrorKind, Write};

/// The other end of a link, as one sees it who writes to it. It can be given up.
///
/// Contracts know of a writer which bytes it holds. Of a peer they also know what holds of it once it has failed.
pub trait Peer: Write {
    ghost use Rattle.std.specs.Prelude.{◌≡◌, ◌≤◌, ◌⊎◌, [], Bool, true, IfOk, IfErr, OnOk, OnErr, IsTrue};
    ghost use Rattle.std.specs.Io.{WritesAtMost};
    ghost use Rattle.std.specs.Io.KnownBytes.{Keeps, WriteAppends};
    ghost use Rattle.std.specs.IoError.{error_kind};

    /// Whether it took no byte of some, a call for it failed, or it was given up. One of which contracts do not know that counts as failed.
    ghost has_failed: { Self → Bool } = { λ _. true };

    /// Whether each call for it did what it was made for, or was interrupted. One of which contracts do not know that counts as well.
    ghost is_well: { Self → Bool } = { λ _. true };

    /// Writes some of the bytes, as [`Write::write`] does.
    fn send(&mut self, bytes: &[u8]) -> io::Result<usize>
        ensures bound { WritesAtMost result bytes.now }
        ensures bytes { WriteAppends (Self.contents self.old) (Self.contents self.new) result bytes.now }
        ensures failed { OnErr result (IsTrue (has_failed self.new)) }
        ensures stuck { IfOk result (λ n. n ≡ 0 → (bytes.now ≡ []) ⊎ IsTrue (has_failed self.new)) }
        ensures well { IfOk result (λ n. 1 ≤ n → IsTrue (is_well self.old) → IsTrue (is_well self.new)) }
        ensures again { IfErr result (λ e. error_kind e ≡ ErrorKind.Interrupted → IsTrue (is_well self.old) → IsTrue (is_well self.new)) };

    /// Passes on what it took, as [`Write::flush`] does.
    fn pass_on(&mut self) -> io::Result<()>
        ensures bytes { Keeps (Self.contents self.old) (Self.contents self.new) }
        ensures failed { OnErr result (IsTrue (has_failed self.new)) }
        ensures well { OnOk result (IsTrue (is_well self.old) → IsTrue (is_well self.new)) };

    /// Gives the peer up, as after a write that failed: later writes fail, and a read of the same link ends. It writes nothing.
    fn give_up(&mut self)
        ensures bytes { Keeps (Self.contents self.old) (Self.contents self.new) }
        ensures failed { IsTrue (has_failed self.new) }
        ensures well { IsTrue (is_well self.old) → IsTrue (is_well self.new) };
}

/// Any writer as a peer, which is never given up. Contracts do not know whether it has failed.
#[derive(Drop)]
pub struct Lasting<O: Write + Drop>(pub O);

impl<O: Write + Drop> Write for Lasting<O> {
    ghost contents = { λ w. O.contents w.0 };

    fn write(&mut self, buf: &[u8]) -> io::Result<usize> {
        self.0.write(buf)
    }

    fn flush(&mut self) -> io::Result<()> {
        self.0.flush()
    }
}

impl<O: Write + Drop> Peer for Lasting<O> {
    fn send(&mut self, bytes: &[u8]) -> io::Result<usize> {
        self.0.write(bytes)
    }

    fn pass_on(&mut self) -> io::Result<()> {
        self.0.flush()
    }

    fn give_up(&mut self) {}
}
