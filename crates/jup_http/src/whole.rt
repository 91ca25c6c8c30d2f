//! Frames that go out whole.
ghost use Rattle.std.specs.IoError.{error_kind};
ghost use Rattle.std.specs.Io.KnownBytes.{Appends};
ghost use Rattle.std.specs.Prelude.{◌≡◌, ◌≢◌, ◌≤◌, length, IfOk, IfErr, OnOk, OnErr, IsTrue};

use jup_io::{Peer, is_interrupted};
use std::io;
use std::io::{ErrorKind, Write};
use std::marker::Model;

/// A peer to which all goes out that one call is given, unless the call fails. The peer has failed then. So what is written next never follows a part of a
/// frame.
///
/// A call makes so many writes at most, and then gives the peer up. Contracts see the peer.
#[derive(Drop)]
pub struct Whole<O: Peer + Drop> {
    to: O,
    most_writes: u32,
}

impl<O: Peer + Drop> Model for Whole<O> {
    ghost Value = { O };

    ghost coded = { O.code };

    ghost view = { λ whole. whole.to };
}

impl<O: Peer + Drop> Whole<O> {
    /// What a call is given goes to this peer, in so many writes at most.
    pub fn new(to: O, most_writes: u32) -> Whole<O>
        ensures { result ≡ to }
    {
        Whole { to, most_writes }
    }
}

impl<O: Peer + Drop> Write for Whole<O> {
    fn write(&mut self, buf: &[u8]) -> io::Result<usize>
        ensures whole { IfOk result (λ n. (n ≡ length buf.now) × Appends (O.contents self.old) (O.contents self.new) buf.now) }
        ensures failed { OnErr result (IsTrue (O.has_failed self.new)) }
    {
        self.send(buf)
    }

    fn flush(&mut self) -> io::Result<()> {
        self.pass_on()
    }
}

impl<O: Peer + Drop> Peer for Whole<O> {
    ghost has_failed = { λ whole. O.has_failed whole };

    ghost is_well = { λ whole. O.is_well whole };

    fn send(&mut self, bytes: &[u8]) -> io::Result<usize>
        ensures whole { IfOk result (λ n. (n ≡ length bytes.now) × Appends (O.contents self.old) (O.contents self.new) bytes.now) }
        ensures failed { OnErr result (IsTrue (O.has_failed self.new)) }
        ensures well { IfOk result (λ n. 1 ≤ n → IsTrue (O.is_well self.old) → IsTrue (O.is_well self.new)) }
        ensures kind { IfErr result (λ error. error_kind error ≢ ErrorKind.Interrupted) }
        ensures again { IfErr result (λ error. error_kind error ≡ ErrorKind.Interrupted → IsTrue (O.is_well self.old) → IsTrue (O.is_well self.new)) }
    {
        send_whole(&mut self.to, bytes, self.most_writes)?;
        Ok(bytes.len())
    }

    fn pass_on(&mut self) -> io::Result<()> {
        self.to.pass_on()
    }

    fn give_up(&mut self) {
        self.to.give_up();
    }
}

// Sends all the bytes, in so many writes at most. If that fails, the first of them may be sent, and the peer has failed.
fn send_whole<O: Peer + Drop>(to: &mut O, bytes: &[u8], most_writes: u32) -> io::Result<()>
    ensures ok { OnOk result (Appends (O.contents to.old) (O.contents to.new) bytes.now) }
    ensures failed { OnErr result (IsTrue (O.has_failed to.new)) }
    ensures well { OnOk result (IsTrue (O.is_well to.old) → IsTrue (O.is_well to.new)) }
    ensures kind { IfErr result (λ error. error_kind error ≢ ErrorKind.Interrupted) }
{
    if bytes.is_empty() {
        return Ok(());
    }
    let mut rest = bytes;
    for _ in 0..most_writes {
        match to.send(rest) {
            Ok(len) if len == rest.len() => return Ok(()),
            Ok(0) => return Err(io::Error::from(ErrorKind::WriteZero)),
            Ok(len) => rest = &rest[len..],
            Err(error) if is_interrupted(&error) => {}
            Err(error) => return Err(error),
        }
    }
    to.give_up();
    Err(io::Error::from(ErrorKind::TimedOut))
}
