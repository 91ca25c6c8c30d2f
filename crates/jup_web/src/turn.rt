//! Whose turn it is to write to a socket that both halves of a session write to.
ghost use Rattle.std.specs.IoError.{error_kind};
ghost use Rattle.std.specs.Io.KnownBytes.{Appends};
ghost use Rattle.std.specs.Prelude.{◌≡◌, ◌≢◌, ◌≤◌, length, IfOk, IfErr, OnErr, IsTrue};

use jup_http::Whole;
use jup_io::Peer;
use jup_session::Outgoing;
use std::io;
use std::io::{ErrorKind, Write};
use std::marker::Model;
use std::net::TcpStream;
use std::sync::{Mutex, Wait};

/// Seconds that a browser has to take a frame. A client by lines may take longer. A write that takes less than all waits for a second, so a frame has as
/// many writes.
pub(crate) const BROWSER_PATIENCE: u32 = 30;

/// One half's way to a peer. What one call is given goes out whole before what the other half writes. Contracts see the peer.
#[derive(Drop)]
pub(crate) struct InTurn<'a, R: Wait, O: Peer + Drop> {
    rt: &'a R,
    turn: &'a Mutex<()>,
    to: Whole<O>,
}

impl<'a, R: Wait, O: Peer + Drop> Model for InTurn<'a, R, O> {
    ghost Value = { O };

    ghost coded = { O.code };

    ghost view = { λ half. half.to };
}

impl<'a, R: Wait> InTurn<'a, R, Outgoing<'a>> {
    /// One half's way to the socket of a browser.
    pub(crate) fn of_browser(
        rt: &'a R,
        turn: &'a Mutex<()>,
        stream: &'a TcpStream,
    ) -> InTurn<'a, R, Outgoing<'a>> {
        let to = Outgoing::new(stream, BROWSER_PATIENCE);
        InTurn {
            rt,
            turn,
            to: Whole::new(to, BROWSER_PATIENCE),
        }
    }
}

impl<'a, R: Wait, O: Peer + Drop> InTurn<'a, R, O> {
    // Puts all that is given, while nothing else goes out.
    fn put(&mut self, bytes: &[u8]) -> io::Result<usize>
        ensures whole { IfOk result (λ n. (n ≡ length bytes.now) × Appends (O.contents self.old) (O.contents self.new) bytes.now) }
        ensures failed { OnErr result (IsTrue (O.has_failed self.new)) }
        ensures well { IfOk result (λ n. 1 ≤ n → IsTrue (O.is_well self.old) → IsTrue (O.is_well self.new)) }
        ensures kind { IfErr result (λ error. error_kind error ≢ ErrorKind.Interrupted) }
    {
        let InTurn { rt, turn, to } = self;
        let _mine = turn.lock(*rt);
        to.send(bytes)
    }
}

impl<'a, R: Wait, O: Peer + Drop> Write for InTurn<'a, R, O> {
    fn write(&mut self, buf: &[u8]) -> io::Result<usize> {
        self.put(buf)
    }

    fn flush(&mut self) -> io::Result<()> {
        self.pass_on()
    }
}

impl<'a, R: Wait, O: Peer + Drop> Peer for InTurn<'a, R, O> {
    ghost has_failed = { λ half. O.has_failed half };

    ghost is_well = { λ half. O.is_well half };

    fn send(&mut self, bytes: &[u8]) -> io::Result<usize> {
        self.put(bytes)
    }

    fn pass_on(&mut self) -> io::Result<()> {
        self.to.pass_on()
    }

    fn give_up(&mut self) {
        self.to.give_up();
    }
}
