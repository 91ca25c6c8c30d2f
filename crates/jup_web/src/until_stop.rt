//! What reads a connection until the server has to stop.
ghost use Rattle.std.specs.Prelude.{◌≡◌, Ok, IsTrue, IsFalse, true, false};
ghost use Rattle.std.specs.Io.{ReadsAtMost};
ghost use Rattle.std.specs.Io.KnownBytes.{ReadConsumes};
ghost use Rattle.jup_http.specs.Readers.{ended_by};

use crate::stopping::StopMark;
use jup_carrier::Timed;
use jup_http::{Ending, MessageReader};
use jup_io::Peer;
use std::io;
use std::io::Read;
use std::time::Duration;

/// What a look at the stop saw. It is not `Drop`: who looks has to read, and each read takes a look of its own.
pub(crate) struct Look {
    is_told: bool,
}

impl Look {
    /// Looks whether the server has to stop.
    pub(crate) fn at(mark: &StopMark) -> Look
        ensures { result.is_told ≡ mark.now }
    {
        Look {
            is_told: mark.is_told(),
        }
    }
}

/// Reads until the server has to stop: then the bytes have ended, even if more come. A carrier of a link is read on.
#[derive(Drop)]
pub(crate) struct UntilStop<I: Read + Drop> {
    from: I,
    heeds_stop: bool,
}

impl<I: Read + Drop> UntilStop<I> {
    pub(crate) fn new(from: I) -> UntilStop<I>
        ensures from { result.from ≡ from }
        ensures heeds { result.heeds_stop ≡ true }
    {
        UntilStop {
            from,
            heeds_stop: true,
        }
    }

    /// It carries a link from here on.
    pub(crate) fn begin_carrying(&mut self)
        ensures { self.new ≡ record self.old { heeds_stop = false } }
    {
        self.heeds_stop = false;
    }

    /// Reads once, unless the look has ended the bytes.
    pub(crate) fn read(&mut self, look: Look, buf: &mut [u8]) -> io::Result<usize>
        ensures bound { ReadsAtMost result buf.new }
        ensures ended { IsTrue look.is_told → IsTrue self.old.heeds_stop → (result ≡ Ok 0) × (self.new ≡ self.old) }
        ensures served { IsFalse look.is_told → ReadConsumes (I.remaining self.old.from) (I.remaining self.new.from) result buf.new }
        ensures carried { IsFalse self.old.heeds_stop → ReadConsumes (I.remaining self.old.from) (I.remaining self.new.from) result buf.new }
        ensures heeds { self.new.heeds_stop ≡ self.old.heeds_stop }
    {
        let Look { is_told } = look;
        if is_told && self.heeds_stop {
            return Ok(0);
        }
        self.from.read(buf)
    }
}

impl<I: Timed + Drop> UntilStop<I> {
    /// How long a read waits at most.
    pub(crate) fn wait_at_most(&mut self, wait: Option<Duration>) -> io::Result<()> {
        self.from.wait_at_most(wait)
    }
}

impl<I: Read + Drop, O: Peer + Drop> UntilStop<MessageReader<I, O>> {
    /// How the frames of a browser ended, once they have.
    pub(crate) fn ending(&self) -> Option<Ending>
        ensures { result ≡ ended_by self.now.from }
    {
        self.from.ending()
    }
}
