//! A WebSocket as a writer of a link's bytes.
ghost use Rattle.std.specs.Prelude.{◌≡◌, ◌≢◌, ◌<◌, ◌≤◌, min, length, take, IfOk, IfErr, OnErr, IsTrue};
ghost use Rattle.std.specs.IoError.{error_kind};
ghost use Rattle.std.specs.Io.{WritesAtMost};
ghost use Rattle.std.specs.Io.KnownBytes.{Appends};
ghost use Rattle.jup_http.specs.Frames.{longest_sent, text_frame};

use crate::put_text;
use jup_io::{Peer, write_whole};
use std::alloc::{AllocError, Global};
use std::io;
use std::io::{ErrorKind, Write};
use std::marker::Model;

/// Bytes that one message takes.
pub const LONGEST_SENT: usize = 2_048;

/// Room for a frame, whose header has at most 4 bytes.
const ROOM: usize = 2_064;

/// Sends what is written to it as text messages: one for each write, of the first 2,048 bytes. Contracts see the writer that takes the frames.
#[derive(Drop)]
pub struct MessageWriter<O: Peer + Drop> {
    to: O,
    frame: Vec<u8>,
}

impl<O: Peer + Drop> Model for MessageWriter<O> {
    ghost Value = { O };

    ghost coded = { O.code };

    ghost view = { λ a. a.to };
}

impl<O: Peer + Drop> MessageWriter<O> {
    /// A writer whose frames go to this one.
    pub fn new(alloc: Global, to: O) -> Result<MessageWriter<O>, AllocError>
        ensures { IfOk result (λ writer. writer ≡ to) }
    {
        let frame = Vec::with_capacity(alloc, ROOM)?;
        Ok(MessageWriter { to, frame })
    }
}

impl<O: Peer + Drop> Write for MessageWriter<O> {
    /// What is taken goes out as one frame.
    fn write(&mut self, buf: &[u8]) -> io::Result<usize>
        ensures bound { WritesAtMost result buf.now }
        ensures taken { IfOk result (λ n. n ≡ min longest_sent (length buf.now)) }
        ensures framed { IfOk result (λ n. 0 < n → Appends (O.contents self.old) (O.contents self.new) (text_frame (take n buf.now))) }
    {
        self.send(buf)
    }

    fn flush(&mut self) -> io::Result<()> {
        self.pass_on()
    }
}

impl<O: Peer + Drop> Peer for MessageWriter<O> {
    ghost has_failed = { λ a. O.has_failed a };

    ghost is_well = { λ a. O.is_well a };

    /// What is taken goes out as one frame.
    fn send(&mut self, bytes: &[u8]) -> io::Result<usize>
        ensures bound { WritesAtMost result bytes.now }
        ensures taken { IfOk result (λ n. n ≡ min longest_sent (length bytes.now)) }
        ensures framed { IfOk result (λ n. 0 < n → Appends (O.contents self.old) (O.contents self.new) (text_frame (take n bytes.now))) }
        ensures failed { OnErr result (IsTrue (O.has_failed self.new)) }
        ensures well { IfOk result (λ n. 1 ≤ n → IsTrue (O.is_well self.old) → IsTrue (O.is_well self.new)) }
        ensures kind { IfErr result (λ error. error_kind error ≢ ErrorKind.Interrupted) }
        ensures again { IfErr result (λ error. error_kind error ≡ ErrorKind.Interrupted → IsTrue (O.is_well self.old) → IsTrue (O.is_well self.new)) }
    {
        if bytes.is_empty() {
            return Ok(0);
        }
        let len = bytes.len().min(LONGEST_SENT);
        self.frame.clear();
        if let Err(error) = put_text(&bytes[..len], &mut self.frame) {
            self.to.give_up();
            return Err(error.into());
        }
        write_whole(&mut self.to, &self.frame)?;
        Ok(len)
    }

    fn pass_on(&mut self) -> io::Result<()> {
        self.to.pass_on()
    }

    fn give_up(&mut self) {
        self.to.give_up();
    }
}
