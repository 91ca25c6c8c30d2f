//! A WebSocket as a reader of a link's bytes.
ghost use Rattle.std.specs.Prelude.{◌≡◌, ◌≤◌, ◌+◌, ◌++◌, ℕ, List, length, take, map, slice_range};
ghost use Rattle.jup_http.specs.Streams.{brought, tells};
ghost use Rattle.jup_http.specs.Events.{standing, told_by_option};

use crate::{Ending, Event, FrameStream, Held, Unframed, put_pong};
use jup_io::{Peer, write_whole};
use std::alloc::{AllocError, Global};
use std::io;
use std::io::{ErrorKind, Read};

/// Bytes that one read asks for.
const PIECE: usize = 1_024;

/// Room for a pong, whose header has 2 bytes.
const ROOM: usize = 128;

/// Reads the payloads of the messages of data that come by `from`, one after the other and as they come, and answers pings by `to`.
///
/// It takes no memory except what it has from the start. So whatever comes, it keeps what it promises of the bytes that are left.
#[derive(Drop)]
pub struct MessageReader<I: Drop, O: Drop> {
    from: I,
    to: O,
    stream: FrameStream,
    /// Bytes that were read; those from `start` to `end` are not taken.
    piece: [u8; PIECE],
    start: usize,
    end: usize,
    /// The payload of a ping that is not answered.
    ping: Option<Held>,
    ending: Option<Ending>,
    pong: Vec<u8>,
    ghost in_order: { start ≤ end },
    ghost in_piece: { end ≤ 1024 },
}

// Unframes the bytes of a piece between two places.
fn unframe_part(
    stream: &mut FrameStream,
    piece: &[u8],
    start: usize,
    end: usize,
    buf: &mut [u8],
) -> Unframed
    requires order { start ≤ end }
    requires inside { end ≤ length piece.now }
    ensures taken { start + result.taken ≤ end }
    ensures given { result.given ≤ length buf.new }
    ensures told { (more : List ℕ) → tells (standing stream.old) (slice_range piece.now start end ++ more)
        ≡ map brought (take result.given buf.new) ++ told_by_option result.event ++ tells (standing stream.new) (slice_range piece.now (start + result.taken) end ++ more) }
{
    stream.unframe(&piece[start..end], buf)
}

impl<I: Read + Drop, O: Peer + Drop> MessageReader<I, O> {
    ghost use Rattle.std.specs.Prelude.{◌<◌, ◌⊎◌, ◌↔◌, [], Ok, None, IfOk, OnOk, OnErr, IsTrue, IsSome, true, false, option_map};
    ghost use Rattle.jup_http.specs.Readers.{payloads_left, told_left, written, ended_by, untaken, Takes, IsDealtWith, Hears, HearsInPart, EndsBy, IsReadAtEnd};
    ghost use Rattle.jup_http.specs.Prelude.{Over};
    ghost use Rattle.jup_http.specs.Streams.{start, brings};

    /// A reader of what comes by `from`. Contracts of reads speak of the payloads that are left, and of the pings to answer.
    pub fn new(alloc: Global, from: I, to: O) -> Result<MessageReader<I, O>, AllocError>
        ensures payloads { IfOk result (λ reader. payloads_left I.remaining reader ≡ option_map (brings start) (I.remaining from)) }
        ensures told { IfOk result (λ reader. told_left I.remaining reader ≡ option_map (tells start) (I.remaining from)) }
        ensures written { IfOk result (λ reader. written O.contents reader ≡ O.contents to) }
        ensures ending { IfOk result (λ reader. ended_by reader ≡ None) }
    {
        let pong = Vec::with_capacity(alloc, ROOM)?;
        Ok(MessageReader {
            from,
            to,
            stream: FrameStream::new(),
            piece: [0; PIECE],
            start: 0,
            end: 0,
            ping: None,
            ending: None,
            pong,
        })
    }

    /// How the frames ended, once they have.
    pub fn ending(&self) -> Option<Ending>
        ensures { result ≡ ended_by self.now }
    {
        self.ending
    }

    // Puts the data of bytes that were read into `buf`, up to an event, which it notes.
    fn give(&mut self, buf: &mut [u8]) -> usize
        requires { self.old.ping ≡ None }
        ensures within { result ≤ length buf.new }
        ensures heard { Hears (told_left I.remaining self.old) (told_left I.remaining self.new) (written O.contents self.old) (written O.contents self.new) (take result buf.new) }
        ensures ended { EndsBy (told_left I.remaining self.old) (told_left I.remaining self.new) (ended_by self.old) (ended_by self.new) }
    {
        let unframed = unframe_part(&mut self.stream, &self.piece, self.start, self.end, buf);
        self.start += unframed.taken;
        match unframed.event {
            Some(Event::Ping(payload)) => self.ping = Some(payload),
            Some(Event::Closed(code)) => self.ending = Some(Ending::Closed(code)),
            Some(Event::Broken(breach)) => self.ending = Some(Ending::Broken(breach)),
            None => {}
        }
        unframed.given
    }

    // Reads once, if all bytes are taken, and answers how many bytes came.
    fn fill(&mut self) -> io::Result<usize>
        requires taken { untaken self.old ≡ [] }
        requires answered { self.old.ping ≡ None }
        ensures keeps { Takes (told_left I.remaining self.old) (told_left I.remaining self.new) [] }
        ensures written { written O.contents self.new ≡ written O.contents self.old }
        ensures end { result ≡ Ok 0 → IsDealtWith (told_left I.remaining self.new) }
        ensures came { IfOk result (λ n. (self.new.start ≡ 0) × (self.new.end ≡ n)) }
        ensures ending { ended_by self.new ≡ ended_by self.old }
    {
        self.start = 0;
        self.end = 0;
        let len = self.from.read(&mut self.piece)?;
        self.end = len;
        Ok(len)
    }

    // Reads once, if all bytes are taken and no ping waits. False at the end of the bytes.
    fn renew(&mut self) -> io::Result<bool>
        ensures keeps { Takes (told_left I.remaining self.old) (told_left I.remaining self.new) [] }
        ensures written { written O.contents self.new ≡ written O.contents self.old }
        ensures end { result ≡ Ok false → IsDealtWith (told_left I.remaining self.new) }
        ensures more { result ≡ Ok true → (self.new.start < self.new.end) ⊎ IsSome self.new.ping }
        ensures ending { ended_by self.new ≡ ended_by self.old }
    {
        if self.start < self.end || self.ping.is_some() {
            return Ok(true);
        }
        let len = self.fill()?;
        Ok(len > 0)
    }

    // Answers a ping.
    fn answer(&mut self) -> io::Result<()>
        ensures idle { OnOk result (self.new.ping ≡ None) }
        ensures ok { OnOk result (Hears (told_left I.remaining self.old) (told_left I.remaining self.new) (written O.contents self.old) (written O.contents self.new) []) }
        ensures err { OnErr result (HearsInPart (told_left I.remaining self.old) (told_left I.remaining self.new) (written O.contents self.old) (written O.contents self.new)) }
        ensures ended { EndsBy (told_left I.remaining self.old) (told_left I.remaining self.new) (ended_by self.old) (ended_by self.new) }
    {
        let Some(payload) = self.ping.take() else {
            return Ok(());
        };
        self.pong.clear();
        put_pong(payload.bytes(), &mut self.pong)?;
        write_whole(&mut self.to, &self.pong)
    }

    // Whether no byte reports anything more, and all pings are answered.
    fn is_over(&self) -> bool
        ensures over { IsTrue result ↔ ((self.now.ping ≡ None) × ((standing self.now.stream).place ≡ Over)) }
        ensures left { IsTrue result → IsDealtWith (told_left I.remaining self.now) }
    {
        match self.ping {
            Some(_) => false,
            None => self.stream.is_over(),
        }
    }

    // What a read answers at the end of what is reported: nothing, or a failure if the client broke a rule.
    fn end(&self) -> io::Result<usize>
        ensures { IsReadAtEnd (ended_by self.now) result }
    {
        match self.ending {
            Some(Ending::Broken(_)) => Err(io::Error::from(ErrorKind::InvalidData)),
            Some(Ending::Closed(_)) | None => Ok(0),
        }
    }
}

impl<I: Read + Drop, O: Peer + Drop> Read for MessageReader<I, O> {
    ghost use Rattle.std.specs.Prelude.{◌<◌, IfOk, IfErr};
    ghost use Rattle.std.specs.Io.{ReadsAtMost};
    ghost use Rattle.std.specs.Io.KnownBytes.{ReadConsumes};
    ghost use Rattle.jup_http.specs.Readers.{payloads_left, told_left, written, ended_by, IsDealtWith, Hears, HearsInPart, EndsBy, IsUnbroken};

    ghost remaining = { payloads_left I.remaining };

    /// The next payloads. An error is `InvalidData` if the client broke a rule, and otherwise that of a read or of a pong's write.
    ///
    /// The pong of a ping is written before any data that comes after the ping is given, and before the end.
    fn read(&mut self, buf: &mut [u8]) -> io::Result<usize>
        ensures bound { ReadsAtMost result buf.new }
        ensures bytes { ReadConsumes (payloads_left I.remaining self.old) (payloads_left I.remaining self.new) result buf.new }
        ensures pongs { IfOk result (λ n. Hears (told_left I.remaining self.old) (told_left I.remaining self.new)
            (written O.contents self.old) (written O.contents self.new) (take n buf.new)) }
        ensures last { IfOk result (λ n. n ≡ 0 → 0 < length buf.new → IsDealtWith (told_left I.remaining self.new)) }
        // Bytes that break a rule never end as those of a client that ends its link.
        ensures unbroken { IfOk result (λ n. n ≡ 0 → 0 < length buf.new → IsUnbroken (ended_by self.new)) }
        ensures failed { IfErr result (λ _. HearsInPart (told_left I.remaining self.old) (told_left I.remaining self.new)
            (written O.contents self.old) (written O.contents self.new)) }
        ensures ended { EndsBy (told_left I.remaining self.old) (told_left I.remaining self.new) (ended_by self.old) (ended_by self.new) }
    {
        if buf.is_empty() {
            return Ok(0);
        }
        for _ in 0..u64::MAX {
            self.answer()?;
            let given = self.give(buf);
            if given > 0 {
                return Ok(given);
            }
            if self.is_over() {
                return self.end();
            }
            if !self.renew()? {
                return self.end();
            }
        }
        Err(io::Error::from(ErrorKind::TimedOut))
    }
}
