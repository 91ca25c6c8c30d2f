//! A WebSocket over a reader and a writer of bytes that fail.
use crate::expect::{expect_eq, expect_that};
use jup_http::{MessageReader, MessageWriter};
use jup_io::{Lasting, Peer};
use std::io;
use std::io::{ErrorKind, Read, Write};
use std::sync::atomic::{AtomicU64, Ordering};

// Gives a byte and then an error, by turns.
#[derive(Drop)]
struct Faltering<'a> {
    rest: &'a [u8],
    falters: bool,
}

impl<'a> Read for Faltering<'a> {
    fn read(&mut self, buf: &mut [u8]) -> io::Result<usize> {
        self.falters = !self.falters;
        if self.falters {
            return Err(io::Error::from(ErrorKind::TimedOut));
        }
        let len = buf.len().min(1);
        self.rest.read(&mut buf[..len])
    }
}

// An error in the middle of a frame loses nothing, and does not come again in place of what follows.
#[test]
fn a_read_that_fails_loses_nothing(rt: HostRuntime) {
    let from = Faltering {
        rest: b"\x81\x82\x01\x02\x03\x04\x69\x6b",
        falters: false,
    };
    let mut reader = MessageReader::new(rt.alloc(), from, Lasting(io::sink())).expect(
        &rt,
        "there is memory",
    );
    let mut found = [0u8; 4];
    let mut len = 0usize;
    for _ in 0..18 {
        let start = len.min(found.len());
        if let Ok(more) = reader.read(&mut found[start..]) {
            len = start + more;
        }
    }
    expect_that(&rt, &found[..len.min(4)] == b"hi".as_slice());
}

// Takes so many bytes, and then fails.
#[derive(Drop)]
struct Narrow {
    room: usize,
}

impl Write for Narrow {
    fn write(&mut self, buf: &[u8]) -> io::Result<usize> {
        let len = buf.len().min(self.room);
        if len == 0 {
            return Err(io::Error::from(ErrorKind::BrokenPipe));
        }
        self.room -= len;
        Ok(len)
    }

    fn flush(&mut self) -> io::Result<()> {
        Ok(())
    }
}

// A pong that is cut off fails the read, and loses no data after it.
#[test]
fn a_pong_that_is_cut_off_fails_a_read(rt: HostRuntime) {
    let frames = b"\x89\x82\0\0\0\0hi\x81\x81\0\0\0\0a".as_slice();
    let mut reader = MessageReader::new(rt.alloc(), frames, Lasting(Narrow { room: 3 })).expect(
        &rt,
        "there is memory",
    );
    let mut found = [0u8; 2];
    expect_that(&rt, reader.read(&mut found).is_err());
    expect_eq(&rt, reader.read(&mut found).ok(), Some(1));
    expect_eq(&rt, found, [b'a', 0]);
}

// Takes what it is given, and notes how often it was given up.
#[derive(Drop)]
struct Counted<'a> {
    taken: &'a mut Vec<u8>,
    given_up: &'a AtomicU64,
}

impl<'a> Write for Counted<'a> {
    fn write(&mut self, buf: &[u8]) -> io::Result<usize> {
        self.taken.write(buf)
    }

    fn flush(&mut self) -> io::Result<()> {
        Ok(())
    }
}

impl<'a> Peer for Counted<'a> {
    fn send(&mut self, bytes: &[u8]) -> io::Result<usize> {
        self.write(bytes)
    }

    fn pass_on(&mut self) -> io::Result<()> {
        self.flush()
    }

    fn give_up(&mut self) {
        self.given_up.fetch_add(1, Ordering::SeqCst);
    }
}

// Who gives a link by messages up gives up the writer of its frames, which gets no frame by that. A flush does not.
#[test]
fn a_writer_of_messages_gives_its_own_up(rt: HostRuntime) {
    let (mut taken, given_up) = (Vec::new(rt.alloc()), AtomicU64::new(0));
    let peer = Counted {
        taken: &mut taken,
        given_up: &given_up,
    };
    let mut writer = MessageWriter::new(rt.alloc(), peer).expect(&rt, "there is memory");
    expect_that(&rt, writer.flush().is_ok());
    expect_eq(&rt, given_up.load(Ordering::SeqCst), 0);
    writer.give_up();
    expect_eq(&rt, given_up.load(Ordering::SeqCst), 1);
    drop(writer);
    expect_eq(&rt, taken.as_slice().len(), 0);
}
