//! Readers and writers that fail, and gates that stay shut or count.

use jup_session::Gate;
use std::io;
use std::io::{ErrorKind, Read, Write};
use std::sync::atomic::{AtomicU32, Ordering};
use std::thread::sleep;
use std::time::{Clock, Duration};

/// Gives its text, and then fails.
#[derive(Drop)]
pub(crate) struct FailsAfter<'a> {
    pub(crate) text: &'a [u8],
}

impl<'a> Read for FailsAfter<'a> {
    fn read(&mut self, buf: &mut [u8]) -> io::Result<usize> {
        if self.text.is_empty() {
            return Err(io::Error::from(ErrorKind::ConnectionReset));
        }
        self.text.read(buf)
    }
}

/// Gives its text, and then one line again and again.
#[derive(Drop)]
pub(crate) struct Endless<'a> {
    pub(crate) text: &'a [u8],
    pub(crate) line: &'a [u8],
}

impl<'a> Read for Endless<'a> {
    fn read(&mut self, buf: &mut [u8]) -> io::Result<usize> {
        if self.text.is_empty() {
            self.text = self.line;
        }
        self.text.read(buf)
    }
}

/// Gives one byte at each second read. The reads between are interrupted.
#[derive(Drop)]
pub(crate) struct OneByOne<'a> {
    pub(crate) text: &'a [u8],
    pub(crate) is_next: bool,
}

impl<'a> Read for OneByOne<'a> {
    fn read(&mut self, buf: &mut [u8]) -> io::Result<usize> {
        self.is_next = !self.is_next;
        if !self.is_next {
            return Err(io::Error::from(ErrorKind::Interrupted));
        }
        match buf.first_mut() {
            Some(byte) => {
                let mut one = [0u8; 1];
                let len = self.text.read(&mut one)?;
                *byte = one[0];
                Ok(len)
            }
            None => Ok(0),
        }
    }
}

/// Takes a number of writes, and then fails.
#[derive(Drop)]
pub(crate) struct FailsAt<'a> {
    pub(crate) writes: u32,
    pub(crate) text: &'a mut Vec<u8>,
}

impl<'a> Write for FailsAt<'a> {
    fn write(&mut self, buf: &[u8]) -> io::Result<usize> {
        if self.writes == 0 {
            return Err(io::Error::from(ErrorKind::BrokenPipe));
        }
        self.writes -= 1;
        self.text.write(buf)
    }

    fn flush(&mut self) -> io::Result<()> {
        Ok(())
    }
}

/// Takes nothing.
#[derive(Drop)]
pub(crate) struct Full;

impl Write for Full {
    fn write(&mut self, _buf: &[u8]) -> io::Result<usize> {
        Ok(0)
    }

    fn flush(&mut self) -> io::Result<()> {
        Ok(())
    }
}

/// Gives a line at each read, and counts them.
#[derive(Drop)]
pub(crate) struct LineByLine<'a> {
    pub(crate) text: &'a [u8],
    pub(crate) given: &'a AtomicU32,
}

impl<'a> Read for LineByLine<'a> {
    fn read(&mut self, buf: &mut [u8]) -> io::Result<usize> {
        self.given.fetch_add(1, Ordering::SeqCst);
        let len = match self.text.iter().position(|byte| *byte == b'\n') {
            Some(at) => at + 1,
            None => self.text.len(),
        };
        let text = self.text;
        let (mut line, rest) = text.split_at(len);
        self.text = rest;
        line.read(buf)
    }
}

/// Takes its second write only after a second, or once many lines were given, and reports how many were.
#[derive(Drop)]
pub(crate) struct Slow<'a, R> {
    pub(crate) rt: &'a R,
    pub(crate) writes: u32,
    pub(crate) text: &'a mut Vec<u8>,
    pub(crate) given: &'a AtomicU32,
    pub(crate) seen: &'a AtomicU32,
}

impl<'a, R: Clock> Write for Slow<'a, R> {
    fn write(&mut self, buf: &[u8]) -> io::Result<usize> {
        self.writes = self.writes.saturating_add(1);
        if self.writes == 2 {
            for _ in 0..1_000 {
                let given = self.given.load(Ordering::SeqCst);
                self.seen.store(given, Ordering::SeqCst);
                if given > 2_000 {
                    break;
                }
                sleep(self.rt, Duration::from_millis(1));
            }
        }
        self.text.write(buf)
    }

    fn flush(&mut self) -> io::Result<()> {
        Ok(())
    }
}

/// Takes its first write. The second fails, once so many lines were given.
#[derive(Drop)]
pub(crate) struct FailsBehind<'a, R> {
    pub(crate) rt: &'a R,
    pub(crate) is_first: bool,
    pub(crate) given: &'a AtomicU32,
    pub(crate) lines: u32,
}

impl<'a, R: Clock> Write for FailsBehind<'a, R> {
    fn write(&mut self, buf: &[u8]) -> io::Result<usize> {
        if self.is_first {
            self.is_first = false;
            return Ok(buf.len());
        }
        for _ in 0..10_000 {
            if self.given.load(Ordering::SeqCst) >= self.lines {
                break;
            }
            sleep(self.rt, Duration::from_millis(1));
        }
        Err(io::Error::from(ErrorKind::BrokenPipe))
    }

    fn flush(&mut self) -> io::Result<()> {
        Ok(())
    }
}

/// Lets up to a number of edits through, and counts how often it was asked and informed.
#[derive(Drop)]
pub(crate) struct Counting {
    pub(crate) most: u32,
    pub(crate) asked: AtomicU32,
    pub(crate) told: AtomicU32,
}

impl Counting {
    pub(crate) fn new(most: u32) -> Counting {
        Counting {
            most,
            asked: AtomicU32::new(0),
            told: AtomicU32::new(0),
        }
    }
}

impl Gate for Counting {
    fn ready(&self, _site: u32, nth: u32) -> bool {
        self.asked.fetch_add(1, Ordering::SeqCst);
        nth <= self.most
    }

    fn answered(&self, _site: u32, nth: u32) {
        self.told.store(nth, Ordering::SeqCst);
    }
}
