//! The first bytes of a connection.
ghost use Rattle.std.specs.Prelude.{◌≤◌};

use crate::uptime::Uptime;
use jup_io::is_interrupted;
use jup_links::{FirstBytes, LONGEST_FIRST};
use jup_resume::FirstLine;
use std::io;
use std::io::Read;
use std::net::TcpStream;
use std::sync::Wait;
use std::time::{Clock, Duration};

/// For how many milliseconds a connection is waited for: from its seventh byte on, if that may begin a first line of protocol 4, or from the start.
const LONGEST_GREETING: u64 = 10_000;

/// What the first bytes of a connection ask for.
#[derive(Clone, Copy)]
pub enum First {
    /// A session of protocol 3.
    Session,
    /// A session of protocol 3 whose bytes ended before there were seven.
    Early,
    /// What this first line of protocol 4 asks for.
    Line(FirstLine),
    /// Nothing: a first line of protocol 4 is too long, took too long, or is not whole.
    Nothing,
}

/// The first bytes of a connection, as far as they were read.
#[derive(Drop)]
pub struct Greeted {
    /// What they ask for.
    pub first: First,
    bytes: [u8; LONGEST_FIRST],
    len: usize,
    /// How many of them belong to the first line of protocol 4.
    line: usize,
    ghost within: { len ≤ 64 },
    ghost line_within: { line ≤ len },
}

impl Greeted {
    // Nothing was read yet.
    fn new() -> Greeted {
        Greeted {
            first: First::Nothing,
            bytes: [0; LONGEST_FIRST],
            len: 0,
            line: 0,
        }
    }

    /// The bytes that were read and belong to no first line of protocol 4.
    pub fn rest(&self) -> &[u8] {
        &self.bytes[self.line..self.len]
    }

    /// Whether they begin as a note that carries a link on.
    pub fn is_of_resume(&self) -> bool {
        self.bytes[..self.len].starts_with(b"resume ")
    }

    // Learns what the bytes ask for that were read so far.
    fn learn(&mut self) -> FirstBytes {
        let read = FirstBytes::of(&self.bytes[..self.len]);
        match read {
            FirstBytes::Session => self.first = First::Session,
            FirstBytes::Line(at) => {
                let at = at.min(self.len);
                self.first = First::Line(FirstLine::read(&self.bytes[..at]));
                self.line = at.saturating_add(1).min(self.len);
            }
            FirstBytes::Undecided | FirstBytes::Part | FirstBytes::TooLong => {}
        }
        read
    }

    // Reads once. Whether the connection is to be read on: bytes came, or the read was interrupted.
    fn hear<I: Read>(&mut self, from: &mut I) -> bool {
        match from.read(&mut self.bytes[self.len..]) {
            Ok(more) => {
                self.len = self.len.saturating_add(more).min(LONGEST_FIRST);
                more > 0
            }
            Err(error) => is_interrupted(&error),
        }
    }

    // The bytes have ended, or took too long.
    fn end(&mut self, is_untimed: bool) {
        if is_untimed {
            self.first = First::Early;
        }
    }
}

/// How long a connection is waited for until it has said what it asks for.
#[derive(Clone, Copy, Debug, PartialEq, Eq)]
pub enum Patience {
    /// As protocol 4 says: a connection that has said less than seven bytes may take all time.
    Protocol,
    /// Ten seconds from the start.
    Short,
}

/// A reader of a connection whose reads end after a time.
pub trait Timed: Read {
    /// How long a read waits at most: for all time if none is given. A read may end sooner as one that was interrupted.
    fn wait_at_most(&mut self, wait: Option<Duration>) -> io::Result<()>;
}

impl Timed for &TcpStream {
    fn wait_at_most(&mut self, wait: Option<Duration>) -> io::Result<()> {
        self.set_read_timeout(wait)
    }
}

/// Reads the first bytes of a connection.
pub fn greet<R: Wait + Clock>(
    rt: &R,
    uptime: &Uptime,
    stream: &TcpStream,
    patience: Patience,
) -> Greeted {
    let mut from = stream;
    greet_by(rt, uptime, &mut from, patience)
}

/// Reads the first bytes of a connection by any reader.
pub fn greet_by<R: Wait + Clock, I: Timed>(
    rt: &R,
    uptime: &Uptime,
    from: &mut I,
    patience: Patience,
) -> Greeted {
    let mut greeted = Greeted::new();
    let mut until = match patience {
        Patience::Protocol => None,
        Patience::Short => Some(deadline(rt, uptime)),
    };
    for _ in 0..u64::MAX {
        match greeted.learn() {
            FirstBytes::Undecided => {}
            FirstBytes::Part => until = until.or(Some(deadline(rt, uptime))),
            FirstBytes::Session | FirstBytes::Line(_) | FirstBytes::TooLong => return greeted,
        }
        let wait = match wait_until(until, uptime.millis(rt)) {
            Ok(wait) => wait,
            Err(TimeIsUp) => break,
        };
        if from.wait_at_most(wait).is_err() || !greeted.hear(from) {
            break;
        }
    }
    greeted.end(until.is_none());
    greeted
}

fn deadline<R: Wait + Clock>(rt: &R, uptime: &Uptime) -> u64 {
    uptime.millis(rt).saturating_add(LONGEST_GREETING)
}

/// The first bytes of a connection took too long.
struct TimeIsUp;

// How long a read may wait.
fn wait_until(until: Option<u64>, now: u64) -> Result<Option<Duration>, TimeIsUp> {
    let Some(until) = until else {
        return Ok(None);
    };
    match until.saturating_sub(now) {
        0 => Err(TimeIsUp),
        left => Ok(Some(Duration::from_millis(left))),
    }
}
