//! The first bytes of a connection, which say of which protocol it is.
ghost use Rattle.std.specs.Prelude.{◌↔◌, ◌⊎◌, codes, IsTrue};
ghost use Rattle.jup_resume.specs.FirstLines.{BeginsWith, IsOfCarrier};
ghost use Rattle.jup_links.specs.FirstBytes.{Says};

use jup_resume::{is_of_carrier, split};

/// How many bytes a first line of protocol 4 has at most, with its line feed.
pub const LONGEST_FIRST: usize = 64;

/// What the first bytes of a connection say.
#[derive(Clone, Copy, Debug, PartialEq, Eq)]
pub enum FirstBytes {
    /// Nothing yet.
    Undecided,
    /// A session of protocol 3.
    Session,
    /// A first line of protocol 4, of which more is to come.
    Part,
    /// A first line of protocol 4, with so many bytes before its line feed.
    Line(usize),
    /// They begin as a first line of protocol 4 and are too long for one.
    TooLong,
}

impl FirstBytes {
    /// What these bytes say, the first of a connection.
    pub fn of(bytes: &[u8]) -> FirstBytes
        ensures { Says bytes.now result }
    {
        if is_of_carrier(bytes) {
            return of_carrier(bytes);
        }
        if may_be_of_carrier(bytes) {
            FirstBytes::Undecided
        } else {
            FirstBytes::Session
        }
    }
}

// What bytes say that begin a first line of protocol 4.
fn of_carrier(bytes: &[u8]) -> FirstBytes
    requires { IsOfCarrier bytes.now }
    ensures { Says bytes.now result }
{
    let Some((line, _)) = split(bytes, b'\n') else {
        return if bytes.len() < LONGEST_FIRST {
            FirstBytes::Part
        } else {
            FirstBytes::TooLong
        };
    };
    if line.len() < LONGEST_FIRST {
        FirstBytes::Line(line.len())
    } else {
        FirstBytes::TooLong
    }
}

// Whether bytes are the beginning of a first line of protocol 4.
fn may_be_of_carrier(bytes: &[u8]) -> bool
    ensures { IsTrue result ↔ (BeginsWith bytes.now (codes "hello 4") ⊎ BeginsWith bytes.now (codes "resume ")) }
{
    begins_with(b"hello 4", bytes) || begins_with(b"resume ", bytes)
}

// Whether bytes begin with others.
fn begins_with(bytes: &[u8], front: &[u8]) -> bool
    ensures { IsTrue result ↔ BeginsWith front.now bytes.now }
{
    bytes.starts_with(front)
}
