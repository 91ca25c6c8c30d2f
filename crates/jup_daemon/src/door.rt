//! The sessions that may still come to a daemon, and what a failed accept means.
ghost use Rattle.std.specs.IoError.{error_kind};
ghost use Rattle.std.specs.Prelude.{◌≡◌, ◌≢◌, ◌≤◌, None, Some, Ok, Err, IfOk, IfErr, OnErr, IsErr, IsTrue, ◌↔◌};
ghost use Rattle.jup_daemon.specs.Doors.{open_to, admission_by, after_counting, after_saying};
ghost use Rattle.jup_daemon.specs.Ends.{IsEndOfFailure};

use crate::{Attempt, DaemonEnd};
use std::io;
use std::io::ErrorKind;
use std::marker::Model;

/// How a connection came in.
#[derive(Clone, Copy, Debug, PartialEq, Eq)]
pub enum Admission {
    /// It is one of the sessions.
    Counted,
    /// All sessions have come. It may only carry a link on.
    Late,
}

/// What a connection that is one of the sessions turned out to be.
#[derive(Clone, Copy, Debug, PartialEq, Eq)]
pub enum Turn {
    /// A session of protocol 3, or one that was refused.
    Session,
    /// A new link, which has a token.
    Link,
    /// It carries a link on, or would. It gives its number back.
    Resume,
    /// Its bytes ended, or it took too long, before it was clear what it is. It gives its number back once a token was given.
    Nothing,
}

/// The door of a daemon. Contracts see how many sessions may still come, how many that came have not said what they are, and whether a token was given.
#[derive(Drop)]
pub struct Door {
    left: u32,
    unread: u32,
    has_given: bool,
}

impl Model for Door {
    ghost use Rattle.std.specs.Prelude.{◌+◌, ◌≤◌};
    ghost use Rattle.jup_daemon.specs.Doors.{Doors};

    ghost Value = { Doors };

    ghost view = { λ d. record { left = d.left; unread = d.unread; has_given = d.has_given } };

    ghost invariant = { λ d. d.left + d.unread ≤ 4294967295 };
}

impl Door {
    /// So many sessions may come.
    pub fn new(sessions: u32) -> Door
        ensures { result ≡ open_to sessions }
    {
        Door {
            left: sessions,
            unread: 0,
            has_given: false,
        }
    }

    /// Whether nobody may come any more where so many links are left: the last session has come, and each connection has said what it is.
    pub fn is_shut(&self, links: usize) -> bool
        ensures { IsTrue result ↔ ((self.now.left ≡ 0) × (self.now.unread ≡ 0) × (links ≡ 0)) }
    {
        self.left == 0 && self.unread == 0 && links == 0
    }

    /// Learns what an accept came to, and answers the connection that came, if one did. None came if the peer aborted its connection before it was accepted. Each other
    /// failure ends the daemon.
    pub fn meet<S>(&mut self, accepted: io::Result<S>) -> Result<Option<(S, Admission)>, DaemonEnd>
        ensures came { IfOk accepted (λ stream. result ≡ Ok (Some (stream, admission_by self.old.left))) }
        ensures counted { IfOk accepted (λ stream. 1 ≤ self.old.left → self.new ≡ after_counting self.old) }
        ensures late { IfOk accepted (λ stream. self.old.left ≡ 0 → self.new ≡ self.old) }
        ensures aborted { IfErr accepted (λ error. error_kind error ≡ ErrorKind.ConnectionAborted → result ≡ Ok None) }
        ensures failed { IfErr accepted (λ error. error_kind error ≢ ErrorKind.ConnectionAborted
            → IfErr result (IsEndOfFailure Attempt.Accept (error_kind error)) × IsErr result) }
        ensures same { OnErr accepted (self.new ≡ self.old) }
    {
        match accepted {
            Ok(stream) => Ok(Some((stream, self.admit()))),
            Err(error) if error.kind() == ErrorKind::ConnectionAborted => Ok(None),
            Err(error) => Err(DaemonEnd::of_failure(Attempt::Accept, &error)),
        }
    }

    // One more connection has come.
    fn admit(&mut self) -> Admission
        ensures admission { result ≡ admission_by self.old.left }
        ensures counted { 1 ≤ self.old.left → self.new ≡ after_counting self.old }
        ensures late { self.old.left ≡ 0 → self.new ≡ self.old }
    {
        if self.left == 0 {
            return Admission::Late;
        }
        self.left -= 1;
        self.unread += 1;
        Admission::Counted
    }

    /// Learns what a connection is that was counted.
    pub fn learn(&mut self, turn: Turn)
        ensures said { 1 ≤ self.old.unread → self.new ≡ after_saying turn self.old }
        ensures none { self.old.unread ≡ 0 → self.new ≡ self.old }
    {
        let Some(unread) = self.unread.checked_sub(1) else {
            return;
        };
        self.unread = unread;
        match turn {
            Turn::Session => {}
            Turn::Link => self.has_given = true,
            Turn::Resume => self.left += 1,
            Turn::Nothing => {
                if self.has_given {
                    self.left += 1;
                }
            }
        }
    }
}
