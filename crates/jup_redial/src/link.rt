//! A link, as the threads of its client share it.
ghost use Rattle.std.specs.Prelude.{◌≤◌, length, IfOk};

use crate::change::Change;
use crate::fate::Fate;
use crate::notice::Notice;
use crate::redialed::{Piece, Redialed, Unput};
use crate::trials::Trial;
use jup_lasting::Carriage;
use jup_limits::NoMemory;
use jup_net::Inbox;
use std::alloc::Global;
use std::sync::{Condvar, CondvarTimeouts, Mutex, Wait};
use std::time::{Clock, Duration};

/// A link that outlives its connections, at its client. Each method is one call under its lock, and tells those who wait for what it changed.
#[derive(Drop)]
pub struct Link {
    held: Mutex<Redialed>,
    /// At which all its threads wait.
    changed: Condvar,
}

impl Link {
    /// A link before its first connection. Its user may say for how many seconds it is tried again after a loss.
    pub fn new(alloc: Global, limit: Option<u32>) -> Result<Link, NoMemory> {
        let Ok(inbox) = Inbox::new(alloc) else {
            return Err(NoMemory);
        };
        Ok(Link {
            held: Mutex::new(Redialed::new(alloc, inbox, limit)),
            changed: Condvar::new(),
        })
    }

    /// What has become of the link.
    pub fn fate<R: Wait>(&self, rt: &R) -> Fate {
        self.held.lock(rt).fate()
    }

    /// Its client begins again, if the link has. Whether it has.
    pub fn begin<R: Wait>(&self, rt: &R) -> bool {
        self.held.lock(rt).begin()
    }

    /// Its client has said `bye`, and reads no more.
    pub fn leave<R: Wait>(&self, rt: &R) {
        self.tell(self.held.lock(rt).leave());
    }

    /// Its client has ended without a `bye`.
    pub fn abandon<R: Wait>(&self, rt: &R) {
        self.tell(self.held.lock(rt).abandon());
    }

    // What the client calls.

    /// Gives the client bytes, and answers how many. It waits for some, and answers 0 once none will come.
    pub(crate) fn take<R: Wait>(&self, rt: &R, buf: &mut [u8]) -> usize
        requires { 1 ≤ length buf.old }
        ensures { result ≤ length buf.new }
    {
        let mut held = self
            .changed
            .wait_while(rt, self.held.lock(rt), |held| held.has_nothing());
        let (len, change) = held.take(buf);
        drop(held);
        self.tell(change);
        len
    }

    /// Puts the first line of these bytes, and answers how many bytes it has.
    pub(crate) fn put<R: Wait>(&self, rt: &R, bytes: &[u8]) -> Result<usize, Unput>
        ensures { IfOk result (λ len. len ≤ length bytes.now) }
    {
        let (put, change) = self.held.lock(rt).put(bytes);
        self.tell(change);
        put
    }

    // What a connection calls.

    pub(crate) fn ask<R: Wait>(&self, rt: &R, alloc: Global) -> bool {
        let (is_asked, change) = self.held.lock(rt).ask(alloc);
        self.tell(change);
        is_asked
    }

    pub(crate) fn carriage<R: Wait>(&self, rt: &R) -> Carriage {
        self.held.lock(rt).carriage()
    }

    /// Whether bytes of the connection have to wait. If so it has waited for some time until the client has read some.
    pub(crate) fn is_full<R: Wait + Clock>(&self, rt: &R, look: Duration) -> bool {
        let (mut held, waited) = self
            .changed
            .wait_timeout_while(rt, self.held.lock(rt), look, |held| held.is_full());
        if waited.timed_out() {
            held.wait_on();
        }
        held.is_full()
    }

    /// Hears bytes up to the end of the first line in them, and answers those after it.
    pub(crate) fn hear<'a, R: Wait>(
        &self,
        rt: &R,
        alloc: Global,
        piece: &'a [u8],
        now: u64,
    ) -> &'a [u8] {
        let (rest, change) = self.held.lock(rt).hear(alloc, piece, now);
        self.tell(change);
        rest
    }

    /// So many seconds have passed. Whether the connection has brought nothing for too long.
    pub(crate) fn elapse<R: Wait>(&self, rt: &R, seconds: u32) -> bool {
        let (is_silent, change) = self.held.lock(rt).elapse(seconds);
        self.tell(change);
        is_silent
    }

    /// The connection carries the link no more. The thread that writes to it ends.
    pub(crate) fn break_off<R: Wait>(&self, rt: &R) {
        self.tell(self.held.lock(rt).break_off());
    }

    /// The connection broke, or could not be made.
    pub(crate) fn lose<R: Wait>(&self, rt: &R, is_connected: bool, now: u64) -> Trial {
        let (trial, change) = self.held.lock(rt).lose(is_connected, now);
        self.tell(change);
        trial
    }

    /// An allocation failed for a connection, or no thread could be started for it.
    pub(crate) fn fail<R: Wait>(&self, rt: &R) {
        self.tell(self.held.lock(rt).fail());
    }

    pub(crate) fn longest_attempt<R: Wait>(&self, rt: &R, now: u64) -> u64 {
        self.held.lock(rt).longest_attempt(now)
    }

    /// Moves out what the connection writes next, and waits for it.
    pub(crate) fn next_piece<R: Wait>(&self, rt: &R, alloc: Global, to: &mut [u8]) -> Piece {
        let mut held = self
            .changed
            .wait_while(rt, self.held.lock(rt), |held| held.has_nothing_to_write());
        held.next_piece(alloc, to)
    }

    /// The connection writes no more.
    pub(crate) fn finish<R: Wait>(&self, rt: &R) {
        self.tell(self.held.lock(rt).finish());
    }

    /// Waits so long until the connection writes no more.
    pub(crate) fn wait_for_writer<R: Wait + Clock>(&self, rt: &R, time: Duration) {
        let _ = self
            .changed
            .wait_timeout_while(rt, self.held.lock(rt), time, |held| held.is_writing());
    }

    pub(crate) fn notice<R: Wait>(&self, rt: &R) -> Option<Notice> {
        self.held.lock(rt).notice()
    }

    /// Waits so long, or until the link is over.
    pub(crate) fn wait<R: Wait + Clock>(&self, rt: &R, time: Duration) {
        let _ = self
            .changed
            .wait_timeout_while(rt, self.held.lock(rt), time, |held| {
                held.fate() == Fate::Goes
            });
    }

    fn tell(&self, change: Change) {
        change.tell(&self.changed);
    }
}
