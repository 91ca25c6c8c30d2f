//! One connection of a link, from its first line to its end.

use crate::link::Link;
use crate::notice::Notice;
use crate::redialed::{PIECE, Piece};
use crate::watch::Watch;
use jup_io::write_whole;
use jup_lasting::{Carriage, LONGEST_SILENCE};
use jup_net::{Came, Outgoing, hang_up};
use std::alloc::Global;
use std::io::{Read, Write};
use std::net::{Shutdown, TcpStream};
use std::sync::Wait;
use std::thread;
use std::thread::Threads;
use std::time::{Clock, Duration};

/// Milliseconds that a read waits before its thread looks around.
pub(crate) const LOOK: u64 = 100;

/// For how many seconds a server may take no byte.
const PATIENCE: u32 = LONGEST_SILENCE;

/// For how many seconds it may take none once its last line has come.
const LAST_PATIENCE: u64 = 10;

/// A connection of a link.
#[derive(Clone, Copy)]
pub(crate) struct Connection<'a> {
    pub(crate) alloc: Global,
    pub(crate) link: &'a Link,
    pub(crate) stream: &'a TcpStream,
}

impl<'a> Connection<'a> {
    /// Carries the link until the connection breaks or the link is over. It tells the user when the link goes on.
    pub(crate) fn carry<R: Threads + Wait + Clock + Sync, E: Write>(
        &self,
        rt: &R,
        watch: &mut Watch,
        errors: &mut E,
    ) {
        let look = Duration::from_millis(LOOK);
        if self.stream.set_read_timeout(Some(look)).is_err() {
            return;
        }
        thread::scope(thread::scope_env(), rt, |scope| {
            if scope.spawn(move || self.write_all(rt)).is_ok() {
                self.read_all(rt, watch, errors);
            } else {
                self.link.fail(rt);
            }
            self.cut();
            self.link.break_off(rt);
        });
    }

    // Ends both directions: a read and a write that wait return.
    fn cut(&self) {
        let _ = self.stream.shutdown(Shutdown::Both);
    }

    fn write_all<R: Wait + Clock>(&self, rt: &R) {
        self.write_pieces(rt);
        self.link.finish(rt);
    }

    // Writes what the link has for the connection, until that is all or the connection breaks.
    fn write_pieces<R: Wait + Clock>(&self, rt: &R) {
        let mut to = Outgoing::new(self.stream, PATIENCE);
        let mut piece = [0u8; PIECE];
        for _ in rt.forever() {
            match self.link.next_piece(rt, self.alloc, &mut piece) {
                // Memory lacks for the next line.
                Piece::Bytes(0) => thread::sleep(rt, Duration::from_millis(LOOK)),
                Piece::Bytes(len) => {
                    if write_whole(&mut to, &piece[..len.min(PIECE)]).is_err() {
                        self.cut();
                        return;
                    }
                }
                Piece::Last => {
                    let _ = self.stream.shutdown(Shutdown::Write);
                    return;
                }
                Piece::Cut => return,
            }
        }
    }

    // Reads until the connection breaks, or the link is over.
    fn read_all<R: Wait + Clock, E: Write>(&self, rt: &R, watch: &mut Watch, errors: &mut E) {
        let mut now = watch.millis(rt);
        let until = now.saturating_add(self.link.longest_attempt(rt, now));
        for _ in rt.forever() {
            if !self.read(rt, now) {
                return;
            }
            tell(errors, self.link.notice(rt));
            let then = now;
            now = watch.millis(rt);
            match self.link.carriage(rt) {
                Carriage::Asking if now >= until => return,
                Carriage::Asking | Carriage::Carried => {}
                Carriage::Last => return self.end(rt),
                Carriage::Cut | Carriage::Over => return,
            }
            if self.link.elapse(rt, seconds_between(then, now)) {
                return;
            }
        }
    }

    // Reads once. Whether the connection is still there.
    fn read<R: Wait + Clock>(&self, rt: &R, now: u64) -> bool {
        if self.link.is_full(rt, Duration::from_millis(LOOK)) {
            return true;
        }
        let mut piece = [0u8; PIECE];
        let mut from = self.stream;
        let read = from.read(&mut piece);
        match Came::of(read, &piece) {
            Came::Bytes(bytes) => self.hear(rt, bytes, now),
            Came::Nothing => {}
            Came::End(_) => return false,
        }
        true
    }

    // Hears bytes, a line at a time.
    fn hear<R: Wait>(&self, rt: &R, bytes: &[u8], now: u64) {
        let mut rest = bytes;
        for _ in 0..bytes.len() {
            if rest.is_empty() {
                return;
            }
            rest = self.link.hear(rt, self.alloc, rest, now);
        }
    }

    // The server's last line has come: waits until that is confirmed, and then until the server has ended the connection.
    fn end<R: Wait + Clock>(&self, rt: &R) {
        self.link
            .wait_for_writer(rt, Duration::from_secs(LAST_PATIENCE));
        hang_up(rt, self.stream);
    }
}

// How many seconds begin between two times.
fn seconds_between(then: u64, now: u64) -> u32 {
    let seconds = (now / 1_000).saturating_sub(then / 1_000);
    u32::try_from(seconds).unwrap_or(u32::MAX)
}

// Tells the user something on standard error.
pub(crate) fn tell<E: Write>(errors: &mut E, notice: Option<Notice>) {
    if let Some(notice) = notice {
        let _ = writeln!(errors, "{notice}");
        let _ = errors.flush();
    }
}
