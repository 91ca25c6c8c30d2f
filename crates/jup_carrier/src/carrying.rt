//! A carrier: one connection, which carries a link for as long as it lasts.

use crate::connection::{CarrierEnd, Connection};
use crate::hearing::{Hearing, Read as Came};
use crate::link::Link;
use crate::uptime::Uptime;
use jup_io::{Peer, write_whole};
use jup_links::{Heard, MOST_WRITTEN, Piece, Room};
use std::alloc::Global;
use std::io::Read;
use std::sync::Wait;
use std::thread;
use std::thread::Threads;
use std::time::Clock;

/// Bytes that one read of a carrier asks for.
const PIECE: usize = 4_096;

/// Room for what is written at a time: one line and two notes more than the lines that fill it.
const ROOM: usize = MOST_WRITTEN + 512;

/// Whether a carrier is to be read on.
#[derive(Clone, Copy)]
enum Hears {
    On,
    /// Its client has ended its bytes. It is written to, up to the last line.
    Ended,
    /// Nothing that it brings has an effect. What it writes may still be read.
    Over,
    /// It is cut.
    Cut,
}

/// A carrier of a link.
#[derive(Clone, Copy)]
pub struct Carrier<'a> {
    pub link: &'a Link,
    /// Which one of the link it is.
    pub number: u64,
    pub uptime: &'a Uptime,
}

/// Carries the link until the connection breaks, another carrier has the link, or nothing is left of it. `first` was read of the connection before. A read has to end
/// after a second, with an error for which [`jup_io::has_waited`] is true.
pub fn carry<
    R: Threads + Wait + Clock + Sync,
    C: Connection + Sync,
    I: Read + Drop,
    O: Peer + Send + Drop,
>(
    rt: &R,
    alloc: Global,
    carrier: Carrier<'_>,
    connection: &C,
    first: &[u8],
    mut from: I,
    mut to: O,
) {
    let carrier = &carrier;
    thread::scope(thread::scope_env(), rt, |scope| {
        let child = scope.spawn(move || carrier.write_all(rt, alloc, connection, &mut to));
        if child.is_ok() {
            carrier.read_all(rt, connection, first, &mut from);
        } else {
            carrier.cut(rt);
        }
    });
    carrier.cut(rt);
}

impl<'a> Carrier<'a> {
    fn cut<R: Wait + Clock>(&self, rt: &R) {
        self.link.cut(rt, self.number, self.now(rt));
    }

    // Writes what the link has for the carrier, until that is all or the connection breaks.
    fn write_all<R: Wait + Clock, C: Connection, O: Peer + Drop>(
        &self,
        rt: &R,
        alloc: Global,
        connection: &C,
        to: &mut O,
    ) {
        let Ok(mut out) = Vec::with_capacity(alloc, ROOM) else {
            self.break_off(rt, connection);
            return;
        };
        for _ in rt.forever() {
            let Ok(piece) = self.link.next_piece(rt, self.number, &mut out) else {
                self.break_off(rt, connection);
                return;
            };
            if write_whole(to, &out).is_err() {
                self.break_off(rt, connection);
                return;
            }
            let end = match piece {
                Piece::Bytes => continue,
                Piece::Last => CarrierEnd::LastLine,
                Piece::End => CarrierEnd::Nothing,
                Piece::Cut => {
                    self.break_off(rt, connection);
                    return;
                }
            };
            connection.finish(end);
            self.link.wrote_last(rt, self.number, self.now(rt));
            return;
        }
    }

    // The connection can't go on. The thread that reads it is woken.
    fn break_off<R: Wait + Clock, C: Connection>(&self, rt: &R, connection: &C) {
        self.cut(rt);
        connection.cut();
    }

    // Takes what the connection brings, until nothing of it has an effect.
    fn read_all<R: Wait + Clock, C: Connection, I: Read>(
        &self,
        rt: &R,
        connection: &C,
        first: &[u8],
        from: &mut I,
    ) {
        let mut hearing = Hearing::new();
        let mut piece = [0u8; PIECE];
        let mut hears = self.hear_all(rt, first);
        for _ in rt.forever() {
            hears = match hears {
                Hears::On => self.hear_next(rt, &mut hearing, from, &mut piece),
                Hears::Ended => self.wait_for_last(rt),
                Hears::Over => return,
                Hears::Cut => break,
            };
        }
        self.break_off(rt, connection);
    }

    // Reads once.
    fn hear_next<R: Wait + Clock, I: Read>(
        &self,
        rt: &R,
        hearing: &mut Hearing,
        from: &mut I,
        piece: &mut [u8; PIECE],
    ) -> Hears {
        match self.link.wait_for_room(rt, self.number, self.now(rt)) {
            Room::Open => {}
            Room::Full => return Hears::On,
            Room::Spent => return Hears::Over,
            Room::Cut => return Hears::Cut,
        }
        let read = from.read(piece);
        match hearing.hear(read, self.link.drops_lines(rt)) {
            Came::Bytes(len) => self.hear_all(rt, &piece[..len.min(PIECE)]),
            Came::Again => Hears::On,
            Came::End if self.link.end_bytes(rt, self.number, self.now(rt)) => Hears::Ended,
            Came::End | Came::Cut => Hears::Cut,
        }
    }

    // Waits until the last line is written to the carrier. It is cut if another one takes the link before that.
    fn wait_for_last<R: Wait>(&self, rt: &R) -> Hears {
        if self.link.wait_for_last(rt, self.number) {
            Hears::Over
        } else {
            Hears::Cut
        }
    }

    // Has the link take bytes, and waits while they find no room.
    fn hear_all<R: Wait + Clock>(&self, rt: &R, bytes: &[u8]) -> Hears {
        let mut rest = bytes;
        for _ in rt.forever() {
            match self.link.hear(rt, self.number, rest) {
                Heard::All => return Hears::On,
                Heard::Spent => return Hears::Over,
                Heard::Cut => return Hears::Cut,
                Heard::Waits(len) => rest = &rest[rest.len() - len.min(rest.len())..],
            }
            match self.link.wait_for_room(rt, self.number, self.now(rt)) {
                Room::Open | Room::Full => {}
                Room::Spent => return Hears::Over,
                Room::Cut => return Hears::Cut,
            }
        }
        unreachable!()
    }

    fn now<R: Wait + Clock>(&self, rt: &R) -> u64 {
        self.uptime.millis(rt)
    }
}
