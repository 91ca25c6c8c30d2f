//! A link, as the threads of its session and of its carriers share it.
ghost use Rattle.std.specs.Prelude.{◌≤◌, IfOk, length};

use jup_limits::NoMemory;
use jup_links::{Carried, Heard, MOST_GIVEN, Piece, Refused, Room, Summary, Unput};
use jup_resume::{LONGEST_QUIET, Token};
use std::alloc::Global;
use std::sync::{Condvar, CondvarTimeouts, Mutex, Wait};
use std::time::{Clock, Duration};

/// How many seconds a thread of a link waits at most before it looks around.
const LOOK: u64 = 1;

/// What comes of a `resume` of a link.
#[derive(Clone, Copy, Debug, PartialEq, Eq)]
pub enum Resumption {
    /// The carrier of this number has the link.
    GoesOn { carrier: u64 },
    /// The client can't have taken so many lines. The link and its carrier stay as they were.
    BadTaken,
    /// The link is over. So many lines of its site had their effect.
    Ended { taken: u32 },
}

/// A link that outlives its connections. Each method is one call under its lock, and tells those who wait for what it changed.
#[derive(Drop)]
pub struct Link {
    held: Mutex<Carried>,
    /// At which the threads of its session wait.
    session: Condvar,
    /// At which those of its carriers wait, and others until its session has ended.
    carriers: Condvar,
}

impl Link {
    /// A link of this token that waits so many seconds for a carrier. Its first carrier is there.
    pub fn new(alloc: Global, token: Token, seconds: u32) -> Link {
        Link {
            held: Mutex::new(Carried::new(alloc, token, seconds)),
            session: Condvar::new(),
            carriers: Condvar::new(),
        }
    }

    /// Whether this is the link's token.
    pub fn is_of<R: Wait>(&self, rt: &R, token: &Token) -> bool {
        self.held.lock(rt).is_of(token)
    }

    // What the session calls.

    /// Gives the session the next line, with its line feed, and answers how many bytes that has. It waits for one, and answers 0 at the end of the way up.
    pub(crate) fn give<R: Wait>(&self, rt: &R, line: &mut [u8; MOST_GIVEN]) -> usize
        ensures { result ≤ 257 }
    {
        let mut held = self.held.lock(rt);
        // What it has handled counts before it waits.
        held.ask().tell(&self.session, &self.carriers);
        let mut held = self
            .session
            .wait_while(rt, held, |held| held.has_nothing_for_session());
        let (len, change) = held.give(line);
        drop(held);
        change.tell(&self.session, &self.carriers);
        len
    }

    /// Puts lines of the session, and answers how many bytes were put. It waits a second for room, and a second for memory.
    pub(crate) fn put<R: Wait + Clock>(&self, rt: &R, bytes: &[u8]) -> Result<usize, Unput>
        ensures { IfOk result (λ len. len ≤ length bytes.now) }
    {
        let (mut held, _) = self.session.wait_timeout_while(
            rt,
            self.held.lock(rt),
            Duration::from_secs(LOOK),
            |held| held.lacks_room(),
        );
        let (put, change) = held.put(bytes);
        drop(held);
        change.tell(&self.session, &self.carriers);
        if put == Err(Unput::NoMemory) {
            let _ = self
                .session
                .wait_timeout(rt, self.held.lock(rt), Duration::from_secs(LOOK));
        }
        put
    }

    /// The session gives the link up.
    pub(crate) fn give_up<R: Wait>(&self, rt: &R) {
        let change = self.held.lock(rt).give_up();
        change.tell(&self.session, &self.carriers);
    }

    /// The session has returned. It waits until there is memory for the last line.
    pub fn close<R: Wait + Clock>(&self, rt: &R, now: u64) {
        for _ in rt.forever() {
            let mut held = self.held.lock(rt);
            match held.close(now) {
                Ok(change) => {
                    drop(held);
                    change.tell(&self.session, &self.carriers);
                    return;
                }
                Err(NoMemory) => {
                    let _ = self
                        .carriers
                        .wait_timeout(rt, held, Duration::from_secs(LOOK));
                }
            }
        }
    }

    // What carriers call.

    /// Waits, for a second at most, until the bytes of a carrier find room.
    pub(crate) fn wait_for_room<R: Wait + Clock>(&self, rt: &R, carrier: u64, now: u64) -> Room {
        let (held, _) = self.carriers.wait_timeout_while(
            rt,
            self.held.lock(rt),
            Duration::from_secs(LOOK),
            |held| held.room(carrier, now) == Room::Full,
        );
        held.room(carrier, now)
    }

    /// Takes bytes of a carrier.
    pub(crate) fn hear<R: Wait>(&self, rt: &R, carrier: u64, piece: &[u8]) -> Heard {
        let mut held = self.held.lock(rt);
        let (heard, change) = held.hear(carrier, piece);
        drop(held);
        change.tell(&self.session, &self.carriers);
        heard
    }

    /// Whether lines of a carrier have no effect any more.
    pub(crate) fn drops_lines<R: Wait>(&self, rt: &R) -> bool {
        self.held.lock(rt).drops_lines()
    }

    /// Learns that the bytes of a carrier have ended. Whether it goes on writing.
    pub(crate) fn end_bytes<R: Wait>(&self, rt: &R, carrier: u64, now: u64) -> bool {
        let (goes_on, change) = self.held.lock(rt).end_bytes(carrier, now);
        change.tell(&self.session, &self.carriers);
        goes_on
    }

    /// Waits until the last line is written to a carrier whose client has ended its bytes. Whether it still has the link then.
    pub(crate) fn wait_for_last<R: Wait>(&self, rt: &R, carrier: u64) -> bool {
        let held = self
            .carriers
            .wait_while(rt, self.held.lock(rt), |held| held.writes_on(carrier));
        held.is_carried_by(carrier)
    }

    /// A carrier breaks.
    pub(crate) fn cut<R: Wait>(&self, rt: &R, carrier: u64, now: u64) {
        let change = self.held.lock(rt).cut(carrier, now);
        change.tell(&self.session, &self.carriers);
    }

    /// Puts into `out` what a carrier writes next, and waits for it. After a minute without anything it confirms its lines again.
    pub(crate) fn next_piece<R: Wait + Clock>(
        &self,
        rt: &R,
        carrier: u64,
        out: &mut Vec<u8>,
    ) -> Result<Piece, NoMemory> {
        let (mut held, waited) = self.carriers.wait_timeout_while(
            rt,
            self.held.lock(rt),
            Duration::from_secs(u64::from(LONGEST_QUIET)),
            |held| held.has_nothing_for(carrier),
        );
        if waited.timed_out() {
            held.elapse(carrier);
        }
        held.next_piece(carrier, out)
    }

    /// Notes that the last line was written to a carrier.
    pub(crate) fn wrote_last<R: Wait>(&self, rt: &R, carrier: u64, now: u64) {
        let change = self.held.lock(rt).wrote_last(carrier, now);
        change.tell(&self.session, &self.carriers);
    }

    // What the server calls.

    /// Has a new carrier take the link, whose client has taken so many lines. The threads of an older carrier end by themselves. If only the count is left, it waits
    /// until that is final.
    pub fn resume<R: Wait>(&self, rt: &R, taken: u32, now: u64) -> Resumption {
        let mut held = self
            .carriers
            .wait_while(rt, self.held.lock(rt), |held| held.is_ending());
        let (resumed, change) = held.resume(taken, now);
        drop(held);
        change.tell(&self.session, &self.carriers);
        match resumed {
            Ok(carrier) => Resumption::GoesOn { carrier },
            Err(Refused::BadTaken) => Resumption::BadTaken,
            Err(Refused::Ended) => Resumption::Ended {
                taken: self.final_count(rt),
            },
        }
    }

    // How many lines of the way up had their effect, once the session has returned.
    fn final_count<R: Wait>(&self, rt: &R) -> u32 {
        let held = self
            .carriers
            .wait_while(rt, self.held.lock(rt), |held| !held.has_ended());
        held.handled()
    }

    /// Ends the link without a last line, and waits until its session has returned.
    pub fn lose<R: Wait>(&self, rt: &R) {
        let change = self.held.lock(rt).lose();
        change.tell(&self.session, &self.carriers);
        let _ = self.final_count(rt);
    }

    /// The server stops: it takes no more lines of the link.
    pub(crate) fn stop<R: Wait>(&self, rt: &R) {
        let change = self.held.lock(rt).stop();
        change.tell(&self.session, &self.carriers);
    }

    /// Ends the link without a last line, and does not wait for its session.
    pub(crate) fn drop_lines<R: Wait>(&self, rt: &R) {
        let change = self.held.lock(rt).lose();
        change.tell(&self.session, &self.carriers);
    }

    /// Ends the link if it has waited for long enough.
    pub(crate) fn tend<R: Wait>(&self, rt: &R, now: u64) {
        let change = self.held.lock(rt).tend(now);
        change.tell(&self.session, &self.carriers);
    }

    /// What a server asks of the link when it looks at all of them.
    pub(crate) fn summary<R: Wait>(&self, rt: &R) -> Summary {
        self.held.lock(rt).summary()
    }
}
