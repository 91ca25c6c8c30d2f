//! What two threads share of a link: one puts what the link brings, and the other takes it.
ghost use Rattle.std.specs.Prelude.{◌≤◌, length, IfSome};
ghost use Rattle.jup_net.specs.Inboxes.{count_in, most_unread};

use crate::{Came, Given, Handover, Inbox, LinkEnd, Unput};
use std::sync::{Condvar, Mutex, Wait};

/// What a link has brought, shared by the thread that reads it and the one that takes of it.
#[derive(Drop)]
pub struct Intake {
    held: Mutex<Handover>,
    /// Notified of each change: two threads share an intake, so that at most one waits.
    changed: Condvar,
}

impl Intake {
    pub fn new(inbox: Inbox) -> Intake {
        Intake {
            held: Mutex::new(Handover::new(inbox)),
            changed: Condvar::new(),
        }
    }

    /// Nobody takes any more: the thread that reads the link ends once its read has.
    pub fn leave<R: Wait>(&self, rt: &R) {
        let change = self.held.lock(rt).leave();
        change.tell(&self.changed);
    }

    /// Waits for room, and answers how many bytes may be put. `None` if nobody takes any more.
    pub(crate) fn wait_for_room<R: Wait>(&self, rt: &R) -> Option<usize>
        ensures { IfSome result (λ room. (1 ≤ room) × (room ≤ most_unread)) }
    {
        let held = self
            .changed
            .wait_while(rt, self.held.lock(rt), |held| held.is_full());
        held.room()
    }

    /// Takes what a read of the link came to. Whether the link is to be read on: it has not ended, and somebody takes what it brings.
    pub(crate) fn hear<R: Wait>(&self, rt: &R, came: Came<'_>) -> bool {
        match came {
            Came::Bytes(bytes) => self.put(rt, bytes),
            Came::Nothing => true,
            Came::End(end) => {
                self.end(rt, end);
                false
            }
        }
    }

    // Puts bytes. If an allocation for them fails, it waits, and tries again once some were taken. False if nobody takes any more.
    fn put<R: Wait>(&self, rt: &R, bytes: &[u8]) -> bool {
        let mut held = self.held.lock(rt);
        for _ in rt.forever() {
            match held.put(bytes) {
                Ok(change) => {
                    drop(held);
                    change.tell(&self.changed);
                    return true;
                }
                Err(Unput::Left) => return false,
                Err(Unput::NoRoom) => held = self.changed.wait(rt, held),
            }
        }
        unreachable!()
    }

    // Notes how the link ended.
    fn end<R: Wait>(&self, rt: &R, end: LinkEnd) {
        let change = self.held.lock(rt).end(end);
        change.tell(&self.changed);
    }

    /// Takes the next bytes, or the end after them, and waits for them if there is nothing.
    pub(crate) fn take<R: Wait>(&self, rt: &R, buf: &mut [u8]) -> Given
        requires { 1 ≤ length buf.old }
        ensures { count_in result ≤ length buf.new }
    {
        let mut held = self
            .changed
            .wait_while(rt, self.held.lock(rt), |held| held.has_nothing());
        match held.take(buf) {
            Some((given, change)) => {
                drop(held);
                change.tell(&self.changed);
                given
            }
            None => unreachable!(),
        }
    }
}
