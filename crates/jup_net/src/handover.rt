//! What is under the lock of an intake, and what changes there.
ghost use Rattle.std.specs.Prelude.{◌≡◌, ◌≤◌, ◌++◌, ◌↔◌, false, true, [], None, Some, OnOk, IfErr, IfSome, IfNone, length, IsTrue};
ghost use Rattle.jup_net.specs.Inboxes.{AreGiven, room_in, shared};

use crate::{Given, Inbox, LinkEnd};
use std::marker::Model;
use std::sync::Condvar;

/// A change of what is under the lock. It can't be dropped, so code that makes one also tells those who wait for it.
pub struct Change {
    _private: (),
}

impl Change {
    // Those who wait look again.
    pub(crate) fn tell(self, changed: &Condvar) {
        let Change { _private: () } = self;
        changed.notify_all();
    }
}

/// Why bytes were not put.
#[derive(Clone, Copy, Debug, PartialEq, Eq)]
pub enum Unput {
    /// There is no room for them, or no memory.
    NoRoom,
    /// Nobody takes any more.
    Left,
}

/// What one thread hands over to another: what the link has brought. It also says whether the other has left. Contracts see both.
#[derive(Drop)]
pub struct Handover {
    inbox: Inbox,
    is_left: bool,
}

impl Model for Handover {
    ghost use Rattle.jup_net.specs.Inboxes.{Shared, shared};

    ghost Value = { Shared };

    ghost view = { λ h. shared h.inbox h.is_left };
}

impl Handover {
    /// What is in an inbox is handed over to a thread that has not left.
    pub fn new(inbox: Inbox) -> Handover
        ensures { result ≡ shared inbox false }
    {
        Handover {
            inbox,
            is_left: false,
        }
    }

    /// Nobody takes any more.
    pub fn leave(&mut self) -> Change
        ensures { self.new ≡ shared self.old.arrived true }
    {
        self.is_left = true;
        Change { _private: () }
    }

    /// How many bytes may be put. `None` if nobody takes any more.
    pub fn room(&self) -> Option<usize>
        ensures { result ≡ room_in self.now }
    {
        if self.is_left {
            return None;
        }
        Some(self.inbox.room())
    }

    /// Whether the thread that reads the link has to wait: there is no room, and the other thread has not left.
    pub fn is_full(&self) -> bool
        ensures { IsTrue result ↔ (room_in self.now ≡ Some 0) }
    {
        self.room() == Some(0)
    }

    /// Puts bytes after those that wait. If they are refused, nothing is put.
    pub fn put(&mut self, bytes: &[u8]) -> Result<Change, Unput>
        ensures put { OnOk result (self.new ≡ shared (self.old.arrived.0 ++ bytes.now, self.old.arrived.1) false) }
        ensures same { IfErr result (λ _. self.new ≡ self.old) }
        ensures left { IfErr result (λ why. (why ≡ Unput.Left) ↔ IsTrue self.old.left) }
    {
        if self.is_left {
            return Err(Unput::Left);
        }
        if !self.inbox.put(bytes) {
            return Err(Unput::NoRoom);
        }
        Ok(Change { _private: () })
    }

    /// Notes how the link ended, after what it brought.
    pub fn end(&mut self, end: LinkEnd) -> Change
        ensures { self.new ≡ shared (self.old.arrived.0, Some end) self.old.left }
    {
        self.inbox.end(end);
        Change { _private: () }
    }

    /// Whether there is nothing to take: no byte waits, and the link has not ended.
    pub fn has_nothing(&self) -> bool
        ensures { IsTrue result ↔ (self.now.arrived ≡ ([], None)) }
    {
        self.inbox.has_nothing()
    }

    /// Gives the reader the first bytes that wait, or how the link ended if none do, as [`Inbox::take`] does.
    pub fn take(&mut self, buf: &mut [u8]) -> Option<(Given, Change)>
        requires { 1 ≤ length buf.old }
        ensures some { IfSome result (λ given. AreGiven self.old.arrived self.new.arrived buf.new (Some given.0)) }
        ensures none { IfNone result (AreGiven self.old.arrived self.new.arrived buf.new None) }
        ensures left { self.new.left ≡ self.old.left }
    {
        match self.inbox.take(buf) {
            Some(given) => Some((given, Change { _private: () })),
            None => None,
        }
    }
}
