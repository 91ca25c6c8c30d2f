//! The door of a daemon, as its threads share it.

use crate::{Admission, DaemonEnd, Door, Turn};
use jup_carrier::Links;
use std::io;
use std::net::{Shutdown, TcpListener, TcpStream};
use std::os::fd::OwnedFd;
use std::sync::{Condvar, CondvarTimeouts, Mutex, Wait};
use std::time::{Clock, Duration};

/// The door of a daemon, as its threads share it.
#[derive(Drop)]
pub(crate) struct Doorway {
    door: Mutex<Door>,
    /// The socket that listens. A shutdown of it wakes the thread that accepts.
    socket: TcpStream,
    /// Whether nobody is accepted any more.
    is_left: Mutex<bool>,
    left: Condvar,
}

impl Doorway {
    pub(crate) fn new(listener: &TcpListener, sessions: u32) -> io::Result<Doorway> {
        Ok(Doorway {
            door: Mutex::new(Door::new(sessions)),
            socket: TcpStream::from(OwnedFd::from(listener.try_clone()?)),
            is_left: Mutex::new(false),
            left: Condvar::new(),
        })
    }

    /// Learns what an accept came to. `None` if none came.
    pub(crate) fn meet<R: Wait, S>(
        &self,
        rt: &R,
        accepted: io::Result<S>,
    ) -> Result<Option<(S, Admission)>, DaemonEnd> {
        self.door.lock(rt).meet(accepted)
    }

    /// Learns what a connection is that was counted.
    pub(crate) fn learn<R: Wait>(&self, rt: &R, turn: Turn) {
        self.door.lock(rt).learn(turn);
    }

    /// Whether nobody may come any more.
    pub(crate) fn is_shut<R: Wait + Clock>(&self, rt: &R, links: &Links) -> bool {
        // The door first: a connection has its link in the table before it says what it is.
        let is_over = self.door.lock(rt).is_shut(0);
        let left = links.tend(rt);
        is_over && left == 0
    }

    /// Looks whether somebody may still come, and wakes the thread that accepts if nobody may.
    pub(crate) fn look<R: Wait + Clock>(&self, rt: &R, links: &Links) {
        if self.is_shut(rt, links) {
            self.shut();
        }
    }

    /// Nobody listens any more. The thread that accepts is woken.
    pub(crate) fn shut(&self) {
        let _ = self.socket.shutdown(Shutdown::Both);
    }

    /// Nobody is accepted any more.
    pub(crate) fn leave<R: Wait>(&self, rt: &R) {
        *self.is_left.lock(rt) = true;
        self.left.notify_all();
    }

    /// Looks at the links each second, until nobody is accepted any more.
    pub(crate) fn watch<R: Wait + Clock>(&self, rt: &R, links: &Links) {
        for _ in rt.forever() {
            if self.wait_for_leave(rt) {
                return;
            }
            self.look(rt, links);
        }
    }

    // Waits until nobody is accepted any more, for a second at most. Whether nobody is.
    fn wait_for_leave<R: Wait + Clock>(&self, rt: &R) -> bool {
        let (is_left, _) = self.left.wait_timeout_while(
            rt,
            self.is_left.lock(rt),
            Duration::from_secs(1),
            |is_left| !*is_left,
        );
        *is_left
    }
}
