//! How a thread stops the server, and how the other threads learn of it.

use crate::stopping::StopMark;
use crate::until_stop::Look;
use std::io;
use std::net::{TcpListener, TcpStream};
use std::os::fd::OwnedFd;
use std::sync::{Condvar, CondvarTimeouts, Mutex, Wait};
use std::time::{Clock, Duration};

/// Whether the server has to stop.
#[derive(Drop)]
pub(crate) struct Stop {
    mark: Mutex<StopMark>,
    changed: Condvar,
    /// The socket that listens. A shutdown of it wakes the thread that accepts, which then sees the stop.
    door: TcpStream,
}

impl Stop {
    pub(crate) fn new(listener: &TcpListener) -> io::Result<Stop> {
        let door = TcpStream::from(OwnedFd::from(listener.try_clone()?));
        Ok(Stop {
            mark: Mutex::new(StopMark::new()),
            changed: Condvar::new(),
            door,
        })
    }

    /// Reports the stop to all threads.
    pub(crate) fn tell<R: Wait>(&self, rt: &R) {
        let stopping = self.mark.lock(rt).tell();
        stopping.wake(&self.changed, &self.door);
    }

    pub(crate) fn is_told<R: Wait>(&self, rt: &R) -> bool {
        self.mark.lock(rt).is_told()
    }

    /// Looks at the stop before a read.
    pub(crate) fn look<R: Wait>(&self, rt: &R) -> Look {
        Look::at(&self.mark.lock(rt))
    }

    /// Waits for this time, or until the server has to stop. True if it has to.
    pub(crate) fn wait<R: Wait + Clock>(&self, rt: &R, time: Duration) -> bool {
        let mark = self.mark.lock(rt);
        let (mark, _) = self
            .changed
            .wait_timeout_while(rt, mark, time, |mark| !mark.is_told());
        mark.is_told()
    }
}
