//! What is under the lock of a stop, and what changes there.
ghost use Rattle.std.specs.Prelude.{◌≡◌, true, false};

use std::marker::Model;
use std::net::{Shutdown, TcpStream};
use std::sync::Condvar;

/// A stop of which nobody knows yet. It can't be dropped, so code that makes one also wakes those who wait for it.
pub(crate) struct Stopping {
    _private: (),
}

impl Stopping {
    // Those who wait look again, and the thread that accepts wakes.
    pub(crate) fn wake(self, changed: &Condvar, door: &TcpStream) {
        let Stopping { _private: () } = self;
        changed.notify_all();
        let _ = door.shutdown(Shutdown::Both);
    }
}

/// Whether the server has to stop. Contracts see that.
#[derive(Drop)]
pub(crate) struct StopMark {
    is_told: bool,
}

impl Model for StopMark {
    ghost use Rattle.std.specs.Prelude.{Bool};

    ghost Value = { Bool };

    ghost view = { λ mark. mark.is_told };
}

impl StopMark {
    /// The server goes on.
    pub(crate) fn new() -> StopMark
        ensures { result ≡ false }
    {
        StopMark { is_told: false }
    }

    /// The server has to stop.
    pub(crate) fn tell(&mut self) -> Stopping
        ensures { self.new ≡ true }
    {
        self.is_told = true;
        Stopping { _private: () }
    }

    pub(crate) fn is_told(&self) -> bool
        ensures { result ≡ self.now }
    {
        self.is_told
    }
}
