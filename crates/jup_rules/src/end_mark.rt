//! Which halves of a session have ended.

use std::sync::atomic::{AtomicU32, Ordering};

/// How many halves of a session have ended, as both see it.
#[derive(Drop)]
pub struct EndMark {
    ended: AtomicU32,
}

/// That one half of a session has ended, and that this is noted. An [`EndMark`] alone makes it.
#[derive(Clone, Copy)]
pub struct EndNoted {
    noted: (),
}

/// That both halves have ended, and that this is noted. An [`EndMark`] alone makes it.
#[derive(Clone, Copy)]
pub struct BothNoted {
    noted: (),
}

impl EndMark {
    /// Both halves go on.
    pub fn new() -> EndMark {
        EndMark {
            ended: AtomicU32::new(0),
        }
    }

    /// Notes that one half has ended. Each half does so once.
    pub fn set(&self) -> EndNoted {
        self.ended.fetch_add(1, Ordering::SeqCst);
        EndNoted { noted: () }
    }

    /// `None` while both halves go on.
    pub fn get(&self) -> Option<EndNoted> {
        if self.ended.load(Ordering::SeqCst) > 0 {
            Some(EndNoted { noted: () })
        } else {
            None
        }
    }

    /// `None` while one half goes on.
    pub fn both(&self) -> Option<BothNoted> {
        if self.ended.load(Ordering::SeqCst) > 1 {
            Some(BothNoted { noted: () })
        } else {
            None
        }
    }
}
