//! What the server reports to its operator on standard error.

use jup_service::{Notice, Told};
use std::sync::{Mutex, Wait};

/// Reports each notice once.
#[derive(Drop)]
pub(crate) struct Notices {
    told: Mutex<Told>,
}

impl Notices {
    pub(crate) fn new() -> Notices {
        Notices {
            told: Mutex::new(Told::new()),
        }
    }

    /// Reports a notice that it has not reported.
    pub(crate) fn tell<R: Wait + Eprint>(&self, rt: &R, notice: Notice) {
        let is_first = self.told.lock(rt).tell(notice);
        if is_first {
            let text = notice.text();
            let _ = eprintln!(rt; "{text}");
        }
    }

    /// Whether it has reported a notice that is not over.
    pub(crate) fn has<R: Wait>(&self, rt: &R, notice: Notice) -> bool {
        self.told.lock(rt).has(notice)
    }

    /// What the notice reports is over.
    pub(crate) fn clear<R: Wait>(&self, rt: &R, notice: Notice) {
        self.told.lock(rt).clear(notice);
    }
}
