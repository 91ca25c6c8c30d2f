//! Changes of a link, and the threads that wait for them.

use std::sync::Condvar;

/// A change of a link. It can't be dropped, so code that makes one also tells those who wait for it.
pub struct Change {
    _private: (),
}

impl Change {
    pub(crate) fn new() -> Change {
        Change { _private: () }
    }

    /// Those who wait look again.
    pub(crate) fn tell(self, changed: &Condvar) {
        let Change { _private: () } = self;
        changed.notify_all();
    }
}
