//! The entries of an order that only counts them: they take no memory, and contracts alone see them.
ghost use Rattle.std.specs.Prelude.{◌≡◌, List, [], ◌∷◌, ◌++◌};
ghost use Rattle.std.specs.Borrow.{ftrue};
ghost use Rattle.jup_batch.specs.Boards.{BoardEdits, edit_of};
ghost use Rattle.jup_star.specs.declared.messages.Entry.{Entry};

use crate::noted::Noted;
use std::marker::{Model, Send, Sync};

/// The entries of an order. It has no bytes.
#[derive(Drop)]
pub(crate) struct Taken {
    pub(crate) ghost entries: { List (Entry BoardEdits) },
}

impl Model for Taken {
    ghost also_owns = { λ _. ftrue };
}

impl Taken {
    /// No entries.
    pub(crate) fn none() -> Taken
        ensures { result.entries ≡ [] }
    {
        Taken {}
    }

    /// These entries, and then one more.
    pub(crate) fn with(before: &Taken, last: &Noted) -> Taken
        ensures { result.entries ≡ before.now.entries ++ record { site = last.now.site; edit = edit_of last.now.msg.value.op } ∷ [] }
    {
        let _ = before;
        let _ = last;
        Taken {}
    }
}

unsafe impl Send for Taken {}

unsafe impl Sync for Taken {}
