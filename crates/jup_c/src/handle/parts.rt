//! A box, as its pointer and its allocator.
ghost use Rattle.std.specs.Prelude.{◌≡◌};
ghost use Rattle.std_alloc.specs.Box.Ownership.{box_owns};

use std::alloc::Allocator;
use std::marker::Model;

/// What a box owns, with its pointer in sight.
pub(super) struct Parts<T, A: Allocator> {
    pub(super) at: *mut T,
    pub(super) alloc: A,
    pub(super) ghost value: { T },
}

impl<T, A: Allocator> Model for Parts<T, A> {
    ghost also_owns = { λ p. box_owns (A.dealloc_token p.alloc) T.row p.at p.value };
}

impl<T, A: Allocator> Parts<T, A> {
    /// The parts of a box.
    pub(super) fn of(held: Box<T, A>) -> Parts<T, A>
    where
        T: Drop,
        ensures { result.value ≡ held.value }
    {
        let (at, alloc) = Box::into_raw_with_allocator(held);
        Parts { at, alloc }
    }

    /// The box of these parts.
    pub(super) fn into_box(self) -> Box<T, A>
        ensures { result.value ≡ self.value }
    {
        let Parts { at, alloc } = self;
        unsafe { Box::from_raw(alloc, at) }
    }
}
