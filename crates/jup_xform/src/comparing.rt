//! Batches and lists of edits are compared and printed as the lists that they are.
ghost use Rattle.std.specs.Cmp.{on_equiv, on_per};
ghost use Rattle.std.specs.Cmp.Lexicographic.{pointwise, lists_equiv, lists_per};

use crate::{Batch, Few};
use std::fmt;

impl<T: PartialEq> PartialEq for Batch<T> {
    ghost eq = { λ a b. pointwise T.eq a b };

    ghost laws = { on_per (λ a. a) (lists_per T.laws) };

    fn eq(&self, other: &Batch<T>) -> bool {
        self.as_slice() == other.as_slice()
    }
}

impl<T: Eq> Eq for Batch<T> {
    ghost laws = { on_equiv (λ a. a) (lists_equiv T.Eq.laws) };
}

impl<T: fmt::Debug> fmt::Debug for Batch<T> {
    fn fmt<W: fmt::Write>(&self, f: &mut fmt::Formatter<W>) -> fmt::Result {
        f.debug_list().entries(self.as_slice()).finish()
    }
}

impl<E: PartialEq> PartialEq for Few<E> {
    ghost eq = { λ a b. pointwise E.eq a b };

    ghost laws = { on_per (λ a. a) (lists_per E.laws) };

    fn eq(&self, other: &Few<E>) -> bool {
        self.as_slice() == other.as_slice()
    }
}

impl<E: Eq> Eq for Few<E> {
    ghost laws = { on_equiv (λ a. a) (lists_equiv E.Eq.laws) };
}

impl<E: fmt::Debug> fmt::Debug for Few<E> {
    fn fmt<W: fmt::Write>(&self, f: &mut fmt::Formatter<W>) -> fmt::Result {
        f.debug_list().entries(self.as_slice()).finish()
    }
}
