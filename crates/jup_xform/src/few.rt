//! Lists that take no memory while they have one element.
ghost use Rattle.std.specs.Prelude.{◌≡◌, ◌⊎◌, ◌≤◌, [], ◌∷◌, length, IfOk, OnErr};
ghost use Rattle.std.specs.Vec.{vec_capacity};
ghost use Rattle.jup_xform.specs.Batches.{items_of};

use crate::NoMemory;
use std::alloc::Global;
use std::marker::Model;

/// One element in the value itself, or a list of any length in memory of its own.
#[derive(Drop)]
pub(crate) enum Store<E> {
    One([E; 1]),
    More(Vec<E>),
}

/// A list. One element alone takes no memory. Contracts see the elements.
#[derive(Drop)]
pub struct Few<E> {
    pub(crate) store: Store<E>,
}

impl<E> Model for Few<E> {
    ghost use Rattle.std.specs.Prelude.{List};
    ghost use Rattle.jup_xform.specs.Batches.{items_of};

    ghost Value = { List E };

    ghost view = { λ few. items_of few.store };
}

impl<E> Few<E> {
    // One element.
    pub(crate) fn one(element: E) -> Few<E>
        ensures { result ≡ element ∷ [] }
    {
        Few {
            store: Store::One([element]),
        }
    }

    // A list in its own memory.
    pub(crate) fn of(list: Vec<E>) -> Few<E>
        ensures { result ≡ list.items }
    {
        Few {
            store: Store::More(list),
        }
    }

    /// The elements in order.
    pub fn as_slice(&self) -> &[E]
        ensures { result.now ≡ self.now }
    {
        match &self.store {
            Store::One(one) => &one[..],
            Store::More(list) => list.as_slice(),
        }
    }
}

impl<E: Copy> Few<E> {
    /// These elements. Two or more take memory.
    pub fn from_slice(alloc: Global, elements: &[E]) -> Result<Few<E>, NoMemory>
        ensures elements { IfOk result (λ few. few ≡ elements.now) }
        ensures refused { OnErr result (2 ≤ length elements.now) }
    {
        if let [element] = elements {
            return Ok(Few::one(*element));
        }
        let mut list = Vec::new(alloc);
        list.extend_from_slice(elements).map_err(|_| NoMemory)?;
        Ok(Few::of(list))
    }

    /// A copy, in a list that has room for it; one element alone needs none. It takes no memory.
    pub fn copy_into(&self, mut list: Vec<E>) -> Few<E>
        requires empty { list.items ≡ [] }
        requires room { length self.now ≤ 1 ⊎ length self.now ≤ vec_capacity list }
        ensures { result ≡ self.now }
    {
        if let [element] = self.as_slice() {
            return Few::one(*element);
        }
        list.extend_from_slice(self.as_slice()).unwrap();
        Few::of(list)
    }
}
