//! Sequences that are filled at their end with the items of a layout.
ghost use Rattle.std.specs.Prelude.{◌≡◌, ◌+◌, ◌<◌, ◌^◌, [], ◌∷◌, ◌++◌, length, OnOk, IsOkUnless};
ghost use Rattle.jup_limits.specs.Limits.{longest_sequence};
ghost use Rattle.jup_text.specs.declared.board_reader.UnreadLine.TheVariants as untaken;
ghost use Rattle.jup_text.specs.Boards.{IsNumberedTo};

use super::UnreadLine;
use jup_limits::LONGEST_SEQUENCE;
use jup_value::{Item, Name, Seq};
use std::alloc::Global;

/// A sequence of items of site 0, whose numbers are at most `last`, so that the next number is new.
#[derive(Drop)]
pub(crate) struct Numbered<V> {
    items: Seq<V>,
    last: u32,
    ghost counted: { IsNumberedTo last items.items },
}

impl<V: Copy> Numbered<V> {
    /// No item yet. It takes no memory.
    pub(crate) fn new(alloc: Global, last: u32) -> Self
        ensures none { result.items.items ≡ [] }
        ensures last { result.last ≡ last }
    {
        Numbered {
            items: Seq::new(alloc),
            last,
        }
    }

    /// The number of the last item.
    pub(crate) fn last(&self) -> u32
        ensures { result ≡ self.now.last }
    {
        self.last
    }

    pub(crate) fn into_items(self) -> Seq<V>
        ensures { result.items ≡ self.items.items }
    {
        self.items
    }

    /// Puts one more item at the end, under the next number. Refused: a sequence of 65,536 items, no memory.
    pub(crate) fn push(&mut self, value: V) -> Result<(), UnreadLine>
        ensures items { OnOk result (self.new.items.items
            ≡ self.old.items.items ++ (record { name = record { site = 0; number = self.old.last + 1 }; value = value }) ∷ []) }
        ensures last { OnOk result (self.new.last ≡ self.old.last + 1) }
        ensures every { length self.old.items.items < longest_sequence → self.old.last + 1 < 2 ^ 32
            → IsOkUnless result untaken.NoMemory }
    {
        let place = self.items.len();
        if place >= LONGEST_SEQUENCE || self.last == u32::MAX {
            return Err(UnreadLine::BadLine);
        }
        let number = self.last + 1;
        self.items.reserve_one().map_err(|_| UnreadLine::NoMemory)?;
        let name = Name { site: 0, number };
        self.items.insert(place, Item { name, value });
        self.last = number;
        Ok(())
    }
}
