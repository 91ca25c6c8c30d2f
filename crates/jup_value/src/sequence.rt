//! Sequences of items with distinct names.
ghost use Rattle.std.specs.Prelude.{◌≡◌, ◌+◌, ◌*◌, ◌<◌, ◌≤◌, ◌↔◌, [], length, insert, remove, slice_get, false, IsTrue, IsNone, OnOk, OnErr, IfOk};
ghost use Rattle.std.specs.Option.{option_copied};
ghost use Rattle.jup_value.specs.Items.{has_name, place_of, with_value, AreDistinct};

use crate::block::{Block, Room};
use crate::iter::{Iter, iter_blocks};
use crate::layout::{copy_blocks, insert_item, make_ready, place_in, take_back, take_item};
use crate::marks::{is_at_mark, raise};
use crate::table::find_item;
use crate::{Item, Name, NoMemory};
use std::alloc::Global;
use std::marker::Model;

/// A sequence of items, no two of which have one name. It has at most 4,294,967,295 items.
///
/// Contracts see the list of its items, and `spare`, the number of insertions that it has room for.
///
/// The items are in blocks of at most 128, and a place is found by the table of their lengths.
#[derive(Drop)]
pub struct Seq<V> {
    blocks: Vec<Block<V>>,
    lengths: Vec<u32>,
    // Room for the insertions to come: each takes at most one.
    ready: Vec<Room<V>>,
    // The block that the last insertion went into.
    last: usize,
    // The highest number that the items of each site had, by ascending sites.
    marks: Vec<Name>,
    count: u32,
    alloc: Global,
}

impl<V> Model for Seq<V> {
    ghost use Rattle.std.specs.Prelude.{◌≡◌, ◌≤◌, ◌-◌, min, length, vec_len, vec_capacity};
    ghost use Rattle.jup_value.specs.Items.{AreDistinct, Items, items_code, joined, IsLaidOut, AreMarked, AreAscending};

    ghost Value = { Items V };

    ghost coded = { items_code V.code };

    ghost view = { λ s. record {
      items = joined s.blocks.items;
      spare = min (vec_len s.ready) (min (vec_capacity s.blocks - vec_len s.blocks) (min (vec_capacity s.lengths - vec_len s.lengths) (vec_capacity s.marks - vec_len s.marks)));
    } };

    ghost invariant = { λ s. record {
      layout : IsLaidOut s.blocks.items s.lengths.items;
      distinct : AreDistinct (joined s.blocks.items);
      marked : AreMarked s.marks.items (joined s.blocks.items);
      ascending : AreAscending s.marks.items;
      count : s.count ≡ length (joined s.blocks.items);
      few : s.count ≤ 4294967295;
    } };
}

impl<V: Copy> Seq<V> {
    /// The empty sequence. The allocator is kept for its items; no memory is taken.
    pub fn new(alloc: Global) -> Self
        ensures { result.items ≡ [] }
    {
        Seq {
            blocks: Vec::new(alloc),
            lengths: Vec::new(alloc),
            ready: Vec::new(alloc),
            last: 0,
            marks: Vec::new(alloc),
            count: 0,
            alloc,
        }
    }

    /// How many items there are. Callers learn here, too, that their names are distinct.
    pub fn len(&self) -> u32
        ensures count { result ≡ length self.now.items }
        ensures distinct { AreDistinct self.now.items }
    {
        self.count
    }

    /// Whether there is no item.
    pub fn is_empty(&self) -> bool
        ensures { IsTrue result ↔ (self.now.items ≡ []) }
    {
        self.count == 0
    }

    /// The item at a place, counted from 0.
    pub fn get(&self, at: u32) -> Option<&Item<V>>
        ensures { option_copied result ≡ slice_get self.now.items at }
    {
        if at >= self.count {
            return None;
        }
        let (block, offset) = find_item(&self.lengths, self.count, at);
        self.blocks[block].get(offset)
    }

    /// The items, in order.
    pub fn iter(&self) -> Iter<'_, V>
        ensures items { result ≡ self.now.items }
        ensures few { length result ≤ 4294967295 }
        ensures distinct { AreDistinct self.now.items }
    {
        iter_blocks(&self.blocks)
    }

    /// The place of the item that has the name.
    pub fn place_of(&self, name: Name) -> Option<u32>
        ensures place { result ≡ place_of name self.now.items }
        ensures absent { IsNone result ↔ (has_name name self.now.items ≡ false) }
    {
        // A number above its site's mark is new, so nothing is searched.
        if !is_at_mark(&self.marks, name) {
            return None;
        }
        place_in(&self.blocks, name)
    }

    /// Makes room for one insertion. An allocation can fail only if there is not room already.
    pub fn reserve_one(&mut self) -> Result<(), NoMemory>
        ensures items { self.new.items ≡ self.old.items }
        ensures spare { self.old.spare ≤ self.new.spare }
        ensures room { OnOk result (1 ≤ self.new.spare) }
        ensures refused_without_room { OnErr result (self.old.spare < 1) }
    {
        self.reserve_more(1)
    }

    /// Makes room for so many insertions. An allocation can fail only if there is not room already.
    pub fn reserve_more(&mut self, more: u32) -> Result<(), NoMemory>
        ensures items { self.new.items ≡ self.old.items }
        ensures spare { self.old.spare ≤ self.new.spare }
        ensures room { OnOk result (more ≤ self.new.spare) }
        ensures refused_without_room { OnErr result (self.old.spare < more) }
    {
        let wanted = more as usize;
        self.blocks.reserve(wanted)?;
        self.lengths.reserve(wanted)?;
        self.marks.reserve(wanted)?;
        take_back(
            self.alloc,
            &mut self.blocks,
            &mut self.ready,
            wanted,
            self.last,
        );
        make_ready(self.alloc, &mut self.ready, wanted)
    }

    /// Puts an item at a place, before the item that was there. It takes no memory.
    pub fn insert(&mut self, at: u32, item: Item<V>)
        requires place { at ≤ length self.old.items }
        requires room { 1 ≤ self.old.spare }
        requires fresh { has_name item.name self.old.items ≡ false }
        requires fits { length self.old.items < 4294967295 }
        ensures items { self.new.items ≡ insert self.old.items at item }
        ensures spare { self.old.spare ≤ self.new.spare + 1 }
    {
        let last = insert_item(
            &mut self.blocks,
            &mut self.lengths,
            &mut self.ready,
            self.count,
            at,
            item,
        );
        raise(&mut self.marks, item.name);
        self.count += 1;
        self.last = last;
    }

    /// Takes out the item at a place.
    pub fn remove(&mut self, at: u32) -> Item<V>
        requires { at < length self.old.items }
        ensures item { slice_get self.old.items at ≡ Some result }
        ensures items { self.new.items ≡ remove self.old.items at }
        ensures spare { self.old.spare ≤ self.new.spare }
    {
        let (block, offset) = find_item(&self.lengths, self.count, at);
        self.count -= 1;
        take_item(&mut self.blocks, &mut self.lengths, block, offset)
    }

    /// Gives the item at a place another value. It keeps its name and its place, and no memory is taken.
    pub fn set_value(&mut self, at: u32, value: V)
        requires { at < length self.old.items }
        ensures items { self.new.items ≡ with_value self.old.items at value }
        ensures spare { self.old.spare ≤ self.new.spare }
    {
        let (index, offset) = find_item(&self.lengths, self.count, at);
        let block = &mut self.blocks[index];
        block.set_value(offset, value);
    }

    /// A sequence with the same items.
    pub fn copy(&self, alloc: Global) -> Result<Self, NoMemory>
        ensures { IfOk result (λ copied. copied.items ≡ self.now.items) }
    {
        let blocks = copy_blocks(alloc, &self.blocks)?;
        let lengths = Vec::from_slice(alloc, &self.lengths)?;
        let marks = Vec::from_slice(alloc, &self.marks)?;
        Ok(Seq {
            blocks,
            lengths,
            ready: Vec::new(alloc),
            last: 0,
            marks,
            count: self.count,
            alloc,
        })
    }

    /// How many blocks the items are in: each has 1 to 128 of them.
    pub fn blocks(&self) -> u32
        ensures some_in_each { result ≤ length self.now.items }
        ensures few_in_each { length self.now.items ≤ 128 * result }
    {
        self.blocks.len() as u32
    }
}
