//! A block: a list of at most 128 items, and the room that it moves into as it grows.
ghost use Rattle.std.specs.Prelude.{◌≡◌, ◌+◌, ◌<◌, ◌≤◌, [], ◌∷◌, length, insert, remove, slice_get, vec_len, vec_capacity, IfOk, IfSome};
ghost use Rattle.std.specs.Option.{option_copied};
ghost use Rattle.jup_value.specs.Items.{place_of, with_value, left_half, right_half};

use crate::{Item, Name, NoMemory};
use std::alloc::Global;
use std::marker::Model;
use std::mem;

/// The most items of a block.
pub const LARGEST: u32 = 128;

/// How many items the left half of a full block has.
pub const HALF: u32 = 64;

/// How many more items than it holds a block has room for when it is made.
const BESIDE: usize = 8;

/// Room for a whole block, kept for an insertion to come.
#[derive(Drop)]
pub struct Room<V> {
    items: Vec<Item<V>>,
}

impl<V> Model for Room<V> {
    ghost use Rattle.std.specs.Prelude.{◌≡◌, ◌≤◌, List, [], vec_capacity};
    ghost use Rattle.std.specs.Coded.{coded_list};
    ghost use Rattle.jup_value.specs.Items.{item_code};
    ghost use Rattle.jup_value.specs.declared.names.Item.{Item};

    ghost Value = { List (Item V) };

    ghost coded = { coded_list (item_code V.code) };

    ghost view = { λ r. r.items.items };

    ghost invariant = { λ r. (r.items.items ≡ []) × (128 ≤ vec_capacity r.items) };
}

impl<V: Copy> Room<V> {
    /// Room for 128 items.
    pub fn new(alloc: Global) -> Result<Self, NoMemory> {
        let items = Vec::with_capacity(alloc, LARGEST as usize)?;
        Ok(Room { items })
    }
}

/// A list of at most 128 items.
#[derive(Drop)]
pub struct Block<V> {
    items: Vec<Item<V>>,
}

impl<V> Model for Block<V> {
    ghost use Rattle.std.specs.Prelude.{◌≤◌, List, vec_len};
    ghost use Rattle.std.specs.Coded.{coded_list};
    ghost use Rattle.jup_value.specs.Items.{item_code};
    ghost use Rattle.jup_value.specs.declared.names.Item.{Item};

    ghost Value = { List (Item V) };

    ghost coded = { coded_list (item_code V.code) };

    ghost view = { λ b. b.items.items };

    ghost invariant = { λ b. vec_len b.items ≤ 128 };
}

// The room of a block of so many items.
fn room_for(count: usize) -> usize
    requires { count ≤ 128 }
    ensures { count ≤ result }
{
    (count + BESIDE).min(LARGEST as usize)
}

// Items with room for so many.
fn copy_items<V: Copy>(
    alloc: Global,
    items: &[Item<V>],
    room: usize,
) -> Result<Vec<Item<V>>, NoMemory>
    requires { length items.now ≤ room }
    ensures { IfOk result (λ v. v.items ≡ items.now) }
{
    let mut copied = Vec::with_capacity(alloc, room)?;
    let _copied = copied.extend_from_slice(items);
    Ok(copied)
}

// Items in the room of a whole block.
fn move_items<V: Copy>(items: &[Item<V>], room: Room<V>) -> Vec<Item<V>>
    requires { length items.now ≤ 128 }
    ensures items { result.items ≡ items.now }
    ensures room { 128 ≤ vec_capacity result }
{
    let mut moved = room.items;
    let _moved = moved.extend_from_slice(items);
    moved
}

// The place of the item that has the name.
fn find<V: Copy>(items: &[Item<V>], name: Name) -> Option<usize>
    ensures place { result ≡ place_of name items.now }
    ensures within { IfSome result (λ at. at < length items.now) }
{
    // Names of one site differ in their numbers, so the numbers are compared first: the search is then faster.
    items.iter().position(|item| item.name.number == name.number && item.name.site == name.site)
}

impl<V: Copy> Block<V> {
    /// One item.
    pub fn new(room: Room<V>, item: Item<V>) -> Self
        ensures { result ≡ item ∷ [] }
    {
        let mut items = room.items;
        let _put = items.push(item);
        Block { items }
    }

    /// How many items there are.
    pub fn len(&self) -> u32
        ensures count { result ≡ length self.now }
        ensures most { result ≤ 128 }
    {
        self.items.len() as u32
    }

    /// The item at a place.
    pub fn get(&self, at: u32) -> Option<&Item<V>>
        ensures { option_copied result ≡ slice_get self.now at }
    {
        self.items.get(at as usize)
    }

    /// The items.
    pub fn items(&self) -> &[Item<V>]
        ensures { result.now ≡ self.now }
    {
        &self.items
    }

    /// Puts an item at a place of a block that is not full. A block without room moves into one that is ready.
    pub fn insert(&mut self, at: u32, item: Item<V>, ready: &mut Vec<Room<V>>)
        requires place { at ≤ length self.old }
        requires more { length self.old < 128 }
        requires ready { 0 < vec_len ready.old }
        ensures items { self.new ≡ insert self.old at item }
        ensures ready { vec_len ready.old ≤ vec_len ready.new + 1 }
    {
        if self.items.len() == self.items.capacity() {
            if let Some(room) = ready.pop() {
                self.items = move_items(&self.items, room);
            }
        }
        let _put = self.items.insert(at as usize, item);
    }

    /// Takes out the item at a place.
    pub fn remove(&mut self, at: u32) -> Item<V>
        requires { at < length self.old }
        ensures value { slice_get self.old at ≡ Some result }
        ensures items { self.new ≡ remove self.old at }
    {
        self.items.remove(at as usize)
    }

    /// Gives the item at a place another value.
    pub fn set_value(&mut self, at: u32, value: V)
        requires { at < length self.old }
        ensures { self.new ≡ with_value self.old at value }
    {
        self.items[at as usize].value = value;
    }

    /// Moves the items of a full block from the 64th on into another, and puts an item into one of the two.
    pub fn split(&mut self, room: Room<V>, at: u32, item: Item<V>) -> Block<V>
        requires place { at ≤ 128 }
        requires full { length self.old ≡ 128 }
        ensures left { self.new ≡ left_half self.old at item }
        ensures right { result ≡ right_half self.old at item }
    {
        let mut right = move_items(&self.items[HALF as usize..], room);
        self.items.truncate(HALF as usize);
        if at <= HALF {
            let _put = self.items.insert(at as usize, item);
            return Block { items: right };
        }
        let _put = right.insert((at - HALF) as usize, item);
        Block { items: right }
    }

    /// Moves the items out of the room of a whole block if they need less, and gives that room.
    pub fn shrink(&mut self, alloc: Global) -> Option<Room<V>>
        ensures { self.new ≡ self.old }
    {
        let room = room_for(self.items.len());
        if self.items.capacity() < LARGEST as usize || room >= LARGEST as usize {
            return None;
        }
        let Ok(fitting) = copy_items(alloc, &self.items, room) else {
            return None;
        };
        let mut items = mem::replace(&mut self.items, fitting);
        items.clear();
        Some(Room { items })
    }

    /// The same items in another block.
    pub fn copy(&self, alloc: Global) -> Result<Self, NoMemory>
        ensures { IfOk result (λ b. b ≡ self.now) }
    {
        let items = copy_items(alloc, &self.items, room_for(self.items.len()))?;
        Ok(Block { items })
    }

    /// Where the item with a name is.
    pub fn place_of(&self, name: Name) -> Option<u32>
        ensures { result ≡ place_of name self.now }
    {
        let at = find(&self.items, name)?;
        Some(at as u32)
    }
}
