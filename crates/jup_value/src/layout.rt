//! Blocks beside the table of their lengths.
ghost use Rattle.std.specs.Prelude.{◌≡◌, ◌+◌, ◌<◌, ◌≤◌, IfOk, OnOk, OnErr, Some, slice_get, remove, length, map, slice_index_or, insert, [], ◌∷◌, vec_len, vec_capacity};
ghost use Rattle.jup_value.specs.Items.{place_of, joined, items_before, put_in, split_with, with_item_at, without_item_at, AreBlocks};

use crate::block::{Block, LARGEST, Room};
use crate::table::find_gap;
use crate::{Item, Name, NoMemory};
use std::alloc::Global;

// Puts an item into a block that is not full.
fn put<V: Copy>(
    blocks: &mut Vec<Block<V>>,
    lengths: &mut Vec<u32>,
    ready: &mut Vec<Room<V>>,
    at: usize,
    offset: u32,
    item: Item<V>,
)
    requires within { at < vec_len blocks.old }
    requires table { lengths.old.items ≡ map length blocks.old.items }
    requires place { offset ≤ length (slice_index_or blocks.old.items at []) }
    requires more { length (slice_index_or blocks.old.items at []) < 128 }
    requires ready { 0 < vec_len ready.old }
    ensures blocks { blocks.new.items ≡ put_in blocks.old.items at offset item }
    ensures table { lengths.new.items ≡ map length blocks.new.items }
    ensures ready { vec_len ready.old ≤ vec_len ready.new + 1 }
    ensures blocks_room { (vec_capacity blocks.new ≡ vec_capacity blocks.old)
        × (vec_len blocks.new ≡ vec_len blocks.old) }
    ensures table_room { (vec_capacity lengths.new ≡ vec_capacity lengths.old)
        × (vec_len lengths.new ≡ vec_len lengths.old) }
{
    let block = &mut blocks[at];
    block.insert(offset, item, ready);
    lengths[at] = block.len();
}

// Splits a full block in two, and puts an item into one of its halves.
fn split<V: Copy>(
    blocks: &mut Vec<Block<V>>,
    lengths: &mut Vec<u32>,
    at: usize,
    offset: u32,
    room: Room<V>,
    item: Item<V>,
)
    requires blocks { AreBlocks blocks.old.items }
    requires within { at < vec_len blocks.old }
    requires table { lengths.old.items ≡ map length blocks.old.items }
    requires full { length (slice_index_or blocks.old.items at []) ≡ 128 }
    requires offset { offset ≤ 128 }
    requires blocks_room { vec_len blocks.old < vec_capacity blocks.old }
    requires table_room { vec_len lengths.old < vec_capacity lengths.old }
    ensures rule { blocks.new.items ≡ split_with blocks.old.items at offset item }
    ensures items { joined blocks.new.items
        ≡ insert (joined blocks.old.items) (items_before blocks.old.items at + offset) item }
    ensures blocks { AreBlocks blocks.new.items }
    ensures table { lengths.new.items ≡ map length blocks.new.items }
    ensures blocks_room { (vec_capacity blocks.old ≤ vec_capacity blocks.new)
        × (vec_len blocks.new ≤ vec_len blocks.old + 1) }
    ensures table_room { (vec_capacity lengths.old ≤ vec_capacity lengths.new)
        × (vec_len lengths.new ≤ vec_len lengths.old + 1) }
{
    let left = &mut blocks[at];
    let right = left.split(room, offset, item);
    lengths[at] = left.len();
    let _counted = lengths.insert(at + 1, right.len());
    let _placed = blocks.insert(at + 1, right);
}

// The first block.
fn start<V: Copy>(blocks: &mut Vec<Block<V>>, lengths: &mut Vec<u32>, room: Room<V>, item: Item<V>)
    requires none { blocks.old.items ≡ [] }
    requires table { lengths.old.items ≡ [] }
    requires blocks_room { vec_len blocks.old < vec_capacity blocks.old }
    requires table_room { vec_len lengths.old < vec_capacity lengths.old }
    ensures blocks { blocks.new.items ≡ (item ∷ []) ∷ [] }
    ensures table { lengths.new.items ≡ 1 ∷ [] }
    ensures blocks_room { (vec_capacity blocks.old ≤ vec_capacity blocks.new)
        × (vec_len blocks.new ≡ vec_len blocks.old + 1) }
    ensures table_room { (vec_capacity lengths.old ≤ vec_capacity lengths.new)
        × (vec_len lengths.new ≡ vec_len lengths.old + 1) }
{
    let _counted = lengths.push(1);
    let _placed = blocks.push(Block::new(room, item));
}

/// Puts an item at a place, for which there is room ready. The answer is the block where room may have been taken.
pub(crate) fn insert_item<V: Copy>(
    blocks: &mut Vec<Block<V>>,
    lengths: &mut Vec<u32>,
    ready: &mut Vec<Room<V>>,
    total: u32,
    at: u32,
    item: Item<V>,
) -> usize
    requires total { total ≡ length (joined blocks.old.items) }
    requires blocks { AreBlocks blocks.old.items }
    requires table { lengths.old.items ≡ map length blocks.old.items }
    requires place { at ≤ length (joined blocks.old.items) }
    requires ready { 0 < vec_len ready.old }
    requires blocks_room { vec_len blocks.old < vec_capacity blocks.old }
    requires table_room { vec_len lengths.old < vec_capacity lengths.old }
    ensures rule { blocks.new.items ≡ with_item_at blocks.old.items at item }
    ensures items { joined blocks.new.items ≡ insert (joined blocks.old.items) at item }
    ensures blocks { AreBlocks blocks.new.items }
    ensures table { lengths.new.items ≡ map length blocks.new.items }
    ensures ready { vec_len ready.old ≤ vec_len ready.new + 1 }
    ensures blocks_room { (vec_capacity blocks.old ≤ vec_capacity blocks.new)
        × (vec_len blocks.new ≤ vec_len blocks.old + 1) }
    ensures table_room { (vec_capacity lengths.old ≤ vec_capacity lengths.new)
        × (vec_len lengths.new ≤ vec_len lengths.old + 1) }
{
    let (block, offset) = find_gap(lengths, total, at);
    let Some(count) = lengths.get(block).copied() else {
        if let Some(room) = ready.pop() {
            start(blocks, lengths, room, item);
        }
        return block;
    };
    if count < LARGEST {
        put(blocks, lengths, ready, block, offset, item);
    } else if let Some(room) = ready.pop() {
        split(blocks, lengths, block, offset, room, item);
    }
    block
}

/// Takes an item out of a block, and the block away if it was the last.
pub(crate) fn take_item<V: Copy>(
    blocks: &mut Vec<Block<V>>,
    lengths: &mut Vec<u32>,
    at: usize,
    offset: u32,
) -> Item<V>
    requires blocks { AreBlocks blocks.old.items }
    requires within { at < vec_len blocks.old }
    requires table { lengths.old.items ≡ map length blocks.old.items }
    requires offset { offset < length (slice_index_or blocks.old.items at []) }
    ensures rule { blocks.new.items
        ≡ without_item_at blocks.old.items (items_before blocks.old.items at + offset) }
    ensures value { slice_get (joined blocks.old.items) (items_before blocks.old.items at + offset)
        ≡ Some result }
    ensures items { joined blocks.new.items
        ≡ remove (joined blocks.old.items) (items_before blocks.old.items at + offset) }
    ensures blocks { AreBlocks blocks.new.items }
    ensures table { lengths.new.items ≡ map length blocks.new.items }
    ensures blocks_room { (vec_capacity blocks.new ≡ vec_capacity blocks.old)
        × (vec_len blocks.new ≤ vec_len blocks.old) }
    ensures table_room { (vec_capacity lengths.new ≡ vec_capacity lengths.old)
        × (vec_len lengths.new ≤ vec_len lengths.old) }
{
    let block = &mut blocks[at];
    let item = block.remove(offset);
    let left = block.len();
    if left == 0 {
        let _emptied = blocks.remove(at);
        let _count = lengths.remove(at);
    } else {
        lengths[at] = left;
    }
    item
}

/// The same blocks again.
pub(crate) fn copy_blocks<V: Copy>(
    alloc: Global,
    blocks: &[Block<V>],
) -> Result<Vec<Block<V>>, NoMemory>
    ensures { IfOk result (λ v. v.items ≡ blocks.now) }
{
    let mut copied = Vec::with_capacity(alloc, blocks.len())?;
    for block in blocks {
        if copied.push(block.copy(alloc)?).is_err() {
            return Err(NoMemory);
        }
    }
    Ok(copied)
}

/// Where the item with a name is.
pub(crate) fn place_in<V: Copy>(blocks: &[Block<V>], name: Name) -> Option<u32>
    requires { length (joined blocks.now) ≤ 4294967295 }
    ensures { result ≡ place_of name (joined blocks.now) }
{
    let mut before = 0;
    for block in blocks {
        if let Some(at) = block.place_of(name) {
            return Some(before + at);
        }
        before += block.len();
    }
    None
}

/// Makes rooms until so many are ready.
pub(crate) fn make_ready<V: Copy>(
    alloc: Global,
    ready: &mut Vec<Room<V>>,
    wanted: usize,
) -> Result<(), NoMemory>
    ensures kept { vec_len ready.old ≤ vec_len ready.new }
    ensures enough { OnOk result (wanted ≤ vec_len ready.new) }
    ensures refused { OnErr result (vec_len ready.old < wanted) }
{
    while ready.len() < wanted {
        let room = Room::new(alloc)?;
        if ready.push(room).is_err() {
            return Err(NoMemory);
        }
    }
    Ok(())
}

// Takes back the room of the block at a place, if it needs less.
fn take_back_from<V: Copy>(
    alloc: Global,
    blocks: &mut [Block<V>],
    ready: &mut Vec<Room<V>>,
    wanted: usize,
    at: usize,
)
    ensures same { blocks.new ≡ blocks.old }
    ensures kept { vec_len ready.old ≤ vec_len ready.new }
{
    if at >= blocks.len() {
        return;
    }
    if let Some(room) = blocks[at].shrink(alloc) {
        if ready.len() < wanted {
            let _kept = ready.push(room);
        }
    }
}

/// Takes back the room that an insertion took, if fewer are ready than wanted: `last` is the block that it went into,
/// which it may have split.
pub(crate) fn take_back<V: Copy>(
    alloc: Global,
    blocks: &mut [Block<V>],
    ready: &mut Vec<Room<V>>,
    wanted: usize,
    last: usize,
)
    ensures same { blocks.new ≡ blocks.old }
    ensures kept { vec_len ready.old ≤ vec_len ready.new }
{
    if ready.len() < wanted {
        take_back_from(alloc, blocks, ready, wanted, last);
        take_back_from(alloc, blocks, ready, wanted, last.saturating_add(1));
    }
}
