//! `jup_value`: names, labels, items and sequences.
ghost use Rattle.std.specs.Prelude.{◌≡◌, ◌≤◌, ◌<◌, false, length};
ghost use Rattle.jup_value.specs.Items.{has_name};

use jup_value::{BadLabel, Item, Label, Name, NoMemory, Seq};
use std::alloc::Global;

/// Labels, and failed allocations.
pub fn labels() {
    let _: fn(&[u8]) -> Result<Label, BadLabel> = Label::read;
    let _: fn(BadLabel) -> u32 = BadLabel::number;
    let _: fn(NoMemory) -> u32 = NoMemory::number;
}

/// `Label::bytes`.
pub fn bytes(label: &Label) -> &[u8] {
    label.bytes()
}

/// The fields of an item and of its name.
pub fn item<V: Copy>(site: u32, number: u32, value: V) -> Item<V> {
    let name = Name { site, number };
    Item { name, value }
}

/// `Seq::new`.
pub fn new<V: Copy>(alloc: Global) -> Seq<V> {
    Seq::new(alloc)
}

/// `Seq::len`, `Seq::place_of` and `Seq::blocks`.
pub fn look<V: Copy>(seq: &Seq<V>, name: Name) {
    let _len: u32 = seq.len();
    let _place: Option<u32> = seq.place_of(name);
    let _blocks: u32 = seq.blocks();
}

/// `Seq::get`.
pub fn get<V: Copy>(seq: &Seq<V>, at: u32) -> Option<&Item<V>> {
    seq.get(at)
}

/// `Seq::reserve_one`.
pub fn reserve_one<V: Copy>(seq: &mut Seq<V>) -> Result<(), NoMemory> {
    seq.reserve_one()
}

/// `Seq::reserve_more`.
pub fn reserve_more<V: Copy>(seq: &mut Seq<V>, more: u32) -> Result<(), NoMemory> {
    seq.reserve_more(more)
}

/// `Seq::insert`.
pub fn insert<V: Copy>(seq: &mut Seq<V>, at: u32, item: Item<V>)
    requires place { at ≤ length seq.old.items }
    requires room { 1 ≤ seq.old.spare }
    requires fresh { has_name item.name seq.old.items ≡ false }
    requires fits { length seq.old.items < 4294967295 }
{
    seq.insert(at, item);
}

/// `Seq::remove`.
pub fn remove<V: Copy>(seq: &mut Seq<V>, at: u32) -> Item<V>
    requires { at < length seq.old.items }
{
    seq.remove(at)
}

/// `Seq::set_value`.
pub fn set_value<V: Copy>(seq: &mut Seq<V>, at: u32, value: V)
    requires { at < length seq.old.items }
{
    seq.set_value(at, value);
}

/// `Seq::copy`.
pub fn copy<V: Copy>(seq: &Seq<V>, alloc: Global) -> Result<Seq<V>, NoMemory> {
    seq.copy(alloc)
}
