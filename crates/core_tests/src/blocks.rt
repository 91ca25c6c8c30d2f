//! Sequences of many items: how many blocks they are in, which names are found, and other values.
use crate::expect::{expect_eq, expect_that};
use jup_value::{Item, Name, NoMemory, Seq};
use std::alloc::Global;

// Puts the item of a name at the end, or at the front, unless the name is held.
fn put(seq: &mut Seq<u32>, name: Name, at_end: bool) -> Result<(), NoMemory> {
    let len = seq.len();
    if len == u32::MAX || seq.place_of(name).is_some() {
        return Ok(());
    }
    seq.reserve_one()?;
    let value = name.number;
    seq.insert(if at_end { len } else { 0 }, Item { name, value });
    Ok(())
}

// The items 0, 1 and so on, each put at the end, or each at the front.
pub(crate) fn sequence_of(alloc: Global, count: u32, at_end: bool) -> Result<Seq<u32>, NoMemory> {
    let mut seq = Seq::new(alloc);
    for number in 0..count {
        put(&mut seq, Name { site: 0, number }, at_end)?;
    }
    Ok(seq)
}

// Takes out so many items at the front.
fn drop_first(seq: &mut Seq<u32>, count: u32) {
    for _ in 0..count {
        if !seq.is_empty() {
            let _first = seq.remove(0);
        }
    }
}

// Whether the items are the numbers from one up to another, in order, and each is found at its place.
pub(crate) fn counts(seq: &Seq<u32>, from: u32, end: u32) -> bool {
    let mut at: u32 = 0;
    for item in seq {
        if item.value != at.saturating_add(from) || seq.get(at) != Some(item) {
            return false;
        }
        at = at.saturating_add(1);
    }
    seq.iter().count() == at as usize && at.saturating_add(from) == end
}

#[test]
fn full_blocks_are_split(rt: HostRuntime) {
    for &(count, at_end, blocks) in &[
        (0, true, 0),
        (128, true, 1),
        (129, true, 2),
        (300, true, 4),
        (300, false, 4),
    ] {
        let seq = sequence_of(rt.alloc(), count, at_end).expect(&rt, "memory");
        expect_eq(&rt, (count, seq.blocks()), (count, blocks));
    }
}

#[test]
fn emptied_blocks_are_taken_out(rt: HostRuntime) {
    let mut seq = sequence_of(rt.alloc(), 300, true).expect(&rt, "memory");
    expect_that(&rt, counts(&seq, 0, 300));
    drop_first(&mut seq, 64);
    expect_eq(&rt, seq.blocks(), 3);
    expect_eq(&rt, seq.len(), 236);
    expect_that(&rt, counts(&seq, 64, 300));
    drop_first(&mut seq, 236);
    expect_eq(&rt, seq.blocks(), 0);
}

#[test]
fn copy_keeps_the_blocks(rt: HostRuntime) {
    let mut seq = sequence_of(rt.alloc(), 300, true).expect(&rt, "memory");
    drop_first(&mut seq, 100);
    let copied = seq.copy(rt.alloc()).expect(&rt, "memory");
    expect_eq(&rt, copied.blocks(), 3);
    expect_that(&rt, counts(&copied, 100, 300));
}

// Gives the item at a place another value.
fn set_value(seq: &mut Seq<u32>, at: u32, value: u32) {
    if at < seq.len() {
        seq.set_value(at, value);
    }
}

// The item of site 0 with this number and this value.
fn item(number: u32, value: u32) -> Item<u32> {
    Item {
        name: Name { site: 0, number },
        value,
    }
}

// The first and the last item of each of the blocks 64, 64, 64 and 108 long.
#[test]
fn another_value_leaves_names_places_and_blocks(rt: HostRuntime) {
    let mut seq = sequence_of(rt.alloc(), 300, true).expect(&rt, "memory");
    for &at in &[0, 63, 64, 127, 128, 191, 192, 299] {
        set_value(&mut seq, at, 1000);
        expect_eq(&rt, (at, seq.get(at)), (at, Some(&item(at, 1000))));
        expect_eq(
            &rt,
            seq.place_of(Name {
                site: 0,
                number: at,
            }),
            Some(at),
        );
        set_value(&mut seq, at, at);
        expect_eq(&rt, (at, counts(&seq, 0, 300)), (at, true));
    }
    expect_eq(&rt, seq.blocks(), 4);
}

// As long as a layout may make a sequence, and longer.
#[test]
fn long_sequences_are_copied_whole(rt: HostRuntime) {
    for &count in &[65_536, 65_537] {
        let seq = sequence_of(rt.alloc(), count, true).expect(&rt, "memory");
        let copied = seq.copy(rt.alloc()).expect(&rt, "memory");
        expect_eq(&rt, (count, counts(&copied, 0, count)), (count, true));
    }
}

// Items of two sites, the last of which has the lowest number of its site.
fn of_two_sites(alloc: Global) -> Result<Seq<u32>, NoMemory> {
    let mut seq = Seq::new(alloc);
    for &(site, number) in &[(2, 5), (1, 3), (2, 4)] {
        put(&mut seq, Name { site, number }, true)?;
    }
    Ok(seq)
}

#[test]
fn names_are_found_whether_or_not_a_later_one_was_held(rt: HostRuntime) {
    let mut seq = of_two_sites(rt.alloc()).expect(&rt, "memory");
    for &(site, number, place) in &[
        (2, 5, Some(0)),
        (1, 3, Some(1)),
        (2, 4, Some(2)),
        (2, 3, None),
        (2, 6, None),
        (1, 4, None),
        (3, 1, None),
    ] {
        expect_eq(&rt, seq.place_of(Name { site, number }), place);
    }
    drop_first(&mut seq, 1);
    expect_eq(&rt, seq.place_of(Name { site: 2, number: 5 }), None);
}
