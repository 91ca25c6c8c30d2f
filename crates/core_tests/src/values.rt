//! When sequences are the same, and that the calls of a sequence succeed if memory is left.
use crate::expect::{expect_eq, expect_that};
use jup_value::{Item, Label, Name, NoMemory, Seq};
use std::alloc::Global;
use std::process::Abort;

const FIRST: Item<char> = Item {
    name: Name { site: 1, number: 1 },
    value: 'a',
};

const SECOND: Item<char> = Item {
    name: Name { site: 1, number: 2 },
    value: 'b',
};

fn has_first_alone(rt: &impl Abort, seq: &Seq<char>) {
    expect_eq(rt, seq.len(), 1);
    expect_eq(rt, seq.place_of(FIRST.name), Some(0));
    expect_eq(rt, seq.place_of(Name { site: 2, number: 1 }), None);
}

#[test]
fn sequence_is_filled_and_emptied(rt: HostRuntime) {
    let mut seq = Seq::new(rt.alloc());
    expect_that(&rt, seq.is_empty());
    seq.reserve_one().expect(&rt, "memory");
    seq.insert(0, FIRST);
    has_first_alone(&rt, &seq);
    expect_eq(&rt, seq.remove(0), FIRST);
    expect_that(&rt, seq.is_empty());
    expect_eq(&rt, NoMemory.number(), 8);
}

#[test]
fn copy_stays_as_it_was(rt: HostRuntime) {
    let mut seq = Seq::new(rt.alloc());
    seq.reserve_one().expect(&rt, "memory");
    seq.insert(0, FIRST);
    let copied = seq.copy(rt.alloc()).expect(&rt, "memory");
    expect_eq(&rt, seq.remove(0), FIRST);
    expect_eq(&rt, copied.get(0).copied(), Some(FIRST));
    expect_eq(&rt, copied.get(1).copied(), None);
}

// The sequence of one item.
fn sequence_of_one<V: Copy>(rt: &impl Abort, alloc: Global, item: Item<V>) -> Seq<V> {
    let mut seq = Seq::new(alloc);
    seq.reserve_one().expect(rt, "memory");
    seq.insert(0, item);
    seq
}

// Whether the texts of one item each are the same.
fn are_same(rt: &impl Abort, alloc: Global, one: Item<char>, other: Item<char>) -> bool {
    sequence_of_one(rt, alloc, one).same(&sequence_of_one(rt, alloc, other))
}

// The list of one label.
fn list_of(rt: &impl Abort, alloc: Global, text: &[u8]) -> Seq<Label> {
    let value = Label::read(text).expect(rt, "a label");
    let name = FIRST.name;
    sequence_of_one(rt, alloc, Item { name, value })
}

#[test]
fn texts_are_the_same_by_names_and_characters(rt: HostRuntime) {
    let renamed = Item {
        name: SECOND.name,
        value: FIRST.value,
    };
    let relabelled = Item {
        name: FIRST.name,
        value: SECOND.value,
    };
    expect_eq(&rt, are_same(&rt, rt.alloc(), FIRST, FIRST), true);
    expect_eq(&rt, are_same(&rt, rt.alloc(), FIRST, renamed), false);
    expect_eq(&rt, are_same(&rt, rt.alloc(), FIRST, relabelled), false);
    let text = sequence_of_one(&rt, rt.alloc(), FIRST);
    expect_eq(&rt, text.same(&Seq::new(rt.alloc())), false);
    expect_eq(&rt, Seq::new(rt.alloc()).same(&text), false);
}

#[test]
fn lists_are_the_same_by_labels(rt: HostRuntime) {
    let red = list_of(&rt, rt.alloc(), b"red");
    expect_eq(&rt, red.same(&list_of(&rt, rt.alloc(), b"red")), true);
    expect_eq(&rt, red.same(&list_of(&rt, rt.alloc(), b"reddish")), false);
}

#[test]
fn room_for_several_insertions(rt: HostRuntime) {
    let mut seq = Seq::new(rt.alloc());
    seq.reserve_more(2).expect(&rt, "memory");
    seq.insert(0, SECOND);
    seq.insert(0, FIRST);
    expect_eq(&rt, seq.get(0).copied(), Some(FIRST));
    expect_eq(&rt, seq.get(1).copied(), Some(SECOND));
}
