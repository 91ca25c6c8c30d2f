//! What a world has beside its boards: its order, its trace, and the board that it was opened with. Whole runs that were
//! worked out by hand are scripts of `examples/` and of `tools/scripts`.
use super::boards::{LIMIT, deletes, drain, edits, is_quiet, types, world_of};
use crate::expect::{expect_eq, expect_that};
use jup_seq::SeqEdit;
use jup_star::{Entry, OpenFault};
use jup_value::Name;
use jup_window::{Board, WidgetEdit};
use jup_world::{Event, Reply, World};
use jup_xform::OneOf;
use std::alloc::Global;
use std::process::Abort;
use test_boards::board_of;

const FIRST: WidgetEdit = OneOf::First(SeqEdit::Deleted(Name { site: 0, number: 1 }));

// The star has taken these edits of widget 1, each of its site.
fn took(rt: &impl Abort, alloc: Global, world: &World, all: &[(u32, &[WidgetEdit])]) {
    let order = world.star().order();
    expect_eq(rt, order.len(), all.len());
    for (entry, (site, made)) in order.iter().zip(all) {
        let edit = edits(rt, alloc, made);
        expect_eq(rt, entry, &Entry { site: *site, edit });
    }
}

// The event happens, whatever its reply.
fn plays(rt: &impl Abort, alloc: Global, world: &mut World, event: Event) {
    world.step(alloc, &event).expect(rt, "memory");
}

// A world over this widget, of whose two sites each did this, and the star took both.
fn met(rt: &impl Abort, alloc: Global, widget: &str, one: Event, two: Event) -> World {
    let mut world = world_of(rt, alloc, LIMIT, widget, 2);
    plays(rt, alloc, &mut world, one);
    plays(rt, alloc, &mut world, two);
    plays(rt, alloc, &mut world, Event::Up(1));
    plays(rt, alloc, &mut world, Event::Up(2));
    world
}

// The events of the trace from a place on, and their replies.
fn went_on(rt: &impl Abort, world: &World, from: usize, events: &[(Event, Reply)]) {
    let rest = world.trace().iter().skip(from);
    for (happened, (event, reply)) in rest.zip(events) {
        expect_eq(rt, (&happened.event, &happened.reply), (event, reply));
    }
}

// A first round moves a message down to each site, and a second finds nothing.
#[test]
fn a_drain_ends_after_a_round_of_nothing(rt: HostRuntime) {
    let alloc = rt.alloc();
    let mut world = met(
        &rt,
        alloc,
        "text 1 \"\"",
        types(1, 0, 'a'),
        types(2, 0, 'x'),
    );
    let before = world.trace().len();
    drain(&rt, alloc, &mut world);
    expect_eq(&rt, (before, world.trace().len()), (6, 16));
    let wanted = &[
        (Event::Up(1), Reply::Nothing),
        (Event::Up(2), Reply::Nothing),
        (Event::Down(1), Reply::Shown),
        (Event::Down(1), Reply::Nothing),
        (Event::Down(2), Reply::Shown),
        (Event::Down(2), Reply::Nothing),
        (Event::Up(1), Reply::Nothing),
        (Event::Up(2), Reply::Nothing),
        (Event::Down(1), Reply::Nothing),
        (Event::Down(2), Reply::Nothing),
    ];
    went_on(&rt, &world, before, wanted);
}

#[test]
fn the_order_has_both_deletions_of_one_item(rt: HostRuntime) {
    let alloc = rt.alloc();
    let world = met(&rt, alloc, "text 1 \"z\"", deletes(1, 0), deletes(2, 0));
    took(&rt, alloc, &world, &[(1, &[FIRST]), (2, &[FIRST])]);
}

#[test]
fn a_world_is_opened_on_a_layout_with_a_limit(rt: HostRuntime) {
    let alloc = rt.alloc();
    for &limit in &[0, 16_777_217] {
        let world = World::open(alloc, Board::new(alloc), limit);
        expect_eq(&rt, world.err(), Some(OpenFault::BadLimit));
    }
    for &limit in &[1, 16_777_216] {
        let world = world_of(&rt, alloc, limit, "text 1 \"\"", 0);
        expect_that(&rt, is_quiet(&world) && world.trace().is_empty());
    }
}

#[test]
fn a_world_keeps_its_first_board_and_a_trace_of_more_than_65536_events(rt: HostRuntime) {
    let alloc = rt.alloc();
    let mut world = world_of(&rt, alloc, LIMIT, "text 1 \"ab\"", 1);
    plays(&rt, alloc, &mut world, types(1, 1, 'x'));
    plays(&rt, alloc, &mut world, Event::Up(1));
    for _ in 0..65_536 {
        let reply = world.step(alloc, &Event::Up(1)).expect(&rt, "memory");
        expect_eq(&rt, reply, Reply::Nothing);
    }
    // The join, the edit and its delivery are the first three.
    expect_eq(&rt, world.trace().len(), 65_539);
    let opening = board_of(alloc, &["window 1", "text 1 \"ab\""]).expect(&rt, "a board");
    expect_that(&rt, world.opening().same(&opening));
}
