//! Failed allocations in two ends and in one way of a link, each test for the call of its name, as in `growths`.
use super::lanes::{first_edit, send};
use crate::expect::{expect_eq, expect_that};
use jup_lane::Lane;
use jup_star::{Down, Up};
use jup_world::{Two, TwoEdit, TwoEvent, TwoReply};
use std::alloc::Global;
use std::process::Abort;
use test_marks::{begin, end};

#[test]
fn two_open(rt: HostRuntime) {
    begin(rt.alloc());
    let mut two = Two::open(rt.alloc(), ['a', 'b'].as_slice());
    end(rt.alloc());
    if two.is_err() {
        two = Two::open(rt.alloc(), ['a', 'b'].as_slice());
    }
    let two = two.expect(&rt, "memory");
    expect_eq(&rt, (two.client().len(), two.server().len()), (2, 2));
    expect_that(&rt, two.quiet());
}

// How long the texts of both ends are, and whether anything is on its way.
fn shown(two: &Two) -> (u32, u32, bool) {
    (two.client().len(), two.server().len(), two.quiet())
}

// The client inserts and the server deletes, and each receives the other's edit.
#[test]
fn two_step(rt: HostRuntime) {
    let mut two = Two::open(rt.alloc(), ['a', 'b'].as_slice()).expect(&rt, "memory");
    for &(event, due, then) in &[
        (
            TwoEvent::Client(TwoEdit::Insert(1, 'x')),
            TwoReply::Made,
            (3, 2, false),
        ),
        (
            TwoEvent::Server(TwoEdit::Delete(1)),
            TwoReply::Made,
            (3, 1, false),
        ),
        (TwoEvent::Up, TwoReply::Moved, (3, 2, false)),
        (TwoEvent::Down, TwoReply::Moved, (2, 2, true)),
    ] {
        let before = shown(&two);
        begin(rt.alloc());
        let mut reply = two.step(rt.alloc(), &event);
        end(rt.alloc());
        if reply.is_err() {
            expect_eq(&rt, shown(&two), before);
            reply = two.step(rt.alloc(), &event);
        }
        expect_eq(&rt, (reply, shown(&two)), (Ok(due), then));
    }
}

#[test]
fn lane_reserve(rt: HostRuntime) {
    let mut lane: Lane<Down> = Lane::new(rt.alloc());
    begin(rt.alloc());
    let mut made = lane.reserve();
    end(rt.alloc());
    if made.is_err() {
        expect_that(&rt, lane.is_idle() && lane.is_stream_empty());
        made = lane.reserve();
    }
    expect_that(
        &rt,
        made.is_ok() && lane.is_idle() && lane.is_stream_empty(),
    );
}

// The first message, of 37 bytes, and a ping after it.
fn lane_of_two(rt: &impl Abort, alloc: Global) -> Lane<Up> {
    let mut lane: Lane<Up> = Lane::new(alloc);
    send(rt, &mut lane, &Up::Op(first_edit(alloc)));
    send(rt, &mut lane, &Up::Ping(7));
    lane
}

#[test]
fn lane_push(rt: HostRuntime) {
    let mut lane = lane_of_two(&rt, rt.alloc());
    for &(most, due, is_empty) in &[(36, 36, false), (3, 3, false), (50, 5, true)] {
        begin(rt.alloc());
        let mut moved = lane.push(rt.alloc(), most);
        end(rt.alloc());
        if moved.is_err() {
            expect_that(&rt, !lane.is_idle() && !lane.is_stream_empty());
            moved = lane.push(rt.alloc(), most);
        }
        expect_eq(&rt, (moved, lane.is_stream_empty()), (Ok(due), is_empty));
    }
    expect_that(&rt, !lane.is_idle());
}

// The oldest message, which is asked for again if an allocation failed.
fn first_of(rt: &impl Abort, alloc: Global, lane: &mut Lane<Up>) -> Up {
    begin(alloc);
    let mut first = lane.first(alloc);
    end(alloc);
    if first.is_err() {
        expect_that(rt, !lane.is_idle());
        first = lane.first(alloc);
    }
    first.expect(rt, "memory").expect(rt, "a message")
}

#[test]
fn lane_first(rt: HostRuntime) {
    for &pushed in &[0, 5, 36, 40] {
        let mut lane = lane_of_two(&rt, rt.alloc());
        lane.push(rt.alloc(), pushed).expect(&rt, "memory");
        let first = first_of(&rt, rt.alloc(), &mut lane);
        expect_eq(&rt, first, Up::Op(first_edit(rt.alloc())));
    }
}
