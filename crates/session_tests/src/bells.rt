//! A bell by itself.

use crate::expect::expect_eq;
use jup_session::Bell;
use std::thread::{join, sleep};
use std::time::Duration;

// A wait for what was rung already returns immediately, so these tests would hang if a ring were missed.
#[test]
fn no_ring_before_the_wait_is_missed(rt: HostRuntime) {
    let bell = Bell::new();
    bell.ring_for(&rt, 1);
    expect_eq(&rt, bell.wait(&rt, 1, 0), 1);
    bell.ring(&rt);
    bell.ring_for(&rt, 2);
    expect_eq(&rt, bell.wait(&rt, 1, 1), 2);
    expect_eq(&rt, bell.wait(&rt, 2, 0), 2);
    expect_eq(&rt, bell.wait(&rt, 3, 0), 1);
}

#[test]
fn a_ring_for_a_site_wakes_who_waits_for_it(rt: HostRuntime) {
    let bell = Bell::new();
    let (rings, ()) = join(
        &rt,
        || bell.wait(&rt, 7, 0),
        || {
            sleep(&rt, Duration::from_millis(20));
            bell.ring_for(&rt, 7);
        },
    );
    expect_eq(&rt, rings, 1);
}

#[test]
fn a_ring_for_all_wakes_each_site(rt: HostRuntime) {
    let bell = Bell::new();
    let ((one, two), ()) = join(
        &rt,
        || join(&rt, || bell.wait(&rt, 1, 0), || bell.wait(&rt, 40, 0)),
        || {
            sleep(&rt, Duration::from_millis(20));
            bell.ring(&rt);
        },
    );
    expect_eq(&rt, (one, two), (1, 1));
}

// Two sites whose numbers differ by 64 wait at one place, as two halves of a session do.
#[test]
fn a_ring_for_a_site_wakes_all_who_wait_at_its_place(rt: HostRuntime) {
    let bell = Bell::new();
    let ((one, two), ()) = join(
        &rt,
        || join(&rt, || bell.wait(&rt, 1, 0), || bell.wait(&rt, 65, 0)),
        || {
            sleep(&rt, Duration::from_millis(20));
            bell.ring_for(&rt, 65);
        },
    );
    expect_eq(&rt, (one, two), (1, 1));
}

#[test]
fn a_ring_for_all_wakes_all_who_wait_at_one_place(rt: HostRuntime) {
    let bell = Bell::new();
    let ((one, two), ()) = join(
        &rt,
        || join(&rt, || bell.wait(&rt, 1, 0), || bell.wait(&rt, 65, 0)),
        || {
            sleep(&rt, Duration::from_millis(20));
            bell.ring(&rt);
        },
    );
    expect_eq(&rt, (one, two), (1, 1));
}
