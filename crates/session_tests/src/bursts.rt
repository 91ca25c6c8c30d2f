//! Edits that come together.

use crate::expect::expect_eq;
use crate::fakes::OneByOne;
use crate::sessions::ran;
use jup_session::{Bell, Ending, Gate, Open};
use std::alloc::Global;
use std::io::Read;
use std::process::Abort;
use std::sync::Wait;
use std::thread::Threads;
use std::time::Clock;

// Three edits, which one read brings.
const BURST: &[u8] =
    b"hello 3\nbatch 0 0 1\ndo 1 1 text ins 0 1.1 97\nbatch 1 0 1\ndo 1 1 text ins 0 1.2 98\nbatch 2 0 1\ndo 1 1 text ins 0 1.3 99\nbye\n";

// A site that no session here has.
const OTHER: u32 = 2;

// How often a bell has rung for another site.
fn rings(rt: &impl Wait, bell: &Bell) -> u64 {
    bell.wait(rt, OTHER, u64::MAX)
}

// How often a session that is sent a burst wakes another site.
fn rings_of<R: Threads + Wait + Clock + Sync + Abort, I: Read + Drop>(
    rt: &R,
    alloc: Global,
    from: I,
) -> u64 {
    let (bell, mut to) = (Bell::new(), Vec::new(alloc));
    let left = ran(rt, alloc, from, &mut to, &bell, &Open);
    expect_eq(rt, left.ending, Ending::Bye);
    rings(rt, &bell)
}

#[test]
fn a_burst_of_edits_wakes_the_others_once(rt: HostRuntime) {
    expect_eq(&rt, rings_of(&rt, rt.alloc(), BURST), 1);
}

#[test]
fn edits_that_come_one_by_one_wake_the_others_each(rt: HostRuntime) {
    let one_by_one = OneByOne {
        text: BURST,
        is_next: false,
    };
    expect_eq(&rt, rings_of(&rt, rt.alloc(), one_by_one), 3);
}

/// Lets the first edit through, and each other once another site was woken.
#[derive(Drop)]
struct Waking<'a, R> {
    rt: &'a R,
    bell: &'a Bell,
}

impl<'a, R: Wait> Gate for Waking<'a, R> {
    fn ready(&self, _site: u32, nth: u32) -> bool {
        nth == 1 || rings(self.rt, self.bell) > 0
    }

    fn answered(&self, _site: u32, _nth: u32) {}
}

#[test]
fn the_others_are_woken_before_a_gate_is_waited_for(rt: HostRuntime) {
    let (bell, mut to) = (Bell::new(), Vec::new(rt.alloc()));
    let gate = Waking {
        rt: &rt,
        bell: &bell,
    };
    let left = ran(&rt, rt.alloc(), BURST, &mut to, &bell, &gate);
    expect_eq(&rt, left.ending, Ending::Bye);
}
