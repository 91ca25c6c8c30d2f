//! Gates that are asked again. `tools/yields` counts how often a thread yields meanwhile.

use crate::expect::expect_eq;
use jup_session::{Gate, pass_gate};
use std::process::Abort;
use std::sync::atomic::{AtomicU32, Ordering};

/// Is shut so many times, and counts how often it is asked.
#[derive(Drop)]
struct Opening {
    shut: u32,
    asked: AtomicU32,
}

impl Gate for Opening {
    fn ready(&self, _site: u32, _nth: u32) -> bool {
        self.asked.fetch_add(1, Ordering::SeqCst) >= self.shut
    }

    fn answered(&self, _site: u32, _nth: u32) {}
}

// Whether a gate is passed that is shut so many times, and how often it is asked.
fn passed(shut: u32) -> (bool, u32) {
    let gate = Opening {
        shut,
        asked: AtomicU32::new(0),
    };
    let is_ready = pass_gate(&gate, 1, 1, || {});
    (is_ready, gate.asked.load(Ordering::SeqCst))
}

#[test]
fn is_ready(rt: HostRuntime) {
    expect_eq(&rt, passed(0), (true, 1));
}

#[test]
fn is_shut_seven_times(rt: HostRuntime) {
    expect_eq(&rt, passed(7), (true, 8));
}
