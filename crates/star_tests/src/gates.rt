//! Runs that gates hold: some end only if sites run at the same time, and others are refused.

use crate::expect::expect_eq;
use crate::runs::{LIMIT, blank, has, insertions, ran_many, ran_two, scripts};
use jup_app::{Gate, Open, RunEnd, RunFault, run_many, run_two};
use std::alloc::Global;
use std::process::Abort;
use std::sync::Wait;
use std::sync::atomic::{AtomicU64, Ordering};
use std::thread;
use std::thread::Threads;

// Lets every site but one go on, and counts how many answers it was given. There is no site 0.
#[derive(Drop)]
struct ShutTo {
    site: u32,
    told: AtomicU64,
}

impl ShutTo {
    fn site(site: u32) -> ShutTo {
        ShutTo {
            site,
            told: AtomicU64::new(0),
        }
    }
}

impl Gate for ShutTo {
    fn ready(&self, site: u32, _nth: u32) -> bool {
        site != self.site
    }

    fn answered(&self, _site: u32, _nth: u32) {
        self.told.fetch_add(1, Ordering::SeqCst);
    }
}

// Lets each site's first edit go on once all sites have met inside.
#[derive(Drop)]
struct Meeting {
    all: u64,
    inside: AtomicU64,
    met: AtomicU64,
}

impl Meeting {
    // Whether all sites are inside, or were.
    fn has_met(&self) -> bool {
        if self.inside.load(Ordering::SeqCst) == self.all {
            self.met.store(1, Ordering::SeqCst);
        }
        self.met.load(Ordering::SeqCst) == 1
    }

    // Looks for the others.
    fn look(&self) -> bool {
        for _ in 0..1000 {
            if self.has_met() {
                return true;
            }
            thread::yield_now();
        }
        false
    }
}

impl Gate for Meeting {
    fn ready(&self, _site: u32, nth: u32) -> bool {
        if nth != 1 {
            return true;
        }
        self.inside.fetch_add(1, Ordering::SeqCst);
        let passed = self.look();
        self.inside.fetch_sub(1, Ordering::SeqCst);
        passed
    }

    fn answered(&self, _site: u32, _nth: u32) {}
}

// Site 1's first edit waits for site 2's, and site 2's second for site 1's first.
#[derive(Drop)]
struct Waits {
    first: AtomicU64,
    second: AtomicU64,
}

impl Gate for Waits {
    fn ready(&self, site: u32, nth: u32) -> bool {
        match (site, nth) {
            (1, 1) => self.second.load(Ordering::SeqCst) >= 1,
            (2, 2) => self.first.load(Ordering::SeqCst) >= 1,
            _ => true,
        }
    }

    fn answered(&self, site: u32, nth: u32) {
        match site {
            1 => self.first.store(nth as u64, Ordering::SeqCst),
            _ => self.second.store(nth as u64, Ordering::SeqCst),
        }
    }
}

#[test]
fn eight_meet(rt: HostRuntime) {
    let gate = Meeting {
        all: 8,
        inside: AtomicU64::new(0),
        met: AtomicU64::new(0),
    };
    let end = ran_many(&rt, rt.alloc(), 8, 20, &gate);
    has(&rt, &end, 8, 160, 160);
}

// The sites of the first two edits.
fn first_sites(end: &RunEnd) -> (Option<u32>, Option<u32>) {
    let mut sites = end.star.order().iter().map(|entry| entry.site);
    (sites.next(), sites.next())
}

#[test]
fn crosswise(rt: HostRuntime) {
    let alloc = rt.alloc();
    let script = insertions(&rt, alloc, 2);
    let gate = Waits {
        first: AtomicU64::new(0),
        second: AtomicU64::new(0),
    };
    let end = ran_two(&rt, alloc, &script, &script, &gate);
    has(&rt, &end, 2, 4, 4);
    expect_eq(&rt, first_sites(&end), (Some(2), Some(1)));
}

// The number of the refusal, or 0.
fn number(run: Result<RunEnd, RunFault>) -> u32 {
    match run {
        Ok(_) => 0,
        Err(fault) => fault.number(),
    }
}

// The number with which a run of two sites of one insertion each is refused.
fn refusal_of_two<R: Threads + Wait + Sync + Abort, G: Gate + Sync>(
    rt: &R,
    alloc: Global,
    limit: u32,
    gate: &G,
) -> u32 {
    let script = insertions(rt, alloc, 1);
    let board = blank(rt, alloc);
    number(run_two(rt, alloc, board, limit, &script, &script, gate))
}

// The order of one edit has room for one of the two sites' edits, and the gate gets the answers to both takes. A gate may stay shut.
#[test]
fn refusals_of_two_sites(rt: HostRuntime) {
    let alloc = rt.alloc();
    let (open, shut) = (ShutTo::site(0), ShutTo::site(1));
    expect_eq(&rt, refusal_of_two(&rt, alloc, 0, &Open), 50);
    expect_eq(&rt, refusal_of_two(&rt, alloc, 1, &open), 32);
    expect_eq(&rt, open.told.load(Ordering::SeqCst), 2);
    expect_eq(&rt, refusal_of_two(&rt, alloc, LIMIT, &shut), 60);
}

// The number with which a run of so many sites of two insertions each is refused, one of which is held for good.
fn refusal_of_many<R: Threads + Wait + Sync + Abort>(
    rt: &R,
    alloc: Global,
    sites: usize,
    limit: u32,
    held: u32,
) -> u32 {
    let all = scripts(rt, alloc, sites, 2);
    let board = blank(rt, alloc);
    number(run_many(rt, alloc, board, limit, &all, &ShutTo::site(held)))
}

// The lowest site that is refused tells why: one of three is held for good, and the order has no room for all edits of the other two.
#[test]
fn refusals_of_many_sites(rt: HostRuntime) {
    for &(sites, limit, held, due) in &[
        (0, LIMIT, 0, 61),
        (65, 0, 0, 61),
        (3, 0, 0, 50),
        (3, 3, 1, 60),
        (3, 3, 3, 32),
    ] {
        let found = refusal_of_many(&rt, rt.alloc(), sites, limit, held);
        expect_eq(&rt, (sites, held, found), (sites, held, due));
    }
}
