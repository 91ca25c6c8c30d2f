//! Failed allocations in whole runs, each test for the call of its name. `./growths` makes one after another of the allocations between the two marks
//! fail. A run that fails is refused for that, with all its threads ended, and it runs if it begins again.
use crate::expect::{expect_eq, expect_that};
use crate::runs::{LIMIT, agree, blank, insertions, scripts};
use jup_app::{Open, RunEnd, RunFault, run_many, run_two};
use std::alloc::Global;
use std::process::Abort;
use std::sync::Wait;
use std::thread::Threads;
use test_marks::{begin, end};

// How many edits a run took that all sites agree on, or the number of its refusal.
fn edits_taken(rt: &impl Abort, run: Result<RunEnd, RunFault>) -> Result<usize, u32> {
    match run {
        Ok(end) => {
            expect_that(rt, agree(&end));
            Ok(end.star.order().len())
        }
        Err(fault) => Err(fault.number()),
    }
}

fn two_sites<R: Threads + Wait + Sync + Abort>(rt: &R, alloc: Global) -> Result<usize, u32> {
    let both = insertions(rt, alloc, 2);
    let board = blank(rt, alloc);
    begin(alloc);
    let run = run_two(rt, alloc, board, LIMIT, &both, &both, &Open);
    end(alloc);
    edits_taken(rt, run)
}

#[test]
fn run_of_two(rt: HostRuntime) {
    let mut ran = two_sites(&rt, rt.alloc());
    if ran == Err(8) {
        ran = two_sites(&rt, rt.alloc());
    }
    expect_eq(&rt, ran, Ok(4));
}

fn eight_sites<R: Threads + Wait + Sync + Abort>(rt: &R, alloc: Global) -> Result<usize, u32> {
    let all = scripts(rt, alloc, 8, 2);
    let board = blank(rt, alloc);
    begin(alloc);
    let run = run_many(rt, alloc, board, LIMIT, &all, &Open);
    end(alloc);
    edits_taken(rt, run)
}

#[test]
fn run_of_many(rt: HostRuntime) {
    let mut ran = eight_sites(&rt, rt.alloc());
    if ran == Err(8) {
        ran = eight_sites(&rt, rt.alloc());
    }
    expect_eq(&rt, ran, Ok(16));
}
