//! `jup_app`: whole runs in threads.
ghost use Rattle.jup_star.specs.Stars.{IsShort};
ghost use Rattle.jup_window.specs.Entries.{EachWidget};

use jup_app::{Gate, RunEnd, RunFault, SiteEnd, run_many, run_two};
use jup_batch::BoardEdits;
use jup_star::{Site, Star};
use jup_window::{Board, Command, EditFault};
use std::alloc::Global;
use std::sync::Wait;
use std::thread::Threads;

/// `RunFault::number`.
pub fn faults() {
    let _: fn(RunFault) -> u32 = RunFault::number;
}

/// `run_two`.
pub fn two<R: Threads + Wait + Sync, G: Gate + Sync>(
    rt: &R,
    alloc: Global,
    board: Board,
    limit: u32,
    first: &[Command],
    second: &[Command],
    gate: &G,
) -> Result<RunEnd, RunFault>
    requires { EachWidget IsShort board }
{
    run_two(rt, alloc, board, limit, first, second, gate)
}

/// `run_many`.
pub fn many<R: Threads + Wait + Sync, G: Gate + Sync>(
    rt: &R,
    alloc: Global,
    board: Board,
    limit: u32,
    scripts: &[Vec<Command>],
    gate: &G,
) -> Result<RunEnd, RunFault>
    requires { EachWidget IsShort board }
{
    run_many(rt, alloc, board, limit, scripts, gate)
}

/// The fields of a run's end.
pub fn ended(end: RunEnd) -> (Star, Vec<SiteEnd>) {
    (end.star, end.sites)
}

/// The fields of a site's end.
pub fn site_ended(end: SiteEnd) -> (Site, Vec<Result<BoardEdits, EditFault>>) {
    (end.site, end.replies)
}
