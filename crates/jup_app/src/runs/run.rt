//! Whole runs.
ghost use Rattle.std.specs.Prelude.{◌≡◌, ◌≤◌, [], ◌∷◌, length, map, IfOk};
ghost use Rattle.jup_limits.specs.Limits.{highest_limit};
ghost use Rattle.jup_batch.specs.Boards.{bare};
ghost use Rattle.jup_window.specs.Entries.{EachWidget};
ghost use Rattle.jup_star.specs.Stars.{opened_star, IsShort};
ghost use Rattle.jup_world.specs.Worlds.{IsOpening};
ghost use Rattle.jup_app.specs.RunFaults.{opening_refusal, many_refusal, RefusedFirst};
ghost use Rattle.jup_app.specs.Runs.{IsRun, AllAgree};

use crate::runs::calls::Caller;
use crate::runs::drain::{SiteEnd, drain};
use crate::runs::fault::RunFault;
use crate::runs::halt::Halt;
use crate::runs::joiner::{join_all, rejoin_all};
use crate::runs::seating::seat_all;
use crate::runs::threads::play_all;
use jup_hub::Hub;
use jup_limits::MOST_ATTACHED;
use jup_session::Gate;
use jup_star::{Star, is_short};
use jup_window::{Board, Command};
use std::alloc::Global;
use std::sync::Wait;
use std::thread::Threads;

/// How a run ended: the star, and the sites in the order of their scripts.
#[derive(Drop)]
pub struct RunEnd {
    pub star: Star,
    pub sites: Vec<SiteEnd>,
}

/// Plays the scripts of two sites on a board.
///
/// Each site edits in a thread of its own, through one hub. Each edit is taken before the next. After that,
/// and before an edit if there is news, up to 64 messages are fetched and delivered. At the end both sites
/// are drained.
///
/// Refused, in this order, are a limit that is not 1 to 16,777,216, and a board with an item that is not of a
/// layout. Then, by the lowest site that meets one, a gate that stays shut, a full order, no memory, and
/// whatever no run should meet.
pub fn run_two<R: Threads + Wait + Sync, G: Gate + Sync>(
    rt: &R,
    alloc: Global,
    board: Board,
    limit: u32,
    first: &[Command],
    second: &[Command],
    gate: &G,
) -> Result<RunEnd, RunFault>
    requires short { EachWidget IsShort board }
    ensures run { IfOk result (λ end. IsRun (bare board) limit (first.now ∷ second.now ∷ []) end.star end.sites.items) }
    ensures agree { IfOk result (λ end. AllAgree (bare board) end.star end.sites.items) }
    ensures refusal { RefusedFirst (opening_refusal (bare board) limit) result }
{
    let _short = is_short(&board);
    let star = Star::open(alloc, board, limit)?;
    Ok(run_sites(rt, alloc, star, &[first, second], gate)?)
}

/// Plays the scripts of 1 to 64 sites on a board, as [`run_two`] does. Any other number of sites is refused
/// before all else.
pub fn run_many<R: Threads + Wait + Sync, G: Gate + Sync>(
    rt: &R,
    alloc: Global,
    board: Board,
    limit: u32,
    scripts: &[Vec<Command>],
    gate: &G,
) -> Result<RunEnd, RunFault>
    requires short { EachWidget IsShort board }
    ensures run { IfOk result (λ end. IsRun (bare board) limit (map (λ s. s.items) scripts.now) end.star end.sites.items) }
    ensures agree { IfOk result (λ end. AllAgree (bare board) end.star end.sites.items) }
    ensures refusal { RefusedFirst (many_refusal (length scripts.now) (bare board) limit) result }
{
    if scripts.is_empty() || scripts.len() > MOST_ATTACHED {
        return Err(RunFault::BadSites);
    }
    let _short = is_short(&board);
    let star = Star::open(alloc, board, limit)?;
    let all = slices(alloc, scripts)?;
    Ok(run_sites(rt, alloc, star, all.as_slice(), gate)?)
}

// The scripts as slices.
fn slices<'s>(alloc: Global, scripts: &'s [Vec<Command>]) -> Result<Vec<&'s [Command]>, Halt>
    ensures { IfOk result (λ v. map (λ s. s.now) v.items ≡ map (λ s. s.items) scripts.now) }
{
    let mut all = Vec::new(alloc);
    for script in scripts {
        all.push(script.as_slice())?;
    }
    Ok(all)
}

// Plays the scripts of some sites with a new star.
fn run_sites<R: Threads + Wait + Sync, G: Gate + Sync>(
    rt: &R,
    alloc: Global,
    star: Star,
    scripts: &[&[Command]],
    gate: &G,
) -> Result<RunEnd, Halt>
    requires new { star ≡ opened_star star.board star.limit }
    requires opening { IsOpening star.board }
    requires limited { star.limit ≤ highest_limit }
    ensures agree { IfOk result (λ end. AllAgree star.board end.star end.sites.items) }
    ensures run { IfOk result (λ end. IsRun star.board star.limit (map (λ s. s.now) scripts.now) end.star end.sites.items) }
{
    let Ok((hub, pass)) = Hub::open(alloc, star) else {
        return Err(Halt::NoMemory);
    };
    let mut caller = Caller { pass, calls: 0 };
    let sites = join_all(rt, alloc, &hub, &mut caller, scripts.len())?;
    let jobs = seat_all(alloc, &hub, &mut caller, sites, scripts)?;
    let results = play_all(rt, alloc, &hub, gate, jobs)?;
    let mut ends = rejoin_all(alloc, &hub, &mut caller, results)?;
    // The pass took others in. With this look, all that they saw is part of one history.
    let _ = hub.news(&mut caller.pass);
    drain(rt, alloc, &hub, &mut caller, ends.as_mut_slice())?;
    let Caller { pass, calls } = caller;
    match hub.close(pass) {
        Ok(closed) if closed.events == calls => Ok(RunEnd {
            star: closed.star,
            sites: ends,
        }),
        _ => Err(Halt::RunBroken),
    }
}
