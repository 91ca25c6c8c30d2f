//! Each site in a thread of its own.
ghost use Rattle.std.specs.Prelude.{◌≡◌, IfOk, vec_len, All};
ghost use Rattle.jup_app.specs.Runs.{IsReady, Ran, AllRan};

use crate::runs::halt::Halt;
use crate::runs::player::Player;
use jup_hub::Hub;
use jup_session::Gate;
use jup_window::Command;
use std::alloc::{AllocError, Global};
use std::sync::Wait;
use std::thread;
use std::thread::Threads;

/// A site with its script.
#[derive(Drop)]
pub(crate) struct Job<'s> {
    pub(crate) player: Player,
    pub(crate) script: &'s [Command],
}

// Plays one site's script.
fn play<R: Wait, G: Gate>(
    rt: &R,
    alloc: Global,
    hub: &Hub,
    gate: &G,
    job: Job,
) -> Result<Player, Halt>
    requires { IsReady hub.now job }
    ensures { IfOk result (λ p. Ran hub.now job.entry p) }
{
    let Job { mut player, script } = job;
    player.play(rt, alloc, hub, gate, script)?;
    Ok(player)
}

/// Plays all scripts, each in a thread of its own.
pub(crate) fn play_all<R: Threads + Wait + Sync, G: Gate + Sync>(
    rt: &R,
    alloc: Global,
    hub: &Hub,
    gate: &G,
    jobs: Vec<Job>,
) -> Result<Vec<Result<Player, Halt>>, AllocError>
    requires { All (λ job. IsReady hub.now job) jobs.items }
    ensures len { IfOk result (λ v. vec_len v ≡ vec_len jobs.entry) }
    ensures each { IfOk result (λ v. AllRan hub.now jobs.entry.items v.items) }
{
    thread::map_vec(rt, jobs, &|job| play(rt, alloc, hub, gate, job))
}
