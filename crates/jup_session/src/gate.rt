//! When an edit may be taken.
ghost use Rattle.std.specs.Prelude.{◌≡◌, IsTrue, IsFalse, IsSome, IsNone};
ghost use Rattle.jup_hub.specs.Passes.{view_of, IsPassOf};
ghost use Rattle.jup_session.specs.Sessions.{HasAnswered};

use jup_hub::{Hub, HubFault, Pass};
use jup_star::Up;
use std::alloc::Global;
use std::sync::Wait;
use std::thread::yield_now;

/// How often a gate that is not ready is asked again.
const MOST_ASKED_AGAIN: u32 = 100_000;

/// Asked before the nth edit of a site is taken, from 1, and informed once the hub has answered, also if it refused.
///
/// Contracts use three facts of a gate, and an implementation may define each: that it was ready for an edit, that it was not,
/// and that it was informed.
pub trait Gate {
    ghost use Rattle.std.specs.Prelude.{ℕ};

    ghost is_ready: { Self → ℕ → ℕ → Type 0 } = { λ _ _ _. Unit {0} };

    ghost is_shut: { Self → ℕ → ℕ → Type 0 } = { λ _ _ _. Unit {0} };

    ghost is_told: { Self → ℕ → ℕ → Type 0 } = { λ _ _ _. Unit {0} };

    fn ready(&self, site: u32, nth: u32) -> bool
        ensures ready { IsTrue result → is_ready self.now site nth }
        ensures shut { IsFalse result → is_shut self.now site nth };

    fn answered(&self, site: u32, nth: u32)
        ensures { is_told self.now site nth };
}

/// Lets all through.
#[derive(Clone, Copy, Debug)]
pub struct Open;

impl Gate for Open {
    ghost is_shut = { λ _ _ _. ⊥ };

    fn ready(&self, _site: u32, _nth: u32) -> bool {
        true
    }

    fn answered(&self, _site: u32, _nth: u32) {}
}

/// Asks a gate for an edit, and answers whether it was ready. If it is not, asks again after a yield, up to 100,000 times. What
/// has to be done before a wait is done before the gate is asked again.
pub fn pass_gate<G: Gate, F: FnOnce() + Drop>(
    gate: &G,
    site: u32,
    nth: u32,
    before_waiting: F,
) -> bool
    requires { F.IsAlwaysCallable before_waiting }
    ensures ready { IsTrue result → G.is_ready gate.now site nth }
    ensures shut { IsFalse result → G.is_shut gate.now site nth }
{
    if gate.ready(site, nth) {
        return true;
    }
    before_waiting();
    ask_again(gate, site, nth)
}

// Asks a gate that was not ready again, up to 100,000 times.
fn ask_again<G: Gate>(gate: &G, site: u32, nth: u32) -> bool
    ensures ready { IsTrue result → G.is_ready gate.now site nth }
    ensures shut { IsFalse result → G.is_shut gate.now site nth }
{
    for _ in 1..MOST_ASKED_AGAIN {
        yield_now();
        if gate.ready(site, nth) {
            return true;
        }
    }
    yield_now();
    gate.ready(site, nth)
}

/// Has the hub take the nth edit of a site once the gate is ready for it, and informs the gate once the hub has
/// answered, also if it refused. `None` if the gate stayed shut: then the hub was not called, and the gate was not
/// informed.
pub fn take_edit<R: Wait, G: Gate, F: FnOnce() + Drop>(
    rt: &R,
    alloc: Global,
    hub: &Hub,
    pass: &mut Pass,
    gate: &G,
    site: u32,
    nth: u32,
    up: &Up,
    before_waiting: F,
) -> Option<Result<Option<u32>, HubFault>>
    requires pass { IsPassOf hub.now pass.old }
    requires callable { F.IsAlwaysCallable before_waiting }
    ensures pass { IsPassOf hub.now pass.new }
    ensures ready { IsSome result → G.is_ready gate.now site nth }
    ensures shut { IsNone result → G.is_shut gate.now site nth }
    ensures told { IsSome result → G.is_told gate.now site nth }
    ensures answered { HasAnswered site up.now (view_of pass.old) (view_of pass.new) result }
{
    if !pass_gate(gate, site, nth, before_waiting) {
        return None;
    }
    let answer = hub.take(rt, alloc, pass, site, up);
    gate.answered(site, nth);
    Some(answer)
}
