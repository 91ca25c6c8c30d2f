//! How a site leaves for which much may wait.
ghost use Rattle.std.specs.Prelude.{◌≡◌, ◌∷◌, [], ◌≤◌, IsTrue, IsFalse, List, length};
ghost use Rattle.jup_hub.specs.Passes.{view_of, IsPassOf};
ghost use Rattle.jup_rules.specs.Sessions.{most_fetched};
ghost use Rattle.jup_session.specs.Prelude.{BoardBatch, Down as DownMessage};
ghost use Rattle.jup_session.specs.Sessions.{Acknowledges, Departs, GivesAll, GivesLast, GivesSome, Leaves, Returns, received_with, said_received};

use jup_hub::{Hub, Pass};
use jup_rules::{MOST_FETCHED, is_last_fetch};
use jup_star::{Down, Up};
use std::alloc::Global;
use std::sync::Wait;

/// Has a site leave. What it held is given back before that, some of it in each turn, so that others get theirs between.
pub(crate) fn leave<R: Wait>(rt: &R, alloc: Global, hub: &Hub, pass: &mut Pass, site: u32)
    requires { IsPassOf hub.now pass.old }
    ensures pass { IsPassOf hub.now pass.new }
    ensures departs { Departs site (view_of pass.old) (view_of pass.new) }
    ensures leaves { Leaves site (view_of pass.old) (view_of pass.new) }
{
    give_back(rt, alloc, hub, pass, site);
    let _ = hub.leave(rt, pass, site);
}

// Gives back what waits for a site. If an allocation fails, the star drops the rest as the site leaves.
fn give_back<R: Wait>(rt: &R, alloc: Global, hub: &Hub, pass: &mut Pass, site: u32)
    requires { IsPassOf hub.now pass.old }
    ensures pass { IsPassOf hub.now pass.new }
    ensures gives { Returns site 0 (view_of pass.old) (view_of pass.new) }
    ensures all { GivesAll site (view_of pass.old) (view_of pass.new) }
{
    for _ in rt.forever() {
        if !give_some(rt, alloc, hub, pass, site) {
            return;
        }
    }
    unreachable!()
}

// Fetches messages, and drops them outside the turn. Whether more may wait.
fn give_some<R: Wait>(rt: &R, alloc: Global, hub: &Hub, pass: &mut Pass, site: u32) -> bool
    requires { IsPassOf hub.now pass.old }
    ensures pass { IsPassOf hub.now pass.new }
    ensures gives { Returns site 0 (view_of pass.old) (view_of pass.new) }
    ensures some { IsTrue result → (downs : List (DownMessage BoardBatch)) × (most_fetched ≤ length downs) × GivesSome site (view_of pass.old) (view_of pass.new) downs }
    ensures last { IsFalse result → GivesLast site (view_of pass.old) (view_of pass.new) }
{
    let Ok(downs) = hub.fetch(rt, alloc, pass, site, MOST_FETCHED) else {
        return false;
    };
    acknowledge(rt, alloc, hub, pass, site, downs.as_slice());
    !is_last_fetch(downs.as_slice().len())
}

// Acknowledges messages in the place of the site, which will never receive them: the star keeps each edit until then.
fn acknowledge<R: Wait>(
    rt: &R,
    alloc: Global,
    hub: &Hub,
    pass: &mut Pass,
    site: u32,
    downs: &[Down],
)
    requires { IsPassOf hub.now pass.old }
    ensures pass { IsPassOf hub.now pass.new }
    ensures gives { Returns site (received_with downs.now) (view_of pass.old) (view_of pass.new) }
    ensures acknowledged { Acknowledges site (said_received downs.now) (view_of pass.old) (view_of pass.new) }
{
    let count = received_with(downs);
    if count == 0 {
        return;
    }
    let _ = hub.take(rt, alloc, pass, site, &Up::Ack(count));
}

// How many messages the site has received once it received these, by the numbers of the edits among them.
fn received_with(downs: &[Down]) -> u32
    ensures { result ≡ said_received downs.now }
{
    let mut received = 0;
    for down in downs {
        received = received_by(down).max(received);
    }
    received
}

// The same by one message.
fn received_by(down: &Down) -> u32
    ensures { result ≡ said_received (down.now ∷ []) }
{
    match down {
        Down::Op(msg) => msg.mine.saturating_add(1),
        Down::Ack(_) | Down::Pong(_) => 0,
    }
}
