//! `jup_hub`: one star, shared by threads.
ghost use Rattle.jup_hub.specs.Passes.{IsPassOf};

use jup_hub::{Closed, Hub, HubFault, Pass};
use jup_star::{Downs, Joined, Star, Up};
use std::alloc::Global;
use std::sync::Wait;

/// The calls that wait for nobody: none takes a handle.
pub fn calls() {
    let _: fn(Global, Star) -> Result<(Hub, Pass), Star> = Hub::open;
    let _: fn(&Hub, &mut Pass) -> Pass = Hub::split;
    let _: fn(&Hub, &mut Pass, Pass) = Hub::rejoin;
    let _: fn(&Hub, &mut Pass) -> bool = Hub::news;
    let _: fn(Hub, Pass) -> Result<Closed, (Hub, Pass)> = Hub::close;
    let _: fn(HubFault) -> u32 = HubFault::number;
}

/// The fields of a hub that was closed.
pub fn closed(closed: Closed) -> (Star, u64) {
    (closed.star, closed.events)
}

/// `Hub::join_site`.
pub fn join_site<R: Wait>(
    hub: &Hub,
    rt: &R,
    alloc: Global,
    pass: &mut Pass,
) -> Result<Joined, HubFault>
    requires { IsPassOf hub.now pass.old }
{
    hub.join_site(rt, alloc, pass)
}

/// `Hub::take`.
pub fn take<R: Wait>(
    hub: &Hub,
    rt: &R,
    alloc: Global,
    pass: &mut Pass,
    site: u32,
    up: &Up,
) -> Result<Option<u32>, HubFault>
    requires { IsPassOf hub.now pass.old }
{
    hub.take(rt, alloc, pass, site, up)
}

/// `Hub::fetch`.
pub fn fetch<R: Wait>(
    hub: &Hub,
    rt: &R,
    alloc: Global,
    pass: &mut Pass,
    site: u32,
    max: u32,
) -> Result<Downs, HubFault>
    requires { IsPassOf hub.now pass.old }
{
    hub.fetch(rt, alloc, pass, site, max)
}

/// `Hub::leave`.
pub fn leave<R: Wait>(hub: &Hub, rt: &R, pass: &mut Pass, site: u32) -> Result<(), HubFault>
    requires { IsPassOf hub.now pass.old }
{
    hub.leave(rt, pass, site)
}
