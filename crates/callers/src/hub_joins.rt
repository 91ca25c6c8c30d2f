//! A hub: a site joins, whatever other threads do meanwhile.
ghost use Rattle.std.specs.Prelude.{◌≡◌, ◌+◌, ◌≤◌, length, IfOk, OnOk};
ghost use Rattle.jup_hub.specs.Passes.{view_of, IsPassOf};

use jup_hub::{Hub, HubFault, Pass};
use jup_star::Joined;
use std::alloc::Global;
use std::sync::Wait;

/// A site joins by a pass: it gets a number from 1 on, and the pass has made one more call.
pub fn join_hub<R: Wait>(
    rt: &R,
    alloc: Global,
    hub: &Hub,
    pass: &mut Pass,
) -> Result<Joined, HubFault>
    requires { IsPassOf hub.now pass.old }
    ensures pass { IsPassOf hub.now pass.new }
    ensures number { IfOk result (λ joined. 1 ≤ joined.site) }
    ensures one { OnOk result (length (view_of pass.new).made ≡ length (view_of pass.old).made + 1) }
{
    hub.join_site(rt, alloc, pass)
}
