//! A player for each script.
ghost use Rattle.std.specs.Prelude.{◌≡◌, List, length, IfOk, vec_len};
ghost use Rattle.jup_hub.specs.declared.view.HubEvent.{HubEvent};
ghost use Rattle.jup_hub.specs.Passes.{view_of, IsPassOf};
ghost use Rattle.jup_app.specs.Runs.{HasMet, IsSame, AreJobs};

use crate::runs::calls::Caller;
use crate::runs::halt::Halt;
use crate::runs::joiner::seat;
use crate::runs::threads::Job;
use jup_hub::Hub;
use jup_star::Site;
use jup_window::Command;
use std::alloc::Global;

/// Seats a player for each site with its script.
pub(crate) fn seat_all<'s>(
    alloc: Global,
    hub: &Hub,
    caller: &mut Caller,
    sites: Vec<Site>,
    scripts: &[&'s [Command]],
) -> Result<Vec<Job<'s>>, Halt>
    requires pass { IsPassOf hub.now caller.old.pass }
    requires as_many { length sites.items ≡ length scripts.now }
    ensures pass { IsPassOf hub.now caller.new.pass }
    ensures same { IsSame (view_of caller.old.pass) (view_of caller.new.pass) }
    ensures calls { caller.new.calls ≡ caller.old.calls }
    ensures len { IfOk result (λ v. length v.items ≡ length sites.items) }
    ensures seated { IfOk result (λ v. (h : List HubEvent) → HasMet (view_of caller.old.pass) h → AreJobs hub.now h sites.items scripts.now v.items) }
{
    let mut jobs = Vec::new(alloc);
    for site in sites {
        let player = seat(alloc, hub, caller, site);
        let script = scripts[jobs.len()];
        jobs.push(Job { player, script })?;
    }
    Ok(jobs)
}
