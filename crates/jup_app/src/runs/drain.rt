//! All sites are drained.
ghost use Rattle.std.specs.Prelude.{◌≡◌, length, IfOk, IsFalse};
ghost use Rattle.jup_hub.specs.Passes.{view_of, IsPassOf};
ghost use Rattle.jup_app.specs.Runs.{Drained, EndsQuiet, IsDrained};

use crate::runs::calls::Caller;
use crate::runs::halt::Halt;
use crate::runs::receive::receive;
use jup_batch::BoardEdits;
use jup_hub::Hub;
use jup_star::Site;
use jup_window::EditFault;
use std::alloc::Global;
use std::sync::Wait;

/// A site at the end of a run, with what each command of its script was answered. The sites are in the order of their scripts, and each
/// `Site` has its number.
#[derive(Drop)]
pub struct SiteEnd {
    pub site: Site,
    pub replies: Vec<Result<BoardEdits, EditFault>>,
}

// Receives once for each site. Whether there was anything.
fn drain_once<R: Wait>(
    rt: &R,
    alloc: Global,
    hub: &Hub,
    caller: &mut Caller,
    ends: &mut [SiteEnd],
) -> Result<bool, Halt>
    requires { IsPassOf hub.now caller.old.pass }
    ensures pass { IsPassOf hub.now caller.new.pass }
    ensures drained { IfOk result (λ _. Drained (view_of caller.old.pass) (view_of caller.new.pass) caller.old.calls caller.new.calls ends.old ends.new) }
    ensures quiet { IfOk result (λ some. IsFalse some → EndsQuiet ends.old (length ends.old) (view_of caller.old.pass) (view_of caller.new.pass)) }
{
    let mut came = false;
    for k in 0..ends.len() {
        let end = &mut ends[k];
        let number = end.site.number();
        if receive(rt, alloc, hub, caller, &mut end.site, number)? {
            came = true;
        }
    }
    Ok(came)
}

/// Receives for all sites until there is nothing.
pub(crate) fn drain<R: Wait>(
    rt: &R,
    alloc: Global,
    hub: &Hub,
    caller: &mut Caller,
    ends: &mut [SiteEnd],
) -> Result<(), Halt>
    requires { IsPassOf hub.now caller.old.pass }
    ensures pass { IsPassOf hub.now caller.new.pass }
    ensures drained { IfOk result (λ _. IsDrained (view_of caller.old.pass) (view_of caller.new.pass) caller.old.calls caller.new.calls ends.old ends.new) }
{
    for _ in rt.forever() {
        if !drain_once(rt, alloc, hub, caller, ends)? {
            return Ok(());
        }
    }
    unreachable!()
}
