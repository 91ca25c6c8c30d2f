//! What a site does with the messages that the hub has for it.
ghost use Rattle.std.specs.Prelude.{◌≡◌, IfOk, [], IsFalse};
ghost use Rattle.jup_star.specs.Sites.{BoardSite};
ghost use Rattle.jup_hub.specs.Passes.{view_of, IsPassOf};
ghost use Rattle.jup_app.specs.Runs.{IsAccepted, AcceptsAll, delivered, all_delivered, link_with, Handles, Fetches, FoundNothing};

use crate::runs::calls::Caller;
use crate::runs::halt::Halt;
use jup_hub::Hub;
use jup_rules::MOST_FETCHED;
use jup_star::{Down, Site, Up};
use std::alloc::Global;
use std::sync::Wait;

// Delivers one message. An acknowledgement that is owed is kept.
fn deliver_one(alloc: Global, site: &mut Site, down: &Down, owed: &mut Vec<Up>) -> Result<(), Halt>
    ensures accepted { IfOk result (λ _. IsAccepted down.now (link_with site.old owed.old.items)) }
    ensures link { IfOk result (λ _. delivered down.now (link_with site.old owed.old.items) ≡ link_with site.new owed.new.items) }
{
    if let Some(up) = site.deliver(alloc, down)? {
        owed.push(up)?;
    }
    Ok(())
}

// Delivers messages in turn.
fn deliver_all(
    alloc: Global,
    site: &mut Site,
    downs: &[Down],
    owed: &mut Vec<Up>,
) -> Result<(), Halt>
    ensures accepted { IfOk result (λ _. AcceptsAll downs.now (link_with site.old owed.old.items)) }
    ensures link { IfOk result (λ _. all_delivered downs.now (link_with site.old owed.old.items) ≡ link_with site.new owed.new.items) }
{
    for down in downs {
        deliver_one(alloc, site, down, owed)?;
    }
    Ok(())
}

// Has the hub take messages in turn.
fn take_all<R: Wait>(
    rt: &R,
    alloc: Global,
    hub: &Hub,
    caller: &mut Caller,
    number: u32,
    owed: &[Up],
) -> Result<(), Halt>
    requires { IsPassOf hub.now caller.old.pass }
    ensures pass { IsPassOf hub.now caller.new.pass }
    ensures took { IfOk result (λ _. (s : BoardSite) → Handles number (view_of caller.old.pass) (view_of caller.new.pass) caller.old.calls caller.new.calls (link_with s owed.now) (link_with s [])) }
{
    for up in owed {
        caller.take(rt, alloc, hub, number, up)?;
    }
    Ok(())
}

/// Fetches and delivers the messages that there are, up to 64, and has the hub take what is owed for them.
/// Whether there were any.
pub(crate) fn receive<R: Wait>(
    rt: &R,
    alloc: Global,
    hub: &Hub,
    caller: &mut Caller,
    site: &mut Site,
    number: u32,
) -> Result<bool, Halt>
    requires { IsPassOf hub.now caller.old.pass }
    ensures pass { IsPassOf hub.now caller.new.pass }
    ensures handled { IfOk result (λ _. Handles number (view_of caller.old.pass) (view_of caller.new.pass) caller.old.calls caller.new.calls (link_with site.old []) (link_with site.new [])) }
    ensures fetched { IfOk result (λ _. Fetches number (view_of caller.old.pass) (view_of caller.new.pass)) }
    ensures nothing { IfOk result (λ some. IsFalse some → FoundNothing number (view_of caller.old.pass) (view_of caller.new.pass)) }
{
    let downs = caller.fetch(rt, alloc, hub, number, MOST_FETCHED)?;
    if downs.as_slice().is_empty() {
        return Ok(false);
    }
    let mut owed = Vec::new(alloc);
    deliver_all(alloc, site, downs.as_slice(), &mut owed)?;
    take_all(rt, alloc, hub, caller, number, owed.as_slice())?;
    Ok(true)
}
