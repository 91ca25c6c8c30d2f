//! What the first pass of a run does before and after the sites' threads.
ghost use Rattle.std.specs.Prelude.{◌≡◌, ◌+◌, List, length, IfOk, IfSome, Ok, [], All, vec_len};
ghost use Rattle.jup_star.specs.declared.calls.Call.TheVariants.{Join};
ghost use Rattle.jup_star.specs.declared.calls.StarReply.TheVariants.{Joined as JoinedReply};
ghost use Rattle.jup_hub.specs.declared.view.HubEvent.{HubEvent};
ghost use Rattle.jup_hub.specs.Histories.{Called, joined_with};
ghost use Rattle.jup_hub.specs.Passes.{view_of, IsPassOf};
ghost use Rattle.jup_app.specs.Runs.{told_to, IsFresh, HasJoinedAll, HasMet, IsSame, IsSeated, HasTaken, end_of, first_stop};

use crate::runs::calls::Caller;
use crate::runs::drain::SiteEnd;
use crate::runs::halt::Halt;
use crate::runs::player::Player;
use jup_hub::Hub;
use jup_star::Site;
use std::alloc::Global;
use std::sync::Wait;

// Joins a site, and opens it with what it gets.
fn join_one<R: Wait>(rt: &R, alloc: Global, hub: &Hub, caller: &mut Caller) -> Result<Site, Halt>
    requires pass { IsPassOf hub.now caller.old.pass }
    ensures pass { IsPassOf hub.now caller.new.pass }
    ensures count { IfOk result (λ _. caller.new.calls ≡ caller.old.calls + 1) }
    ensures called { IfOk result (λ s. Called Join (JoinedReply (Ok (told_to s))) (view_of caller.old.pass) (view_of caller.new.pass)) }
    ensures fresh { IfOk result (λ s. IsFresh s) }
{
    let joined = caller.join_site(rt, alloc, hub)?;
    match Site::open(alloc, joined.site, joined.limit, joined.board) {
        Ok(site) => Ok(site),
        Err(_) => Err(Halt::RunBroken),
    }
}

/// Joins some sites.
pub(crate) fn join_all<R: Wait>(
    rt: &R,
    alloc: Global,
    hub: &Hub,
    caller: &mut Caller,
    count: usize,
) -> Result<Vec<Site>, Halt>
    requires pass { IsPassOf hub.now caller.old.pass }
    requires none { HasJoinedAll (view_of caller.old.pass) caller.old.calls [] }
    ensures pass { IsPassOf hub.now caller.new.pass }
    ensures len { IfOk result (λ v. vec_len v ≡ count) }
    ensures joined { IfOk result (λ v. HasJoinedAll (view_of caller.new.pass) caller.new.calls v.items) }
{
    let mut sites = Vec::new(alloc);
    for _k in 0..count {
        sites.push(join_one(rt, alloc, hub, caller)?)?;
    }
    Ok(sites)
}

/// A player for a site, with a pass of its own.
pub(crate) fn seat(alloc: Global, hub: &Hub, caller: &mut Caller, site: Site) -> Player
    requires { IsPassOf hub.now caller.old.pass }
    ensures pass { IsPassOf hub.now caller.new.pass }
    ensures same { IsSame (view_of caller.old.pass) (view_of caller.new.pass) }
    ensures calls { caller.new.calls ≡ caller.old.calls }
    ensures seated { (h : List HubEvent) → HasMet (view_of caller.old.pass) h → IsSeated hub.now h site result }
{
    let mut pass = hub.split(&mut caller.pass);
    // So the pass is known to have no call in what was there before.
    let _ = hub.news(&mut pass);
    Player {
        caller: Caller { pass, calls: 0 },
        number: site.number(),
        site,
        taken: 0,
        replies: Vec::new(alloc),
    }
}

// Why the first site that was stopped was stopped.
fn first_stop(results: &[Result<Player, Halt>]) -> Option<Halt>
    ensures { result ≡ first_stop results.now }
{
    for played in results {
        if let Err(stop) = played {
            return Some(*stop);
        }
    }
    None
}

/// Takes in the passes of players whose threads have ended. The first site that was stopped says why.
pub(crate) fn rejoin_all(
    alloc: Global,
    hub: &Hub,
    caller: &mut Caller,
    results: Vec<Result<Player, Halt>>,
) -> Result<Vec<SiteEnd>, Halt>
    requires pass { IsPassOf hub.now caller.old.pass }
    requires passes { All (λ r. IfOk r (λ p. IsPassOf hub.now p.caller.pass)) results.items }
    ensures pass { IsPassOf hub.now caller.new.pass }
    ensures stopped { IfSome (first_stop results.items) (λ stop. result ≡ Err stop) }
    ensures taken { IfOk result (λ ends. HasTaken (view_of caller.old.pass) (view_of caller.new.pass) caller.old.calls caller.new.calls results.items ends.items) }
{
    if let Some(stop) = first_stop(results.as_slice()) {
        return Err(stop);
    }
    let mut ends = Vec::new(alloc);
    for result in results {
        ends.push(rejoin(hub, caller, result?)?)?;
    }
    Ok(ends)
}

// Takes in the pass of one player.
fn rejoin(hub: &Hub, caller: &mut Caller, player: Player) -> Result<SiteEnd, Halt>
    requires one { IsPassOf hub.now caller.old.pass }
    requires two { IsPassOf hub.now player.caller.pass }
    ensures pass { IsPassOf hub.now caller.new.pass }
    ensures end { IfOk result (λ end. end ≡ end_of player) }
    ensures count { IfOk result (λ _. caller.new.calls ≡ caller.old.calls + player.caller.calls) }
    ensures view { view_of caller.new.pass ≡ joined_with (view_of caller.old.pass) (view_of player.caller.pass) }
{
    let Player {
        caller: Caller { pass, calls },
        number: _,
        site,
        taken: _,
        replies,
    } = player;
    hub.rejoin(&mut caller.pass, pass);
    let Some(total) = caller.calls.checked_add(calls) else {
        return Err(Halt::RunBroken);
    };
    caller.calls = total;
    Ok(SiteEnd { site, replies })
}
