//! A pass that counts its calls.
ghost use Rattle.std.specs.Prelude.{◌≡◌, ◌⊎◌, ◌+◌, IfOk, Ok, Err};
ghost use Rattle.jup_star.specs.declared.calls.Call.TheVariants.{Join, Take, Fetch};
ghost use Rattle.jup_star.specs.declared.calls.StarReply.TheVariants.{Joined as JoinedReply, Taken, Fetched};
ghost use Rattle.jup_star.specs.Stars.{bare_joined};
ghost use Rattle.jup_hub.specs.Passes.{view_of, IsPassOf};
ghost use Rattle.jup_hub.specs.Histories.{Called};

use crate::runs::halt::Halt;
use jup_hub::{Hub, Pass};
use jup_session::{Gate, take_edit};
use jup_star::{Downs, Joined, Up};
use std::alloc::Global;
use std::sync::Wait;

/// A pass, and how many calls it made.
#[derive(Drop)]
pub(crate) struct Caller {
    pub(crate) pass: Pass,
    pub(crate) calls: u64,
}

impl Caller {
    // One more call.
    fn count(&mut self) -> Result<(), Halt>
        ensures pass { self.new.pass ≡ self.old.pass }
        ensures more { IfOk result (λ _. self.new.calls ≡ self.old.calls + 1) }
    {
        if self.calls == u64::MAX {
            return Err(Halt::RunBroken);
        }
        self.calls += 1;
        Ok(())
    }

    /// A site joins.
    pub(crate) fn join_site<R: Wait>(
        &mut self,
        rt: &R,
        alloc: Global,
        hub: &Hub,
    ) -> Result<Joined, Halt>
        requires { IsPassOf hub.now self.old.pass }
        ensures pass { IsPassOf hub.now self.new.pass }
        ensures count { IfOk result (λ _. self.new.calls ≡ self.old.calls + 1) }
        ensures called { IfOk result (λ j. Called Join (JoinedReply (bare_joined (Ok j))) (view_of self.old.pass) (view_of self.new.pass)) }
    {
        let joined = hub.join_site(rt, alloc, &mut self.pass)?;
        self.count()?;
        Ok(joined)
    }

    /// The hub takes a message of a site.
    pub(crate) fn take<R: Wait>(
        &mut self,
        rt: &R,
        alloc: Global,
        hub: &Hub,
        site: u32,
        up: &Up,
    ) -> Result<Option<u32>, Halt>
        requires { IsPassOf hub.now self.old.pass }
        ensures pass { IsPassOf hub.now self.new.pass }
        ensures count { IfOk result (λ _. self.new.calls ≡ self.old.calls + 1) }
        ensures called { IfOk result (λ p. Called (Take site up.now) (Taken (Ok p)) (view_of self.old.pass) (view_of self.new.pass)) }
    {
        let place = hub.take(rt, alloc, &mut self.pass, site, up)?;
        self.count()?;
        Ok(place)
    }

    /// Has the hub take an edit of a site once the gate is ready for it, and informs the gate once the hub has answered, also if it
    /// refused.
    pub(crate) fn take_edit<R: Wait, G: Gate>(
        &mut self,
        rt: &R,
        alloc: Global,
        hub: &Hub,
        gate: &G,
        site: u32,
        nth: u32,
        up: &Up,
    ) -> Result<Option<u32>, Halt>
        requires { IsPassOf hub.now self.old.pass }
        ensures pass { IsPassOf hub.now self.new.pass }
        ensures count { IfOk result (λ _. self.new.calls ≡ self.old.calls + 1) }
        ensures called { IfOk result (λ p. Called (Take site up.now) (Taken (Ok p)) (view_of self.old.pass) (view_of self.new.pass)) }
        ensures told { (result ≡ Err Halt.GateShut) ⊎ G.is_told gate.now site nth }
    {
        let Some(answer) = take_edit(rt, alloc, hub, &mut self.pass, gate, site, nth, up, || {})
        else {
            return Err(Halt::GateShut);
        };
        let place = answer?;
        self.count()?;
        Ok(place)
    }

    /// The hub gives messages for a site.
    pub(crate) fn fetch<R: Wait>(
        &mut self,
        rt: &R,
        alloc: Global,
        hub: &Hub,
        site: u32,
        max: u32,
    ) -> Result<Downs, Halt>
        requires { IsPassOf hub.now self.old.pass }
        ensures pass { IsPassOf hub.now self.new.pass }
        ensures count { IfOk result (λ _. self.new.calls ≡ self.old.calls + 1) }
        ensures called { IfOk result (λ ds. Called (Fetch site max) (Fetched (Ok ds)) (view_of self.old.pass) (view_of self.new.pass)) }
    {
        let downs = hub.fetch(rt, alloc, &mut self.pass, site, max)?;
        self.count()?;
        Ok(downs)
    }
}
