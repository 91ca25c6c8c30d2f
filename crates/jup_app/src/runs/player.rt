//! What a site's thread does.
ghost use Rattle.std.specs.Prelude.{◌≡◌, true, false, IfOk, IfErr, [], ◌∷◌};
ghost use Rattle.jup_star.specs.Sites.{is_edit_memory};
ghost use Rattle.jup_hub.specs.Passes.{view_of, IsPassOf};
ghost use Rattle.jup_app.specs.Runs.{link_with, Handles, CatchesUp, Answered, Played};

use crate::runs::calls::Caller;
use crate::runs::halt::Halt;
use crate::runs::receive::receive;
use jup_batch::BoardEdits;
use jup_hub::Hub;
use jup_session::Gate;
use jup_star::{Site, Up};
use jup_window::{Command, EditFault};
use std::alloc::Global;
use std::sync::Wait;

/// A site with its pass, and what its commands were answered.
#[derive(Drop)]
pub(crate) struct Player {
    pub(crate) caller: Caller,
    pub(crate) number: u32,
    pub(crate) site: Site,
    /// How many of its edits were taken.
    pub(crate) taken: u32,
    pub(crate) replies: Vec<Result<BoardEdits, EditFault>>,
}

// A fault that is an answer: all except a failed allocation.
fn decline(fault: EditFault) -> Result<EditFault, Halt>
    ensures answer { IfOk result (λ f. (f ≡ fault) × (is_edit_memory fault ≡ false)) }
    ensures stop { IfErr result (λ stop. (stop ≡ Halt.NoMemory) × (is_edit_memory fault ≡ true)) }
{
    match fault {
        EditFault::NoMemory => Err(Halt::NoMemory),
        fault => Ok(fault),
    }
}

impl Player {
    // Receives if there is news.
    fn catch_up<R: Wait>(&mut self, rt: &R, alloc: Global, hub: &Hub) -> Result<(), Halt>
        requires { IsPassOf hub.now self.old.caller.pass }
        ensures pass { IsPassOf hub.now self.new.caller.pass }
        ensures same { (self.new.number ≡ self.old.number) × (self.new.replies ≡ self.old.replies) }
        ensures handled { IfOk result (λ _. Handles self.old.number (view_of self.old.caller.pass) (view_of self.new.caller.pass) self.old.caller.calls self.new.caller.calls (link_with self.old.site []) (link_with self.new.site [])) }
        ensures caught { IfOk result (λ _. CatchesUp self.old.number (view_of self.old.caller.pass) (view_of self.new.caller.pass)) }
    {
        let is_late = hub.news(&mut self.caller.pass);
        if is_late {
            receive(
                rt,
                alloc,
                hub,
                &mut self.caller,
                &mut self.site,
                self.number,
            )?;
        }
        Ok(())
    }

    // Has the hub take an edit once the gate is ready, and then informs the gate.
    fn send<R: Wait, G: Gate>(
        &mut self,
        rt: &R,
        alloc: Global,
        hub: &Hub,
        gate: &G,
        up: &Up,
    ) -> Result<(), Halt>
        requires { IsPassOf hub.now self.old.caller.pass }
        ensures pass { IsPassOf hub.now self.new.caller.pass }
        ensures same { (self.new.number ≡ self.old.number) × (self.new.replies ≡ self.old.replies) × (self.new.site ≡ self.old.site) }
        ensures handled { IfOk result (λ _. Handles self.old.number (view_of self.old.caller.pass) (view_of self.new.caller.pass) self.old.caller.calls self.new.caller.calls (link_with self.old.site (up.now ∷ [])) (link_with self.new.site [])) }
    {
        let nth = self.taken.saturating_add(1);
        self.caller
            .take_edit(rt, alloc, hub, gate, self.number, nth, up)?;
        self.taken = nth;
        Ok(())
    }

    // One command.
    fn answer<R: Wait, G: Gate>(
        &mut self,
        rt: &R,
        alloc: Global,
        hub: &Hub,
        gate: &G,
        command: &Command,
    ) -> Result<(), Halt>
        requires { IsPassOf hub.now self.old.caller.pass }
        ensures pass { IsPassOf hub.now self.new.caller.pass }
        ensures number { self.new.number ≡ self.old.number }
        ensures answered { IfOk result (λ _. Answered self.old.number (view_of self.old.caller.pass) (view_of self.new.caller.pass) self.old.caller.calls self.new.caller.calls self.old.site self.new.site (command.now ∷ []) self.old.replies.items self.new.replies.items) }
        ensures caught { IfOk result (λ _. CatchesUp self.old.number (view_of self.old.caller.pass) (view_of self.new.caller.pass)) }
    {
        self.catch_up(rt, alloc, hub)?;
        match self.site.edit(alloc, command) {
            Ok(made) => {
                self.send(rt, alloc, hub, gate, &made.up)?;
                self.replies.push(Ok(made.edit))?;
                receive(
                    rt,
                    alloc,
                    hub,
                    &mut self.caller,
                    &mut self.site,
                    self.number,
                )?;
                Ok(())
            }
            Err(fault) => {
                self.replies.push(Err(decline(fault)?))?;
                Ok(())
            }
        }
    }

    /// Answers the commands of a script in turn.
    pub(crate) fn play<R: Wait, G: Gate>(
        &mut self,
        rt: &R,
        alloc: Global,
        hub: &Hub,
        gate: &G,
        script: &[Command],
    ) -> Result<(), Halt>
        requires pass { IsPassOf hub.now self.old.caller.pass }
        requires fresh { self.old.replies.items ≡ [] }
        ensures pass { IsPassOf hub.now self.new.caller.pass }
        ensures number { self.new.number ≡ self.old.number }
        ensures played { IfOk result (λ _. Played self.old.number (view_of self.old.caller.pass) (view_of self.new.caller.pass) self.old.caller.calls self.new.caller.calls self.old.site self.new.site script.now self.new.replies.items) }
    {
        for command in script {
            self.answer(rt, alloc, hub, gate, command)?;
        }
        Ok(())
    }
}
