//! Runs of a world, and its draining.
ghost use Rattle.std.specs.Prelude.{◌≡◌, ℕ, ◌<◌, ◌≤◌, length, map, Some, IsFalse, OnOk, OnErr, IfOk, IfErr};
ghost use Rattle.jup_batch.specs.Boards.{board_batches};
ghost use Rattle.jup_world.specs.Worlds.{IsQuiet, outcome};
ghost use Rattle.jup_world.specs.Insides.{lane_event};
ghost use Rattle.jup_world.specs.Traces.{OrderIsKept};
ghost use Rattle.jup_world.specs.Lanes.{Plain, LaneSite, messages_of, lane_site, IsStill, AllSteps, IsHalted, IsDelivered, IsDeliveredInPart};
ghost use Rattle.jup_world.specs.Drains.{IsDrained, IsRound, Sweeps, Visits, Delivers, way_event, Settles, MovesNothing, NothingMoves};
ghost use Rattle.jup_world.specs.declared.events.Reply.TheVariants.{Nothing};

use super::World;
use crate::Event;
use jup_window::Within;
use jup_xform::NoMemory;
use std::alloc::Global;
use std::marker::PhantomData;

/// An allocation failed in a run, after so many events, which remain.
#[derive(Clone, Copy, Debug, PartialEq, Eq)]
pub struct Halted {
    pub done: usize,
}

// The way that a message is moved.
#[derive(Clone, Copy)]
enum Way {
    Up,
    Down,
}

impl Way {
    // The delivery at a site.
    fn event(self, number: u32) -> Event
        ensures { lane_event result ≡ Plain (way_event self number) }
    {
        match self {
            Way::Up => Event::Up(number),
            Way::Down => Event::Down(number),
        }
    }
}

impl World {
    /// Plays events in turn.
    pub fn run(&mut self, alloc: Global, events: &[Event]) -> Result<(), Halted>
        ensures ok { OnOk result (AllSteps self.old (map lane_event events.now) self.new) }
        ensures done { IfErr result (λ halted. halted.done < length events.now) }
        ensures err { IfErr result (λ halted. IsHalted self.old (map lane_event events.now) halted.done self.new) }
        ensures order { OrderIsKept board_batches (messages_of self.old) (messages_of self.new) }
    {
        // The clause on order rests on what is so of every world.
        let _opened = &self.trace;
        self.play(alloc, events)
    }

    fn play(&mut self, alloc: Global, events: &[Event]) -> Result<(), Halted>
        ensures ok { OnOk result (AllSteps self.old (map lane_event events.now) self.new) }
        ensures done { IfErr result (λ halted. halted.done < length events.now) }
        ensures err { IfErr result (λ halted. IsHalted self.old (map lane_event events.now) halted.done self.new) }
    {
        for (done, event) in events.iter().enumerate() {
            let Ok(_reply) = self.step(alloc, event) else {
                return Err(Halted { done });
            };
        }
        Ok(())
    }

    /// Delivers all messages, in rounds. Each round calls `Up` for each attached site, ascending, until that
    /// answers `Nothing`, and then `Down` likewise. It ends after a round of `Nothing` alone. The trace has
    /// its events; if an allocation fails, it has those before the failure.
    pub fn drain(&mut self, alloc: Global) -> Result<(), NoMemory>
        ensures rounds { OnOk result (IsDrained self.old self.new) }
        ensures delivered { OnOk result (IsDelivered self.old self.new) }
        ensures quiet { OnOk result (IsStill self.new) }
        ensures err { OnErr result (IsDeliveredInPart self.old self.new) }
        ensures order { OrderIsKept board_batches (messages_of self.old) (messages_of self.new) }
    {
        // The clauses on order and quiet rest on what is so of every world.
        let _opened = &self.trace;
        self.settle(alloc)
    }

    // Rounds until nothing moves.
    fn settle(&mut self, alloc: Global) -> Result<(), NoMemory>
        ensures rounds { OnOk result (IsDrained self.old self.new) }
        ensures delivered { OnOk result (IsDelivered self.old self.new) }
        ensures quiet { OnOk result (IsQuiet board_batches (messages_of self.new)) }
        ensures err { OnErr result (IsDeliveredInPart self.old self.new) }
    {
        while self.round(alloc)? {}
        Ok(())
    }

    // Whether anything was moved.
    fn round(&mut self, alloc: Global) -> Result<bool, NoMemory>
        ensures round { IfOk result (λ moved. IsRound moved self.old self.new) }
        ensures moved { IfOk result (λ moved. Settles moved self.old self.new) }
        ensures quiet { IfOk result (λ moved. IsFalse moved → IsQuiet board_batches (messages_of self.new)) }
        ensures err { OnErr result (IsDeliveredInPart self.old self.new) }
    {
        let up = self.move_all(alloc, Way::Up)?;
        let down = self.move_all(alloc, Way::Down)?;
        let _opened = &self.trace;
        Ok(up | down)
    }

    // At each attached site.
    fn move_all(&mut self, alloc: Global, way: Way) -> Result<bool, NoMemory>
        ensures sweeps { IfOk result (λ moved. Sweeps way moved self.old self.new) }
        ensures moved { IfOk result (λ moved. Settles moved self.old self.new) }
        ensures nothing { IfOk result (λ moved. IsFalse moved → NothingMoves way (messages_of self.old)) }
        ensures err { OnErr result (IsDeliveredInPart self.old self.new) }
    {
        let mut moved = false;
        for before in 0..self.last_number() {
            moved |= self.exhaust(alloc, way, before + 1)?;
        }
        Ok(moved)
    }

    // The number of the attached site that joined last, or 0.
    fn last_number(&self) -> u32
        ensures { (i : ℕ) (a : LaneSite) → lane_site i self.now.sites ≡ Some a → (1 ≤ i) × (i ≤ result) }
    {
        match self.sites.last() {
            Some(attached) => attached.site.number(),
            None => 0,
        }
    }

    // Repeats a delivery at a site, if it is attached, until nothing is there.
    fn exhaust(&mut self, alloc: Global, way: Way, number: u32) -> Result<bool, NoMemory>
        ensures visits { IfOk result (λ moved. Visits way number moved (lane_site number self.old.sites) self.old self.new) }
        ensures moved { IfOk result (λ moved. Settles moved self.old self.new) }
        ensures nothing { IfOk result (λ moved. IsFalse moved → MovesNothing way number (messages_of self.old)) }
        ensures err { OnErr result (IsDeliveredInPart self.old self.new) }
    {
        if self.site(number).is_none() {
            return Ok(false);
        }
        let mut moved = false;
        while self.move_one(alloc, way, number)? {
            moved = true;
        }
        Ok(moved)
    }

    // Whether a delivery moved a message.
    fn move_one(&mut self, alloc: Global, way: Way, number: u32) -> Result<bool, NoMemory>
        ensures delivers { IfOk result (λ moved. Delivers way number moved self.old self.new) }
        ensures moved { IfOk result (λ moved. Settles moved self.old self.new) }
        ensures nothing { IfOk result (λ moved. IsFalse moved → (outcome board_batches (messages_of self.old) (way_event way number)).reply ≡ Nothing) }
        ensures err { OnErr result (IsDeliveredInPart self.old self.new) }
    {
        let _within: Within = PhantomData;
        let _opened = &self.trace;
        let reply = self.step(alloc, &way.event(number))?;
        Ok(!reply.is_nothing())
    }
}
