//! What a hub is called for.
ghost use Rattle.std.specs.Prelude.{◌≡◌, ◌<◌, ◌↔◌, true, false, List, length, IfOk, IfErr, IsTrue};
ghost use Rattle.jup_star.specs.declared.calls.Call.TheVariants.{Join, Take, Fetch, Leave};
ghost use Rattle.jup_star.specs.declared.calls.StarReply.TheVariants.{Joined as JoinedReply, Taken, Fetched, Left};
ghost use Rattle.jup_batch.specs.Boards.{bare};
ghost use Rattle.jup_star.specs.Stars.{bare_joined};
ghost use Rattle.jup_hub.specs.declared.view.HubEvent.{HubEvent};
ghost use Rattle.jup_hub.specs.Histories.{star_through, AllApart, newcomer, after_split, split_from, joined_with, having_seen, longest, tallies, Meets, is_out_of_memory};
ghost use Rattle.jup_hub.specs.Passes.{opening_of, view_of, IsPassOf, Made};
ghost use Rattle.jup_hub.specs.Turns.{IsIdle, IsHubTable, Takes};

use crate::ask::Ask;
use crate::asks::{Fetching, Joining, Leaving, Taking};
use crate::desk::Desk;
use crate::doors::{Door, Doors};
use crate::fault::{HubFault, hub_answer, lacks_memory};
use crate::hub::{Closed, Hub, Pass};
use crate::rule::{Learn, Look, Passes};
use crate::turns::{HubSeat, give_turn, see_all, settle, take_turn, try_turn, try_turns};
use atomic_table::{Refused, Table};
use jup_star::{Downs, Joined, Star, StarFault, Up};
use jup_window::Board;
use std::alloc::{AllocFailed, Global};
use std::marker::Brand;
use std::snapshot::Snapshot;
use std::sync::{MutexGuard, Wait};

impl Hub {
    /// A hub over a star, with its first pass. If an allocation fails, it gives the star back.
    pub fn open(alloc: Global, star: Star) -> Result<(Hub, Pass), Star>
        ensures ok { IfOk result (λ r. (opening_of r.0 ≡ star) × IsPassOf r.0 r.1
            × (view_of r.1 ≡ newcomer star)) }
        ensures err { IfErr result (λ s. s ≡ star) }
    {
        let about = Snapshot::of(&star);
        let mut slots = Vec::new(alloc);
        if let Err(AllocFailed { value }) = slots.push(Some(Desk { star, count: 0 })) {
            let Some(desk) = value else { unreachable!() };
            return Err(desk.star);
        }
        match Table::new(alloc, &[0, 0], slots, &about) {
            Ok((table, seat)) => {
                let doors = Doors::new();
                Ok((Hub { table, doors }, Pass { seat, length: 0 }))
            }
            Err(Refused { mut slots }) => {
                let Some(Some(desk)) = slots.pop() else {
                    unreachable!()
                };
                Err(desk.star)
            }
        }
    }

    /// A new pass, for another thread. It has seen the same, and has made nothing. Its number is a path: k before n for the k-th
    /// pass that is split from pass n. So nobody else has it, and nobody has to be asked.
    pub fn split(&self, pass: &mut Pass) -> Pass
        requires { IsPassOf self.now pass.old }
        ensures passes { IsPassOf self.now pass.new × IsPassOf self.now result }
        ensures same { view_of pass.new ≡ after_split (view_of pass.old) }
        ensures new { view_of result ≡ split_from (view_of pass.old) }
    {
        let seat = self.table.shared.split_seat::<Passes>(&mut pass.seat);
        Pass {
            seat,
            length: pass.length,
        }
    }

    /// Takes in another pass: what it has seen, and its number and all that it took in, each with its calls.
    /// All these numbers differ.
    pub fn rejoin(&self, pass: &mut Pass, other: Pass)
        requires one { IsPassOf self.now pass.old }
        requires two { IsPassOf self.now other }
        ensures pass { IsPassOf self.now pass.new }
        ensures both { view_of pass.new ≡ joined_with (view_of pass.old) (view_of other) }
        ensures differ { AllApart (tallies (view_of pass.new)) }
    {
        let (seat, length) = other.into_parts();
        self.table.shared.join_seat::<Passes>(&mut pass.seat, seat);
        // That all numbers differ is learned from the table: the load changes no view.
        self.table.shared.load::<Learn>(&mut pass.seat, 0);
        pass.length = pass.length.max(length);
    }

    /// Gives a new site its number, the limit and a copy of the board. Like the next three it waits for the
    /// turn. `Spent` comes before all other refusals, which are the star's. Every answer is an event, except
    /// `Spent` and a failed allocation.
    pub fn join_site<R: Wait>(
        &self,
        rt: &R,
        alloc: Global,
        pass: &mut Pass,
    ) -> Result<Joined, HubFault>
        requires { IsPassOf self.now pass.old }
        ensures pass { IsPassOf self.now pass.new }
        ensures made { Made (λ r. JoinedReply (bare_joined r)) Join (view_of pass.old) (view_of pass.new) result }
    {
        self.act(rt, pass, &Joining { alloc })
    }

    /// Hands the star what a site sent up, and answers the place of an edit in the order, from 0.
    pub fn take<R: Wait>(
        &self,
        rt: &R,
        alloc: Global,
        pass: &mut Pass,
        site: u32,
        up: &Up,
    ) -> Result<Option<u32>, HubFault>
        requires { IsPassOf self.now pass.old }
        ensures pass { IsPassOf self.now pass.new }
        ensures made { Made (λ r. Taken r) (Take site up.now) (view_of pass.old) (view_of pass.new) result }
    {
        self.act(rt, pass, &Taking { alloc, site, up })
    }

    /// Takes up to `max` of the oldest messages out of a site's outbox.
    pub fn fetch<R: Wait>(
        &self,
        rt: &R,
        alloc: Global,
        pass: &mut Pass,
        site: u32,
        max: u32,
    ) -> Result<Downs, HubFault>
        requires { IsPassOf self.now pass.old }
        ensures pass { IsPassOf self.now pass.new }
        ensures made { Made (λ r. Fetched r) (Fetch site max) (view_of pass.old) (view_of pass.new) result }
    {
        self.act(rt, pass, &Fetching { alloc, site, max })
    }

    /// Detaches a site. It takes no memory.
    pub fn leave<R: Wait>(&self, rt: &R, pass: &mut Pass, site: u32) -> Result<(), HubFault>
        requires { IsPassOf self.now pass.old }
        ensures pass { IsPassOf self.now pass.new }
        ensures made { Made (λ r. Left r) (Leave site) (view_of pass.old) (view_of pass.new) result }
        ensures memory { is_out_of_memory result ≡ false }
    {
        self.act(rt, pass, &Leaving { site })
    }

    /// A copy of the star's board, as it is after all calls so far. The pass has then seen these calls. It waits for the turn, and is no
    /// event. It is refused only if an allocation fails.
    pub fn board<R: Wait>(&self, rt: &R, alloc: Global, pass: &mut Pass) -> Result<Board, HubFault>
        requires { IsPassOf self.now pass.old }
        ensures pass { IsPassOf self.now pass.new }
        ensures met { (log : List HubEvent) × Meets (view_of pass.old) log
            × (view_of pass.new ≡ having_seen log (view_of pass.old))
            × IfOk result (λ b. bare b ≡ (star_through (opening_of self.now) log).board) }
        ensures err { IfErr result (λ fault. fault ≡ HubFault.Star StarFault.NoMemory) }
    {
        let table = &self.table.shared;
        let (door, desk) = self.win_turn(rt, &mut pass.seat, Door::Others);
        see_all(table, &mut pass.seat);
        pass.length = desk.count;
        let copied = desk.star.board().copy(alloc);
        give_turn(table, &mut pass.seat, desk);
        drop(door);
        copied.map_err(|_| HubFault::Star(StarFault::NoMemory))
    }

    /// Whether there were events after all that the pass had seen. It has then seen them. This never waits.
    pub fn news(&self, pass: &mut Pass) -> bool
        requires { IsPassOf self.now pass.old }
        ensures pass { IsPassOf self.now pass.new }
        ensures met { (log : List HubEvent) × Meets (view_of pass.old) log
            × (view_of pass.new ≡ having_seen log (view_of pass.old))
            × (IsTrue result ↔ longest (view_of pass.old).seen < length log) }
    {
        let found = self.table.shared.load::<Look>(&mut pass.seat, 0);
        let is_longer = found > pass.length;
        pass.length = found;
        is_longer
    }

    /// The star, with the number of events since the hub was opened. Refused only if a turn is held: then hub
    /// and pass come back as they were.
    pub fn close(self, pass: Pass) -> Result<Closed, (Hub, Pass)>
        requires { IsPassOf self pass }
        ensures closed { IfOk result (λ r. (log : List HubEvent) × Meets (view_of pass) log
            × (r.star ≡ star_through (opening_of self) log)
            × (r.events ≡ length log)) }
        ensures held { IfErr result (λ r. (r.0 ≡ self) × IsPassOf r.0 r.1 × (view_of r.1 ≡ view_of pass)) }
    {
        let (mut seat, length) = pass.into_parts();
        match try_turn(&self.table.shared, &mut seat) {
            Some(desk) => Ok(Closed {
                star: desk.star,
                events: desk.count,
            }),
            None => Err((self, Pass { seat, length })),
        }
    }

    // Waits for the turn. A take tries for it before it goes to its door, whose guard comes with the turn; all others go there immediately.
    fn win_turn<R: Wait>(
        &self,
        rt: &R,
        seat: &mut HubSeat,
        door: Door,
    ) -> (Option<MutexGuard<'_, ()>>, Desk)
        requires table { IsHubTable self.now.table.shared.table_id × (seat.old.table_id ≡ self.now.table.shared.table_id) }
        requires idle { IsIdle seat.old.me }
        ensures table { seat.new.table_id ≡ seat.old.table_id }
        ensures turn { Takes seat.old.me seat.new.me result.1 }
    {
        let table = &self.table.shared;
        if door == Door::Takes {
            if let Some(desk) = try_turns(table, seat) {
                return (None, desk);
            }
        }
        let guard = self.doors.lock(rt, door);
        let desk = take_turn(rt, table, seat);
        (Some(guard), desk)
    }

    // Waits for the turn, makes one call on the star and gives the turn up.
    fn act<A: Ask, R: Wait>(&self, rt: &R, pass: &mut Pass, ask: &A) -> Result<A::Answer, HubFault>
        requires { IsPassOf self.now pass.old }
        ensures pass { IsPassOf self.now pass.new }
        ensures made { Made A.reply (A.call ask.now) (view_of pass.old) (view_of pass.new) result }
    {
        let table = &self.table.shared;
        let (door, mut desk) = self.win_turn(rt, &mut pass.seat, ask.door());
        if desk.count == u64::MAX {
            give_turn(table, &mut pass.seat, desk);
            return Err(HubFault::Spent);
        }
        let answer = ask.ask(&mut desk.star);
        if lacks_memory(&answer) {
            give_turn(table, &mut pass.seat, desk);
        } else {
            pass.length = desk.count + 1;
            settle::<A, Brand>(table, &mut pass.seat, desk, ask, &answer);
        }
        drop(door);
        hub_answer(answer)
    }
}
