//! The steps of a turn: to win it, to decide a call, to give it up.
ghost use Rattle.std.specs.Prelude.{◌≡◌, ◌+◌, ◌<◌, ◌^◌, [], Some, None, length, MatchOption};
ghost use Rattle.jup_star.specs.Stars.{reply_of, star_after};
ghost use Rattle.jup_hub.specs.Histories.{at_turn, having_called, having_seen, with_call};
ghost use Rattle.jup_hub.specs.Turns.{desk_after, whole, star_now, IsIdle, IsAtTurn, IsHubTable, Takes};

use crate::ask::Ask;
use crate::desk::Desk;
use crate::rule::{Decide, Deed, Give, See, Try, Turns};
use crate::view::View;
use atomic_table::{Seat, Shared};
use jup_star::{Star, StarFault};
use std::snapshot::Snapshot;
use std::sync::Wait;
use std::{hint, thread};

/// How often the turn is tried before the thread lets others run.
const TRIES: u32 = 64;

pub(crate) type HubTable = Shared<Option<Desk>, View, Snapshot<Star>, Turns>;

pub(crate) type HubSeat = Seat<Option<Desk>, View>;

// Tries once to win the turn, and takes the star out of its slot if it was free.
pub(crate) fn try_turn(table: &HubTable, seat: &mut HubSeat) -> Option<Desk>
    requires table { IsHubTable table.now.table_id × (seat.old.table_id ≡ table.now.table_id) }
    requires idle { IsIdle seat.old.me }
    ensures table { seat.new.table_id ≡ seat.old.table_id }
    ensures turn { MatchOption result (seat.new.me ≡ seat.old.me) (λ desk. Takes seat.old.me seat.new.me desk) }
{
    if table.compare_exchange::<Try>(seat, 1, 0, 1) != 0 {
        return None;
    }
    table.exchange(seat, 0, None)
}

// Tries some times in a row: a turn is short, and a core that is given away comes back late.
pub(crate) fn try_turns(table: &HubTable, seat: &mut HubSeat) -> Option<Desk>
    requires table { IsHubTable table.now.table_id × (seat.old.table_id ≡ table.now.table_id) }
    requires idle { IsIdle seat.old.me }
    ensures table { seat.new.table_id ≡ seat.old.table_id }
    ensures turn { MatchOption result (seat.new.me ≡ seat.old.me) (λ desk. Takes seat.old.me seat.new.me desk) }
{
    for _ in 0..TRIES {
        if let Some(desk) = try_turn(table, seat) {
            return Some(desk);
        }
        hint::spin_loop();
    }
    None
}

// Tries until the turn is won.
pub(crate) fn take_turn<R: Wait>(rt: &R, table: &HubTable, seat: &mut HubSeat) -> Desk
    requires table { IsHubTable table.now.table_id × (seat.old.table_id ≡ table.now.table_id) }
    requires idle { IsIdle seat.old.me }
    ensures table { seat.new.table_id ≡ seat.old.table_id }
    ensures turn { Takes seat.old.me seat.new.me result }
{
    for _ in rt.forever() {
        if let Some(desk) = try_turns(table, seat) {
            return desk;
        }
        thread::yield_now();
    }
    unreachable!()
}

// The pass that has the turn has then seen the history of all calls. The look leaves the table as it is.
pub(crate) fn see_all(table: &HubTable, seat: &mut HubSeat)
    requires table { IsHubTable table.now.table_id × (seat.old.table_id ≡ table.now.table_id) }
    requires turn { IsAtTurn seat.old.me }
    ensures table { seat.new.table_id ≡ seat.old.table_id }
    ensures seen { let v = seat.old.me.0 in seat.new.me ≡ (having_seen (whole v) v, seat.old.me.1) }
{
    table.load::<See>(seat, 0);
}

// Puts the star back into its slot, and gives the turn up.
pub(crate) fn give_turn(table: &HubTable, seat: &mut HubSeat, desk: Desk)
    requires table { IsHubTable table.now.table_id × (seat.old.table_id ≡ table.now.table_id) }
    requires turn { IsAtTurn seat.old.me }
    requires desk { desk ≡ desk_after seat.old.me.0.opening (whole seat.old.me.0) }
    ensures table { seat.new.table_id ≡ seat.old.table_id }
    ensures idle { seat.new.me ≡ (at_turn None seat.old.me.0, []) }
{
    table.exchange(seat, 0, Some(desk));
    table.store::<Give>(seat, 1, 0);
}

// Stores the count: from here on the call is one of the history.
fn decide<D: Deed>(table: &HubTable, seat: &mut HubSeat, next: u64)
    requires table { IsHubTable table.now.table_id × (seat.old.table_id ≡ table.now.table_id) }
    requires turn { IsAtTurn seat.old.me }
    requires next { next ≡ length (whole seat.old.me.0) + 1 }
    requires reply { D.reply ≡ reply_of D.call (star_now seat.old.me.0) }
    ensures table { seat.new.table_id ≡ seat.old.table_id }
    ensures called { let v = seat.old.me.0 in let log = whole v in
        seat.new.me ≡ (at_turn (Some (with_call log v D.call D.reply)) (having_called log D.call D.reply v), seat.old.me.1) }
{
    table.store::<Decide<D>>(seat, 0, next);
}

// Makes the answered call one of the history, and gives the turn up. The call and its answer are passed so
// that the proof can say which one the brand represents.
pub(crate) fn settle<A: Ask, D: Deed>(
    table: &HubTable,
    seat: &mut HubSeat,
    desk: Desk,
    ask: &A,
    answer: &Result<A::Answer, StarFault>,
)
    requires deed { (D.call ≡ A.call ask.now) × (D.reply ≡ A.reply answer.now) }
    requires table { IsHubTable table.now.table_id × (seat.old.table_id ≡ table.now.table_id) }
    requires turn { IsAtTurn seat.old.me }
    requires count { (desk.count ≡ length (whole seat.old.me.0)) × (desk.count + 1 < 2 ^ 64) }
    requires star { (D.reply ≡ reply_of D.call (star_now seat.old.me.0)) × (desk.star ≡ star_after D.call (star_now seat.old.me.0)) }
    ensures table { seat.new.table_id ≡ seat.old.table_id }
    ensures called { seat.new.me ≡ (at_turn None (having_called (whole seat.old.me.0) D.call D.reply seat.old.me.0), []) }
{
    let _ = ask;
    let _ = answer;
    let count = desk.count + 1;
    decide::<D>(table, seat, count);
    let star = desk.star;
    give_turn(table, seat, Desk { star, count });
}
