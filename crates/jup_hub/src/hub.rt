//! The hub and its passes.
ghost use Rattle.std.specs.Prelude.{◌≡◌, [], None, true};
ghost use Rattle.jup_hub.specs.Histories.{longest};

use crate::desk::Desk;
use crate::doors::Doors;
use crate::rule::Turns;
use crate::view::View;
use atomic_table::{Seat, Table};
use jup_star::Star;
use std::alloc::Global;
use std::snapshot::Snapshot;

/// A star that threads share.
///
/// Each call on it, refused or not, is one event of one history of all calls, unless an allocation fails or
/// the count of events is spent. Each thread calls with a [`Pass`] of its own.
pub struct Hub {
    pub(crate) table: Table<Option<Desk>, View, Snapshot<Star>, Turns, Global>,
    pub(crate) doors: Doors,
    ghost two_words: { table.shared.table_id.words ≡ 2 },
    ghost one_slot: { table.shared.table_id.slots ≡ 1 },
}

// Written out: a crate that drops a hub then proves one call. It would prove a derived drop again, and those of all parts.
impl Drop for Hub {
    fn drop(self) {
        let Hub { table: _, doors: _ } = self;
    }
}

/// What a thread calls a hub with. Its [`View`] says what it has seen and made.
pub struct Pass {
    pub(crate) seat: Seat<Option<Desk>, View>,
    /// How long the longest history is that it has seen.
    pub(crate) length: u64,
    ghost is_idle: { (seat.me.1 ≡ []) × (seat.me.0.turn ≡ None) × (seat.me.0.is_live ≡ true) },
    ghost length_is: { length ≡ longest seat.me.0.seen },
}

// Written out: a crate that drops a pass then proves one call. It would prove a derived drop again, and those of all parts.
impl Drop for Pass {
    fn drop(self) {
        let Pass { seat: _, length: _ } = self;
    }
}

impl Pass {
    // Its seat, and how long the longest history is that it has seen.
    pub(crate) fn into_parts(self) -> (Seat<Option<Desk>, View>, u64)
        ensures seat { result.0 ≡ self.seat }
        ensures length { result.1 ≡ self.length }
    {
        let Pass { seat, length } = self;
        (seat, length)
    }
}

/// What is left of a closed hub.
#[derive(Drop)]
pub struct Closed {
    pub star: Star,
    /// How many events there were since the hub was opened.
    pub events: u64,
}
