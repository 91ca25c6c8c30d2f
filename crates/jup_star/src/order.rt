//! The edits that a star took, in order.
ghost use Rattle.std.specs.Prelude.{◌≡◌, ◌≤◌, ◌<◌, [], false, length, OnOk, OnErr, IfOk, IsOk};
ghost use Rattle.jup_batch.specs.Boards.{board_batches};
ghost use Rattle.jup_star.specs.Memory.{coming};
ghost use Rattle.jup_star.specs.Orders.{kept_entries, with_entry};
ghost use Rattle.jup_star.specs.Stars as star;

use crate::Entry;
use crate::count::Count;
use crate::edits::edits_of;
use crate::noted::Noted;
use crate::taken::Taken;
use jup_batch::{BoardBatch, BoardEdits};
use jup_link::Msg;
use jup_window::Within;
use jup_xform::NoMemory;
use std::alloc::Global;
use std::marker::{Model, PhantomData};
use std::snapshot::Snapshot;

/// The order of a star: its entries, or only how many there are. Contracts see all entries of both, and
/// `spare`, the number of further ones that there is room for.
#[derive(Drop)]
pub(crate) struct Order {
    entries: Entries,
    // The checker learns of the types within an entry from a field that names them.
    within: PhantomData<(Within, BoardEdits)>,
}

// What an order keeps.
#[derive(Drop)]
enum Entries {
    Kept(Vec<Entry>),
    Counted(Count),
}

/// An entry that is to come into an order: whole if the order keeps it, and otherwise seen by contracts alone.
#[derive(Drop)]
pub(crate) enum NewEntry {
    Whole(Entry),
    Noted(Noted),
}

impl Model for Order {
    ghost use Rattle.jup_batch.specs.Boards.{BoardEdits};
    ghost use Rattle.jup_star.specs.Orders.{RoomyOrder};

    ghost Value = { RoomyOrder BoardEdits };

    ghost use Rattle.jup_star.specs.Memory.{state_of, spare_of};

    ghost view = { λ o. record { state = state_of o.entries; spare = spare_of o.entries } };
}

impl Order {
    /// An order without entries, which keeps those that come or only counts them.
    pub(crate) fn new(alloc: Global, keeps: bool) -> Order
        ensures { result.state ≡ record { entries = []; keeps = keeps } }
    {
        Order {
            entries: if keeps {
                Entries::Kept(Vec::new(alloc))
            } else {
                Entries::Counted(Count {
                    count: 0,
                    taken: Taken::none(),
                })
            },
            within: PhantomData,
        }
    }

    pub(crate) fn len(&self) -> usize
        ensures { result ≡ length self.now.state.entries }
    {
        match &self.entries {
            Entries::Kept(entries) => entries.len(),
            Entries::Counted(counted) => counted.count,
        }
    }

    /// The entries that it keeps.
    pub(crate) fn as_slice(&self) -> &[Entry]
        ensures { result.now ≡ kept_entries self.now.state }
    {
        match &self.entries {
            Entries::Kept(entries) => entries,
            Entries::Counted(_) => &[],
        }
    }

    // Makes room for one entry. An order that only counts takes no memory.
    pub(crate) fn reserve_one(&mut self) -> Result<(), NoMemory>
        requires { length self.old.state.entries < 18446744073709551615 }
        ensures ok { OnOk result (1 ≤ self.new.spare) }
        ensures same { self.new.state ≡ self.old.state }
        ensures refused_without_room { OnErr result (self.old.spare ≡ 0) }
    {
        match &mut self.entries {
            Entries::Kept(entries) => entries.reserve(1).map_err(|_| NoMemory),
            Entries::Counted(_) => Ok(()),
        }
    }

    /// The entry of a site's message. An order that only counts takes no memory.
    pub(crate) fn entry_of(
        &self,
        alloc: Global,
        site: u32,
        msg: &Msg<BoardBatch>,
    ) -> Result<NewEntry, NoMemory>
        ensures entry { IfOk result (λ new. coming new ≡ record { entry = star.entry board_batches site msg.now; keeps = self.now.state.keeps }) }
        ensures counted { self.now.state.keeps ≡ false → IsOk result }
    {
        match &self.entries {
            Entries::Kept(_) => Ok(NewEntry::Whole(Entry {
                site,
                edit: edits_of(alloc, &msg.op)?,
            })),
            Entries::Counted(_) => Ok(NewEntry::Noted(Noted {
                site,
                msg: Snapshot::of(msg),
            })),
        }
    }

    // Puts an entry at the end. It takes no memory.
    pub(crate) fn push(&mut self, entry: NewEntry)
        requires room { 1 ≤ self.old.spare }
        requires keeps { (coming entry).keeps ≡ self.old.state.keeps }
        ensures { self.new.state ≡ with_entry (coming entry).entry self.old.state }
    {
        match (&mut self.entries, entry) {
            (Entries::Kept(entries), NewEntry::Whole(entry)) => entries.push_reserved(entry),
            (Entries::Counted(counted), NewEntry::Noted(last)) => {
                *counted = Count {
                    count: counted.count + 1,
                    taken: Taken::with(&counted.taken, &last),
                }
            }
            (Entries::Kept(_), NewEntry::Noted(_)) | (Entries::Counted(_), NewEntry::Whole(_)) => {
                unreachable!()
            }
        }
    }
}
