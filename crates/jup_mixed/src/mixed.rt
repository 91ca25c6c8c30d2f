//! A star with one site of this product, and links of strangers, which send any messages.
ghost use Rattle.std.specs.Prelude.{◌≡◌, ◌⊎◌, ◌↔◌, ◌+◌, ◌∷◌, ◌++◌, ◌<◌, ◌≤◌, true, false, [], length, vec_len, None, Some, is_some, IsTrue, IfOk, IfErr, IfSome, OnOk, OnErr};
ghost use Rattle.std.specs.Vec.{vec_capacity};
ghost use Rattle.std.specs.Option.{option_map, option_copied};
ghost use Rattle.jup_window.specs.Entries.{EachWidget};
ghost use Rattle.jup_batch.specs.Boards.{bare, content, meaning, board_batches};
ghost use Rattle.jup_star.specs.Stars.{link_of, star_open_fault, IsShort};
ghost use Rattle.jup_star.specs.declared.faults.OpenFault.TheVariants as open_fault;
ghost use Rattle.jup_world.specs.Insides.{MakesFew};
ghost use Rattle.jup_mixed.specs.Mixed.{opened_mix, IsHomeQuiet, mix_outcome, mix_happens, mix_made, mix_view, MixReplies, MixOrderIsKept, most_edits, IsMixSpared, HomeAgrees};
ghost use Rattle.jup_world.specs.Sound.{edits_in};

use crate::happening::{copy_event, happen, most_edits};
use crate::{MixEvent, MixHappened};
use jup_batch::{BoardBatch, BoardEdits, Commands};
use jup_link::Msg;
use jup_seq::SeqOp;
use jup_setting::SetOp;
use jup_star::{OpenFault, Site, Star, Up, is_short};
use jup_window::{Board, BoardEdit, Value, Within};
use jup_world::{Attached, Reply, room_for};
use jup_xform::NoMemory;
use std::alloc::Global;
use std::marker::{Model, PhantomData};

/// A star with one site, number 1, whose streams lose nothing and keep their order, and with the links of
/// strangers, of whom nothing is known.
#[derive(Drop)]
pub struct Mixed {
    opening: Board,
    star: Star,
    site: Option<Attached>,
    trace: Vec<MixHappened>,
}

impl Model for Mixed {
    ghost use Rattle.jup_mixed.specs.Mixed.{IsMix, BoardMix};

    ghost Value = { BoardMix };

    ghost use Rattle.jup_mixed.specs.Mixed.{bare_mix};

    ghost view = { bare_mix };

    ghost invariant = { λ m. IsMix (bare_mix m) };
}

// The types within an event.
type WithinEvents = (
    Within,
    SeqOp<char>,
    SetOp<bool>,
    BoardBatch,
    Msg<BoardBatch>,
    Up,
    Commands,
    BoardEdits,
);

// What an event takes with it into the trace, made while an allocation may still fail: a copy of it, and room
// for the edits that it may make.
#[derive(Drop)]
struct Note {
    event: MixEvent,
    edits: Vec<BoardEdit>,
}

impl Note {
    fn of(alloc: Global, event: &MixEvent) -> Result<Note, NoMemory>
        ensures event { IfOk result (λ note. note.event ≡ event.now) }
        ensures empty { IfOk result (λ note. note.edits.items ≡ []) }
        ensures room { IfOk result (λ note. (most_edits event.now ≤ 1) ⊎ (most_edits event.now ≤ vec_capacity note.edits)) }
    {
        Ok(Note {
            event: copy_event(alloc, event)?,
            edits: room_for(alloc, most_edits(event))?,
        })
    }
}

// Puts an event with its reply at the end of a trace that has room for it.
fn keep(trace: &mut Vec<MixHappened>, note: Note, reply: &Reply)
    requires room { vec_len trace.old < vec_capacity trace.old }
    requires empty { note.edits.items ≡ [] }
    requires edits { MakesFew reply.now (vec_capacity note.edits) }
    ensures { trace.new.items ≡ trace.old.items ++ record { event = note.event; reply = reply.now } ∷ [] }
{
    // The checker learns of the types within an event from this.
    let _within: PhantomData<WithinEvents> = PhantomData;
    trace.push_reserved(MixHappened {
        event: note.event,
        reply: reply.copy_into(note.edits),
    });
}

impl Mixed {
    /// A star over a board whose texts and lists have at most 65,536 items each, which [`is_short`] tests,
    /// with site 1 and no stranger. Refused, in this order: a limit that is not 1 to 16,777,216, a board with
    /// an item that is not of a layout, whose items have site 0, no memory.
    pub fn open(alloc: Global, board: Board, limit: u32) -> Result<Mixed, OpenFault>
        requires short { EachWidget IsShort board }
        ensures opened { IfOk result (λ mixed. mixed ≡ opened_mix board_batches (bare board) limit) }
        ensures accepts { OnOk result (star_open_fault (bare board) limit ≡ None) }
        ensures refusal { IfErr result (λ fault. ((fault ≡ open_fault.NoMemory) × (star_open_fault (bare board) limit ≡ None))
            ⊎ (star_open_fault (bare board) limit ≡ Some fault)) }
    {
        // It says that no two items of a widget have one name, on which all that follows rests.
        let _short = is_short(&board);
        let mut star = Star::open(alloc, board, limit)?;
        let opening = star.board().copy(alloc)?;
        let Ok(joined) = star.join(alloc) else {
            return Err(OpenFault::NoMemory);
        };
        let site = Site::open(alloc, joined.site, joined.limit, joined.board).unwrap();
        Ok(Mixed {
            opening,
            star,
            site: Some(Attached::new(alloc, site)),
            trace: Vec::new(alloc),
        })
    }

    /// Plays one event, and puts it with its reply at the end of the trace. If an allocation fails, all is as
    /// it was, except that `Down` may have fetched the oldest message of the site's outbox into its down
    /// stream.
    pub fn step(&mut self, alloc: Global, event: &MixEvent) -> Result<Reply, NoMemory>
        ensures reply { IfOk result (λ reply. reply ≡ (mix_outcome board_batches self.old event.now).reply) }
        ensures withheld { OnOk result (MixReplies board_batches self.old event.now (mix_outcome board_batches self.old event.now)) }
        ensures ok { OnOk result (self.new ≡ mix_happens board_batches self.old event.now) }
        ensures err { OnErr result (IsMixSpared self.old event.now self.new) }
        ensures order { OnOk result (MixOrderIsKept board_batches self.old self.new) }
    {
        // The checker learns of the types within an event from this.
        let _within: PhantomData<WithinEvents> = PhantomData;
        self.trace.reserve(1).map_err(|_| NoMemory)?;
        let note = Note::of(alloc, event)?;
        let reply = happen(alloc, &mut self.star, &mut self.site, event)?;
        keep(&mut self.trace, note, &reply);
        Ok(reply)
    }

    /// The board that it was opened with.
    pub fn opening(&self) -> &Board
        ensures { bare result.now ≡ self.now.opening }
    {
        &self.opening
    }

    /// The star. At every moment its content is what its order means.
    pub fn star(&self) -> &Star
        ensures star { result.now ≡ self.now.star }
        ensures content { content result.now.board ≡ meaning (content self.now.opening) (edits_in board_batches result.now.order) }
        ensures keeps { result.now.keeps ≡ true }
    {
        &self.star
    }

    /// What has happened, oldest first.
    pub fn trace(&self) -> &[MixHappened]
        ensures { result.now ≡ self.now.trace }
    {
        &self.trace
    }

    /// Site 1. It is attached exactly if it has a link at the star, and then has not stopped. At every moment
    /// its content is the meaning of the entries that have reached it, and of its own edits that are not
    /// among them. It made the edits that the trace says. Its backlog is those of them of which it does not
    /// know that the star took them.
    pub fn site(&self) -> Option<&Site>
        ensures site { option_copied result ≡ option_map (λ a. a.site) self.now.site }
        ensures attached { is_some result ≡ is_some (link_of 1 self.now.star.links) }
        ensures number { IfSome result (λ site. site.now.number ≡ 1) }
        ensures running { IfSome result (λ site. site.now.stopped ≡ false) }
        ensures made { IfSome result (λ site. site.now.made ≡ length (mix_made self.now.trace)) }
        ensures backlog { IfSome result (λ site. site.now.made ≡ site.now.end.acknowledged + length site.now.end.outgoing) }
        ensures content { IfSome result (λ site. content site.now.board ≡ meaning (content self.now.opening) (mix_view self.now.star.order self.now.trace)) }
    {
        match &self.site {
            Some(home) => Some(&home.site),
            None => None,
        }
    }

    /// Whether no message is on its way from site 1 or to it. Then its board is the star's, and the order
    /// has each of its edits once, in its order.
    pub fn quiet(&self) -> bool
        ensures quiet { IsTrue result ↔ IsHomeQuiet board_batches self.now }
        ensures agree { IsTrue result → HomeAgrees self.now }
    {
        match &self.site {
            Some(home) => home.is_quiet(&self.star),
            None => true,
        }
    }
}
