//! A star with its sites and the messages on their way between them, and what has happened.
ghost use Rattle.std.specs.Prelude.{◌≡◌, ◌⊎◌, ◌↔◌, ◌+◌, ◌<◌, ◌≤◌, true, false, [], ◌∷◌, ◌++◌, length, vec_len, None, Some, is_some, map, IsTrue, IfOk, IfErr, IfSome, OnOk, OnErr};
ghost use Rattle.std.specs.Vec.{vec_capacity};
ghost use Rattle.std.specs.Option.{option_copied, option_map};
ghost use Rattle.jup_window.specs.Entries.{EachWidget};
ghost use Rattle.jup_batch.specs.Boards.{bare, content, meaning, board_batches};
ghost use Rattle.jup_star.specs.Stars.{link_of, star_open_fault, IsShort};
ghost use Rattle.jup_star.specs.declared.faults.OpenFault.TheVariants as open_fault;
ghost use Rattle.jup_world.specs.Traces.{turns, edits, made, numbers_given, OrderIsKept};
ghost use Rattle.jup_world.specs.Boards.{order_of, view, AllAgree};
ghost use Rattle.jup_world.specs.Insides.{lane_event, noted_trace, most_edits, MakesFew, lane_of};
ghost use Rattle.jup_world.specs.Lanes.{messages_of, plain_trace, lane_site, opened_lanes, IsStill, lane_outcome, Steps, AnswersTo, IsSparedBy};

use self::attached::are_quiet;
use self::happening::happen;
use crate::{Event, Happened, Reply, room_for};
use jup_star::{OpenFault, Site, Star, is_short};
use jup_window::{Board, BoardEdit, Command, Value, Within};
use jup_xform::NoMemory;
use std::alloc::Global;
use std::marker::{Model, PhantomData};

mod attached;
mod draining;
mod happening;
mod refusals;

pub use attached::Attached;
pub use draining::Halted;
pub use refusals::star_refusal;

/// A star, the sites that are attached to it, and for each the two ways of its link, as bytes.
///
/// Its links lose nothing and keep their order: a stream is a list of bytes that is appended at one end and
/// read at the other.
#[derive(Drop)]
pub struct World {
    opening: Board,
    star: Star,
    sites: Vec<Attached>,
    trace: Vec<Happened>,
}

impl Model for World {
    ghost use Rattle.jup_world.specs.Lanes.{LaneWorld};
    ghost use Rattle.jup_world.specs.Happenings.{IsLaneWorld};

    ghost Value = { LaneWorld };

    ghost use Rattle.jup_world.specs.Insides.{bare_world};

    ghost view = { bare_world };

    ghost invariant = { λ w. IsLaneWorld (bare_world w) };
}

// Room for what an event leaves in the trace, made while an allocation may still fail: for its commands, and
// for the edits of its reply.
#[derive(Drop)]
struct Room {
    commands: Vec<Command>,
    edits: Vec<BoardEdit>,
}

impl Room {
    fn of(alloc: Global, event: &Event) -> Result<Room, NoMemory>
        ensures no_commands { IfOk result (λ room. room.commands.items ≡ []) }
        ensures no_edits { IfOk result (λ room. room.edits.items ≡ []) }
        ensures commands { IfOk result (λ room. (most_edits event.now ≤ 1) ⊎ (most_edits event.now ≤ vec_capacity room.commands)) }
        ensures edits { IfOk result (λ room. (most_edits event.now ≤ 1) ⊎ (most_edits event.now ≤ vec_capacity room.edits)) }
    {
        let most = event.most_edits();
        Ok(Room {
            commands: room_for(alloc, most)?,
            edits: room_for(alloc, most)?,
        })
    }
}

// Puts an event with its reply at the end of a trace that has room for it.
fn keep(trace: &mut Vec<Happened>, room: Room, event: &Event, reply: &Reply)
    requires room { vec_len trace.old < vec_capacity trace.old }
    requires no_commands { room.commands.items ≡ [] }
    requires no_edits { room.edits.items ≡ [] }
    requires commands { (most_edits event.now ≤ 1) ⊎ (most_edits event.now ≤ vec_capacity room.commands) }
    requires edits { MakesFew reply.now (vec_capacity room.edits) }
    ensures { noted_trace trace.new.items
        ≡ noted_trace trace.old.items ++ record { event = lane_event event.now; reply = reply.now } ∷ [] }
{
    let _within: Within = PhantomData;
    trace.push_reserved(Happened {
        event: event.copy_into(room.commands),
        reply: reply.copy_into(room.edits),
    });
}

impl World {
    /// A world without sites, over a board whose texts and lists have at most 65,536 items each, which
    /// [`is_short`] tests. Refused, in this order: a limit that is not 1 to 16,777,216, a board with an item
    /// that is not of a layout, whose items have site 0, no memory.
    pub fn open(alloc: Global, board: Board, limit: u32) -> Result<World, OpenFault>
        requires short { EachWidget IsShort board }
        ensures opened { IfOk result (λ world. world ≡ opened_lanes (bare board) limit) }
        ensures accepts { OnOk result (star_open_fault (bare board) limit ≡ None) }
        ensures refusal { IfErr result (λ fault. ((fault ≡ open_fault.NoMemory) × (star_open_fault (bare board) limit ≡ None))
            ⊎ (star_open_fault (bare board) limit ≡ Some fault)) }
    {
        // It says that no two items of a widget have one name, on which all that follows rests.
        let _short = is_short(&board);
        let star = Star::open(alloc, board, limit)?;
        let opening = match star.board().copy(alloc) {
            Err(NoMemory) => return Err(OpenFault::NoMemory),
            Ok(opening) => opening,
        };
        Ok(World {
            opening,
            star,
            sites: Vec::new(alloc),
            trace: Vec::new(alloc),
        })
    }

    /// Plays one event, and puts it with its reply at the end of the trace. If an allocation fails, all is as
    /// it was, except on the link of the event's site. `Up`, `Down` and `PushDown` may have moved bytes on
    /// their own way of that link from the stream to the reader. The latter two may have filled its down stream
    /// from its outbox.
    pub fn step(&mut self, alloc: Global, event: &Event) -> Result<Reply, NoMemory>
        ensures reply { IfOk result (λ reply. reply ≡ (lane_outcome self.old (lane_event event.now)).reply) }
        ensures withheld { IfOk result (λ reply. AnswersTo self.old (lane_event event.now) reply) }
        ensures ok { OnOk result (Steps self.old (lane_event event.now) self.new) }
        ensures err { OnErr result (IsSparedBy self.old (lane_event event.now) self.new) }
        ensures order { OrderIsKept board_batches (messages_of self.old) (messages_of self.new) }
    {
        self.trace.reserve(1).map_err(|_| NoMemory)?;
        let room = Room::of(alloc, event)?;
        let reply = happen(alloc, &mut self.star, &mut self.sites, event)?;
        keep(&mut self.trace, room, event, &reply);
        Ok(reply)
    }

    /// Whether no message is on its way, down to the byte. No attached link has a byte in a stream, a part of
    /// a line in a reader, a line in a tray, or a message in its outbox.
    ///
    /// Take any list of joins, departures, local edits and deliveries, over links that lose nothing and keep
    /// their order. Whenever no message is on its way, the server and all attached sites hold equal windows.
    /// Each text and list holds exactly the items inserted and not deleted in the server's order, and no item
    /// is reordered at any site. Each toggle and slider holds its last setting in that order. The clause
    /// `agree` says so, and the clause `order` of [`World::step`], [`World::run`] and [`World::drain`] says
    /// that no item is reordered.
    pub fn quiet(&self) -> bool
        ensures quiet { IsTrue result ↔ IsStill self.now }
        ensures agree { IsTrue result → AllAgree (messages_of self.now) }
    {
        are_quiet(&self.sites, &self.star)
    }

    /// What has happened, oldest first.
    pub fn trace(&self) -> &[Happened]
        ensures { noted_trace result.now ≡ self.now.trace }
    {
        &self.trace
    }

    /// The board that the world was opened with.
    pub fn opening(&self) -> &Board
        ensures { bare result.now ≡ self.now.opening }
    {
        &self.opening
    }

    /// The star. At every moment its order is the one that the trace gives, and its content is the meaning of
    /// that order. It has given as many numbers as the trace has joins.
    pub fn star(&self) -> &Star
        ensures star { result.now ≡ self.now.star }
        ensures order { result.now.order ≡ order_of (plain_trace self.now.trace) }
        ensures content { content result.now.board ≡ meaning (content self.now.opening) (edits (turns 0 (order_of (plain_trace self.now.trace)))) }
        ensures given { result.now.given ≡ numbers_given (plain_trace self.now.trace) }
        ensures keeps { result.now.keeps ≡ true }
    {
        &self.star
    }

    /// The attached sites with both ways of their links, ascending by number.
    pub fn sites(&self) -> &[Attached]
        ensures { map lane_of result.now ≡ self.now.sites }
    {
        &self.sites
    }

    /// The site of a number. It is attached exactly if it has a link at the star, and then has not stopped.
    /// At every moment its content is the meaning of the entries that have reached it, and of its own edits
    /// that are not among them. It made the edits that the trace says. Its backlog is those of them of which
    /// it does not know that the star took them.
    pub fn site(&self, number: u32) -> Option<&Site>
        ensures site { option_copied result ≡ option_map (λ a. a.site) (lane_site number self.now.sites) }
        ensures attached { is_some result ≡ is_some (link_of number self.now.star.links) }
        ensures number { IfSome result (λ site. site.now.number ≡ number) }
        ensures running { IfSome result (λ site. site.now.stopped ≡ false) }
        ensures made { IfSome result (λ site. site.now.made ≡ length (made number (plain_trace self.now.trace))) }
        ensures content { IfSome result (λ site. content site.now.board ≡ meaning (content self.now.opening) (view number (plain_trace self.now.trace))) }
        ensures backlog { IfSome result (λ site. site.now.made ≡ site.now.end.acknowledged + length site.now.end.outgoing) }
    {
        let at = attached::place_of(&self.sites, number)?;
        Some(&self.sites[at].site)
    }
}
