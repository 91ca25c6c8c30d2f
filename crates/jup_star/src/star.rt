//! The star.
ghost use Rattle.std.specs.Prelude.{◌≡◌, ◌≤◌, ◌<◌, false, length, IfOk, IfSome};
ghost use Rattle.std.specs.Option.{option_map, option_to_list};
ghost use Rattle.jup_batch.specs.Boards.{bare};
ghost use Rattle.jup_window.specs.Entries.{EachWidget};
ghost use Rattle.jup_star.specs.Faults.{fault_of};
ghost use Rattle.jup_window.specs.Commands.{map_ok};
ghost use Rattle.jup_star.specs.Stars.{IsShort, OthersStayInStep, link_of, new_star, opened_star, opened_counting, kept_order, Answers, bare_joined, lacks_memory, star_open_fault};
ghost use Rattle.jup_star.specs.Messages.{DownRelabelsNoText};
ghost use Rattle.jup_star.specs.declared.messages.Up.TheVariants.{Op, Ack, Ping};
ghost use Rattle.jup_star.specs.declared.calls.Call.TheVariants.{Join, Take, Fetch, Leave};
ghost use Rattle.jup_star.specs.declared.calls.StarReply.TheVariants.{Joined as JoinedReply, Taken, Fetched, Left};

use crate::link::Link;
use crate::links::{detach, link_at};
use crate::order::Order;
use crate::take::{carry_out, reserve_edit};
use crate::{Down, Downs, Entry, OpenFault, StarFault, Up};
use jup_batch::BoardBatch;
use jup_limits::{HIGHEST_LIMIT, LAST_SITE, MOST_ATTACHED};
use jup_link::Msg;
use jup_window::Board;
use std::alloc::Global;
use std::marker::Model;

/// What a site gets as it joins.
#[derive(Drop)]
pub struct Joined {
    pub site: u32,
    /// How many edits each site may make.
    pub limit: u32,
    /// An equal copy of the star's board.
    pub board: Board,
}

/// The server's core: the board, the order of the edits that were taken, and a link to each attached site.
///
/// Contracts see it without the room that it keeps. Memory aside, each call has one reply and leaves one
/// star. A call that is refused because an allocation failed changes nothing, as its `Answers` clause says.
pub struct Star {
    limit: u32,
    board: Board,
    given: u32,
    links: Vec<Link>,
    order: Order,
}

// Written out: a crate that drops a star then proves one call. It would prove a derived drop again, and those of all parts.
impl Drop for Star {
    fn drop(self) {
        let Star {
            limit: _,
            board: _,
            given: _,
            links: _,
            order: _,
        } = self;
    }
}

impl Model for Star {
    ghost use Rattle.jup_star.specs.Stars.{BoardStar, IsStar};

    ghost Value = { BoardStar };

    ghost use Rattle.jup_star.specs.Stars.{bare_star};

    ghost view = { bare_star };

    ghost invariant = { λ s. IsStar (bare_star s) };
}

impl Star {
    /// A star without sites that takes up to `limit` edits, over a board whose texts and lists have at most
    /// 65,536 items each, which [`is_short`](crate::is_short) tests. It takes no memory. Refused, in this
    /// order: a limit that is not 1 to 16,777,216, and a board with an item that is not of a layout, whose
    /// items have site 0.
    pub fn open(alloc: Global, board: Board, limit: u32) -> Result<Star, OpenFault>
        requires short { EachWidget IsShort board }
        ensures refusal { fault_of result ≡ star_open_fault (bare board) limit }
        ensures opened { IfOk result (λ star. star ≡ opened_star (bare board) limit) }
    {
        Star::open_as(alloc, board, limit, true)
    }

    /// A star as [`open`](Star::open) gives, with the same refusals. It keeps only the number of edits that it
    /// took, so an edit costs it no memory beyond its board and its links. A program that serves opens this one.
    pub fn open_counting(alloc: Global, board: Board, limit: u32) -> Result<Star, OpenFault>
        requires short { EachWidget IsShort board }
        ensures refusal { fault_of result ≡ star_open_fault (bare board) limit }
        ensures opened { IfOk result (λ star. star ≡ opened_counting (bare board) limit) }
    {
        Star::open_as(alloc, board, limit, false)
    }

    // A star that keeps its order, or only counts it.
    fn open_as(alloc: Global, board: Board, limit: u32, keeps: bool) -> Result<Star, OpenFault>
        requires short { EachWidget IsShort board }
        ensures refusal { fault_of result ≡ star_open_fault (bare board) limit }
        ensures opened { IfOk result (λ star. star ≡ new_star keeps (bare board) limit) }
    {
        if limit < 1 || limit > HIGHEST_LIMIT {
            return Err(OpenFault::BadLimit);
        }
        if !board.only_site(0) {
            return Err(OpenFault::BadSite);
        }
        Ok(Star {
            limit,
            board,
            given: 0,
            links: Vec::new(alloc),
            order: Order::new(alloc, keeps),
        })
    }

    /// Gives a new site its number, the limit and a copy of the board. Refused, in this order: 64 sites
    /// are attached, all numbers were given, no memory.
    pub fn join(&mut self, alloc: Global) -> Result<Joined, StarFault>
        ensures { Answers Join self.old self.new (JoinedReply (bare_joined result)) }
    {
        if self.links.len() >= MOST_ATTACHED {
            return Err(StarFault::Full);
        }
        if self.given >= LAST_SITE {
            return Err(StarFault::SitesSpent);
        }
        let board = match self.board.copy(alloc) {
            Err(_) => return Err(StarFault::NoMemory),
            Ok(board) => board,
        };
        if self.links.reserve(1).is_err() {
            return Err(StarFault::NoMemory);
        }
        let site = self.given + 1;
        self.links.push_reserved(Link::new(alloc, site));
        self.given = site;
        Ok(Joined {
            site,
            limit: self.limit,
            board,
        })
    }

    /// Takes what a site sent, and answers the place of an edit in the order, from 0.
    ///
    /// Refused, in this order, are:
    ///
    /// - of an edit: no link, the wrong count, the wrong acknowledgement, a no-op, an insertion that does not
    ///   bear the site's next name. Then come a full order, no memory, and an operation that does not fit the
    ///   board;
    /// - of an acknowledgement: no link, and the wrong count;
    /// - of a ping: no link, and no memory.
    ///
    /// Every refusal but `NoLink` and `NoMemory` detaches this link, and only this one.
    ///
    /// No matter who sent it, and whatever it is, all other links stay in step with their sites.
    pub fn take(&mut self, alloc: Global, site: u32, up: &Up) -> Result<Option<u32>, StarFault>
        ensures call { Answers (Take site up.now) self.old self.new (Taken result) }
        ensures others { OthersStayInStep self.old self.new site }
    {
        // The checker learns from this what holds of every star.
        let _limit = &self.limit;
        match up {
            Up::Op(msg) => self.take_edit(alloc, site, msg),
            Up::Ack(heard) => self.take_ack(site, *heard),
            Up::Ping(count) => self.take_ping(site, *count),
        }
    }

    // Takes an edit.
    fn take_edit(
        &mut self,
        alloc: Global,
        site: u32,
        msg: &Msg<BoardBatch>,
    ) -> Result<Option<u32>, StarFault>
        ensures { Answers (Take site (Op msg.now)) self.old self.new (Taken result) }
    {
        let Some(at) = link_at(&self.links, site) else {
            return Err(StarFault::NoLink);
        };
        let place = self.order.len();
        match self.links[at].check(self.limit, place, msg) {
            Err(fault) => {
                detach(&mut self.links, site);
                return Err(fault);
            }
            Ok(()) => {}
        }
        let prepared = reserve_edit(
            alloc,
            site,
            msg,
            &mut self.board,
            &mut self.links,
            &mut self.order,
        )?;
        if !carry_out(
            &mut self.board,
            &mut self.links,
            &mut self.order,
            at,
            site,
            prepared.msg,
            prepared.entry,
        ) {
            detach(&mut self.links, site);
            return Err(StarFault::BadOp);
        }
        Ok(Some(place as u32))
    }

    // Takes an acknowledgement.
    fn take_ack(&mut self, site: u32, heard: u32) -> Result<Option<u32>, StarFault>
        ensures { Answers (Take site (Ack heard)) self.old self.new (Taken result) }
    {
        let Some(at) = link_at(&self.links, site) else {
            return Err(StarFault::NoLink);
        };
        match self.links[at].take_ack(heard) {
            Err(fault) => {
                detach(&mut self.links, site);
                return Err(fault);
            }
            Ok(()) => {}
        }
        Ok(None)
    }

    // Answers a ping.
    fn take_ping(&mut self, site: u32, count: u32) -> Result<Option<u32>, StarFault>
        ensures { Answers (Take site (Ping count)) self.old self.new (Taken result) }
    {
        let Some(at) = link_at(&self.links, site) else {
            return Err(StarFault::NoLink);
        };
        self.links[at].pong(count)?;
        Ok(None)
    }

    /// Takes up to `max` of the oldest messages out of a site's outbox. Refused: no link, no memory.
    pub fn fetch(&mut self, alloc: Global, site: u32, max: u32) -> Result<Downs, StarFault>
        ensures { Answers (Fetch site max) self.old self.new (Fetched result) }
    {
        let Some(at) = link_at(&self.links, site) else {
            return Err(StarFault::NoLink);
        };
        Ok(self.links[at].fetch(alloc, max)?)
    }

    /// Takes the oldest message out of a site's outbox, if one waits. It takes no memory. Refused: no link.
    pub fn fetch_one(&mut self, site: u32) -> Result<Option<Down>, StarFault>
        ensures call { Answers (Fetch site 1) self.old self.new (Fetched (map_ok option_to_list result)) }
        ensures relabels { IfOk result (λ fetched. IfSome fetched DownRelabelsNoText) }
        ensures memory { lacks_memory result ≡ false }
    {
        let Some(at) = link_at(&self.links, site) else {
            return Err(StarFault::NoLink);
        };
        Ok(self.links[at].fetch_one())
    }

    /// Detaches a site. Refused: no link.
    pub fn leave(&mut self, site: u32) -> Result<(), StarFault>
        ensures call { Answers (Leave site) self.old self.new (Left result) }
        ensures memory { lacks_memory result ≡ false }
    {
        let Some(_at) = link_at(&self.links, site) else {
            return Err(StarFault::NoLink);
        };
        detach(&mut self.links, site);
        Ok(())
    }

    /// How many messages wait in a site's outbox, if it is attached.
    pub fn waiting(&self, site: u32) -> Option<usize>
        ensures { result ≡ option_map (λ l. length l.outbox) (link_of site self.now.links) }
    {
        let Some(at) = link_at(&self.links, site) else {
            return None;
        };
        Some(self.links[at].waiting())
    }

    /// The edits that were taken, in order. A star of [`open_counting`](Star::open_counting) keeps none of them.
    pub fn order(&self) -> &[Entry]
        ensures { result.now ≡ kept_order self.now }
    {
        self.order.as_slice()
    }

    /// How many edits were taken, also by a star that keeps none of them.
    pub fn order_len(&self) -> usize
        ensures { result ≡ length self.now.order }
    {
        self.order.len()
    }

    /// The board after the edits that were taken.
    pub fn board(&self) -> &Board
        ensures { bare result.now ≡ self.now.board }
    {
        &self.board
    }
}
