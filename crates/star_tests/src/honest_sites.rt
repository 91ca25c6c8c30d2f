//! An honest site of a hub, and what it checks of itself: the clauses of `honest_sites_agree`, computed here from what happened.
use crate::contents::{Content, is_one_order, items_of, keeps_orders};
use crate::expect::{expect_eq, expect_that};
use crate::served::Served;
use jup_batch::BoardEdits;
use jup_hub::HubFault;
use jup_star::{Down, Entry, Site, StarFault, Up};
use jup_value::Item;
use jup_window::Board;
use std::alloc::Global;
use std::process::Abort;
use std::sync::Wait;
use test_boards::{Dice, any_command};

/// A site, and all that was sent to it and by it.
#[derive(Drop)]
pub(crate) struct Honest {
    pub site: Site,
    /// How many edits the order had at its join.
    since: usize,
    made: Vec<BoardEdits>,
    sent: Vec<Up>,
    /// How many of these were brought to the hub.
    taken: usize,
    fetched: Vec<Down>,
    /// How many of these it received.
    handed: usize,
    pub has_link: bool,
    /// The orders of its items at some earlier moments.
    kept: Vec<Vec<Item<char>>>,
}

// What is due for a message up: a place at the end of the order, if it is an edit and the order is not full.
fn answer_due(
    has_link: bool,
    up: &Up,
    order: usize,
    limit: usize,
) -> Result<Option<u32>, HubFault> {
    match up {
        _ if !has_link => Err(HubFault::Star(StarFault::NoLink)),
        Up::Op(_) if order < limit => Ok(u32::try_from(order).ok()),
        Up::Op(_) => Err(HubFault::Star(StarFault::LogFull)),
        Up::Ack(_) | Up::Ping(_) => Ok(None),
    }
}

impl Honest {
    /// A site joins, and opens with the answer.
    pub(crate) fn joins<R: Abort + Wait>(rt: &R, alloc: Global, served: &mut Served) -> Honest {
        let since = served.taken();
        let joined = served.joins(rt, alloc);
        let site = Site::open(alloc, joined.site, joined.limit, joined.board);
        Honest {
            site: site.expect(rt, "the site opens"),
            since,
            made: Vec::new(alloc),
            sent: Vec::new(alloc),
            taken: 0,
            fetched: Vec::new(alloc),
            handed: 0,
            has_link: true,
            kept: Vec::new(alloc),
        }
    }

    // It makes an edit, unless it has made as many as the limit allows, and sends it.
    fn edits(&mut self, rt: &impl Abort, alloc: Global, dice: &mut Dice) {
        let command = any_command(dice, self.site.board());
        if let Ok(made) = self.site.edit(alloc, &command) {
            self.made.push(made.edit).expect(rt, "memory");
            self.sent.push(made.up).expect(rt, "memory");
        }
    }

    /// The hub takes the oldest of its messages. Only a full order refuses one, and takes the link away.
    pub(crate) fn is_heard<R: Abort + Wait>(
        &mut self,
        rt: &R,
        alloc: Global,
        served: &mut Served,
        limit: usize,
    ) {
        let Some(up) = self.sent.get(self.taken) else {
            return;
        };
        let due = answer_due(self.has_link, up, served.taken(), limit);
        let answer = served.takes(rt, alloc, self.site.number(), up);
        expect_eq(rt, answer, due);
        self.has_link = answer.is_ok();
        self.taken = self.taken.saturating_add(1);
    }

    /// Some of its messages are fetched.
    pub(crate) fn fetches<R: Abort + Wait>(
        &mut self,
        rt: &R,
        alloc: Global,
        served: &mut Served,
        max: u32,
    ) {
        for down in served.fetches(rt, alloc, self.site.number(), max) {
            self.fetched.push(down).expect(rt, "memory");
        }
    }

    /// It receives the oldest message that was fetched, and accepts it.
    pub(crate) fn is_handed(&mut self, rt: &impl Abort, alloc: Global) {
        let Some(down) = self.fetched.get(self.handed) else {
            return;
        };
        let owed = self
            .site
            .deliver(alloc, down)
            .expect(rt, "the message is accepted");
        self.handed = self.handed.saturating_add(1);
        if let Some(up) = owed {
            self.sent.push(up).expect(rt, "memory");
        }
    }

    /// It edits or sends a ping, or a message of it or to it comes one way further.
    pub(crate) fn goes_on<R: Abort + Wait>(
        &mut self,
        rt: &R,
        alloc: Global,
        dice: &mut Dice,
        served: &mut Served,
        limit: usize,
    ) {
        match dice.roll(20) {
            0..6 => self.edits(rt, alloc, dice),
            6 => self
                .sent
                .push(Up::Ping(dice.roll(100)))
                .expect(rt, "memory"),
            7..12 => self.is_heard(rt, alloc, served, limit),
            12..15 => {
                let max = dice.roll(4);
                self.fetches(rt, alloc, served, max);
            }
            _ => self.is_handed(rt, alloc),
        }
    }

    // How many entries of the order have reached it: those before its join, and those up to the last of others that was delivered to it.
    fn told(&self, order: &[Entry]) -> usize {
        let handed = self.fetched.iter().take(self.handed);
        let mut left = handed.filter(|down| matches!(down, Down::Op(_))).count();
        let mut told = self.since;
        for (at, entry) in order.iter().enumerate().skip(self.since) {
            if left > 0 && entry.site != self.site.number() {
                left = left.saturating_sub(1);
                told = at.saturating_add(1);
            }
        }
        told
    }

    // What those make of the opening board, and then its own edits that are not among them.
    fn view(&self, rt: &impl Abort, alloc: Global, opening: &Board, order: &[Entry]) -> Content {
        let mut content = Content::of(rt, alloc, opening);
        let mut own: usize = 0;
        for entry in order.iter().take(self.told(order)) {
            content.take_all(rt, entry.edit.as_slice());
            if entry.site == self.site.number() {
                own = own.saturating_add(1);
            }
        }
        for edit in self.made.iter().skip(own) {
            content.take_all(rt, edit.as_slice());
        }
        content
    }

    // How many of its edits it knows that the star received: the count of the last message that has one.
    fn acknowledged(&self) -> usize {
        let mut count: u32 = 0;
        for down in self.fetched.iter().take(self.handed) {
            match down {
                Down::Op(msg) => count = msg.heard,
                Down::Ack(heard) => count = *heard,
                Down::Pong(_) => {}
            }
        }
        count as usize
    }

    /// It shows what its view of the order means. It keeps the order of its items, which is the star's while it has its link, and has
    /// the link that it should have. Its backlog is its edits less those that it knows the star received.
    pub(crate) fn is_well(&self, rt: &impl Abort, alloc: Global, opening: &Board, served: &Served) {
        self.shows_its_view(rt, alloc, opening, served.star().order());
        self.has_one_order(rt, alloc, served.star().board());
        let linked = served.star().waiting(self.site.number()).is_some();
        expect_eq(rt, linked, self.has_link);
        let backlog = self.site.backlog();
        expect_that(rt, backlog <= 1024);
        let known = (backlog as usize).saturating_add(self.acknowledged());
        expect_eq(rt, known, self.made.len());
    }

    fn shows_its_view(&self, rt: &impl Abort, alloc: Global, opening: &Board, order: &[Entry]) {
        let shown = Content::of(rt, alloc, self.site.board());
        let due = self.view(rt, alloc, opening, order);
        expect_that(rt, shown.same(&due));
    }

    fn has_one_order(&self, rt: &impl Abort, alloc: Global, star_board: &Board) {
        let items = items_of(rt, alloc, self.site.board());
        expect_that(rt, keeps_orders(&items, &self.kept));
        let star_items = items_of(rt, alloc, star_board);
        expect_that(rt, !self.has_link || is_one_order(&items, &star_items));
    }

    /// It remembers the order of its items.
    pub(crate) fn keeps(&mut self, rt: &impl Abort, alloc: Global) {
        let items = items_of(rt, alloc, self.site.board());
        self.kept.push(items).expect(rt, "memory");
    }

    // Whether the order has just its edits of this site, in order.
    fn is_whole(&self, order: &[Entry]) -> bool {
        let mut edits = self.made.iter();
        for entry in order {
            if entry.site == self.site.number() && edits.next() != Some(&entry.edit) {
                return false;
            }
        }
        edits.next().is_none()
    }

    /// With nothing on its way it holds the star's board, the order has each of its edits once, and its backlog is below 64.
    pub(crate) fn is_level(&self, rt: &impl Abort, served: &Served) {
        expect_that(rt, self.site.board().same(served.star().board()));
        expect_that(rt, self.is_whole(served.star().order()));
        expect_that(rt, self.site.backlog() < 64);
    }

    /// Whether nothing is on its way.
    pub(crate) fn is_drained(&self, served: &Served) -> bool {
        self.taken == self.sent.len()
            && self.handed == self.fetched.len()
            && served.star().waiting(self.site.number()).unwrap_or(0) == 0
    }
}
