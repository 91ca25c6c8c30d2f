//! Random histories of one hub, which three honest sites and two strangers call. The clauses of `honest_sites_agree` are checked after each step.
ghost use Rattle.jup_window.specs.Entries.{EachWidget};
ghost use Rattle.jup_star.specs.Stars.{IsShort};

use crate::contents::{Content, items_of, keeps_orders};
use crate::expect::{expect_eq, expect_that};
use crate::honest_sites::Honest;
use crate::served::Served;
use jup_star::Star;
use jup_value::Item;
use jup_window::Board;
use std::alloc::Global;
use std::process::Abort;
use std::sync::Wait;
use test_boards::{Dice, Stranger, board_of};

// How many honest sites there are in the end.
const SITES: usize = 3;

// After how many steps the orders of a moment are kept, and a site joins while there are fewer.
const EACH: u32 = 25;

// Once in so many times a stranger says the next number in place of the right one.
const SLIPS: u32 = 12;

// More rounds than it takes until nothing is on its way.
const MOST_ROUNDS: u32 = 2_000;

fn board(rt: &impl Abort, alloc: Global) -> Board
    ensures { EachWidget IsShort result }
{
    let lines = ["window 1", "text 1 \"Jupiter\"", "toggle 2 off"];
    board_of(alloc, &lines).expect(rt, "a board")
}

fn open_star(rt: &impl Abort, alloc: Global, limit: u32) -> Star {
    Star::open(alloc, board(rt, alloc), limit).expect(rt, "a layout and a limit")
}

/// A hub with its callers, and what is compared.
#[derive(Drop)]
struct History {
    opening: Board,
    limit: usize,
    served: Served,
    sites: Vec<Honest>,
    strangers: [Stranger; 2],
    // The orders of the star's items at some earlier moments.
    kept: Vec<Vec<Item<char>>>,
    counts: Counts,
}

/// What is counted of a history.
#[derive(Clone, Copy)]
struct Counts {
    // How many messages of strangers were accepted, and how many refused.
    accepted: u32,
    refused: u32,
    // How often an honest site lost its link, and how often one was level with the star.
    lost: u32,
    level: u32,
    // How many edits the order has.
    taken: usize,
}

// The star shows what its order means.
fn star_shows(rt: &impl Abort, alloc: Global, opening: &Board, star: &Star) {
    let mut due = Content::of(rt, alloc, opening);
    for entry in star.order() {
        due.take_all(rt, entry.edit.as_slice());
    }
    expect_that(rt, Content::of(rt, alloc, star.board()).same(&due));
}

// A stranger sends a message, and whether that is accepted. If it is refused, the link is gone.
fn sends<R: Abort + Wait>(
    rt: &R,
    alloc: Global,
    dice: &mut Dice,
    stranger: &mut Stranger,
    served: &mut Served,
) -> bool {
    let up = stranger
        .message(alloc, dice, served.star())
        .expect(rt, "memory");
    let is_accepted = served.takes(rt, alloc, stranger.link, &up).is_ok();
    if is_accepted {
        stranger.counts(&up);
    } else {
        stranger.link = 0;
    }
    is_accepted
}

impl History {
    fn open(rt: &impl Abort, alloc: Global, limit: u32) -> History {
        let star = open_star(rt, alloc, limit);
        let twin = open_star(rt, alloc, limit);
        History {
            opening: board(rt, alloc),
            limit: limit as usize,
            served: Served::open(rt, alloc, star, twin),
            sites: Vec::new(alloc),
            strangers: [Stranger::new(SLIPS), Stranger::new(SLIPS)],
            kept: Vec::new(alloc),
            counts: Counts {
                accepted: 0,
                refused: 0,
                lost: 0,
                level: 0,
                taken: 0,
            },
        }
    }

    // One more honest site joins.
    fn joins<R: Abort + Wait>(&mut self, rt: &R, alloc: Global) {
        let honest = Honest::joins(rt, alloc, &mut self.served);
        self.sites.push(honest).expect(rt, "memory");
    }

    // An honest site goes on, or once in 150 times someone has it leave. If it has no link, another site may join in its place.
    fn site_goes_on<R: Abort + Wait>(&mut self, rt: &R, alloc: Global, dice: &mut Dice) {
        let at = dice.roll(3) as usize;
        let Some(honest) = self.sites.get_mut(at) else {
            return;
        };
        let had_link = honest.has_link;
        if had_link && dice.once_in(150) {
            self.served.leaves(rt, honest.site.number());
            honest.has_link = false;
        } else if !had_link && dice.once_in(40) {
            *honest = Honest::joins(rt, alloc, &mut self.served);
        } else {
            honest.goes_on(rt, alloc, dice, &mut self.served, self.limit);
        }
        if had_link && !honest.has_link {
            self.counts.lost = self.counts.lost.saturating_add(1);
        }
    }

    // A stranger joins if it has no link. Otherwise it sends a message, or fetches and forgets, or leaves.
    fn stranger_goes_on<R: Abort + Wait>(&mut self, rt: &R, alloc: Global, dice: &mut Dice) {
        let at = dice.roll(2) as usize;
        let Some(stranger) = self.strangers.get_mut(at) else {
            return;
        };
        if stranger.link == 0 {
            let joined = self.served.joins(rt, alloc);
            stranger.joins(joined.site, self.served.star());
        } else if dice.once_in(60) {
            self.served.leaves(rt, stranger.link);
            stranger.link = 0;
        } else if dice.once_in(8) {
            let _forgotten = self.served.fetches(rt, alloc, stranger.link, 100);
        } else if sends(rt, alloc, dice, stranger, &mut self.served) {
            self.counts.accepted = self.counts.accepted.saturating_add(1);
        } else {
            self.counts.refused = self.counts.refused.saturating_add(1);
        }
    }

    // What holds at every moment.
    fn is_well(&self, rt: &impl Abort, alloc: Global) {
        star_shows(rt, alloc, &self.opening, self.served.star());
        let items = items_of(rt, alloc, self.served.star().board());
        expect_that(rt, keeps_orders(&items, &self.kept));
        for honest in &self.sites {
            honest.is_well(rt, alloc, &self.opening, &self.served);
        }
    }

    // The orders of this moment are kept.
    fn keeps(&mut self, rt: &impl Abort, alloc: Global) {
        let items = items_of(rt, alloc, self.served.star().board());
        self.kept.push(items).expect(rt, "memory");
        for honest in &mut self.sites {
            honest.keeps(rt, alloc);
        }
    }

    // One message of each honest site comes up, and it receives one of those that are fetched.
    fn moves<R: Abort + Wait>(&mut self, rt: &R, alloc: Global) {
        for honest in &mut self.sites {
            honest.is_heard(rt, alloc, &mut self.served, self.limit);
            honest.fetches(rt, alloc, &mut self.served, 64);
            honest.is_handed(rt, alloc);
        }
    }

    fn is_drained(&self) -> bool {
        self.sites
            .iter()
            .all(|honest| honest.is_drained(&self.served))
    }

    // Each site with a link is level with the star.
    fn are_level(&mut self, rt: &impl Abort) {
        for honest in &self.sites {
            if honest.has_link {
                honest.is_level(rt, &self.served);
                self.counts.level = self.counts.level.saturating_add(1);
            }
        }
    }

    // All that is on its way comes, while the strangers are silent. Then each site with a link is level with the star.
    fn drains<R: Abort + Wait>(&mut self, rt: &R, alloc: Global) {
        for _ in 0..MOST_ROUNDS {
            if self.is_drained() {
                break;
            }
            self.moves(rt, alloc);
        }
        expect_that(rt, self.is_drained());
        self.are_level(rt);
    }

    // So many steps, each of an honest site or of a stranger. The sites join one after another.
    fn plays<R: Abort + Wait>(&mut self, rt: &R, alloc: Global, dice: &mut Dice, steps: u32) {
        for step in 0..steps {
            if step % EACH == 0 {
                self.keeps(rt, alloc);
            }
            if step % EACH == 0 && self.sites.len() < SITES {
                self.joins(rt, alloc);
            } else if dice.once_in(4) {
                self.stranger_goes_on(rt, alloc, dice);
            } else {
                self.site_goes_on(rt, alloc, dice);
            }
            self.is_well(rt, alloc);
        }
        self.drains(rt, alloc);
        self.counts.taken = self.served.taken();
    }
}

// What is counted of a history of some rounds of so many steps each.
fn played<R: Abort + Wait>(
    rt: &R,
    alloc: Global,
    seed: u32,
    limit: u32,
    rounds: [u32; 2],
) -> Counts {
    let [count, steps] = rounds;
    let mut dice = Dice::of(seed);
    let mut history = History::open(rt, alloc, limit);
    for _ in 0..count {
        history.plays(rt, alloc, &mut dice, steps);
    }
    history.counts
}

// After each of six rounds the sites with a link are level with the star. Strangers are heard and refused.
#[test]
fn honest_sites_agree_whatever_strangers_send(rt: HostRuntime) {
    let counts = played(&rt, rt.alloc(), 1995, 100_000, [6, 200]);
    let (accepted, refused) = (counts.accepted, counts.refused);
    expect_eq(&rt, (accepted, accepted >= 50), (accepted, true));
    expect_eq(&rt, (refused, refused >= 50), (refused, true));
    expect_that(&rt, counts.lost >= 1);
    expect_that(&rt, counts.level >= 12);
}

// Only a full order refuses what an honest site sends. Without its link the site still shows what its view means.
#[test]
fn only_a_full_order_refuses_an_honest_site(rt: HostRuntime) {
    let counts = played(&rt, rt.alloc(), 2026, 40, [1, 600]);
    expect_eq(&rt, counts.taken, 40);
    expect_that(&rt, counts.lost >= 3);
}
