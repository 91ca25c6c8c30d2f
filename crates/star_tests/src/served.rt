//! A hub, and a star beside it that takes the same calls, since a hub shows its star only once it is closed.
//! Each reply of the hub is the star's.
use crate::expect::{expect_eq, expect_that};
use crate::hubs::open_hub;
use jup_hub::{Hub, HubFault, Pass};
use jup_star::{Down, Joined, Star, Up};
use std::alloc::Global;
use std::marker::Model;
use std::process::Abort;
use std::sync::Wait;

/// A hub with its pass, and the star that takes the same calls. Contracts see the star.
#[derive(Drop)]
pub(crate) struct Served {
    hub: Hub,
    pass: Pass,
    twin: Star,
}

impl Model for Served {
    ghost use Rattle.jup_hub.specs.Passes.{IsPassOf};
    ghost use Rattle.jup_star.specs.Stars.{BoardStar};

    ghost Value = { BoardStar };

    ghost view = { λ s. s.twin };

    ghost invariant = { λ s. IsPassOf s.hub s.pass };
}

impl Served {
    /// A hub over a star that is opened on a board, with another that is opened so.
    pub(crate) fn open(rt: &impl Abort, alloc: Global, star: Star, twin: Star) -> Served {
        let (hub, pass) = open_hub(rt, alloc, star);
        Served { hub, pass, twin }
    }

    /// The star.
    pub(crate) fn star(&self) -> &Star {
        &self.twin
    }

    /// How many edits the order has.
    pub(crate) fn taken(&self) -> usize {
        self.twin.order().len()
    }

    /// A site joins.
    pub(crate) fn joins<R: Abort + Wait>(&mut self, rt: &R, alloc: Global) -> Joined {
        let joined = self
            .hub
            .join_site(rt, alloc, &mut self.pass)
            .expect(rt, "a free link");
        let due = self.twin.join(alloc).expect(rt, "a free link");
        expect_eq(rt, (joined.site, joined.limit), (due.site, due.limit));
        expect_that(rt, joined.board.same(&due.board));
        joined
    }

    /// A message of a site comes.
    pub(crate) fn takes<R: Abort + Wait>(
        &mut self,
        rt: &R,
        alloc: Global,
        site: u32,
        up: &Up,
    ) -> Result<Option<u32>, HubFault> {
        let answer = self.hub.take(rt, alloc, &mut self.pass, site, up);
        let due = self.twin.take(alloc, site, up);
        expect_eq(rt, answer, due.map_err(HubFault::Star));
        answer
    }

    /// Messages to a site are fetched, none if it has no link.
    pub(crate) fn fetches<R: Abort + Wait>(
        &mut self,
        rt: &R,
        alloc: Global,
        site: u32,
        max: u32,
    ) -> Vec<Down> {
        let fetched = self.hub.fetch(rt, alloc, &mut self.pass, site, max);
        let due = self.twin.fetch(alloc, site, max);
        match (fetched, due) {
            (Ok(downs), Ok(due)) => {
                expect_that(rt, downs.as_slice() == due.as_slice());
                downs.into_messages()
            }
            (Err(fault), Err(due)) => {
                expect_eq(rt, fault, HubFault::Star(due));
                Vec::new(alloc)
            }
            _ => panic!(rt; "the hub answers as its star"),
        }
    }

    /// A site is detached, no matter who calls.
    pub(crate) fn leaves<R: Abort + Wait>(&mut self, rt: &R, site: u32) {
        let left = self.hub.leave(rt, &mut self.pass, site);
        let due = self.twin.leave(site);
        expect_eq(rt, left, due.map_err(HubFault::Star));
    }
}
