//! The links of a server, by their tokens, and the places of its sites.
ghost use Rattle.std.specs.Prelude.{◌≡◌};

use crate::link::Link;
use crate::uptime::Uptime;
use jup_limits::{MOST_ATTACHED, NoMemory};
use jup_links::{Count, Counts, State};
use jup_resume::Token;
use std::alloc::Global;
use std::marker::Model;
use std::sync::{Arc, Mutex, Wait};
use std::time::Clock;

/// How many links that are over may hold lines without a carrier.
const MOST_HOLDING: usize = 64;

/// What a server finds for a token.
#[derive(Drop)]
pub enum Found {
    Link(Arc<Link, Global>),
    /// Only the count of lines that had their effect is left.
    Count(u32),
    Nothing,
}

/// The links of a server, and how many of its sites may be attached. Contracts see for how many seconds each link waits for a carrier.
#[derive(Drop)]
pub struct Links {
    alloc: Global,
    seconds: u32,
    uptime: Uptime,
    table: Mutex<Table>,
}

impl Model for Links {
    ghost use Rattle.std.specs.Prelude.{ℕ};

    ghost Value = { ℕ };

    ghost view = { λ l. l.seconds };
}

// What is known of all links.
#[derive(Drop)]
struct Table {
    links: Vec<Arc<Link, Global>>,
    counts: Counts,
    /// How many sessions run, or are about to.
    seated: usize,
    /// Whether the server stops.
    stops: bool,
}

impl Links {
    /// A server that has no link. Each link waits so many seconds for a carrier.
    pub fn new(alloc: Global, seconds: u32, uptime: Uptime) -> Links
        ensures { result ≡ seconds }
    {
        Links {
            alloc,
            seconds,
            uptime,
            table: Mutex::new(Table {
                links: Vec::new(alloc),
                counts: Counts::new(alloc),
                seated: 0,
                stops: false,
            }),
        }
    }

    /// The time of the server.
    pub fn uptime(&self) -> &Uptime {
        &self.uptime
    }

    /// A new link of this token. Its first carrier is there.
    pub fn open<R: Wait>(&self, rt: &R, token: Token) -> Result<Arc<Link, Global>, NoMemory> {
        let link = Link::new(self.alloc, token, self.seconds);
        let Ok(link) = Arc::new(self.alloc, link) else {
            return Err(NoMemory);
        };
        let Ok(kept) = Arc::try_clone(&link) else {
            return Err(NoMemory);
        };
        self.table.lock(rt).add(rt, kept)?;
        Ok(link)
    }

    /// The server stops: it takes no more lines of any link, also of one that opens later. Each ends as after what it took.
    pub fn stop<R: Wait>(&self, rt: &R) {
        self.table.lock(rt).stop(rt);
    }

    /// Ends all links without a last line. It does not wait for their sessions.
    pub fn lose_all<R: Wait>(&self, rt: &R) {
        let table = self.table.lock(rt);
        for link in &table.links {
            link.drop_lines(rt);
        }
    }

    /// What there is for a token. It compares all tokens.
    pub fn find<R: Wait>(&self, rt: &R, token: &Token) -> Found {
        let table = self.table.lock(rt);
        let mut found = match table.counts.find(token) {
            Some(taken) => Found::Count(taken),
            None => Found::Nothing,
        };
        for link in &table.links {
            if link.is_of(rt, token) {
                if let Ok(link) = Arc::try_clone(link) {
                    found = Found::Link(link);
                }
            }
        }
        found
    }

    /// Looks at all links: ends those that have waited for long enough, and keeps only the count of those that are over. Answers how many are left.
    pub fn tend<R: Wait + Clock>(&self, rt: &R) -> usize {
        let now = self.uptime.millis(rt);
        let mut table = self.table.lock(rt);
        let table = &mut *table;
        table.tend(rt, now);
        table.bound_holding(rt);
        table.counts.forget_old(now);
        table.settle(rt, now);
        table.links.len()
    }

    /// Takes a place for a site that is about to join. If all are taken, it ends the link that has been without a carrier for the longest time, of those of which the
    /// star took no edit. If there is none, the hub will refuse the site.
    pub fn take_seat<R: Wait>(&self, rt: &R) {
        for _ in rt.forever() {
            let mut table = self.table.lock(rt);
            let claimed = if table.seated < MOST_ATTACHED {
                None
            } else {
                table.unused(rt)
            };
            let Some(link) = claimed else {
                table.seated = table.seated.saturating_add(1);
                return;
            };
            drop(table);
            link.lose(rt);
        }
    }

    /// Gives a place back, once its site has left.
    pub fn leave_seat<R: Wait>(&self, rt: &R) {
        let mut table = self.table.lock(rt);
        table.seated = table.seated.saturating_sub(1);
    }
}

impl Table {
    fn add<R: Wait>(&mut self, rt: &R, link: Arc<Link, Global>) -> Result<(), NoMemory> {
        if self.stops {
            link.stop(rt);
        }
        self.links.push(link).map_err(|_| NoMemory)
    }

    fn stop<R: Wait>(&mut self, rt: &R) {
        self.stops = true;
        for link in &self.links {
            link.stop(rt);
        }
    }

    fn tend<R: Wait>(&mut self, rt: &R, now: u64) {
        for link in &self.links {
            link.tend(rt, now);
        }
    }

    // Drops what the first link holds that ended, if too many hold lines.
    fn bound_holding<R: Wait>(&mut self, rt: &R) {
        let mut holding = 0usize;
        let mut first: Option<(u64, &Arc<Link, Global>)> = None;
        for link in &self.links {
            if let State::Holds { ended } = link.summary(rt).state {
                holding = holding.saturating_add(1);
                if first.is_none_or(|(earliest, _)| ended < earliest) {
                    first = Some((ended, link));
                }
            }
        }
        if let Some((_, link)) = first {
            if holding > MOST_HOLDING {
                link.lose(rt);
            }
        }
    }

    // Keeps only the counts of links that are over.
    fn settle<R: Wait>(&mut self, rt: &R, now: u64) {
        let mut at = 0usize;
        for _ in 0..self.links.len() {
            let Some(link) = self.links.get(at) else {
                return;
            };
            let summary = link.summary(rt);
            let is_kept = match summary.state {
                State::Runs | State::Unused { .. } | State::Holds { .. } => false,
                State::Refused => true,
                State::Spent => self
                    .counts
                    .keep(Count {
                        token: summary.token,
                        taken: summary.handled,
                        has_edits: summary.has_edits,
                        since: now,
                    })
                    .is_ok(),
            };
            if is_kept {
                self.links.remove(at);
            } else {
                at += 1;
            }
        }
    }

    // The link that a newcomer may claim.
    fn unused<R: Wait>(&self, rt: &R) -> Option<Arc<Link, Global>> {
        let mut longest: Option<(u64, &Arc<Link, Global>)> = None;
        for link in &self.links {
            if let State::Unused { since } = link.summary(rt).state {
                if longest.is_none_or(|(earliest, _)| since < earliest) {
                    longest = Some((since, link));
                }
            }
        }
        let (_, link) = longest?;
        Arc::try_clone(link).ok()
    }
}
