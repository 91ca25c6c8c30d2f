//! What a server keeps of links that are over.
ghost use Rattle.std.specs.Prelude.{◌≡◌, ◌≢◌, ◌<◌, [], not, length, position, IfSome, OnOk, OnErr};
ghost use Rattle.jup_links.specs.Counts.{with_one_more, without_one, of_a_day, Finds};

use jup_limits::NoMemory;
use jup_resume::Token;
use std::alloc::Global;
use std::marker::Model;

/// Of how many links the count is kept.
const MOST_COUNTS: usize = 4_096;

/// For how many milliseconds the count of a link is kept: a day.
const DAY: u64 = 86_400_000;

/// What is left of a link that is over: how many lines of its site had their effect.
#[derive(Clone, Copy)]
pub struct Count {
    pub token: Token,
    pub taken: u32,
    /// Whether the star took an edit of it.
    pub has_edits: bool,
    /// From when only this is left, in milliseconds since the server began.
    pub since: u64,
}

/// The counts of links that are over, in the order in which they were kept. Contracts see them.
#[derive(Drop)]
pub struct Counts {
    counts: Vec<Count>,
}

impl Model for Counts {
    ghost use Rattle.std.specs.Prelude.{List};
    ghost use Rattle.jup_links.specs.declared.counts.Count.{Count};

    ghost Value = { List Count };

    ghost view = { λ c. c.counts.items };
}

impl Counts {
    /// No link is over.
    pub fn new(alloc: Global) -> Counts
        ensures { result ≡ [] }
    {
        Counts {
            counts: Vec::new(alloc),
        }
    }

    /// Keeps one more count. If there are too many then, it forgets one: the first of a link without an edit, or else the first.
    pub fn keep(&mut self, count: Count) -> Result<(), NoMemory>
        ensures ok { OnOk result (self.new ≡ with_one_more count self.old) }
        ensures err { OnErr result (self.new ≡ self.old) }
    {
        self.counts.push(count).map_err(|_| NoMemory)?;
        if self.counts.len() > MOST_COUNTS {
            self.forget_one();
        }
        Ok(())
    }

    fn forget_one(&mut self)
        requires { self.old ≢ [] }
        ensures { self.new ≡ without_one self.old }
    {
        let at = first_without_edit(&self.counts).unwrap_or(0);
        self.counts.remove(at);
    }

    /// Forgets the counts that were kept for a day.
    pub fn forget_old(&mut self, now: u64)
        ensures { self.new ≡ of_a_day now self.old }
    {
        self.counts
            .retain(|count| now.saturating_sub(count.since) < DAY);
    }

    /// The count of a link, the last one that was kept. It compares all tokens, so that the time it takes does not say which one was found.
    pub fn find(&self, token: &Token) -> Option<u32>
        ensures { Finds token.now self.now result }
    {
        let mut found = None;
        for count in &self.counts {
            if count.token.matches(token) {
                found = Some(count.taken);
            }
        }
        found
    }
}

// The first count of a link without an edit.
fn first_without_edit(counts: &[Count]) -> Option<usize>
    ensures place { result ≡ position (λ c. not c.has_edits) counts.now }
    ensures below { IfSome result (λ at. at < length counts.now) }
{
    counts.iter().position(|count| !count.has_edits)
}
