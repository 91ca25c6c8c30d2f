//! Joining, taking, fetching and leaving.
ghost use Rattle.std.specs.Prelude.{refl};
ghost use Rattle.jup_star.specs.Stars.{bare_joined};
ghost use Rattle.jup_star.specs.declared.calls.Call.TheVariants.{Join, Take, Fetch, Leave};
ghost use Rattle.jup_star.specs.declared.calls.StarReply.TheVariants.{Joined as JoinedReply, Taken, Fetched, Left};
ghost use Rattle.jup_hub.specs.Histories.{lacks_memory-bare_joined};

use crate::ask::Ask;
use crate::doors::Door;
use jup_star::{Downs, Joined, Star, StarFault, Up};
use std::alloc::Global;

#[derive(Drop)]
pub(crate) struct Joining {
    pub(crate) alloc: Global,
}

impl Ask for Joining {
    type Answer = Joined;

    ghost call = { λ _. Join };

    ghost reply = { λ r. JoinedReply (bare_joined r) };

    ghost tells_memory = { lacks_memory-bare_joined };

    fn door(&self) -> Door {
        Door::Others
    }

    fn ask(&self, star: &mut Star) -> Result<Joined, StarFault> {
        star.join(self.alloc)
    }
}

#[derive(Drop)]
pub(crate) struct Taking<'a> {
    pub(crate) alloc: Global,
    pub(crate) site: u32,
    pub(crate) up: &'a Up,
}

impl<'a> Ask for Taking<'a> {
    type Answer = Option<u32>;

    ghost call = { λ a. Take a.site a.up.now };

    ghost reply = { λ r. Taken r };

    ghost tells_memory = { λ r. refl };

    fn door(&self) -> Door {
        Door::Takes
    }

    fn ask(&self, star: &mut Star) -> Result<Option<u32>, StarFault> {
        star.take(self.alloc, self.site, self.up)
    }
}

#[derive(Drop)]
pub(crate) struct Fetching {
    pub(crate) alloc: Global,
    pub(crate) site: u32,
    pub(crate) max: u32,
}

impl Ask for Fetching {
    type Answer = Downs;

    ghost call = { λ a. Fetch a.site a.max };

    ghost reply = { λ r. Fetched r };

    ghost tells_memory = { λ r. refl };

    fn door(&self) -> Door {
        Door::Others
    }

    fn ask(&self, star: &mut Star) -> Result<Downs, StarFault> {
        star.fetch(self.alloc, self.site, self.max)
    }
}

#[derive(Drop)]
pub(crate) struct Leaving {
    pub(crate) site: u32,
}

impl Ask for Leaving {
    type Answer = ();

    ghost call = { λ a. Leave a.site };

    ghost reply = { λ r. Left r };

    ghost tells_memory = { λ r. refl };

    fn door(&self) -> Door {
        Door::Others
    }

    fn ask(&self, star: &mut Star) -> Result<(), StarFault> {
        star.leave(self.site)
    }
}
