//! The rule of the table, and its kinds of step.
//!
//! Word 0 is the count of events, and word 1 the turn, which is 0 if it is free. The slot has the star with a
//! copy of the count. The pass that has the turn takes the star out, calls it, stores the count and puts the
//! star back. The store of the count is the step at which the call becomes one of the history.
ghost use Rattle.jup_hub.specs.Histories.{newcomer, spent, after_split, split_from, joined_with};
ghost use Rattle.jup_hub.specs.Turns.{Kept, tried, decided, gave, looked, saw, learned};

use crate::desk::Desk;
use crate::view::View;
use atomic_table::{Join, Play, Split, TableRule};
use jup_star::Star;
use std::marker::{Brand, PhantomData};
use std::snapshot::Snapshot;

/// What holds of the table between any two steps. Its key is the star that the hub was opened with.
pub struct Turns;

impl TableRule<Option<Desk>, View, Snapshot<Star>> for Turns {
    ghost holds = { λ key. Kept key.value };

    ghost first = { λ key. newcomer key.value };
}

/// A try for the turn.
pub struct Try;

impl Play<Option<Desk>, View> for Try {
    ghost then = { tried };
}

/// The turn is given up.
pub struct Give;

impl Play<Option<Desk>, View> for Give {
    ghost then = { gave };
}

/// A look at the count.
pub struct Look;

impl Play<Option<Desk>, View> for Look {
    ghost then = { looked };
}

/// A look at the count by the pass that has the turn.
pub struct See;

impl Play<Option<Desk>, View> for See {
    ghost then = { saw };
}

/// A look at the count by which the pass has seen no more.
pub struct Learn;

impl Play<Option<Desk>, View> for Learn {
    ghost then = { learned };
}

/// The call that a store of the count decides, for the proof alone.
pub trait Deed {
    ghost use Rattle.jup_star.specs.declared.calls.Call.{Call};
    ghost use Rattle.jup_star.specs.declared.calls.StarReply.{StarReply};

    ghost call: { Call };

    ghost reply: { StarReply };
}

// A brand represents any deed. The proof says which one, at the place that uses the brand. What is written here is not used.
impl Deed for Brand {
    ghost use Rattle.std.specs.Prelude.{Ok};
    ghost use Rattle.jup_star.specs.declared.calls.Call.TheVariants.{Join};
    ghost use Rattle.jup_star.specs.declared.calls.StarReply.TheVariants.{Left};

    ghost call = { Join };

    ghost reply = { Left (Ok tt) };
}

/// A store of the count, which decides a call.
pub struct Decide<D> {
    deed: PhantomData<D>,
}

impl<D: Deed> Play<Option<Desk>, View> for Decide<D> {
    ghost then = { decided D.call D.reply };
}

/// How views are split and put together.
pub struct Passes;

impl Split<View> for Passes {
    ghost left = { after_split };

    ghost right = { split_from };
}

impl Join<View> for Passes {
    ghost both = { joined_with };

    ghost spent = { spent };
}
