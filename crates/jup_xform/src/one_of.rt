//! An operation of one of two kinds, on a state of one of two kinds. One that is not of the state's kind is not valid,
//! two of different kinds pass each other unchanged, and a content passes over the edits of the other kind. A kind
//! may itself be one of two, so a few kinds are a chain of these.
ghost use Rattle.std.specs.Prelude.{◌≡◌, ◌↔◌, IsTrue};
ghost use Rattle.jup_xform.specs.Either.{either, of_each, TraceOf, past_of, AllowsOf, traced, told};
ghost use Rattle.jup_xform.specs.Laws.BoundLaws.{lawful, keeps_meaning, keeps_fresh, keeps_rest};
ghost use Rattle.jup_xform.specs.Laws.Either.{either_is_lawful, either_keeps_fresh, either_keeps_meaning, either_keeps_rest};

use crate::{NoMemory, Single, Transform};
use std::alloc::Global;

/// Something of one of two kinds.
#[derive(Drop, Clone, Copy, Debug, PartialEq, Eq)]
pub enum OneOf<A, B> {
    First(A),
    Second(B),
}

impl<A: Transform, B: Transform> Transform for OneOf<A, B> {
    type State = OneOf<A::State, B::State>;

    type Edit = OneOf<A::Edit, B::Edit>;

    ghost Content = { (either A.Transform B.Transform).Content };

    ghost content = { (either A.Transform B.Transform).content };

    ghost meaning = { (either A.Transform B.Transform).meaning };

    ghost edit_of = { (either A.Transform B.Transform).edit_of };

    ghost bare = { (either A.Transform B.Transform).bare };

    ghost is_valid = { (either A.Transform B.Transform).is_valid };

    ghost after = { (either A.Transform B.Transform).after };

    ghost has_room = { (either A.Transform B.Transform).has_room };

    ghost can_reserve = { (either A.Transform B.Transform).can_reserve };

    ghost is_distinct = { (either A.Transform B.Transform).is_distinct };

    ghost is_small = { (either A.Transform B.Transform).is_small };

    ghost keeps_order = { (either A.Transform B.Transform).keeps_order };

    ghost are_apart = { (either A.Transform B.Transform).are_apart };

    ghost is_fresh = { (either A.Transform B.Transform).is_fresh };

    ghost Name = { (either A.Transform B.Transform).Name };

    ghost holds = { (either A.Transform B.Transform).holds };

    ghost inserts = { (either A.Transform B.Transform).inserts };

    ghost deletes = { (either A.Transform B.Transform).deletes };

    ghost changes = { (either A.Transform B.Transform).changes };

    ghost client_past = { (either A.Transform B.Transform).client_past };

    ghost server_past = { (either A.Transform B.Transform).server_past };

    ghost Shape = { (either A.Transform B.Transform).Shape };

    ghost shape = { (either A.Transform B.Transform).shape };

    ghost copies_freely = { (either A.Transform B.Transform).copies_freely };

    fn valid(&self, state: &OneOf<A::State, B::State>) -> bool {
        match (self, state) {
            (OneOf::First(op), OneOf::First(state)) => op.valid(state),
            (OneOf::Second(op), OneOf::Second(state)) => op.valid(state),
            _ => false,
        }
    }

    fn apart(&self, other: &OneOf<A, B>) -> bool {
        match (self, other) {
            (OneOf::First(op), OneOf::First(other)) => op.apart(other),
            (OneOf::Second(op), OneOf::Second(other)) => op.apart(other),
            _ => true,
        }
    }

    fn fresh_after(&self, earlier: &OneOf<A, B>) -> bool {
        match (self, earlier) {
            (OneOf::First(op), OneOf::First(earlier)) => op.fresh_after(earlier),
            (OneOf::Second(op), OneOf::Second(earlier)) => op.fresh_after(earlier),
            _ => true,
        }
    }

    fn reserve(
        &self,
        alloc: Global,
        beside: u32,
        state: &mut OneOf<A::State, B::State>,
    ) -> Result<(), NoMemory> {
        match (self, state) {
            (OneOf::First(op), OneOf::First(state)) => op.reserve(alloc, beside, state),
            (OneOf::Second(op), OneOf::Second(state)) => op.reserve(alloc, beside, state),
            _ => Ok(()),
        }
    }

    fn apply(&self, state: &mut OneOf<A::State, B::State>) {
        match (self, state) {
            (OneOf::First(op), OneOf::First(state)) => op.apply(state),
            (OneOf::Second(op), OneOf::Second(state)) => op.apply(state),
            _ => {}
        }
    }

    fn transform(c: &mut OneOf<A, B>, s: &mut OneOf<A, B>) {
        match (c, s) {
            (OneOf::First(c), OneOf::First(s)) => A::transform(c, s),
            (OneOf::Second(c), OneOf::Second(s)) => B::transform(c, s),
            _ => {}
        }
    }

    fn copy(&self, alloc: Global) -> Result<OneOf<A, B>, NoMemory> {
        match self {
            OneOf::First(op) => Ok(OneOf::First(op.copy(alloc)?)),
            OneOf::Second(op) => Ok(OneOf::Second(op.copy(alloc)?)),
        }
    }

    fn write_to(&self, into: &mut OneOf<A, B>) {
        match (self, into) {
            (OneOf::First(op), OneOf::First(into)) => op.write_to(into),
            (OneOf::Second(op), OneOf::Second(into)) => op.write_to(into),
            _ => {}
        }
    }

    fn edit(&self, alloc: Global) -> Result<OneOf<A::Edit, B::Edit>, NoMemory> {
        match self {
            OneOf::First(op) => Ok(OneOf::First(op.edit(alloc)?)),
            OneOf::Second(op) => Ok(OneOf::Second(op.edit(alloc)?)),
        }
    }

    ghost square = { (either_is_lawful A.Transform.own B.Transform.own (lawful A.Transform) (lawful B.Transform)).square };

    ghost distinct_after = { (either_is_lawful A.Transform.own B.Transform.own (lawful A.Transform) (lawful B.Transform)).distinct_after };

    ghost small_after = { (either_is_lawful A.Transform.own B.Transform.own (lawful A.Transform) (lawful B.Transform)).small_after };

    ghost small_below = { (either_is_lawful A.Transform.own B.Transform.own (lawful A.Transform) (lawful B.Transform)).small_below };

    ghost small_before = { (either_is_lawful A.Transform.own B.Transform.own (lawful A.Transform) (lawful B.Transform)).small_before };

    ghost apart_swap = { (either_is_lawful A.Transform.own B.Transform.own (lawful A.Transform) (lawful B.Transform)).apart_swap };

    ghost apart_client = { (either_is_lawful A.Transform.own B.Transform.own (lawful A.Transform) (lawful B.Transform)).apart_client };

    ghost apart_server = { (either_is_lawful A.Transform.own B.Transform.own (lawful A.Transform) (lawful B.Transform)).apart_server };

    ghost effect_one = { (either_keeps_meaning A.Transform.own B.Transform.own (keeps_meaning A.Transform) (keeps_meaning B.Transform)).effect_one };

    ghost order = { (either_keeps_meaning A.Transform.own B.Transform.own (keeps_meaning A.Transform) (keeps_meaning B.Transform)).order };

    ghost order_self = { (either_keeps_meaning A.Transform.own B.Transform.own (keeps_meaning A.Transform) (keeps_meaning B.Transform)).order_self };

    ghost order_chain = { (either_keeps_meaning A.Transform.own B.Transform.own (keeps_meaning A.Transform) (keeps_meaning B.Transform)).order_chain };

    ghost inserts_client = { (either_keeps_meaning A.Transform.own B.Transform.own (keeps_meaning A.Transform) (keeps_meaning B.Transform)).inserts_client };

    ghost inserts_server = { (either_keeps_meaning A.Transform.own B.Transform.own (keeps_meaning A.Transform) (keeps_meaning B.Transform)).inserts_server };

    ghost changes_client = { (either_keeps_meaning A.Transform.own B.Transform.own (keeps_meaning A.Transform) (keeps_meaning B.Transform)).changes_client };

    ghost changes_server = { (either_keeps_meaning A.Transform.own B.Transform.own (keeps_meaning A.Transform) (keeps_meaning B.Transform)).changes_server };

    ghost apart_names = { (either_keeps_meaning A.Transform.own B.Transform.own (keeps_meaning A.Transform) (keeps_meaning B.Transform)).apart_names };

    ghost fresh_names = { (either_keeps_meaning A.Transform.own B.Transform.own (keeps_meaning A.Transform) (keeps_meaning B.Transform)).fresh_names };

    ghost inserts_new = { (either_keeps_meaning A.Transform.own B.Transform.own (keeps_meaning A.Transform) (keeps_meaning B.Transform)).inserts_new };

    ghost changes_held = { (either_keeps_meaning A.Transform.own B.Transform.own (keeps_meaning A.Transform) (keeps_meaning B.Transform)).changes_held };

    ghost held_before = { (either_keeps_meaning A.Transform.own B.Transform.own (keeps_meaning A.Transform) (keeps_meaning B.Transform)).held_before };

    ghost held_after = { (either_keeps_meaning A.Transform.own B.Transform.own (keeps_meaning A.Transform) (keeps_meaning B.Transform)).held_after };

    ghost meaning_none = { (either_keeps_meaning A.Transform.own B.Transform.own (keeps_meaning A.Transform) (keeps_meaning B.Transform)).meaning_none };

    ghost meaning_more = { (either_keeps_meaning A.Transform.own B.Transform.own (keeps_meaning A.Transform) (keeps_meaning B.Transform)).meaning_more };

    ghost edit_client = { (either_keeps_meaning A.Transform.own B.Transform.own (keeps_meaning A.Transform) (keeps_meaning B.Transform)).edit_client };

    ghost edit_server = { (either_keeps_meaning A.Transform.own B.Transform.own (keeps_meaning A.Transform) (keeps_meaning B.Transform)).edit_server };

    ghost fresh_client = { (either_keeps_fresh A.Transform.own B.Transform.own (keeps_fresh A.Transform) (keeps_fresh B.Transform)).fresh_client };

    ghost fresh_server = { (either_keeps_fresh A.Transform.own B.Transform.own (keeps_fresh A.Transform) (keeps_fresh B.Transform)).fresh_server };

    ghost fresh_of_client = { (either_keeps_fresh A.Transform.own B.Transform.own (keeps_fresh A.Transform) (keeps_fresh B.Transform)).fresh_of_client };

    ghost fresh_of_server = { (either_keeps_fresh A.Transform.own B.Transform.own (keeps_fresh A.Transform) (keeps_fresh B.Transform)).fresh_of_server };

    ghost effect_two = { (either_keeps_rest A.Transform.own B.Transform.own (keeps_rest A.Transform) (keeps_rest B.Transform)).effect_two };

    ghost room_less = { (either_keeps_rest A.Transform.own B.Transform.own (keeps_rest A.Transform) (keeps_rest B.Transform)).room_less };

    ghost room_client = { (either_keeps_rest A.Transform.own B.Transform.own (keeps_rest A.Transform) (keeps_rest B.Transform)).room_client };

    ghost room_server = { (either_keeps_rest A.Transform.own B.Transform.own (keeps_rest A.Transform) (keeps_rest B.Transform)).room_server };

    ghost shape_client = { (either_keeps_rest A.Transform.own B.Transform.own (keeps_rest A.Transform) (keeps_rest B.Transform)).shape_client };

    ghost shape_server = { (either_keeps_rest A.Transform.own B.Transform.own (keeps_rest A.Transform) (keeps_rest B.Transform)).shape_server };
}

/// The trace of an operation of one of two kinds.
#[derive(Clone, Copy, Debug, PartialEq, Eq)]
pub enum OneTrace<R, S> {
    OfFirst(R),
    OfSecond(S),
    /// The state is of the other kind.
    Misfit,
}

impl<A: Single, B: Single> Single for OneOf<A, B> {
    type Trace = OneTrace<A::Trace, B::Trace>;

    ghost is_trace = { TraceOf A.is_trace B.is_trace };

    ghost trace_past = { past_of A.trace_past B.trace_past };

    ghost allows = { AllowsOf A.allows B.allows };

    fn trace(&self, state: &OneOf<A::State, B::State>) -> OneTrace<A::Trace, B::Trace> {
        match (self, state) {
            (OneOf::First(op), OneOf::First(state)) => OneTrace::OfFirst(op.trace(state)),
            (OneOf::Second(op), OneOf::Second(state)) => OneTrace::OfSecond(op.trace(state)),
            _ => OneTrace::Misfit,
        }
    }

    fn trace_after(
        &self,
        trace: OneTrace<A::Trace, B::Trace>,
        earlier: &OneOf<A, B>,
    ) -> OneTrace<A::Trace, B::Trace> {
        match (self, trace, earlier) {
            (OneOf::First(op), OneTrace::OfFirst(trace), OneOf::First(earlier)) => {
                OneTrace::OfFirst(op.trace_after(trace, earlier))
            }
            (OneOf::Second(op), OneTrace::OfSecond(trace), OneOf::Second(earlier)) => {
                OneTrace::OfSecond(op.trace_after(trace, earlier))
            }
            _ => trace,
        }
    }

    fn allowed_by(&self, trace: OneTrace<A::Trace, B::Trace>) -> bool {
        match (self, trace) {
            (OneOf::First(op), OneTrace::OfFirst(trace)) => op.allowed_by(trace),
            (OneOf::Second(op), OneTrace::OfSecond(trace)) => op.allowed_by(trace),
            _ => false,
        }
    }

    ghost traced = { traced A.Transform.own B.Transform.own A.is_trace B.is_trace A.trace_past B.trace_past A.traced B.traced };

    ghost told = { told A.Transform.own B.Transform.own A.is_trace B.is_trace A.allows B.allows A.told B.told };
}
