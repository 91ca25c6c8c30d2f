//! Whether an operation may be applied after others, without applying them.
ghost use Rattle.std.specs.Prelude.{◌≡◌};
ghost use Rattle.jup_seq.specs.Operations.{bare};
ghost use Rattle.jup_seq.specs.Traces as traces;

use crate::operations::SeqOp;
use jup_limits::SMALL_LENGTH;
use jup_value::{Name, Seq};
use jup_xform::Single;

/// Where the item of a name is in a sequence, if it is there, and how many items there are.
#[derive(Clone, Copy, Debug, PartialEq, Eq)]
pub struct SeqTrace {
    place: Option<u32>,
    len: u32,
}

// What is traced of a name in a sequence.
fn name_trace<V: Copy>(state: &Seq<V>, name: Name) -> SeqTrace
    ensures { traces.IsNameTrace name (bare state.now) result }
{
    SeqTrace {
        place: state.place_of(name),
        len: state.len(),
    }
}

impl SeqTrace {
    // The trace of a name after an operation.
    fn past<V: Copy>(self, name: Name, op: &SeqOp<V>) -> SeqTrace
        ensures { result ≡ traces.name_trace name self op.now }
    {
        let place = match (self.place, op) {
            (None, SeqOp::Insert { place, item }) if item.name == name => Some(*place),
            (Some(at), SeqOp::Insert { place, .. }) if *place <= at => Some(at.saturating_add(1)),
            (Some(at), SeqOp::Delete { place, .. }) if *place == at => None,
            (Some(at), SeqOp::Delete { place, .. }) if *place < at => Some(at - 1),
            (place, _) => place,
        };
        let len = op.length_after(self.len);
        SeqTrace { place, len }
    }
}

impl<V: Copy> Single for SeqOp<V> {
    type Trace = SeqTrace;

    ghost is_trace = { traces.IsTrace };

    ghost trace_past = { traces.trace_past };

    ghost allows = { traces.Allows };

    fn trace(&self, state: &Seq<V>) -> SeqTrace {
        match *self {
            SeqOp::Insert { item, .. } => name_trace(state, item.name),
            SeqOp::Delete { name, .. } | SeqOp::Relabel { name, .. } => { name_trace(state, name) }
            SeqOp::Nothing => SeqTrace {
                place: None,
                len: 0,
            },
        }
    }

    fn trace_after(&self, trace: SeqTrace, earlier: &SeqOp<V>) -> SeqTrace {
        match *self {
            SeqOp::Insert { item, .. } => trace.past(item.name, earlier),
            SeqOp::Delete { name, .. } | SeqOp::Relabel { name, .. } => {
                trace.past(name, earlier)
            }
            SeqOp::Nothing => trace,
        }
    }

    fn allowed_by(&self, trace: SeqTrace) -> bool {
        match *self {
            SeqOp::Insert { place, .. } => {
                place <= trace.len && trace.place.is_none() && trace.len < SMALL_LENGTH
            }
            SeqOp::Delete { place, .. } | SeqOp::Relabel { place, .. } => {
                trace.place == Some(place)
            }
            SeqOp::Nothing => true,
        }
    }

    ghost traced = { traces.traced };

    ghost told = { traces.told };
}
