//! What two ends keep over every list of edits and deliveries.

ghost use Rattle.std.specs.Prelude.{List};
ghost use Rattle.jup_link.specs.Links.{PairEvent, opened_pair, pair_after_all, AreAllowed, Agrees};

use jup_xform::Transform;

/// Two new ends over one state agree after any edits, acknowledgements and deliveries. They are in step, each
/// message is accepted in its turn, and what it gives is valid there. If nothing is on its way, the two
/// states are equal.
///
/// It does nothing: its contract is the theorem.
pub fn ends_agree<T: Transform>()
    ensures { (x : T.State) (events : List (PairEvent T)) → T.is_distinct x → T.is_small 0 x
        → AreAllowed T.Transform (opened_pair x) events
        → Agrees T.Transform (pair_after_all T.Transform (opened_pair x) events) }
{}
