//! The four calls on a star, as values.
ghost use Rattle.std.specs.Prelude.{◌≡◌, Result};
ghost use Rattle.jup_star.specs.Stars.{Answers, is_refused, lacks_memory};
ghost use Rattle.jup_star.specs.declared.faults.StarFault.{StarFault as TheStarFault};
ghost use Rattle.jup_star.specs.declared.calls.Call.{Call};
ghost use Rattle.jup_star.specs.declared.calls.StarReply.{StarReply};

use crate::doors::Door;
use jup_star::{Star, StarFault};

/// A call on a star. The hub makes all four in the same way, so the way is proved once.
pub(crate) trait Ask {
    type Answer;

    /// The call, as a history bears it.
    ghost call: { Self → Call };

    /// What it answered, as a history bears it.
    ghost reply: { Result Self.Answer TheStarFault → StarReply };

    /// At which door it waits for the turn.
    fn door(&self) -> Door;

    fn ask(&self, star: &mut Star) -> Result<Self::Answer, StarFault>
        ensures { Answers (call self.now) star.old star.new (reply result) };

    /// Its reply says that an allocation failed exactly if its answer does.
    ghost tells_memory: { (r : Result Self.Answer TheStarFault) → is_refused (reply r) ≡ lacks_memory r };
}
