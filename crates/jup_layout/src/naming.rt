//! What is asked of the items of a board's lines.
ghost use Rattle.std.specs.Prelude.{◌≡◌, None};
ghost use Rattle.jup_layout.specs.Drafts.{naming_refusal, next_naming};

use crate::refusals::Refusal;
use jup_limits::LONGEST_SEQUENCE;
use jup_value::Name;

/// How the items of lines are named.
#[derive(Clone, Copy)]
pub(crate) enum Naming {
    /// Distinct in each sequence.
    Distinct,
    /// As in a layout: by their number in the whole text, from 1. There were so many so far.
    Numbered(u32),
}

impl Naming {
    /// Why an item may not have this name, or may not come after so many others in its sequence.
    pub(crate) fn refusal(self, name: Name, place: u32) -> Option<Refusal>
        ensures { result ≡ naming_refusal self name place }
    {
        match self {
            Naming::Distinct => None,
            Naming::Numbered(count) => {
                if name.site != 0 || name.number == 0 || name.number - 1 != count {
                    return Some(Refusal::BadItemName);
                }
                if place >= LONGEST_SEQUENCE {
                    return Some(Refusal::TooMany);
                }
                None
            }
        }
    }

    /// What is asked of the next item, after one that was not refused.
    pub(crate) fn after(self, name: Name, place: u32) -> Naming
        requires { naming_refusal self name place ≡ None }
        ensures { result ≡ next_naming self }
    {
        match self {
            Naming::Distinct => Naming::Distinct,
            Naming::Numbered(_) => Naming::Numbered(name.number),
        }
    }
}
