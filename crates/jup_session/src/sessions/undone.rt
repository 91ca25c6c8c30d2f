//! What a session left undone.

use jup_rules::{SessionFault, Untaken};

/// What a session left undone of what its site sent, and of what waited for the site.
#[derive(Clone, Copy, Debug, PartialEq, Eq)]
pub struct Undone {
    /// Why the last message of the site was not taken although the star was not asked; `None` if there was none such.
    pub untaken: Option<Untaken>,
    /// The fault for which not all that waited for the site was fetched; `None` if it was.
    pub unsent: Option<SessionFault>,
}

impl Undone {
    /// A session that left nothing.
    pub(crate) const NOTHING: Undone = Undone {
        untaken: None,
        unsent: None,
    };
}
