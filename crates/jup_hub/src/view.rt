//! What a pass knows. No value of these types is made: only contracts and proofs use them.

use jup_star::{Call, Star, StarReply};
use std::collections::LinkedList;

/// One event of a history: a call with its reply, and the number of the pass that made it.
///
/// The number of a pass is like that of a section. The first pass has none, and the pass that was split from
/// pass n as its k-th, from 0, has k before n.
pub struct HubEvent {
    pub by: LinkedList<u64>,
    pub call: Call,
    pub reply: StarReply,
}

/// The number of a pass, and the calls that were made under it.
pub struct Tally {
    pub number: LinkedList<u64>,
    pub calls: LinkedList<HubEvent>,
}

/// What a pass has seen and made.
pub struct View {
    /// The star that the hub was opened with.
    pub opening: Star,
    /// False for a pass that another has taken in.
    pub is_live: bool,
    /// While the pass has the turn, the history of all calls.
    pub turn: Option<LinkedList<HubEvent>>,
    pub number: LinkedList<u64>,
    /// How many passes were split from this one.
    pub splits: u64,
    /// The histories that it has seen. Each is a beginning of the history of all calls.
    pub seen: LinkedList<LinkedList<HubEvent>>,
    /// The calls that it made, in order.
    pub made: LinkedList<HubEvent>,
    /// The numbers of the passes that it took in, each with the calls made under it.
    pub kept: LinkedList<Tally>,
}
