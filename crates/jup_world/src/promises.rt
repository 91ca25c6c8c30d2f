//! What every world keeps, whatever happens in it.

ghost use Rattle.std.specs.Prelude.{◌≡◌, ◌≤◌, ℕ, List, length};
ghost use Rattle.jup_limits.specs.Limits.{highest_limit};
ghost use Rattle.jup_batch.specs.Boards.{Windows, board_batches};
ghost use Rattle.jup_world.specs.Worlds.{IsOpening, outcome, run};
ghost use Rattle.jup_world.specs.Boards.{BoardWorld, BoardEvent, IsReached, AllAgree};
ghost use Rattle.jup_world.specs.Traces.{Promises, OrderIsKept, OrdersAgree, BacklogIsShort, Tallies};
ghost use Rattle.jup_world.specs.Sound.{RepliesTo, StrayRepliesTo, SitesHold, OnlyFull, ArePlain, AllLinked};
ghost use Rattle.jup_world.specs.Lanes.{LaneEvent, LaneWorld, IsStill, messages_of, opened_lanes, AllSteps, AllTried};
ghost use Rattle.jup_world.specs.Happenings.{IsLaneWorld};
ghost use Rattle.jup_lane.specs.Lanes.{Way, Carries, messages, ups, downs};

/// After any list of joins, departures, edits, pings and deliveries, and of joins, messages and departures of
/// strangers, of whom nothing is known:
///
/// - the star and each attached site show the meaning of the star's order and of the site's own edits.
///   Whenever no message is on its way, they hold equal boards;
/// - whatever event comes next is answered, nothing is withheld, and only a full order refuses an edit on its
///   way up;
/// - as many numbers were given as the trace has joins, and each site made as many edits as the trace has of it;
/// - a site's backlog is the edits that it made less those that it knows the star received. It is at most
///   1,024, and 63 whenever no message is on its way;
/// - whatever events come next, the star and each site that is attached before and after keep the order of
///   their items;
/// - each attached site holds what it should, by its own link alone. Whenever no message is on its way
///   between it and the star, its board is the star's, whatever is on its way elsewhere;
/// - a full order alone detaches a site;
/// - a stranger's event leaves all sites as they are. Its message is an acknowledgement, a ping, or one valid
///   entry of the order under its link's next name, or it is refused and the link goes;
/// - if no event was one of a stranger, the attached sites are those that have links.
///
/// It does nothing: its contract is the theorem.
pub fn worlds_agree()
    ensures kept { (w : BoardWorld) → IsReached w → Promises board_batches w }
    ensures replies { (w : BoardWorld) → IsReached w → (event : BoardEvent)
        → RepliesTo board_batches w event (outcome board_batches w event).reply }
    ensures tallies { (w : BoardWorld) → IsReached w → Tallies board_batches w }
    ensures backlog { (w : BoardWorld) → IsReached w → BacklogIsShort board_batches w }
    ensures order { (w : BoardWorld) → IsReached w → (events : List BoardEvent)
        → OrderIsKept board_batches w (run board_batches w events) }
    ensures plain { (w : BoardWorld) → (reached : IsReached w) → ArePlain board_batches reached.events → AllLinked board_batches w }
    ensures sites { (w : BoardWorld) → IsReached w → SitesHold board_batches w }
    ensures detached { (w : BoardWorld) → IsReached w → OnlyFull board_batches w }
    ensures strangers { (w : BoardWorld) → IsReached w → (event : BoardEvent)
        → StrayRepliesTo board_batches w event (outcome board_batches w event) }
{}

/// At every moment, also while messages are on their way, any two copies of the board show in the same order
/// the items that both show. A copy is the star's board, or that of an attached site; the two may be of one
/// moment or of two. So it is:
///
/// - if links carry messages, after any list of events and over any that follow (`copies`);
/// - if links carry bytes, over all that calls of a [`World`](crate::World) may do to it, pushes and events
///   that are refused because an allocation failed among them (`bytes`).
///
/// It does nothing: its contract is the theorem.
pub fn orders_agree()
    ensures copies { (w : BoardWorld) → IsReached w → (events : List BoardEvent)
        → OrdersAgree board_batches w (run board_batches w events) }
    ensures bytes { (board : Windows) (limit : ℕ) (events later : List LaneEvent) (w v : LaneWorld) → IsOpening board → 1 ≤ limit → limit ≤ highest_limit
        → AllTried (opened_lanes board limit) events w → AllTried w later v → OrdersAgree board_batches (messages_of w) (messages_of v) }
{}

/// After any list of events, pushes among them, in a world whose links carry bytes:
///
/// - wherever no byte is on its way, the star and all attached sites agree;
/// - the star and each site that is attached before and after keep the order of their items;
/// - the messages on a way of a link, and how many of their bytes its reader has, leave no byte of it open.
///
/// It does nothing: its contract is the theorem.
pub fn bytes_agree()
    ensures agree { (events : List LaneEvent) (w v : LaneWorld) → IsLaneWorld w → AllSteps w events v → IsStill v → AllAgree (messages_of v) }
    ensures order { (events : List LaneEvent) (w v : LaneWorld) → IsLaneWorld w → AllSteps w events v
        → OrderIsKept board_batches (messages_of w) (messages_of v) }
    ensures up { (a b : Way) → Carries ups a → Carries ups b → messages ups a ≡ messages ups b → length a.read ≡ length b.read → a ≡ b }
    ensures down { (a b : Way) → Carries downs a → Carries downs b → messages downs a ≡ messages downs b → length a.read ≡ length b.read → a ≡ b }
{}
