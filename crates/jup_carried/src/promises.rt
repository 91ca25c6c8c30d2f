//! What a site relies on over a link that outlives its connections.

ghost use Rattle.std.specs.Prelude.{◌≡◌, ◌≢◌, ◌≤◌, List};
ghost use Rattle.jup_limits.specs.Limits.{highest_limit};
ghost use Rattle.jup_star.specs.declared.star.Joined.{Joined};
ghost use Rattle.jup_hub.specs.declared.view.HubEvent.{HubEvent};
ghost use Rattle.jup_hub.specs.Histories.{IsLegal};
ghost use Rattle.jup_site.specs.Sites.{IsOpening};
ghost use Rattle.jup_honest.specs.Sites.{Connection, IsReliable, IsCausalThrough, SiteRun, IsHonest, opening, calls, start, now, AreDrained};
ghost use Rattle.jup_socket.specs.Sockets.{AtSocket};
ghost use Rattle.jup_served.specs.Sessions.{Ended, IsOwnedBy, IsServedRun, IsOneOf, IsSessionHub};
ghost use Rattle.jup_resume.specs.Notes.{begins_note};
ghost use Rattle.jup_resume.specs.Ways.{new_way, run as run_of};
ghost use Rattle.jup_carried.specs.CutRuns.{cut_up, cut_down};
ghost use Rattle.jup_carried.specs.Carried.{Ways, new_ways, AreRuns, BreaksWithin, Carries, Hears, AtEach, IsCarriedRun};

/// The connections of a link break at any byte and as often as they like, and each brings a beginning of the bytes that were written to it.
/// The client puts on the link the lines of its messages, and the session the lines that it writes. Each end reads the lines that were handed
/// on to it. Then the link is reliable. If that holds at each moment, no message comes before it was sent either, so the site is honest.
///
/// - `socket`: once the client has read its greeting, the bytes that either end has read are the first of those that the other wrote.
/// - `end`: where it is known at the end alone, that no message comes before it was sent is a premise.
///
/// It does nothing: its contract is the theorem.
pub fn carried_links_are_reliable()
    ensures reliable { (answer : Joined) (c : Connection) (ways : Ways) → AreRuns ways → Carries answer c ways → IsReliable c }
    ensures socket { (answer : Joined) (c : Connection) (ways : Ways) → AreRuns ways → Carries answer c ways → Hears c.handed ways.down → AtSocket answer c }
    ensures run { (run : SiteRun) → IsOpening run.board → run.limit ≤ highest_limit → IsLegal (opening run) (calls run)
        → (ways last : Ways) → AreRuns ways → AtEach (Carries run.answer) run.steps (start run) ways last → IsHonest run }
    ensures end { (run : SiteRun) → IsOpening run.board → run.limit ≤ highest_limit → IsLegal (opening run) (calls run)
        → IsCausalThrough run.steps (start run) → (ways : Ways) → AreRuns ways → Carries run.answer (now run) ways → IsHonest run }
{}

/// A session serves the site of a run, at some moment before the site begins to leave, over such a link. Its client is of this product: it puts on the link
/// the lines of its site's messages, in order, and the site received the first messages that the client read. At each moment neither end is ahead
/// of what it has. It puts no line of a message that it has not sent, and takes no message of which a line was not handed on. Then no message came
/// before it was sent, and the site is honest: all that `honest_sites_agree` says holds.
///
/// - `served`: all that `served_sites_are_honest` of `jup_served` says holds, if nobody but the session makes a call for the site.
/// - `hub`: at a hub that sessions alone call, each such site is honest.
/// - `agree`: two such sites hold equal boards once nothing is on its way to them or from them.
///
/// It does nothing: its contract is the theorem.
pub fn carried_sites_are_honest()
    ensures served { (run : SiteRun) (log : List HubEvent) (s : Ended) → IsCarriedRun run log s → IsOwnedBy s run.answer.site (calls run) → IsServedRun run log s }
    ensures hub { (run : SiteRun) (sessions : List Ended) (log : List HubEvent) → IsSessionHub run.keeps run.board run.limit sessions log
        → (s : Ended) → IsOneOf s sessions → IsCarriedRun run log s → IsHonest run }
    ensures agree { (run other : SiteRun) (sessions : List Ended) (log : List HubEvent) → IsSessionHub run.keeps run.board run.limit sessions log
        → (s t : Ended) → IsOneOf s sessions → IsCarriedRun run log s → IsOneOf t sessions → IsCarriedRun other log t
        → AreDrained run other → (now run).site.board ≡ (now other).site.board }
{}

/// There is such a hub with two sessions, which serve two sites: both clients set one toggle at the same time, and one sends a ping. Both ways of each link are cut
/// within a line. In the end nothing is on its way. At each moment of one of the runs the link is carried as [`carried_links_are_reliable`] supposes. So nobody can make the
/// premises of the two theorems impossible to meet.
///
/// It does nothing: its contract is the theorem.
pub fn carried_runs_exist()
    ensures exists { (run other : SiteRun) × (sessions : List Ended) × (log : List HubEvent) × (s t : Ended) × IsSessionHub run.keeps run.board run.limit sessions log
        × IsOneOf s sessions × (one : IsCarriedRun run log s) × IsOneOf t sessions × (two : IsCarriedRun other log t) × AreDrained run other
        × (run.answer.site ≢ other.answer.site) × BreaksWithin one.ways.up × BreaksWithin one.ways.down × BreaksWithin two.ways.up × BreaksWithin two.ways.down }
    ensures moments { (run : SiteRun) × (last : Ways) × IsOpening run.board × (run.limit ≤ highest_limit) × IsLegal (opening run) (calls run)
        × AtEach (Carries run.answer) run.steps (start run) new_ways last
        × (last.up ≡ run_of begins_note cut_up new_way) × (last.down ≡ run_of begins_note cut_down new_way) }
{}
