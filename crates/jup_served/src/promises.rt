//! What a person at a client relies on, by the contract of the session that serves their site.

ghost use Rattle.std.specs.Prelude.{◌≡◌, ◌≢◌, ◌≤◌, ℕ, Bool, length, map, List, []};
ghost use Rattle.std.specs.List.{AllByRecursion};
ghost use Rattle.jup_limits.specs.Limits.{highest_limit};
ghost use Rattle.jup_batch.specs.Boards.{Windows};
ghost use Rattle.jup_star.specs.Stars.{new_star};
ghost use Rattle.jup_hub.specs.declared.view.HubEvent.{HubEvent};
ghost use Rattle.jup_hub.specs.declared.view.View.{View};
ghost use Rattle.jup_hub.specs.Histories.{calls_in, Meets};
ghost use Rattle.jup_client.specs.declared.client.ClientState.{ClientState};
ghost use Rattle.jup_stream.specs.declared.saying.Said.{Said};
ghost use Rattle.jup_stream.specs.declared.saying.Said.TheVariants.{Up as SaysUp};
ghost use Rattle.jup_site.specs.Sites.{IsOpening};
ghost use Rattle.jup_session.specs.Sessions.{HasMadeNone};
ghost use Rattle.jup_honest.specs.Sites.{SiteRun, IsHonest, calls, start, now, AreDrained};
ghost use Rattle.jup_served.specs.Sessions.{IsClientRun, Ended, ServesSite, answer_of, IsOwnedBy, IsServedRun, all_tallies, IsOneOf, IsSessionHub};

/// A session serves the site of a run, at some moment before the site begins to leave. Its client is of this
/// product: it wrote the messages of its site, in order, and the site received the first messages that the client
/// read. No message came before it was sent. Then the site is honest: all that `honest_sites_agree` says holds.
///
/// - `honest`: this is so if nobody but the session makes a call for the site.
/// - `owned`: nobody else does if sessions alone call the hub, each with a pass that had made no call.
/// - `hub`: so at a hub that sessions alone call, each such site is honest.
/// - `agree`: two such sites hold equal boards once nothing is on its way to them or from them.
/// - `closed`: sessions alone have called the hub if one pass took in all their passes and made no call itself.
///   The history that it met is as long as their calls are many. `Hub::close` gives that history and its length.
///
/// It does nothing: its contract is the theorem.
pub fn served_sites_are_honest()
    ensures honest { (run : SiteRun) (log : List HubEvent) (s : Ended) → IsServedRun run log s → IsOwnedBy s run.answer.site (calls run) → IsHonest run }
    ensures owned { (keeps : Bool) (board : Windows) (limit : ℕ) (sessions : List Ended) (log : List HubEvent) → IsSessionHub keeps board limit sessions log
        → (s : Ended) → IsOneOf s sessions → (serves : ServesSite s) → IsOwnedBy s (answer_of serves).site log }
    ensures hub { (run : SiteRun) (sessions : List Ended) (log : List HubEvent) → IsSessionHub run.keeps run.board run.limit sessions log
        → (s : Ended) → IsOneOf s sessions → IsServedRun run log s → IsHonest run }
    ensures agree { (run other : SiteRun) (sessions : List Ended) (log : List HubEvent) → IsSessionHub run.keeps run.board run.limit sessions log
        → (s t : Ended) → IsOneOf s sessions → IsServedRun run log s → IsOneOf t sessions → IsServedRun other log t
        → AreDrained run other → (now run).site.board ≡ (now other).site.board }
    ensures closed { (keeps : Bool) (board : Windows) (limit : ℕ) (sessions : List Ended) (v : View) (log : List HubEvent) → IsOpening board → limit ≤ highest_limit
        → v.opening ≡ new_star keeps board limit → v.made ≡ [] → v.kept ≡ all_tallies sessions → AllByRecursion (λ (s : Ended). HasMadeNone s.given) sessions
        → Meets v log → length log ≡ calls_in (all_tallies sessions) → IsSessionHub keeps board limit sessions log }
{}

/// A client of `jup_client` goes through a run of its site: it answers edits and syncs, and hears messages, as its
/// calls promise, and no allocation fails. Then it shows the board of the site, and says just the messages that the
/// site sent.
///
/// It does nothing: its contract is the theorem.
pub fn clients_show_their_sites()
    ensures client { (run : SiteRun) (old new : ClientState) (saids : List Said) → old.site ≡ (start run).site
        → IsClientRun run.steps old new saids
        → (new.site ≡ (now run).site) × (saids ≡ map (λ up. SaysUp up) (now run).sent) }
{}

/// There is such a hub with two sessions, which serve two sites: both clients set one toggle at the same time, and one sends a ping. In the
/// end nothing is on its way. So nobody can make the premises of [`served_sites_are_honest`] impossible to meet. A
/// client goes through the second of these runs, so the same holds of [`clients_show_their_sites`].
///
/// It does nothing: its contract is the theorem.
pub fn served_runs_exist()
    ensures exists { (run other : SiteRun) × (sessions : List Ended) × (log : List HubEvent) × (s t : Ended) × IsSessionHub run.keeps run.board run.limit sessions log
        × IsOneOf s sessions × IsServedRun run log s × IsOneOf t sessions × IsServedRun other log t × AreDrained run other
        × (run.answer.site ≢ other.answer.site) × (length (now run).star.order ≡ 2) }
    ensures client { (run : SiteRun) × (old new : ClientState) × (saids : List Said) × IsHonest run × (old.site ≡ (start run).site)
        × IsClientRun run.steps old new saids × (length saids ≡ 1) }
{}
