//! What an honest site of a running hub relies on, whatever all others send.

ghost use Rattle.std.specs.Prelude.{◌≡◌, ◌≢◌, ◌≤◌, ℕ, None, map, List, ◌∷◌, []};
ghost use Rattle.jup_star.specs.Sites.{site_open_fault};
ghost use Rattle.jup_star.specs.Stars.{BoardLink};
ghost use Rattle.jup_hub.specs.declared.view.HubEvent.{HubEvent};
ghost use Rattle.jup_honest.specs.Sites.{Step, Called, Connection, through, IsReliable, IsReliableThrough, IsCausalThrough, SiteRun, IsHonest, IsOfHistory, start, now, longer, IsDrained, IsBacklogShort, SitePromises, LinkPromises, StarShows, IsAttached, Remains, KeepsOrder, AllGoesWell, AreDrained, AreOfOneHub, ShowOneOrder};

/// Take any legal history of a hub: any number of passes, any calls, strangers among them. A site joined in it
/// at any time and was opened from the answer. The hub's takes for its number bring its messages, in order,
/// and it receives, in order, what the fetches for its number answered. Then:
///
/// - `opens`: the site opens.
/// - `well`: it accepts each message. While it has its link, only a full order refuses what it sends.
/// - `shows`, `site`: the star shows what its order makes of the opening board. The site shows what its view
///   of that order makes of it, also once its link is gone.
/// - `link`: while it has its link, the site and the star show in one order the items that both show. Once
///   nothing is on its way, its board is the star's, and the order has each of its edits once, in order.
/// - `backlog`: it knows of all its edits that the star received, except fewer than 64 once nothing is on its
///   way.
/// - `remains`: only a call to leave for it, or a full order that refuses its edit, takes its link away.
/// - `order`: from one moment to any later one, the star and the site keep the order of their items.
/// - `orders`: at every moment two such sites show in one order the items that both show, with their links or
///   without, whatever is on its way.
/// - `copies`: what one of them shows, and what the other shows at any later moment, are in one order too.
/// - `agree`: two such sites hold equal boards once nothing is on its way to them or from them.
///
/// Two clauses are of the premises. `history`: star and messages are those of the history. `causal`: that the
/// messages are the right ones need be known at the end alone, if no message came before it was sent.
///
/// It does nothing: its contract is the theorem.
pub fn honest_sites_agree()
    ensures history { (run : SiteRun) → IsOfHistory run }
    ensures causal { (steps : List Step) (c : Connection) → IsCausalThrough steps c → IsReliable (through steps c)
        → IsReliableThrough steps c }
    ensures opens { (run : SiteRun) → IsHonest run → 1 ≤ run.limit
        → site_open_fault run.answer.site run.answer.limit run.answer.board ≡ None }
    ensures shows { (run : SiteRun) → IsHonest run → StarShows run.board (now run) }
    ensures well { (run : SiteRun) → IsHonest run → AllGoesWell run.steps (start run) }
    ensures site { (run : SiteRun) → IsHonest run → SitePromises run.board (now run) }
    ensures link { (run : SiteRun) → IsHonest run → (l : BoardLink) → IsAttached (now run) l → LinkPromises (now run) l }
    ensures backlog { (run : SiteRun) → IsHonest run → (l : BoardLink) → IsAttached (now run) l
        → IsBacklogShort (now run) l }
    ensures remains { (run : SiteRun) (e : HubEvent) → IsHonest (longer run (Called e ∷ [])) → (l : BoardLink)
        → IsAttached (now run) l → Remains (now run) e }
    ensures order { (run : SiteRun) (later : List Step) → IsHonest (longer run later)
        → KeepsOrder (now run) (now (longer run later)) }
    ensures agree { (run other : SiteRun) → IsHonest run → IsHonest other → AreDrained run other
        → (now run).site.board ≡ (now other).site.board }
    ensures orders { (run other : SiteRun) → IsHonest run → IsHonest other → AreOfOneHub run other → ShowOneOrder run other }
    ensures copies { (run other : SiteRun) (later : List Step) → IsHonest (longer run later) → IsHonest other
        → AreOfOneHub (longer run later) other → ShowOneOrder run other }
{}

/// There is such a run: the site and a stranger set one toggle at the same time, and the site sends a ping. In
/// the end nothing is on its way, and the order has the stranger's entry and the site's. The stranger may as well
/// be a second such site, which has not received the edit of the first: then the two show different boards. So
/// nobody can make the premises of [`honest_sites_agree`] impossible to meet.
///
/// It does nothing: its contract is the theorem.
pub fn honest_runs_exist()
    ensures exists { (run : SiteRun) × (l : BoardLink) × IsHonest run × IsAttached (now run) l × IsDrained (now run) l
        × (stranger : ℕ) × (stranger ≢ run.answer.site) × (map (λ e. e.site) (now run).star.order ≡ stranger ∷ run.answer.site ∷ []) }
    ensures two { (run other : SiteRun) × IsHonest run × IsHonest other × AreOfOneHub run other
        × ((now run).site.board ≢ (now other).site.board) }
{}
