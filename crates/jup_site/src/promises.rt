//! What holds of a star that anyone calls, and of each site that joins it, at every moment.

ghost use Rattle.std.specs.Prelude.{◌≡◌, ℕ, suc, ◌+◌};
ghost use Rattle.jup_batch.specs.Boards.{board_batches};
ghost use Rattle.jup_site.specs.Courses.{BoardCourse, BoardMember, IsOpened, StarShows, SiteHolds, HasLink, Remains, KeepsOrder, AreAtOnce, ShowOneOrder, number, since};

/// Take a star that was opened with a board, and becomes one star after another: anyone joins or leaves,
/// fetches messages, or sends a message that the star takes. Take a site that joined it, and goes on by one move
/// or none at each step. Then:
///
/// - `shows`: the star shows what its order makes of the opening board.
/// - `site`: the site has not stopped, and accepts the oldest message to it. Only a full order refuses its
///   oldest message. It shows what its view of the order makes of the opening board. It and the star show in
///   one order the items that both show. Once nothing is on its way, its board is the star's, and the order has
///   each of its edits once, in order.
/// - `remains`: its link stays, except for its own leave and for a message of it that is refused.
/// - `order`: from one moment to any later one, the star and the site keep the order of their items. A link
///   that is gone stays gone.
/// - `orders`: at every moment two sites of one star show in one order the items that both show, with their
///   links or without, whatever is on its way.
/// - `copies`: what one of them shows, and what the other shows at any later moment, are in one order too.
///
/// It does nothing: its contract is the theorem.
pub fn sites_agree()
    ensures shows { (c : BoardCourse) → IsOpened c → (t : ℕ) → StarShows c.board (c.star t) }
    ensures site { (c : BoardCourse) → IsOpened c → (s : BoardMember c) (n : ℕ)
        → SiteHolds c.board (since board_batches s) (number board_batches s) (s.moment n) }
    ensures remains { (c : BoardCourse) → IsOpened c → (s : BoardMember c) (n : ℕ)
        → HasLink (number board_batches s) (s.moment n) → Remains (number board_batches s) (s.moment n) (s.moment (suc n)) }
    ensures order { (c : BoardCourse) → IsOpened c → (s : BoardMember c) (n k : ℕ)
        → KeepsOrder (number board_batches s) (s.moment n) (s.moment (n + k)) }
    ensures orders { (c : BoardCourse) → IsOpened c → (one other : BoardMember c) (n k : ℕ) → AreAtOnce one other n k
        → ShowOneOrder (one.moment n) (other.moment k) }
    ensures copies { (c : BoardCourse) → IsOpened c → (one other : BoardMember c) (n later k : ℕ) → AreAtOnce one other (n + later) k
        → ShowOneOrder (one.moment n) (other.moment k) }
{}
