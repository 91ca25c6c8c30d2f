//! What the bytes of a link say of a site and its hub.

ghost use Rattle.std.specs.Prelude.{◌≡◌, ◌≤◌, ◌<◌, length, Result, Ok};
ghost use Rattle.jup_limits.specs.Limits.{highest_limit};
ghost use Rattle.jup_batch.specs.Boards.{BoardBatch, Commands, bare};
ghost use Rattle.jup_star.specs.declared.messages.Down.{Down};
ghost use Rattle.jup_client.specs.declared.ends.ClientEnd.{ClientEnd};
ghost use Rattle.jup_client.specs.declared.client.Answer.{Answer};
ghost use Rattle.jup_client.specs.declared.client.Heard.{Heard};
ghost use Rattle.jup_client.specs.declared.client.ClientState.{ClientState};
ghost use Rattle.jup_client.specs.Clients.{AnswersEdit, Delivers, IsOpened};
ghost use Rattle.jup_socket.specs.Sockets.{IsEditStep, IsDeliverStep, AtSocket, AtSocketThrough, DownSocket};
ghost use Rattle.jup_hub.specs.Histories.{IsLegal};
ghost use Rattle.jup_layout.specs.Drafts.{board_lines, IsBoard, board_with};
ghost use Rattle.jup_star.specs.declared.star.Joined.{Joined};
ghost use Rattle.jup_site.specs.Sites.{IsOpening};
ghost use Rattle.jup_honest.specs.Sites.{Connection, IsReliable, IsCausalThrough, SiteRun, IsHonest, opening, calls, start, now};

/// The session has read the first of the bytes that the client wrote, and the star was brought the first of the
/// messages that their lines say. The client has read the first of the bytes that the session wrote, and its
/// site received the first of the messages that their lines say. Then the link is reliable. It is enough that
/// this holds at the end, if no message came before it was sent.
///
/// Once the client has read the line `ready`, its greeting gave it its number, its limit and its board.
///
/// It does nothing: its contract is the theorem.
pub fn sockets_are_reliable()
    ensures reliable { (answer : Joined) (c : Connection) → AtSocket answer c → IsReliable c }
    ensures run { (run : SiteRun) → IsOpening run.board → run.limit ≤ highest_limit → IsLegal (opening run) (calls run)
        → AtSocketThrough run.answer run.steps (start run) → IsHonest run }
    ensures causal { (run : SiteRun) → IsOpening run.board → run.limit ≤ highest_limit
        → IsLegal (opening run) (calls run) → IsCausalThrough run.steps (start run) → AtSocket run.answer (now run)
        → IsHonest run }
    ensures greeted { (answer : Joined) (c : Connection) (s : DownSocket answer c)
        → (s.received.site ≡ answer.site) × (s.received.limit ≡ answer.limit)
        × (s.received.body ≡ board_lines answer.board) }
    ensures opened { (answer : Joined) (c : Connection) (s : DownSocket answer c) → IsBoard answer.board
        → length (board_lines answer.board) < 4294967295 → board_with s.received.body ≡ Ok (bare answer.board) }
{}

/// What a client of `jup_client` does for an edit, and for a message that it hears, is a step of its site. It
/// says the messages that the site sends in that step. If an allocation fails, it ends instead, and its site
/// stays as it was. The site that it opens from its greeting is the one with which the run begins.
///
/// It does nothing: its contract is the theorem.
pub fn clients_are_honest()
    ensures edit { (commands : Commands) (old new : ClientState) (r : Result Answer ClientEnd)
        → AnswersEdit commands old r new → IsEditStep commands old r new }
    ensures deliver { (down : Down BoardBatch) (old new : ClientState) (r : Result Heard ClientEnd)
        → Delivers down old r new → IsDeliverStep down old r new }
    ensures opened { (run : SiteRun) (client : ClientState) → IsBoard run.answer.board
        → length (board_lines run.answer.board) < 4294967295 → run.answer.board ≡ bare run.answer.board
        → IsOpened run.answer.site run.answer.limit (board_lines run.answer.board) (Ok client)
        → client.site ≡ (start run).site }
{}
