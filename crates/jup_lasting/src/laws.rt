//! What the calls of a client's link come to.
ghost use Rattle.std.specs.Prelude.{◌≡◌, List, [], ◌∷◌, length, codes};
ghost use Rattle.jup_resume.specs.Texts.{spelled};
ghost use Rattle.jup_resume.specs.Notes.{note_text};
ghost use Rattle.jup_lasting.specs.Links.{after_asking, asks};
ghost use Rattle.jup_lasting.specs.Runs.{Step, Moment, start, Leads, IsOneLink, cut_run};

/// A client's link is carried by one connection after another. Each breaks at any byte, at either end, and the server is killed at any
/// moment and goes on from its disk. The client hands on the first lines that the server put, in order, each once. The server takes the
/// first lines that the client's site said, in order, each once. So neither can tell the link from an unbroken one.
///
/// It does nothing: its contract is the theorem.
pub fn cuts_change_nothing()
    ensures one_link { (steps : List Step) (m : Moment) → Leads steps start m → IsOneLink m }
    // The line by which it asks the next connection has the count of the lines that came, with which the next carrier begins.
    ensures asks { (steps : List Step) (m : Moment) → Leads steps start m
        → (after_asking m.link).waiting ≡ spelled (note_text (asks m.link.terms (length m.ways.down.handed))) }
{}

/// There is such a run. Its first connection breaks within a line each way, and the next one brings both lines: each is handed on once, and
/// then kept no more.
///
/// It does nothing: its contract is the theorem.
pub fn cut_lines_come_once()
    ensures { (m : Moment) × Leads cut_run start m × (m.told ≡ codes "ready" ∷ []) × (m.ways.up.handed ≡ codes "ping 1" ∷ [])
        × (m.link.up.kept ≡ []) × (m.ways.down.keeper.kept ≡ []) }
{}
