//! What two ends of a way keep, whatever breaks.
ghost use Rattle.std.specs.Prelude.{◌≡◌, ℕ, List, Bool, [], ◌∷◌, ◌++◌};
ghost use Rattle.jup_resume.specs.Texts.{Text};
ghost use Rattle.jup_resume.specs.Takers.{GoesOn, EndsLine};
ghost use Rattle.jup_resume.specs.Ways.{Way, comes, with_read, Event, AreAllowed, Keeps, run, new_way, no_note, broken_run};

/// Lines are put at one end and handed on at the other. Carriers break at any byte and each end is killed at any moment, as often as it likes.
/// What was handed on is the beginning of what was put, and all of it once a carrier has brought all.
///
/// It does nothing: its contract is the theorem.
pub fn nothing_is_lost()
    ensures { (note : Text → Bool) (events : List Event) → AreAllowed note events → Keeps (run note events new_way) }
{}

/// So a line that two carriers lose, each within it, and whose sender is killed is handed on once, and then kept no more.
///
/// It does nothing: its contract is the theorem.
pub fn a_line_comes_once()
    ensures handed { (run no_note broken_run new_way).handed ≡ (65 ∷ 66 ∷ []) ∷ [] }
    ensures dropped { (run no_note broken_run new_way).keeper.kept ≡ [] }
    ensures count { (run no_note broken_run new_way).keeper.dropped ≡ 1 }
{}

/// What the taking end makes of a piece is what its bytes make one by one, however they are cut into pieces.
///
/// It does nothing: its contract is the theorem.
pub fn a_piece_comes_as_its_bytes()
    // The piece goes on within a line.
    ensures part { (note : Text → Bool) (way : Way) (piece more new rest : List ℕ) → way.wire ≡ piece ++ more → GoesOn way.part piece new rest
        → (count : ℕ) × (run note (comes count) way ≡ record way { wire = rest ++ more; part = new }) }
    // A line feed in it ends a line, which is handed on if it is no note.
    ensures line { (note : Text → Bool) (way : Way) (piece more new rest : List ℕ) (text : Text) → way.wire ≡ piece ++ more → EndsLine way.part piece new rest text
        → (count : ℕ) × (run note (comes count) way ≡ record way { wire = rest ++ more; part = new; handed = with_read (note text) text way.handed }) }
{}
