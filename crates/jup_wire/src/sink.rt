//! What lines are put into, one after the other.
ghost use Rattle.std.specs.Prelude.{◌≡◌, [], ◌∷◌, ◌++◌, OnOk};

use crate::line::Line;
use crate::reader::Lines;
use jup_xform::NoMemory;

/// Takes lines: a list of them, or what writes them on.
pub trait LineSink {
    ghost use Rattle.std.specs.Prelude.{List, [], ◌∷◌, ◌++◌, OnOk};
    ghost use Rattle.jup_wire.specs.declared.line.Line.{Line};

    /// Why a line was not taken.
    type Fault;

    // the sink after is the one before with these lines taken
    ghost takes: { Self → List Line → Self → Type 0 };

    ghost takes_none: { (a : Self) → takes a [] a };

    ghost takes_more: { (a b c : Self) (xs ys : List Line) → takes a xs b → takes b ys c → takes a (xs ++ ys) c };

    /// Puts a line after those that were taken.
    fn put(&mut self, line: Line) -> Result<(), Self::Fault>
        ensures taken { OnOk result (takes self.old (line ∷ []) self.new) };
}

impl LineSink for Lines {
    ghost use Rattle.std.proofs.Common.{◌∙◌, sym, ap};
    ghost use Rattle.std.proofs.lemmas.List.{append_assoc, append-nil};

    type Fault = NoMemory;

    ghost takes = { λ a xs b. b ≡ a ++ xs };

    ghost takes_none = { λ a. sym (append-nil a) };

    ghost takes_more = { λ a b c xs ys one two. two ∙ ap (λ l. l ++ ys) one ∙ append_assoc a xs ys };

    fn put(&mut self, line: Line) -> Result<(), NoMemory> {
        self.push(line)
    }
}
