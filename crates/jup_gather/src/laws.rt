//! What holds of all messages and lines.

ghost use Rattle.std.specs.Prelude.{◌≡◌, List, [], ◌∷◌, ◌++◌, length, Option, Some, replicate};
ghost use Rattle.jup_link.specs.declared.Msg.{Msg};
ghost use Rattle.jup_window.specs.declared.board_operations.BoardOp.{BoardOp};
ghost use Rattle.jup_wire.specs.declared.line.Line.{Line};
ghost use Rattle.jup_gather.specs.declared.gathered.Gathered.{Gathered};
ghost use Rattle.jup_gather.specs.declared.gathered.Gathered.TheVariants.{Held, Whole};
ghost use Rattle.jup_gather.specs.Gathering.{Piece, Message, message_lines, IsPiece, HasGathered, GathersAll};

/// Lines are gathered in one way: what they say and what is held after them is determined.
pub fn one_gathering()
    ensures { (lines : List Line) (ps qs : List Piece) (held other : Option (List Line))
        → HasGathered lines ps held → HasGathered lines qs other → (ps ≡ qs) × (held ≡ other) }
{}

/// If no line is held, each line of a message is held except the last, which gives the message.
pub fn message_comes_whole()
    ensures { (m : Msg (List BoardOp)) (answers : List Gathered) (new : Option (List Line))
        → IsPiece (Message m) → GathersAll (Some []) (message_lines m) answers new
        → (answers ≡ replicate (length m.op) Held ++ Whole m ∷ []) × (new ≡ Some []) }
{}
