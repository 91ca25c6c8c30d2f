//! A board that is built line by line.
ghost use Rattle.std.specs.Prelude.{◌≡◌, ◌≢◌, ◌⊎◌, ◌<◌, List, [], ◌∷◌, ◌++◌, length, Err, IfOk, IfErr, IsOkUnless};
ghost use Rattle.jup_window.specs.Boards as board;
ghost use Rattle.jup_wire.specs.declared.line.Line.{Line};
ghost use Rattle.jup_layout.specs.declared.naming.Naming.{Naming};
ghost use Rattle.jup_layout.specs.declared.naming.Naming.TheVariants.{Distinct};
ghost use Rattle.jup_layout.specs.Drafts.{blank, HasTaken, board_from, no_memory};
ghost use Rattle.jup_layout.specs.Said.{AreBoardLines, Shows};

use crate::LayoutFault;
use crate::drafts::Draft;
use crate::naming::Naming;
use crate::refusals::Refusal;
use jup_window::Board;
use jup_wire::Line;
use std::alloc::Global;
use std::marker::Model;

/// A board of which lines have come. It keeps no line: a line is taken as [`board_of`](crate::board_of) does, or refused immediately.
///
/// Contracts see what the lines so far describe, and the number of the next one.
#[derive(Drop)]
pub struct BoardBuilder {
    draft: Draft,
    number: u32,
}

impl Model for BoardBuilder {
    ghost use Rattle.std.specs.Prelude.{◌<◌};
    ghost use Rattle.jup_layout.specs.Drafts.{Built, items_in_last};

    ghost Value = { Built };

    ghost view = { λ b. record { drafted = b.draft; next = b.number } };

    // Each line has at most one item.
    ghost invariant = { λ b. items_in_last b.draft.last < b.number };
}

impl BoardBuilder {
    /// No line has come yet. It takes no memory.
    pub fn new(alloc: Global) -> BoardBuilder
        ensures { HasTaken Distinct [] result }
    {
        BoardBuilder::with(alloc, Naming::Distinct)
    }

    pub(crate) fn with(alloc: Global, naming: Naming) -> BoardBuilder
        ensures { HasTaken naming [] result }
    {
        BoardBuilder {
            draft: Draft::new(alloc, naming),
            number: 1,
        }
    }

    /// Takes the next line, or refuses it with the number that [`board_of`](crate::board_of) gives.
    pub fn take(self, alloc: Global, line: &Line) -> Result<BoardBuilder, LayoutFault>
        // Whatever came before: it holds what all the lines so far describe.
        ensures taken { IfOk result (λ next. (naming : Naming) (lines : List Line)
            → HasTaken naming lines self → HasTaken naming (lines ++ line.now ∷ []) next) }
        ensures fault { IfErr result (λ fault. (naming : Naming) (lines : List Line)
            → HasTaken naming lines self → (fault ≡ no_memory) ⊎ (board_from naming (lines ++ line.now ∷ []) ≡ Err fault)) }
        // In the words of the lines: which may come.
        ensures every { (lines : List Line) → HasTaken Distinct lines self → AreBoardLines (lines ++ line.now ∷ [])
            → length lines < 4294967294 → IsOkUnless result no_memory }
    {
        let BoardBuilder { draft, number } = self;
        if number == u32::MAX {
            return Err(LayoutFault::new(number, Refusal::TooMany));
        }
        match draft.take(alloc, line) {
            Ok(draft) => Ok(BoardBuilder {
                draft,
                number: number + 1,
            }),
            Err(refusal) => Err(LayoutFault::new(number, refusal)),
        }
    }

    /// The board that its lines describe.
    pub fn finish(self) -> Result<Board, LayoutFault>
        ensures board { IfOk result (λ made. (naming : Naming) (lines : List Line)
            → HasTaken naming lines self → board_from naming lines ≡ Ok (board.bare made)) }
        ensures fault { IfErr result (λ fault. fault ≡ no_memory) }
        // In the words of the lines.
        ensures said { IfOk result (λ made. (lines : List Line)
            → HasTaken Distinct lines self → AreBoardLines lines × Shows lines (board.bare made)) }
    {
        let BoardBuilder { draft, number } = self;
        match draft.whole() {
            Ok(board) => Ok(board),
            Err(refusal) => Err(LayoutFault::new(number, refusal)),
        }
    }
}
