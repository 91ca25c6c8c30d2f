//! Boards as lines, and lines as a board.
ghost use Rattle.std.specs.Prelude.{◌≡◌, ◌⊎◌, ◌<◌, ◌≤◌, length, Ok, Err, IfOk, IfErr, IsOkUnless, MatchResult, List};
ghost use Rattle.jup_limits.specs.Limits.{longest_input};
ghost use Rattle.jup_window.specs.Boards as board;
ghost use Rattle.jup_layout.specs.Drafts.{board_lines, IsBoard, refusal_number, board_from, board_with, no_memory, layout_with, Makes, Lays, Describes, AreLines};
ghost use Rattle.jup_wire.specs.declared.line.Line.{Line};
ghost use Rattle.jup_layout.specs.declared.refusals.Refusal.TheVariants as refusals;
ghost use Rattle.jup_layout.specs.Said.{AreBoardLines, AreLayoutLines, Shows, IsLayout};

use crate::BoardBuilder;
use crate::naming::Naming;
use crate::refusals::Refusal;
use jup_faults::cause_of;
use jup_window::Board;
use jup_wire::{Line, Reader};
use jup_xform::NoMemory;
use std::alloc::Global;
use thiserror::Error;

/// Why lines are no board.
#[derive(Clone, Copy, Debug, PartialEq, Eq, Error)]
#[error("line {line}: fault {number}")]
pub struct LayoutFault {
    /// The first line that is wrong, counted from 1; 0 if an allocation failed.
    pub line: u32,
    /// What is wrong with it.
    pub number: u32,
}

impl LayoutFault {
    pub(crate) fn new(line: u32, refusal: Refusal) -> LayoutFault
        ensures none { refusal ≡ refusals.NoMemory → result ≡ no_memory }
        ensures at { (refusal ≡ refusals.NoMemory → ⊥) → result ≡ record { line = line; number = refusal_number refusal } }
    {
        let line = if refusal == Refusal::NoMemory {
            0
        } else {
            line
        };
        LayoutFault {
            line,
            number: refusal.number(),
        }
    }

    /// What is wrong with the line, for people.
    pub fn cause(&self) -> &'static str {
        cause_of(self.number)
    }
}

// The board that lines describe.
fn build(alloc: Global, naming: Naming, lines: &[Line]) -> Result<Board, LayoutFault>
    ensures { Makes result (board_from naming lines.now) }
{
    let mut builder = BoardBuilder::with(alloc, naming);
    for line in lines {
        builder = builder.take(alloc, line)?;
    }
    builder.finish()
}

/// The board that lines describe, windows and widgets in any order of ids.
///
/// A widget belongs to the last window line, an item to the last widget line. Each line is refused, in this
/// order:
///
/// - 44 for a line of another kind, a widget before any window, and an item whose widget is not of its kind;
/// - 13;
/// - 12, 10 and 11 as the board answers;
/// - 45 for a name that the sequence has;
/// - 8.
///
/// Line 4,294,967,295 is refused with 11.
pub fn board_of(alloc: Global, lines: &[Line]) -> Result<Board, LayoutFault>
    ensures board { IfOk result (λ made. board_with lines.now ≡ Ok (board.bare made)) }
    ensures fault { IfErr result (λ fault. (fault ≡ no_memory) ⊎ (board_with lines.now ≡ Err fault)) }

    // In the words of the lines: each may come after those before it, and the board shows what they say.
    ensures said { IfOk result (λ made. AreBoardLines lines.now × Shows lines.now (board.bare made)) }
    ensures every { AreBoardLines lines.now → length lines.now < 4294967295 → IsOkUnless result no_memory }

    // The lines of a board are that board.
    ensures back { (windows : board.Windows) → IsBoard windows → lines.now ≡ board_lines windows
        → length lines.now < 4294967295
        → MatchResult result (λ made. board.bare made ≡ board.bare windows) (λ fault. fault ≡ no_memory) }
{
    build(alloc, Naming::Distinct, lines)
}

// The board of a layout's text.
fn lay_out(alloc: Global, text: &[u8]) -> Result<Board, LayoutFault>
    requires { length text.now ≤ longest_input }
    ensures { Lays text.now result }
{
    let mut reader = Reader::new();
    let fed = match reader.feed(alloc, text) {
        Ok(fed) => fed,
        Err(NoMemory) => return Err(LayoutFault::new(0, Refusal::NoMemory)),
    };
    let lines = fed.lines.as_slice();
    let board = build(alloc, Naming::Numbered(0), lines)?;
    match reader.finish() {
        Ok(()) => Ok(board),
        Err(fault) => Err(LayoutFault {
            line: lines.len() as u32 + 1,
            number: fault.number(),
        }),
    }
}

/// The board of a layout's text, of at most 16,777,216 bytes. It takes lines as [`board_of`] does, with two
/// more tests of an item's line before that of a held name. The fault is 45 if the item is not named `0.k`,
/// as the k-th item of the whole text, and 11 if its sequence has 65,536 items.
///
/// The fault is that of the first line that has one. It is as [`board_of`] answers, or 40 to 42 for bytes
/// that are no line, or 43 for a last line without its line feed.
pub fn layout(alloc: Global, text: &[u8]) -> Result<Board, LayoutFault>
    requires { length text.now ≤ longest_input }
    ensures board { IfOk result (λ made. Describes text.now (Ok (board.bare made))) }
    ensures fault { IfErr result (λ fault. (fault ≡ no_memory) ⊎ Describes text.now (Err fault)) }

    // In the words of its lines: which texts are layouts, and of which board.
    ensures said { IfOk result (λ made. IsLayout text.now (board.bare made)) }
    ensures every { (lines : List Line) → AreLines text.now lines → AreLayoutLines lines
        → IsOkUnless result no_memory }

    ensures accepts { (lines : List Line) (windows : board.Windows) → AreLines text.now lines
        → layout_with lines ≡ Ok windows
        → MatchResult result (λ made. board.bare made ≡ windows) (λ fault. fault ≡ no_memory) }
    // Its lines are no other board.
    ensures as_lines { IfOk result (λ made. (lines : List Line) → AreLines text.now lines
        → board_with lines ≡ Ok (board.bare made)) }
{
    lay_out(alloc, text)
}
