//! What tests share: boards, given as they are printed and read back; batches of one operation; numbers that look random; and what a crowd does.
#![tactic(auto)]

ghost use Rattle.std.specs.Prelude.{◌≡◌, [], ◌∷◌, IfSome};
ghost use Rattle.jup_window.specs.Entries.{EachWidget};
ghost use Rattle.jup_star.specs.Stars.{IsShort};

mod crowd;
mod dice;

pub use crowd::{Stranger, any_command};
pub use dice::Dice;
use jup_batch::BoardBatch;
use jup_star::is_short;
use jup_text::BoardReader;
use jup_window::{Board, BoardOp, Widget};
use jup_xform::Batch;
use std::alloc::Global;

/// The board of these lines, which a star may be opened with; none if a line is bad or an allocation fails.
pub fn board_of(alloc: Global, lines: &[&str]) -> Option<Board>
    ensures { IfSome result (λ board. EachWidget IsShort board) }
{
    let mut reader = BoardReader::new(alloc);
    for line in lines {
        reader.take(alloc, line).ok()?;
    }
    let board = reader.whole();
    if is_short(&board) { Some(board) } else { None }
}

/// Whether text 1 of window 1 reads so. It takes no memory.
pub fn reads(board: &Board, letters: &str) -> bool {
    let Some(Widget::Text(text)) = board.widget(1, 1) else {
        return false;
    };
    let mut rest = letters.chars();
    for item in text.iter() {
        if rest.next() != Some(item.value) {
            return false;
        }
    }
    rest.next().is_none()
}

/// A batch of one operation. It takes no memory.
pub fn alone(alloc: Global, op: BoardOp) -> BoardBatch
    ensures { result ≡ op ∷ [] }
{
    Batch::from_slice(alloc, &[op]).unwrap()
}
