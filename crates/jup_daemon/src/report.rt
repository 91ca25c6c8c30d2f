//! What a daemon prints at its end.
ghost use Rattle.std.specs.Prelude.{IfOk, OnOk, ◌≡◌, ◌++◌, ◌∷◌, [], codes, decimal};
ghost use Rattle.jup_daemon.specs.Daemons as texts;

use jup_star::Star;
use jup_text::write_board;
use jup_xform::NoMemory;
use std::alloc::Global;

/// What a daemon prints after its last session: how many edits were taken, and the board.
pub fn report_text(alloc: Global, star: &Star) -> Result<Vec<u8>, NoMemory>
    ensures { IfOk result (λ text. text.items ≡ texts.report_text star.now) }
{
    let mut text = Vec::new(alloc);
    append_count(alloc, star.order_len(), &mut text)?;
    write_board(alloc, star.board(), &mut text)?;
    Ok(text)
}

// The line of how many edits were taken.
fn append_count(alloc: Global, count: usize, text: &mut Vec<u8>) -> Result<(), NoMemory>
    ensures { OnOk result (text.new.items ≡ text.old.items ++ (codes "order " ++ (decimal count ++ 10 ∷ []))) }
{
    let Ok(line) = format!(in alloc; "order {count}\n") else {
        return Err(NoMemory);
    };
    append(line.as_bytes(), text)
}

fn append(bytes: &[u8], text: &mut Vec<u8>) -> Result<(), NoMemory>
    ensures { OnOk result (text.new.items ≡ text.old.items ++ bytes.now) }
{
    text.extend_from_slice(bytes).map_err(|_| NoMemory)
}
