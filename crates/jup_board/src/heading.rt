//! What a server prints before its board.
ghost use Rattle.std.specs.Prelude.{◌≡◌, ◌≤◌, ◌++◌, ℕ, List, MatchOption};
ghost use Rattle.jup_window.specs.Boards.{Windows};
ghost use Rattle.jup_text.specs.Boards.{board_text};
ghost use Rattle.jup_board.specs.Boards.{BeginsOtherwise, Follows, PassesOver, IsHeading, IsListening, IsOrder};

use crate::cut::cut_at;
use jup_number::read_number;

/// What follows the lines `listening ADDR` and `order K`, and how many of them are there.
pub(crate) fn behind_heading(text: &[u8]) -> (&[u8], u32)
    ensures rest { (heading : List ℕ) × IsHeading heading × (text.now ≡ heading ++ result.0.now) }
    ensures board { (heading : List ℕ) (windows : Windows) → IsHeading heading → text.now ≡ heading ++ board_text windows
        → result.0.now ≡ board_text windows }
    ensures lines { result.1 ≤ 2 }
{
    let (text, listening) = skip_listening(text);
    let (text, order) = skip_order(text);
    (text, listening + order)
}

// Passes over the line `listening ADDR`, if that is the first.
fn skip_listening(text: &[u8]) -> (&[u8], u32)
    ensures rest { PassesOver IsListening text.now result.0.now }
    ensures lines { result.1 ≤ 1 }
{
    match behind_listening(text) {
        Some(rest) => (rest, 1),
        None => (text, 0),
    }
}

// Passes over the line `order K`, if that is the first.
fn skip_order(text: &[u8]) -> (&[u8], u32)
    ensures rest { PassesOver IsOrder text.now result.0.now }
    ensures lines { result.1 ≤ 1 }
{
    match behind_order(text) {
        Some(rest) => (rest, 1),
        None => (text, 0),
    }
}

fn behind_listening(text: &[u8]) -> Option<&[u8]>
    ensures { MatchOption result (BeginsOtherwise IsListening text.now) (λ rest. Follows IsListening text.now rest.now) }
{
    let (line, rest) = cut_at(text, b'\n')?;
    let (word, _address) = cut_at(line, b' ')?;
    if word == b"listening".as_slice() {
        return Some(rest);
    }
    None
}

fn behind_order(text: &[u8]) -> Option<&[u8]>
    ensures { MatchOption result (BeginsOtherwise IsOrder text.now) (λ rest. Follows IsOrder text.now rest.now) }
{
    let (line, rest) = cut_at(text, b'\n')?;
    let (word, number) = cut_at(line, b' ')?;
    let _edits = read_number(number)?;
    if word == b"order".as_slice() {
        return Some(rest);
    }
    None
}
