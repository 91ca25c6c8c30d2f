//! Texts that are cut at a byte.
ghost use Rattle.std.specs.Prelude.{◌≡◌, ◌==◌, ◌<◌, ◌∷◌, ◌++◌, length, position, IfSome, MatchOption};
ghost use Rattle.jup_board.specs.Boards.{Lacks};

use memchr::memchr;

/// What comes before the first such byte, and what follows it.
pub fn cut_at(text: &[u8], byte: u8) -> Option<(&[u8], &[u8])>
    ensures { MatchOption result (Lacks byte text.now)
        (λ cut. Lacks byte cut.0.now × (text.now ≡ cut.0.now ++ byte ∷ cut.1.now)) }
{
    let end = place_of(text, byte)?;
    Some((&text[..end], &text[end + 1..]))
}

// Where the first such byte is.
fn place_of(text: &[u8], byte: u8) -> Option<usize>
    ensures place { result ≡ position (λ it. it == byte) text.now }
    ensures within { IfSome result (λ at. at < length text.now) }
{
    memchr(byte, text)
}
