//! Switches, numbers, and the words of a line.
ghost use Rattle.std.specs.Prelude.{◌≡◌, ◌≢◌, ◌⊎◌, ◌==◌, ◌<◌, ◌^◌, [], ◌∷◌, ◌++◌, ℕ, ℤ, List, length, position, decimal, IfSome, IfNone};
ghost use Rattle.std.specs.Fmt.{signed_decimal};
ghost use Rattle.jup_number.specs.Numbers.{IsU32, IsInt, IsReadingOf};
ghost use Rattle.jup_text.specs.Commands.{IsId};
ghost use Rattle.jup_wire.specs.Fields.{switch_text};
ghost use Rattle.jup_text.specs.Words.{IsWord};

/// Reads `on` or `off`.
pub fn read_switch(word: &str) -> Option<bool>
    ensures { IsReadingOf switch_text (λ on. Unit {0}) word.now result }
{
    jup_wire::read_switch(word.as_bytes())
}

/// How a switch is printed.
pub fn switch_word(on: bool) -> &'static str
    ensures { result.now ≡ switch_text on }
{
    if on { "on" } else { "off" }
}

/// Reads a signed number: decimal, with no plus sign, no leading zero and no `-0`.
pub fn read_integer(word: &str) -> Option<i32>
    ensures { IsReadingOf signed_decimal IsInt word.now result }
{
    jup_number::read_integer(word.as_bytes())
}

/// Reads a number: decimal, with no sign and no leading zero.
pub fn read_number(word: &str) -> Option<u32>
    ensures { IsReadingOf decimal IsU32 word.now result }
{
    jup_number::read_number(word.as_bytes())
}

/// The id of a window or of a widget that bytes spell.
pub(crate) fn id_of(word: &[u8]) -> Option<u16>
    ensures { IsReadingOf decimal (λ id. id < 2 ^ 16) word.now result }
{
    let number = jup_number::read_number(word)?;
    if number > 0xFFFF {
        return None;
    }
    Some(number as u16)
}

/// The word before the first space, and what follows that space.
pub(crate) fn next_word(text: &[u8]) -> Option<(&[u8], &[u8])>
    ensures read { IfSome result (λ read. IsWord read.0.now × (text.now ≡ read.0.now ++ 32 ∷ read.1.now)) }
    ensures none { IfNone result ((word rest : List ℕ) → IsWord word → text.now ≢ word ++ 32 ∷ rest) }
{
    let at = space_of(text)?;
    Some((&text[..at], &text[at + 1..]))
}

/// The id before the first space, and what follows that space.
pub(crate) fn next_id(text: &[u8]) -> Option<(u16, &[u8])>
    ensures read { IfSome result (λ read. IsId read.0 × (text.now ≡ decimal read.0 ++ 32 ∷ read.1.now)) }
    ensures none { IfNone result ((id : ℕ) (rest : List ℕ) → IsId id → text.now ≢ decimal id ++ 32 ∷ rest) }
{
    let (word, rest) = next_word(text)?;
    Some((id_of(word)?, rest))
}

/// The word before the first space, or all if there is none, and what follows the word.
pub(crate) fn split_word(text: &[u8]) -> (&[u8], &[u8])
    ensures parts { text.now ≡ result.0.now ++ result.1.now }
    ensures word { IsWord result.0.now }
    ensures behind { (result.1.now ≡ []) ⊎ ((rest : List ℕ) × (result.1.now ≡ 32 ∷ rest)) }
{
    match space_of(text) {
        Some(at) => text.split_at(at),
        None => text.split_at(text.len()),
    }
}

// Where the first space is.
fn space_of(text: &[u8]) -> Option<usize>
    ensures place { result ≡ position (λ byte. byte == 32) text.now }
    ensures within { IfSome result (λ at. at < length text.now) }
{
    text.iter().position(|byte| *byte == b' ')
}
