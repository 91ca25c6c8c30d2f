//! Texts in double quotes. A quote and a backslash have a backslash before them, bytes from 0x20 to 0x7E
//! are themselves, and every other character is `\u{H}`, H its lower case hexadecimal. Each text has one
//! spelling, in which it is both printed and read.
ghost use Rattle.std.specs.Prelude.{false, Some, map, position, ◌==◌, ◌≡◌, ◌≢◌, ◌≤◌, ◌<◌, ◌^◌, ℕ, List, [], ◌∷◌, ◌++◌, length, vec_len, IfOk, IfSome, IfNone, IsTrue, ◌↔◌, MatchOption};
ghost use Rattle.std.specs.Char.{IsScalar};
ghost use Rattle.std.specs.Fmt.{digit_glyph, DisplaysOnOk};
ghost use Rattle.std.specs.Option.{option_map};
ghost use Rattle.jup_number.specs.Numbers.{IsReadingOf};
ghost use Rattle.jup_value.specs.Labels.{IsLabelText};
ghost use Rattle.jup_text.specs.Words.{hexadecimal, quoted_char, quoted, AreScalars};

use jup_limits::LONGEST_LABEL;
use jup_value::{Label, Seq};
use jup_xform::NoMemory;
use std::alloc::Global;
use std::fmt;

/// Reads a text.
pub fn read_quoted(alloc: Global, word: &str) -> Result<Option<Vec<char>>, NoMemory>
    ensures one_spelling { IfOk result (λ text. IsReadingOf quoted AreScalars word.now (option_map (λ chars. chars.items) text)) }
    ensures short { IfOk result (λ text. IfSome text (λ chars. vec_len chars ≤ length word.now)) }
{
    let mut chars = Vec::new(alloc);
    let Some(text) = behind_quote(word.as_bytes()) else {
        return Ok(None);
    };
    let mut rest = text;
    while let Some((value, later)) = next_char(rest) {
        chars.push(value).map_err(|_| NoMemory)?;
        rest = later;
    }
    if is_end(rest) {
        Ok(Some(chars))
    } else {
        Ok(None)
    }
}

/// Reads a text of one character.
pub fn read_quoted_char(word: &str) -> Option<char>
    ensures { IsReadingOf (λ c. quoted (c ∷ [])) IsScalar word.now result }
{
    char_of(word.as_bytes())
}

/// The character that bytes spell in quotes.
pub(crate) fn char_of(word: &[u8]) -> Option<char>
    ensures { IsReadingOf (λ c. quoted (c ∷ [])) IsScalar word.now result }
{
    let (value, rest) = next_char(behind_quote(word)?)?;
    if is_end(rest) { Some(value) } else { None }
}

/// What follows the first quote.
pub(crate) fn behind_quote(text: &[u8]) -> Option<&[u8]>
    ensures { MatchOption result ((rest : List ℕ) → text.now ≢ 34 ∷ rest) (λ rest. text.now ≡ 34 ∷ rest.now) }
{
    let (first, rest) = text.split_first()?;
    if *first == b'"' { Some(rest) } else { None }
}

/// Whether this is the last quote.
pub(crate) fn is_end(text: &[u8]) -> bool
    ensures { IsTrue result ↔ (text.now ≡ 34 ∷ []) }
{
    text == b"\"".as_slice()
}

/// The label that bytes spell in quotes.
pub(crate) fn label_of(word: &[u8]) -> Option<Label>
    ensures { IsReadingOf quoted IsLabelText word.now result }
{
    let Some((label, rest)) = next_quoted_label(word) else {
        return None;
    };
    if rest.is_empty() { Some(label) } else { None }
}

/// The label at the front of a text, and what follows it.
pub(crate) fn next_quoted_label(text: &[u8]) -> Option<(Label, &[u8])>
    ensures read { IfSome result (λ read. IsLabelText read.0 × (text.now ≡ quoted read.0 ++ read.1.now)) }
    ensures none { IfNone result ((label rest : List ℕ) → IsLabelText label → text.now ≢ quoted label ++ rest) }
    ensures shorter { IfSome result (λ read. length read.1.now < length text.now) }
{
    let mut bytes = [0; LONGEST_LABEL];
    let mut len = 0;
    let mut rest = behind_quote(text)?;
    while let Some((value, later)) = next_char(rest) {
        if len == LONGEST_LABEL {
            return None;
        }
        if value > '~' {
            return None;
        }
        bytes[len] = value as u8;
        len += 1;
        rest = later;
    }
    let Ok(label) = Label::read(&bytes[..len]) else {
        return None;
    };
    Some((label, behind_quote(rest)?))
}

/// The first character in its one spelling, and what follows it.
pub(crate) fn next_char(text: &[u8]) -> Option<(char, &[u8])>
    ensures read { IfSome result (λ read. IsScalar read.0 × (text.now ≡ quoted_char read.0 ++ read.1.now)) }
    ensures none { IfNone result ((c : ℕ) (rest : List ℕ) → IsScalar c → text.now ≢ quoted_char c ++ rest) }
    ensures shorter { IfSome result (λ read. length read.1.now < length text.now) }
{
    match text {
        [b'\\', rest @ ..] => escaped_char(rest),
        [b'"', ..] => None,
        [byte @ b' '..=b'~', rest @ ..] => Some((char::from(*byte), rest)),
        _ => None,
    }
}

// The character that is spelled by a backslash and this, and what follows it.
fn escaped_char(text: &[u8]) -> Option<(char, &[u8])>
    ensures read { IfSome result (λ read. IsScalar read.0 × (92 ∷ text.now ≡ quoted_char read.0 ++ read.1.now)) }
    ensures none { IfNone result ((c : ℕ) (rest : List ℕ) → IsScalar c → 92 ∷ text.now ≢ quoted_char c ++ rest) }
    ensures shorter { IfSome result (λ read. length read.1.now < length text.now) }
{
    match text {
        [b'"', rest @ ..] => Some(('"', rest)),
        [b'\\', rest @ ..] => Some(('\\', rest)),
        [b'u', b'{', rest @ ..] => numbered_char(rest),
        _ => None,
    }
}

// The character of a number up to its closing brace, and what follows that.
fn numbered_char(text: &[u8]) -> Option<(char, &[u8])>
    ensures read { IfSome result (λ read. IsScalar read.0 × (92 ∷ 117 ∷ 123 ∷ text.now ≡ quoted_char read.0 ++ read.1.now)) }
    ensures none { IfNone result ((c : ℕ) (rest : List ℕ) → IsScalar c → 92 ∷ 117 ∷ 123 ∷ text.now ≢ quoted_char c ++ rest) }
    ensures shorter { IfSome result (λ read. length read.1.now < length text.now) }
{
    let end = brace_of(text)?;
    let value = char::from_u32(read_hexadecimal(&text[..end])?)?;
    match value {
        ' '..='~' => None,
        _ => Some((value, &text[end + 1..])),
    }
}

// Where the first closing brace is.
fn brace_of(text: &[u8]) -> Option<usize>
    ensures place { result ≡ position (λ byte. byte == 125) text.now }
    ensures within { IfSome result (λ at. at < length text.now) }
{
    text.iter().position(|byte| *byte == b'}')
}

// A number of at most six digits in lower case hexadecimal, with no leading zero.
fn read_hexadecimal(digits: &[u8]) -> Option<u32>
    ensures { IsReadingOf hexadecimal (λ n. n < 2 ^ 24) digits.now result }
{
    if digits.is_empty() || digits.len() > 6 {
        return None;
    }
    if digits[0] == b'0' {
        return if digits.len() == 1 { Some(0) } else { None };
    }
    let mut value = 0u32;
    for digit in digits {
        value = value * 16 + hexadecimal_digit(*digit)?;
    }
    Some(value)
}

// The number that one digit writes.
fn hexadecimal_digit(digit: u8) -> Option<u32>
    ensures { MatchOption result ((n : ℕ) → n < 16 → digit ≢ digit_glyph false n) (λ n. (n < 16) × (digit ≡ digit_glyph false n)) }
{
    match digit {
        b'0'..=b'9' => Some(u32::from(digit - b'0')),
        b'a'..=b'f' => Some(u32::from(digit - b'a') + 10),
        _ => None,
    }
}

/// A text as it is printed.
#[derive(Drop)]
pub struct Quoted<'a>(pub &'a Seq<char>);

impl fmt::Display for Quoted<'_> {
    ghost output = { λ text. Some (quoted (map (λ item. item.value) text.0.now.items)) };

    fn fmt<W: fmt::Write>(&self, f: &mut fmt::Formatter<W>) -> fmt::Result {
        write!(f, "\"")?;
        for item in self.0.iter() {
            write_char(f, item.value)?;
        }
        write!(f, "\"")
    }
}

/// A label as it is printed.
#[derive(Drop)]
pub(crate) struct QuotedLabel<'a>(pub(crate) &'a Label);

impl fmt::Display for QuotedLabel<'_> {
    ghost output = { λ label. Some (quoted label.0.now) };

    fn fmt<W: fmt::Write>(&self, f: &mut fmt::Formatter<W>) -> fmt::Result {
        write!(f, "\"")?;
        for byte in self.0.bytes() {
            write_char(f, char::from(*byte))?;
        }
        write!(f, "\"")
    }
}

/// A character as it is printed.
#[derive(Drop)]
pub(crate) struct QuotedChar(pub(crate) char);

impl fmt::Display for QuotedChar {
    ghost output = { λ char. Some (quoted (char.0 ∷ [])) };

    fn fmt<W: fmt::Write>(&self, f: &mut fmt::Formatter<W>) -> fmt::Result {
        write!(f, "\"")?;
        write_char(f, self.0)?;
        write!(f, "\"")
    }
}

// Whether a character is written between quotes as itself, if it is no quote and no backslash.
fn is_plain(value: char) -> bool
    ensures { IsTrue result ↔ ((32 ≤ value) × (value ≤ 126)) }
{
    value >= ' ' && value <= '~'
}

// Writes a character as it is spelled between quotes.
fn write_char<W: fmt::Write>(f: &mut fmt::Formatter<W>, value: char) -> fmt::Result
    ensures { DisplaysOnOk W.Write.write_str_gives f.old result (Some (quoted_char value)) f.new }
{
    if value == '"' {
        return write!(f, "\\\"");
    }
    if value == '\\' {
        return write!(f, "\\\\");
    }
    if is_plain(value) {
        return write!(f, "{value}");
    }
    let code = u32::from(value);
    write!(f, "\\u{{{code:x}}}")
}
