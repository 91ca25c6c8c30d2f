//! The fields of a line, read one after the other.

ghost use Rattle.std.specs.Prelude.{◌≡◌, ◌≢◌, ◌==◌, ◌++◌, length, IfSome, MatchOption, position, ℕ, ◌+◌, ◌<◌, List, take, drop, Option};
ghost use Rattle.std.specs.Str.Parse.{AllDigits, digits_value};
ghost use Rattle.jup_wire.specs.Fields.{Gives, with_rest, split_of, field_of, number_of, id_of, scalar_of, int_of, name_of, switch_of, label_of, count_of, is_count as is_count_of};

use jup_limits::MOST_OPERATIONS;
use jup_number::{read_integer, read_number, with_digit};
use jup_value::{Label, Name};
use memchr::memchr;

/// What a field may hold.
pub(crate) trait FieldValue: Sized {
    ghost read_of: { List ℕ → Option Self };

    /// The value that the bytes spell.
    fn read(bytes: &[u8]) -> Option<Self>
        ensures { result ≡ read_of bytes.now };
}

/// The bytes after a heading, if they begin with it.
pub(crate) fn behind<'a>(bytes: &'a [u8], heading: &[u8]) -> Option<&'a [u8]>
    ensures { MatchOption result ((rest : List ℕ) → bytes.now ≢ heading.now ++ rest) (λ rest. bytes.now ≡ heading.now ++ rest.now) }
{
    bytes.strip_prefix(heading)
}

/// The parts before and after the first byte that is the separator.
pub(crate) fn split(bytes: &[u8], separator: u8) -> Option<(&[u8], &[u8])>
    ensures { Gives (λ parts. (parts.0.now, parts.1.now)) result (split_of separator bytes.now) }
{
    let at = place_of(bytes, separator)?;
    Some((&bytes[..at], &bytes[at + 1..]))
}

/// The text before the first line feed, and the bytes after it.
pub(crate) fn split_line(bytes: &[u8]) -> Option<(&[u8], &[u8])>
    ensures { Gives (λ parts. (parts.0.now, parts.1.now)) result (split_of 10 bytes.now) }
{
    let at = feed_of(bytes)?;
    Some((&bytes[..at], &bytes[at + 1..]))
}

/// Where the first line feed is.
pub fn feed_of(bytes: &[u8]) -> Option<usize>
    ensures place { result ≡ position (λ byte. byte == 10) bytes.now }
    ensures within { IfSome result (λ at. at < length bytes.now) }
{
    memchr(b'\n', bytes)
}

fn place_of(bytes: &[u8], wanted: u8) -> Option<usize>
    ensures place { result ≡ position (λ byte. byte == wanted) bytes.now }
    ensures within { IfSome result (λ at. at < length bytes.now) }
{
    bytes.iter().position(|byte| *byte == wanted)
}

/// The field before the first space, and the bytes after that space.
#[tactic(auto, unfolding(crate::specs::Fields::field_of))]
pub(crate) fn field<T: FieldValue>(bytes: &[u8]) -> Option<(T, &[u8])>
    ensures { Gives (λ x. (x.0, x.1.now)) result (field_of 32 T.read_of bytes.now) }
{
    let (field, rest) = split(bytes, b' ')?;
    Some((T::read(field)?, rest))
}

/// The number before the first separator, and the bytes after that. It goes over the digits once.
pub(crate) fn number_before(bytes: &[u8], separator: u8) -> Option<(u32, &[u8])>
    ensures { Gives (λ x. (x.0, x.1.now)) result (field_of separator number_of bytes.now) }
{
    let mut value = 0;
    for (at, byte) in bytes.iter().enumerate() {
        if *byte == separator {
            return numeral_before(value, bytes, at);
        }
        value = with_digit(value, *byte)?;
    }
    None
}

/// The number that the digits before a place write, if that is its one spelling, and the bytes after the place.
fn numeral_before(value: u32, bytes: &[u8], at: usize) -> Option<(u32, &[u8])>
    requires within { at < length bytes.now }
    requires digits { AllDigits 10 (take at bytes.now) }
    requires value { value ≡ digits_value 10 (take at bytes.now) }
    ensures { Gives (λ x. (x.0, x.1.now)) result (with_rest (drop (at + 1) bytes.now) (number_of (take at bytes.now))) }
{
    if at == 0 {
        return None;
    }
    if bytes[0] == b'0' && at > 1 {
        return None;
    }
    Some((value, &bytes[at + 1..]))
}

/// The same of an id, before the first space.
pub(crate) fn id_before(bytes: &[u8]) -> Option<(u16, &[u8])>
    ensures { Gives (λ x. (x.0, x.1.now)) result (field_of 32 id_of bytes.now) }
{
    let (number, rest) = number_before(bytes, b' ')?;
    match u16::try_from(number) {
        Ok(id) => Some((id, rest)),
        Err(_) => None,
    }
}

impl FieldValue for u16 {
    ghost read_of = { id_of };

    #[tactic(auto, unfolding(crate::specs::Fields::id_of))]
    fn read(bytes: &[u8]) -> Option<u16> {
        u16::try_from(number(bytes)?).ok()
    }
}

impl FieldValue for char {
    ghost read_of = { scalar_of };

    #[tactic(auto, unfolding(crate::specs::Fields::scalar_of))]
    fn read(bytes: &[u8]) -> Option<char> {
        char::from_u32(number(bytes)?)
    }
}

impl FieldValue for i32 {
    ghost read_of = { int_of };

    fn read(bytes: &[u8]) -> Option<i32> {
        read_integer(bytes)
    }
}

impl FieldValue for Name {
    ghost read_of = { name_of };

    #[tactic(auto, unfolding(crate::specs::Fields::name_of))]
    fn read(bytes: &[u8]) -> Option<Name> {
        let (site, rest) = number_before(bytes, b'.')?;
        Some(Name {
            site,
            number: number(rest)?,
        })
    }
}

impl FieldValue for bool {
    ghost read_of = { switch_of };

    #[tactic(auto, unfolding(crate::specs::Fields::switch_of))]
    fn read(bytes: &[u8]) -> Option<bool> {
        if bytes == b"on".as_slice() {
            Some(true)
        } else if bytes == b"off".as_slice() {
            Some(false)
        } else {
            None
        }
    }
}

impl FieldValue for Label {
    ghost read_of = { label_of };

    #[tactic(auto, unfolding(crate::specs::Fields::label_of))]
    fn read(bytes: &[u8]) -> Option<Label> {
        Label::read(bytes).ok()
    }
}

/// The number that the digits spell in its one spelling.
pub(crate) fn number(digits: &[u8]) -> Option<u32>
    ensures { result ≡ number_of digits.now }
{
    read_number(digits)
}

/// Whether a batch may have so many operations.
pub(crate) fn is_count(count: u32) -> bool
    ensures { result ≡ is_count_of count }
{
    (1..=MOST_OPERATIONS).contains(&count)
}

/// How many operations a batch has.
#[tactic(auto, unfolding(crate::specs::Fields::count_of))]
pub(crate) fn count(bytes: &[u8]) -> Option<u32>
    ensures { result ≡ count_of bytes.now }
{
    let count = number(bytes)?;
    if is_count(count) { Some(count) } else { None }
}
