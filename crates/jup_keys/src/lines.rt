//! The lines by which a file says what a board keeps of its keys.
ghost use Rattle.std.specs.Prelude.{◌≡◌, ◌≢◌, ℕ, List, ◌++◌, MatchOption, decimal};
ghost use Rattle.jup_number.specs.Numbers.{IsReadingOf};
ghost use Rattle.jup_keys.specs.Digests.{IsHashText};
ghost use Rattle.jup_keys.specs.Keyrings.{own_line, numbered_line, lower_lines, numbered_text, AreNumbered, IsKeyNumber, IsNumbered};

use crate::hash::KeyHash;
use jup_number::read_number;
use jup_resume::split;

/// The hash of the own key, of the line that has it.
pub(crate) fn read_own(line: &[u8]) -> Option<KeyHash>
    ensures { IsReadingOf own_line IsHashText line.now result }
{
    KeyHash::read(behind(line, b"own ")?)
}

/// What the lines of the edit and the read key say.
pub(crate) fn read_lower(lines: &[u8]) -> Option<((u32, KeyHash), (u32, KeyHash))>
    ensures { IsReadingOf lower_lines AreNumbered lines.now result }
{
    let (edit, read) = split(lines, b'\n')?;
    Some((read_line(edit, b"edit ")?, read_line(read, b"read ")?))
}

/// The bytes before an ending, if they end so.
pub(crate) fn before<'a>(bytes: &'a [u8], ending: &[u8]) -> Option<&'a [u8]>
    ensures { MatchOption result ((front : List ℕ) → bytes.now ≢ front ++ ending.now) (λ front. bytes.now ≡ front.now ++ ending.now) }
{
    bytes.strip_suffix(ending)
}

/// The bytes after a heading, if they begin with it.
fn behind<'a>(bytes: &'a [u8], heading: &[u8]) -> Option<&'a [u8]>
    ensures { MatchOption result ((rest : List ℕ) → bytes.now ≢ heading.now ++ rest) (λ rest. bytes.now ≡ heading.now ++ rest.now) }
{
    bytes.strip_prefix(heading)
}

/// A number and the hash of its key behind a heading.
fn read_line(line: &[u8], heading: &[u8]) -> Option<(u32, KeyHash)>
    ensures { IsReadingOf (numbered_line heading.now) IsNumbered line.now result }
{
    read_numbered(behind(line, heading)?)
}

/// A number and the hash of its key.
fn read_numbered(fields: &[u8]) -> Option<(u32, KeyHash)>
    ensures { IsReadingOf numbered_text IsNumbered fields.now result }
{
    let (number, hash) = split(fields, b' ')?;
    Some((read_key_number(number)?, KeyHash::read(hash)?))
}

/// A number of keys.
fn read_key_number(digits: &[u8]) -> Option<u32>
    ensures { IsReadingOf decimal IsKeyNumber digits.now result }
{
    let number = read_number(digits)?;
    if number == 0 {
        return None;
    }
    Some(number)
}
