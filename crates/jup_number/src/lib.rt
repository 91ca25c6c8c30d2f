//! Numbers as links, layouts, scripts and commands write them: in decimal, with no plus sign, no leading
//! zero and no `-0`. Each number has one spelling, and no other bytes are read.
#![tactic(auto)]

ghost use Rattle.std.specs.Prelude.{◌≡◌, ◌+◌, ◌*◌, ◌<◌, ◌≤◌, ◌^◌, pos, neg_ℤ, decimal};
ghost use Rattle.std.specs.Char.{digit_value};
ghost use Rattle.std.specs.Fmt.{signed_decimal};
ghost use Rattle.std.specs.Option.{SomeIff};
ghost use Rattle.std.specs.Str.Parse.{AllDigits, digits_value};
ghost use Rattle.jup_number.specs.Numbers.{IsU32, IsInt, IsReadingOf};

/// The number that the bytes spell.
pub fn read_number(digits: &[u8]) -> Option<u32>
    ensures { IsReadingOf decimal IsU32 digits.now result }
{
    if digits.is_empty() {
        return None;
    }
    if digits[0] == b'0' && digits.len() > 1 {
        return None;
    }
    value_of(digits)
}

/// The signed number that the bytes spell.
pub fn read_integer(bytes: &[u8]) -> Option<i32>
    ensures { IsReadingOf signed_decimal IsInt bytes.now result }
{
    if bytes.is_empty() || bytes[0] != b'-' {
        return from_zero(read_number(bytes)?);
    }
    below_zero(read_number(&bytes[1..])?)
}

/// The number with one more digit at its end, if that is a digit and the number stays below 2^32.
pub fn with_digit(value: u32, digit: u8) -> Option<u32>
    ensures { SomeIff result ((digit_value digit < 10) × (value * 10 + digit_value digit < 2 ^ 32)) (value * 10 + digit_value digit) }
{
    if !digit.is_ascii_digit() {
        return None;
    }
    let next = u64::from(value) * 10 + u64::from(digit - b'0');
    u32::try_from(next).ok()
}

/// The number that the digits write, leading zeros or not.
fn value_of(digits: &[u8]) -> Option<u32>
    ensures { SomeIff result (AllDigits 10 digits.now × (digits_value 10 digits.now < 2 ^ 32)) (digits_value 10 digits.now) }
{
    let mut value = 0;
    for digit in digits {
        value = with_digit(value, *digit)?;
    }
    Some(value)
}

/// The signed number with this magnitude and no minus.
fn from_zero(magnitude: u32) -> Option<i32>
    ensures { SomeIff result (magnitude < 2 ^ 31) (pos magnitude) }
{
    i32::try_from(magnitude).ok()
}

/// The signed number with this magnitude after a minus.
fn below_zero(magnitude: u32) -> Option<i32>
    ensures { SomeIff result ((0 < magnitude) × (magnitude ≤ 2 ^ 31)) (neg_ℤ (pos magnitude)) }
{
    if magnitude == 0 {
        return None;
    }
    i32::try_from(-i64::from(magnitude)).ok()
}
