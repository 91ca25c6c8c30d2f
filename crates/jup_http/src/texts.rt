//! Whether bytes that come one by one are UTF-8 (RFC 3629, section 4).
ghost use Rattle.std.specs.Prelude.{◌≡◌};
ghost use Rattle.jup_http.specs.Frames.{within, after_first, after_byte};

/// How far the last character of a text has come.
#[derive(Clone, Copy)]
pub(crate) enum CharPart {
    Whole,
    LacksOne,
    LacksTwo,
    LacksThree,
    /// The first byte bounds the second more closely, so that no character has two spellings, and none is out of range.
    AfterE0,
    AfterED,
    AfterF0,
    AfterF4,
}

impl CharPart {
    /// The same with one more byte; `None` if no text goes on so.
    pub(crate) fn after(self, byte: u8) -> Option<CharPart>
        ensures { result ≡ after_byte self byte }
    {
        match self {
            CharPart::Whole => after_first(byte),
            CharPart::LacksOne => within(0x80, 0xBF, CharPart::Whole, byte),
            CharPart::LacksTwo => within(0x80, 0xBF, CharPart::LacksOne, byte),
            CharPart::LacksThree => within(0x80, 0xBF, CharPart::LacksTwo, byte),
            CharPart::AfterE0 => within(0xA0, 0xBF, CharPart::LacksOne, byte),
            CharPart::AfterED => within(0x80, 0x9F, CharPart::LacksOne, byte),
            CharPart::AfterF0 => within(0x90, 0xBF, CharPart::LacksTwo, byte),
            CharPart::AfterF4 => within(0x80, 0x8F, CharPart::LacksTwo, byte),
        }
    }
}

fn after_first(byte: u8) -> Option<CharPart>
    ensures { result ≡ after_first byte }
{
    match byte {
        0x00..=0x7F => Some(CharPart::Whole),
        0xC2..=0xDF => Some(CharPart::LacksOne),
        0xE0 => Some(CharPart::AfterE0),
        0xED => Some(CharPart::AfterED),
        0xE1..=0xEF => Some(CharPart::LacksTwo),
        0xF0 => Some(CharPart::AfterF0),
        0xF1..=0xF3 => Some(CharPart::LacksThree),
        0xF4 => Some(CharPart::AfterF4),
        _ => None,
    }
}

fn within(low: u8, high: u8, next: CharPart, byte: u8) -> Option<CharPart>
    ensures { result ≡ within low high next byte }
{
    if low <= byte && byte <= high {
        Some(next)
    } else {
        None
    }
}
