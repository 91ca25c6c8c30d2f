//! The token of a link.
ghost use Rattle.std.specs.Prelude.{◌≡◌, ◌↔◌, IsTrue, MatchOption};
ghost use Rattle.hex.specs.Hex.{encode_lower};
ghost use Rattle.jup_resume.specs.Tokens.{IsTokenDigit, IsTokenText};

use std::fmt;
use std::marker::Model;

/// How many bytes a token is made of.
pub const TOKEN_BYTES: usize = 16;

/// How many digits a token is spelled with.
const DIGITS: usize = 32;

/// What names a link that outlives its connections. It lets its holder carry the link.
///
/// Contracts see it as its spelling, 32 digits from `0` to `9` and `a` to `f`.
#[derive(Clone, Copy)]
pub struct Token {
    digits: [u8; DIGITS],
}

impl Model for Token {
    ghost use Rattle.std.specs.Prelude.{List, ℕ};
    ghost use Rattle.jup_resume.specs.Tokens.{IsTokenText};

    ghost Value = { List ℕ };

    ghost view = { λ token. token.digits };

    ghost inverse = { λ text. record { digits = text } };

    ghost invariant = { λ token. IsTokenText token.digits };
}

impl Token {
    /// The token that is made of these bytes, which nobody else may be able to guess.
    pub fn new(bytes: &[u8; TOKEN_BYTES]) -> Token
        ensures { result ≡ encode_lower bytes.now }
    {
        let mut digits = [0; DIGITS];
        let _ = hex::encode_to_slice(bytes, &mut digits);
        Token { digits }
    }

    /// The token of which this is the spelling.
    pub fn read(text: &[u8]) -> Option<Token>
        ensures { MatchOption result (IsTokenText text.now → ⊥) (λ token. (token ≡ text.now) × IsTokenText text.now) }
    {
        let digits = <[u8; DIGITS]>::try_from(text).ok()?;
        if !text.iter().all(|digit| is_digit(*digit)) {
            return None;
        }
        Some(Token { digits })
    }

    /// The digits.
    pub fn digits(&self) -> &[u8]
        ensures text { result.now ≡ self.now }
        ensures token { IsTokenText self.now }
    {
        &self.digits
    }

    /// Whether both are the same. It looks at all digits, so that the time it takes does not say where they differ.
    pub fn matches(&self, other: &Token) -> bool
        ensures { IsTrue result ↔ (self.now ≡ other.now) }
    {
        let mut difference = 0;
        for place in 0..DIGITS {
            difference |= self.digits[place] ^ other.digits[place];
        }
        difference == 0
    }
}

impl fmt::Display for Token {
    ghost use Rattle.std.specs.Prelude.{Some};

    ghost output = { λ token. Some token };

    fn fmt<W: fmt::Write>(&self, f: &mut fmt::Formatter<W>) -> fmt::Result {
        // A digit is ASCII, so there is no other case.
        let Ok(text) = str::from_utf8(&self.digits) else {
            return Err(fmt::Error);
        };
        f.write_str(text)
    }
}

/// Whether a byte is a digit of a token.
fn is_digit(byte: u8) -> bool
    ensures { IsTrue result ↔ IsTokenDigit byte }
{
    matches!(byte, b'0'..=b'9' | b'a'..=b'f')
}
