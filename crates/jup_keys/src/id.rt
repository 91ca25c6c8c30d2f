//! The ID of a board.
ghost use Rattle.std.specs.Prelude.{◌≡◌, ◌↔◌, IsTrue, MatchOption};
ghost use Rattle.jup_keys.specs.Ids.{IsIdLetter, IsIdText};

use std::fmt;
use std::marker::Model;

/// How many letters an ID has.
const LETTERS: usize = 12;

/// What names a board in addresses and folders. It is no secret, and not to be guessed.
///
/// Contracts see it as its spelling, 12 letters from `a` to `z` and `2` to `7`. So no ID leads out of a folder of boards.
#[derive(Clone, Copy, Debug, PartialEq, Eq)]
pub struct BoardId {
    letters: [u8; LETTERS],
}

impl Model for BoardId {
    ghost use Rattle.std.specs.Prelude.{List, ℕ};
    ghost use Rattle.jup_keys.specs.Ids.{IsIdText};

    ghost Value = { List ℕ };

    ghost view = { λ id. id.letters };

    ghost inverse = { λ text. record { letters = text } };

    ghost invariant = { λ id. IsIdText id.letters };
}

impl BoardId {
    /// The ID of which this is the spelling.
    pub fn read(text: &[u8]) -> Option<BoardId>
        ensures { MatchOption result (IsIdText text.now → ⊥) (λ id. (id ≡ text.now) × IsIdText text.now) }
    {
        let letters = <[u8; LETTERS]>::try_from(text).ok()?;
        if !text.iter().all(|letter| is_letter(*letter)) {
            return None;
        }
        Some(BoardId { letters })
    }

    /// The letters.
    pub fn text(&self) -> &[u8]
        ensures text { result.now ≡ self.now }
        ensures id { IsIdText self.now }
    {
        &self.letters
    }
}

impl fmt::Display for BoardId {
    ghost use Rattle.std.specs.Prelude.{Some};

    ghost output = { λ id. Some id };

    fn fmt<W: fmt::Write>(&self, f: &mut fmt::Formatter<W>) -> fmt::Result {
        // A letter is ASCII, so there is no other case.
        let Ok(text) = str::from_utf8(&self.letters) else {
            return Err(fmt::Error);
        };
        f.write_str(text)
    }
}

/// Whether a byte is a letter of an ID.
fn is_letter(byte: u8) -> bool
    ensures { IsTrue result ↔ IsIdLetter byte }
{
    matches!(byte, b'a'..=b'z' | b'2'..=b'7')
}
