//! A key of a board.
ghost use Rattle.std.specs.Prelude.{◌≡◌, MatchOption};
ghost use Rattle.hex.specs.Hex.{encode_lower};
ghost use Rattle.jup_resume.specs.Tokens.{IsTokenText};
ghost use Rattle.sha2.specs.Sha256.{sha256};
ghost use Rattle.jup_keys.specs.Digests.{derived_key, derived_text, edit_key, read_key};

use itoa::Buffer;
use jup_resume::{TOKEN_BYTES, Token};
use sha2::{Digest, Sha256};
use std::marker::Model;

/// How many bytes a key is made of.
pub const KEY_BYTES: usize = TOKEN_BYTES;

/// What lets its holder open a board. It is spelled as a token, and contracts see it as that spelling.
///
/// A key has neither `Display` nor `Debug`. So no message, log or failed test prints one by accident, and what writes a key
/// asks for its digits by name.
#[derive(Clone, Copy)]
pub struct Key {
    token: Token,
}

impl Model for Key {
    ghost use Rattle.std.specs.Prelude.{List, ℕ};
    ghost use Rattle.jup_resume.specs.Tokens.{IsTokenText};

    ghost Value = { List ℕ };

    ghost view = { λ key. key.token };

    ghost inverse = { λ text. record { token = text } };

    ghost invariant = { λ key. IsTokenText key.token };
}

impl Key {
    /// The key that is made of these bytes, which nobody else may be able to guess.
    pub fn new(bytes: &[u8; KEY_BYTES]) -> Key
        ensures { result ≡ encode_lower bytes.now }
    {
        Key {
            token: Token::new(bytes),
        }
    }

    /// The key of which this is the spelling.
    pub fn read(text: &[u8]) -> Option<Key>
        ensures { MatchOption result (IsTokenText text.now → ⊥) (λ key. (key ≡ text.now) × IsTokenText text.now) }
    {
        Some(Key {
            token: Token::read(text)?,
        })
    }

    /// The digits.
    pub fn digits(&self) -> &[u8]
        ensures text { result.now ≡ self.now }
        ensures key { IsTokenText self.now }
    {
        self.token.digits()
    }

    /// The edit key of this number that this own key gives.
    pub fn edit_key(&self, number: u32) -> Key
        ensures { result ≡ edit_key number self.now }
    {
        self.derive(b"edit", number)
    }

    /// The read key of this number that this edit key gives.
    pub fn read_key(&self, number: u32) -> Key
        ensures { result ≡ read_key number self.now }
    {
        self.derive(b"read", number)
    }

    /// The same digits, for a note that spells the key.
    pub(crate) fn token(&self) -> &Token
        ensures { result.now ≡ self.now }
    {
        &self.token
    }

    /// The key of this number that this key gives for a word.
    fn derive(&self, word: &[u8], number: u32) -> Key
        ensures { result ≡ derived_key word.now number self.now }
    {
        let digest = digest_of(word, number, self.digits());
        let mut bytes = [0; KEY_BYTES];
        bytes.copy_from_slice(&digest[..KEY_BYTES]);
        Key::new(&bytes)
    }
}

/// The digest of a word, a number and a key, with a space between them.
fn digest_of(word: &[u8], number: u32, key: &[u8]) -> [u8; 32]
    ensures { result ≡ sha256 (derived_text word.now number key.now) }
{
    let mut buffer = Buffer::new();
    let mut hasher = Sha256::new();
    hasher.update(word);
    hasher.update(b" ".as_slice());
    hasher.update(buffer.format(number).as_bytes());
    hasher.update(b" ".as_slice());
    hasher.update(key);
    hasher.finalize()
}
