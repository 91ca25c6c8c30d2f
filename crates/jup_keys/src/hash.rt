//! What a server keeps of a key.
ghost use Rattle.std.specs.Prelude.{◌≡◌, ◌↔◌, IsTrue, MatchOption};
ghost use Rattle.hex.specs.Hex.{encode_lower};
ghost use Rattle.jup_resume.specs.Tokens.{IsTokenDigit};
ghost use Rattle.jup_keys.specs.Digests.{hash_of, owner_hash, zero_hash, IsHashText};

use crate::id::BoardId;
use crate::key::Key;
use sha2::{Digest, Sha256};
use std::fmt;
use std::marker::Model;

/// How many digits a hash is spelled with.
const DIGITS: usize = 64;

/// The digest of a key, by which a server knows the key and nobody finds it. That of a board's key is taken with the board's ID.
///
/// A key is random and no password, so the hash needs no salt. Contracts see it as its spelling, 64 digits from `0` to `9` and
/// `a` to `f`.
#[derive(Clone, Copy)]
pub struct KeyHash {
    digits: [u8; DIGITS],
}

impl Model for KeyHash {
    ghost use Rattle.std.specs.Prelude.{List, ℕ};
    ghost use Rattle.jup_keys.specs.Digests.{IsHashText};

    ghost Value = { List ℕ };

    ghost view = { λ hash. hash.digits };

    ghost inverse = { λ text. record { digits = text } };

    ghost invariant = { λ hash. IsHashText hash.digits };
}

impl KeyHash {
    /// The hash of a key for this board.
    pub fn of(id: &BoardId, key: &Key) -> KeyHash
        ensures { result ≡ hash_of id.now key.now }
    {
        let mut hasher = Sha256::new();
        hasher.update(id.text());
        hasher.update(b" ".as_slice());
        hasher.update(key.digits());
        KeyHash::new(&hasher.finalize())
    }

    /// The hash of the key by which a server knows its owner. No board has it.
    pub fn of_owner(key: &Key) -> KeyHash
        ensures { result ≡ owner_hash key.now }
    {
        let mut digest = Sha256::new();
        digest.update(key.digits());
        KeyHash::new(&digest.finalize())
    }

    /// 64 zeros. Nobody knows a key with this hash.
    pub(crate) fn zero() -> KeyHash
        ensures { result ≡ zero_hash }
    {
        KeyHash::new(&[0; 32])
    }

    /// The hash of which this is the spelling.
    pub fn read(text: &[u8]) -> Option<KeyHash>
        ensures { MatchOption result (IsHashText text.now → ⊥) (λ hash. (hash ≡ text.now) × IsHashText text.now) }
    {
        let digits = <[u8; DIGITS]>::try_from(text).ok()?;
        if !text.iter().all(|digit| is_digit(*digit)) {
            return None;
        }
        Some(KeyHash { digits })
    }

    /// Whether both are the same. It looks at all digits, so that the time it takes does not say where they differ.
    pub fn matches(&self, other: &KeyHash) -> bool
        ensures { IsTrue result ↔ (self.now ≡ other.now) }
    {
        let mut difference = 0;
        for place in 0..DIGITS {
            difference |= self.digits[place] ^ other.digits[place];
        }
        difference == 0
    }

    /// The hash that has these bytes.
    fn new(bytes: &[u8; 32]) -> KeyHash
        ensures { result ≡ encode_lower bytes.now }
    {
        let mut digits = [0; DIGITS];
        let _ = hex::encode_to_slice(bytes, &mut digits);
        KeyHash { digits }
    }
}

impl fmt::Display for KeyHash {
    ghost use Rattle.std.specs.Prelude.{Some};

    ghost output = { λ hash. Some hash };

    fn fmt<W: fmt::Write>(&self, f: &mut fmt::Formatter<W>) -> fmt::Result {
        // A digit is ASCII, so there is no other case.
        let Ok(text) = str::from_utf8(&self.digits) else {
            return Err(fmt::Error);
        };
        f.write_str(text)
    }
}

/// Whether a byte is a digit of a hash.
fn is_digit(byte: u8) -> bool
    ensures { IsTrue result ↔ IsTokenDigit byte }
{
    matches!(byte, b'0'..=b'9' | b'a'..=b'f')
}
