//! The bytes of a line, or of a part of one.
ghost use Rattle.std.specs.Prelude.{◌≡◌, ◌+◌, ◌≤◌, [], ◌++◌, length};

use std::marker::Model;

/// A line that has so many bytes and no line feed is too long.
pub const LONGEST_LINE: usize = 256;

/// Up to 256 bytes, which contracts see as a list.
#[derive(Drop)]
pub struct LineBytes {
    len: usize,
    bytes: [u8; LONGEST_LINE],
}

impl Model for LineBytes {
    ghost use Rattle.std.specs.Prelude.{ℕ, ◌≤◌, List, take};

    ghost Value = { List ℕ };

    ghost view = { λ line. take line.len line.bytes };

    ghost invariant = { λ line. line.len ≤ 256 };
}

impl LineBytes {
    /// No bytes.
    pub(crate) fn new() -> LineBytes
        ensures { result ≡ [] }
    {
        LineBytes {
            len: 0,
            bytes: [0; LONGEST_LINE],
        }
    }

    /// The bytes.
    pub fn as_slice(&self) -> &[u8]
        ensures { result.now ≡ self.now }
    {
        &self.bytes[..self.len]
    }

    pub(crate) fn len(&self) -> usize
        ensures { result ≡ length self.now }
    {
        self.len
    }

    pub(crate) fn clear(&mut self)
        ensures { self.new ≡ [] }
    {
        self.len = 0;
    }

    /// Puts bytes at the end.
    pub(crate) fn extend(&mut self, bytes: &[u8])
        requires { length self.old + length bytes.now ≤ 256 }
        ensures { self.new ≡ self.old ++ bytes.now }
    {
        let end = self.len + bytes.len();
        self.bytes[self.len..end].copy_from_slice(bytes);
        self.len = end;
    }
}
