//! Those that may make boards.
ghost use Rattle.std.specs.Prelude.{◌≡◌, ⊤};
ghost use Rattle.jup_number.specs.Numbers.{IsReadingOf};
ghost use Rattle.jup_keys.specs.Makings.{makers_word};

use std::fmt;

/// Those that may make boards on a server.
#[derive(Clone, Copy, Debug, PartialEq, Eq)]
pub enum Makers {
    Anyone,
    /// The server's owner, by a key.
    Owner,
    Nobody,
}

impl Makers {
    /// The makers of this word.
    pub fn read(word: &[u8]) -> Option<Makers>
        ensures { IsReadingOf makers_word (λ _. ⊤) word.now result }
    {
        if word == b"anyone".as_slice() {
            return Some(Makers::Anyone);
        }
        if word == b"owner".as_slice() {
            return Some(Makers::Owner);
        }
        if word == b"nobody".as_slice() {
            return Some(Makers::Nobody);
        }
        None
    }
}

impl fmt::Display for Makers {
    ghost use Rattle.std.specs.Prelude.{Some};
    ghost use Rattle.jup_keys.specs.Makings.{makers_word};

    ghost output = { λ makers. Some (makers_word makers) };

    fn fmt<W: fmt::Write>(&self, f: &mut fmt::Formatter<W>) -> fmt::Result {
        f.write_str(match self {
            Makers::Anyone => "anyone",
            Makers::Owner => "owner",
            Makers::Nobody => "nobody",
        })
    }
}
