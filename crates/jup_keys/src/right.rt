//! What a key allows.
ghost use Rattle.std.specs.Prelude.{◌≡◌, ◌↔◌, IsTrue, ⊤};
ghost use Rattle.jup_number.specs.Numbers.{IsReadingOf};
ghost use Rattle.jup_keys.specs.Rights.{Gives, right_word};

use std::fmt;

/// What a key allows at its board.
#[derive(Clone, Copy, Debug, PartialEq, Eq)]
pub enum Right {
    /// To name the board, to end its keys and to delete it, and what `Edit` allows.
    Own,
    /// To edit the board, and what `Read` allows.
    Edit,
    /// To see the board.
    Read,
}

impl Right {
    /// Whether this right gives the other one, which something needs.
    pub fn allows(self, needed: Right) -> bool
        ensures { IsTrue result ↔ Gives self needed }
    {
        match self {
            Right::Own => true,
            Right::Edit => needed != Right::Own,
            Right::Read => needed == Right::Read,
        }
    }

    /// The right of this word.
    pub fn read(word: &[u8]) -> Option<Right>
        ensures { IsReadingOf right_word (λ _. ⊤) word.now result }
    {
        if word == b"own".as_slice() {
            return Some(Right::Own);
        }
        if word == b"edit".as_slice() {
            return Some(Right::Edit);
        }
        if word == b"read".as_slice() {
            return Some(Right::Read);
        }
        None
    }
}

impl fmt::Display for Right {
    ghost use Rattle.std.specs.Prelude.{Some};
    ghost use Rattle.jup_keys.specs.Rights.{right_word};

    ghost output = { λ right. Some (right_word right) };

    fn fmt<W: fmt::Write>(&self, f: &mut fmt::Formatter<W>) -> fmt::Result {
        f.write_str(match self {
            Right::Own => "own",
            Right::Edit => "edit",
            Right::Read => "read",
        })
    }
}
