//! What a board keeps of its keys.
ghost use Rattle.std.specs.Prelude.{◌≡◌, ◌≢◌, ◌⊎◌, ◌+◌, ◌<◌, ◌≤◌, ◌++◌, Some, None, IsNone, OnOk, OnErr, IfOk};
ghost use Rattle.std.specs.Option.{SomeIff};
ghost use Rattle.jup_number.specs.Numbers.{IsReadingOf};
ghost use Rattle.jup_keys.specs.Digests.{hash_of};
ghost use Rattle.jup_keys.specs.Rights.{given_keys};
ghost use Rattle.jup_keys.specs.Keyrings.{
  keyring_of,
  nobodys_keys,
  keyring_lines,
  keyring_text,
  IsKeyring,
  HasRight,
  last_number,
  after_edit_ended,
  after_read_ended,
};

use crate::hash::KeyHash;
use crate::id::BoardId;
use crate::key::Key;
use crate::lines::{before, read_lower, read_own};
use crate::right::Right;
use jup_limits::NoMemory;
use jup_resume::split;
use std::alloc::Global;
use std::fmt;
use std::marker::Model;

/// The hash of each key of a board, and the numbers by which its edit and its read key are made.
///
/// Contracts see it as a `Keyring`.
#[derive(Clone, Copy)]
pub struct Keys {
    own: KeyHash,
    edits: u32,
    edit: KeyHash,
    reads: u32,
    read: KeyHash,
}

impl Model for Keys {
    ghost use Rattle.std.specs.Prelude.{◌≤◌};
    ghost use Rattle.jup_keys.specs.Keyrings.{Keyring};

    ghost Value = { Keyring };

    ghost view = { λ keys. record { own = keys.own; edits = keys.edits; edit = keys.edit; reads = keys.reads; read = keys.read } };

    ghost inverse = { λ keys. record { own = keys.own; edits = keys.edits; edit = keys.edit; reads = keys.reads; read = keys.read } };

    ghost invariant = { λ keys. (1 ≤ keys.edits) × (1 ≤ keys.reads) };
}

impl Keys {
    /// Those of a new board with this ID and own key.
    pub fn of(id: &BoardId, own: &Key) -> Keys
        ensures { result ≡ keyring_of id.now own.now 1 1 }
    {
        Keys::numbered(id, own, 1, 1)
    }

    /// Keys that nobody has. A key that is shown for a board that is not there is compared with these, which takes as long.
    pub fn of_nobody() -> Keys
        ensures { result ≡ nobodys_keys }
    {
        Keys {
            own: KeyHash::zero(),
            edits: 1,
            edit: KeyHash::zero(),
            reads: 1,
            read: KeyHash::zero(),
        }
    }

    /// The keys that a file of a board says.
    pub fn read(text: &[u8]) -> Option<Keys>
        ensures { IsReadingOf keyring_text IsKeyring text.now result }
    {
        Keys::read_lines(before(text, b"\n")?)
    }

    /// Appends them as that file has them. If memory lacks, it appends nothing.
    pub fn write(&self, alloc: Global, out: &mut Vec<u8>) -> Result<(), NoMemory>
        ensures ok { OnOk result (out.new.items ≡ out.old.items ++ keyring_text self.now) }
        ensures err { OnErr result (out.new.items ≡ out.old.items) }
    {
        let Ok(text) = format!(in alloc; "{self}") else {
            return Err(NoMemory);
        };
        out.extend_from_slice(text.as_bytes()).map_err(|_| NoMemory)
    }

    /// The right of a key, if it is one of this board. It takes the hash once, and compares that with all three.
    pub fn right_of(&self, id: &BoardId, key: &Key) -> Option<Right>
        ensures { HasRight self.now (hash_of id.now key.now) result }
    {
        let shown = KeyHash::of(id, key);
        let is_own = shown.matches(&self.own);
        let is_edit = shown.matches(&self.edit);
        let is_read = shown.matches(&self.read);
        if is_own {
            Some(Right::Own)
        } else if is_edit {
            Some(Right::Edit)
        } else if is_read {
            Some(Right::Read)
        } else {
            None
        }
    }

    /// The keys that a key of this right gives, the highest first.
    pub fn given(
        &self,
        alloc: Global,
        right: Right,
        key: &Key,
    ) -> Result<Vec<(Right, Key)>, NoMemory>
        ensures { IfOk result (λ given. given.items ≡ given_keys right key.now self.now.edits self.now.reads) }
    {
        match right {
            Right::Own => {
                let edit = key.edit_key(self.edits);
                let read = edit.read_key(self.reads);
                vec![in alloc;
                    (Right::Own, *key),
                    (Right::Edit, edit),
                    (Right::Read, read),
                ]
                .map_err(|_| NoMemory)
            }
            Right::Edit => {
                let read = key.read_key(self.reads);
                vec![in alloc; (Right::Edit, *key), (Right::Read, read)].map_err(|_| NoMemory)
            }
            Right::Read => vec![in alloc; (Right::Read, *key)].map_err(|_| NoMemory),
        }
    }

    /// The keys once the present edit key is ended by who shows the own key. None, if no number is left.
    pub fn end_edit(&self, id: &BoardId, own: &Key) -> Option<Keys>
        ensures { SomeIff result (self.now.edits < last_number) (after_edit_ended id.now own.now self.now) }
    {
        let edits = self.edits.checked_add(1)?;
        let edit = own.edit_key(edits);
        Some(Keys {
            edits,
            edit: KeyHash::of(id, &edit),
            read: KeyHash::of(id, &edit.read_key(self.reads)),
            ..*self
        })
    }

    /// The keys once the present read key is ended by who shows the own key. None, if no number is left.
    pub fn end_read(&self, id: &BoardId, own: &Key) -> Option<Keys>
        ensures { SomeIff result (self.now.reads < last_number) (after_read_ended id.now own.now self.now) }
    {
        let reads = self.reads.checked_add(1)?;
        let edit = own.edit_key(self.edits);
        Some(Keys {
            reads,
            read: KeyHash::of(id, &edit.read_key(reads)),
            ..*self
        })
    }

    /// The keys once this key is the own key in place of the present one. That one itself changes nothing. None, if it is the
    /// present edit or read key, or if no number is left.
    pub fn end_own(&self, id: &BoardId, own: &Key) -> Option<Keys>
        ensures same { HasRight self.now (hash_of id.now own.now) (Some Right.Own) → result ≡ Some self.now }
        ensures lower { HasRight self.now (hash_of id.now own.now) (Some Right.Edit) ⊎ HasRight self.now (hash_of id.now own.now) (Some Right.Read)
            → IsNone result }
        ensures other { HasRight self.now (hash_of id.now own.now) None
            → SomeIff result (self.now.edits < last_number) (keyring_of id.now own.now (self.now.edits + 1) self.now.reads) }
    {
        match self.right_of(id, own) {
            Some(Right::Own) => Some(*self),
            Some(Right::Edit | Right::Read) => None,
            None => Some(Keys::numbered(id, own, self.edits.checked_add(1)?, self.reads)),
        }
    }

    /// The keys that these lines say. The last one is without its line feed.
    fn read_lines(lines: &[u8]) -> Option<Keys>
        ensures { IsReadingOf keyring_lines IsKeyring lines.now result }
    {
        let (own, lower) = split(lines, b'\n')?;
        let own = read_own(own)?;
        let (edit, read) = read_lower(lower)?;
        Some(Keys {
            own,
            edits: edit.0,
            edit: edit.1,
            reads: read.0,
            read: read.1,
        })
    }

    /// Those of a board with this ID and own key, at these numbers of its edit and its read key.
    fn numbered(id: &BoardId, own: &Key, edits: u32, reads: u32) -> Keys
        requires edits { 1 ≤ edits }
        requires reads { 1 ≤ reads }
        ensures { result ≡ keyring_of id.now own.now edits reads }
    {
        let edit = own.edit_key(edits);
        Keys {
            own: KeyHash::of(id, own),
            edits,
            edit: KeyHash::of(id, &edit),
            reads,
            read: KeyHash::of(id, &edit.read_key(reads)),
        }
    }
}

impl fmt::Display for Keys {
    ghost use Rattle.std.specs.Prelude.{Some};
    ghost use Rattle.jup_keys.specs.Keyrings.{keyring_text};

    ghost output = { λ keys. Some (keyring_text keys) };

    fn fmt<W: fmt::Write>(&self, f: &mut fmt::Formatter<W>) -> fmt::Result {
        write!(
            f,
            "own {}\nedit {} {}\nread {} {}\n",
            self.own, self.edits, self.edit, self.reads, self.read
        )
    }
}
