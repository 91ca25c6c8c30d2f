//! What a server says of a board while it is open.
ghost use Rattle.std.specs.Prelude.{◌≡◌, ◌++◌, OnOk, OnErr, IfOk, string_bytes};
ghost use Rattle.jup_resume.specs.Texts.{spelled};
ghost use Rattle.jup_keys.specs.Notes.{news_text};

use jup_limits::NoMemory;
use std::alloc::{AllocError, Global};

/// A note by which a server tells what changes beside a board. Each has one spelling.
#[derive(Clone, Copy, Debug, PartialEq, Eq)]
pub enum BoardNews {
    /// `links N`: so many links of the board have a connection.
    Links { count: u32 },
    /// `full`: the order of the board is full.
    Full,
}

impl BoardNews {
    /// Appends the note as a line. If memory lacks, it appends nothing.
    pub fn write(&self, alloc: Global, out: &mut Vec<u8>) -> Result<(), NoMemory>
        ensures ok { OnOk result (out.new.items ≡ out.old.items ++ spelled (news_text self.now)) }
        ensures err { OnErr result (out.new.items ≡ out.old.items) }
    {
        let Ok(line) = self.line(alloc) else {
            return Err(NoMemory);
        };
        out.extend_from_slice(line.as_bytes()).map_err(|_| NoMemory)
    }

    /// The note as a line.
    fn line(&self, alloc: Global) -> Result<String, AllocError>
        ensures { IfOk result (λ line. string_bytes line ≡ spelled (news_text self.now)) }
    {
        match self {
            BoardNews::Links { count } => format!(in alloc; "links {count}\n"),
            BoardNews::Full => format!(in alloc; "full\n"),
        }
    }
}
