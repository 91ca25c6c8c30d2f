//! The first line of a connection to a server of many boards.
ghost use Rattle.jup_keys.specs.Notes.{request_text, IsRequest, AsksFor};

use crate::id::BoardId;
use crate::key::Key;
use crate::request::{Request, Source};

/// What the first line of a connection to a server of many boards asks for.
#[derive(Clone, Copy)]
pub enum Opening {
    /// The board of this ID, with a key of it.
    Board {
        id: BoardId,
        key: Key,
    },
    /// A new board of this ID, whose own key this is.
    New {
        id: BoardId,
        key: Key,
        source: Source,
    },
    /// To be known as the server's owner.
    Owner {
        key: Key,
    },
    /// To be told who makes boards, and from which templates.
    Templates,
    /// Nothing that a first line may ask for. The answer is that of a board that is not there.
    NoBoard,
}

impl Opening {
    /// What a line asks for, given without its line feed.
    pub fn read(text: &[u8]) -> Opening
        ensures { AsksFor text.now result }
    {
        match Request::read(text) {
            Some(note) => asked_by(&note),
            None => Opening::NoBoard,
        }
    }
}

/// What a note asks for as a first line.
fn asked_by(note: &Request) -> Opening
    requires { IsRequest note.now }
    ensures { AsksFor (request_text note.now) result }
{
    match note {
        Request::Open { id, key } => Opening::Board { id: *id, key: *key },
        Request::Make { id, key, source } => Opening::New {
            id: *id,
            key: *key,
            source: *source,
        },
        Request::Owner { key } => Opening::Owner { key: *key },
        Request::Templates => Opening::Templates,
        Request::News => Opening::NoBoard,
        Request::Keys => Opening::NoBoard,
    }
}
