//! Texts as bytes that are copied.
ghost use Rattle.std.specs.Prelude.{◌≡◌, length, min, take, drop};
ghost use Rattle.jup_embed.specs.Sessions.{KeepsCopies};

use super::numbers::{UNTOLD, outcome_number};
use crate::client::Client;
use crate::refusals::EmbedFault;
use jup_client::told_text;
use std::alloc::Global;

impl Client {
    /// Does what a line asks for, as [`command`](Client::command) does, and returns what `jup` then prints, or the number of a fault. It prints
    /// nothing of a line that begins a batch or goes on with it. No clause says which text that is.
    pub fn ask(&mut self, alloc: Global, line: &[u8]) -> Result<Vec<u8>, u32>
        ensures { KeepsCopies self.old self.new }
    {
        let told = match self.command(alloc, line) {
            Ok(Some(told)) => told,
            Ok(None) => return Ok(Vec::new(alloc)),
            Err(fault) => return Err(outcome_number(Err(fault))),
        };
        let Some(board) = self.board() else {
            return Err(EmbedFault::NotOpen.number());
        };
        told_text(alloc, &told, board).map_err(|_| UNTOLD)
    }
}

/// Copies bytes as far as there is room.
pub fn copy_bytes(from: &[u8], to: &mut [u8])
    ensures long { length to.new ≡ length to.old }
    ensures copied { let count = min (length from.now) (length to.old) in take count to.new ≡ take count from.now }
    ensures rest { let count = min (length from.now) (length to.old) in drop count to.new ≡ drop count to.old }
{
    let count = from.len().min(to.len());
    to[..count].copy_from_slice(&from[..count]);
}
