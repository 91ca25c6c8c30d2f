//! A client of either kind, for callers in other languages.
ghost use Rattle.std.specs.Prelude.{◌≡◌, ◌≢◌, ◌↔◌, ◌≤◌, ◌∷◌, [], length, take, IsTrue, MatchOption};
ghost use Rattle.jup_client.specs.declared.asking.Request.TheVariants.{Sync, Quit};
ghost use Rattle.jup_client.specs.declared.client.Told.TheVariants.{Synced, Bye as SaidBye};
ghost use Rattle.jup_embed.specs.Numbers.{stage_fault};
ghost use Rattle.jup_embed.specs.Sessions.{stage_of};
ghost use Rattle.jup_reconnect.specs.AnyClients.{session_of, with_session, FeedsAny, Waits, MovesAny, EditsAny, DoesAny, CutsAny, ResumesAny, elapsed_any, IsSilentAny, terms_of, arrived_of};

use crate::client::LastingClient;
use crate::faults::lasting_number;
use jup_embed::{Client, PlainCommand, end_number, outcome_number};
use jup_lasting::Terms;
use jup_window::BoardOp;
use std::alloc::Global;

/// A call is for a client of a link that outlives its connections.
pub const NOT_LASTING: u32 = 97;

/// A client of one connection, or of a link that outlives its connections. Its calls answer by the numbers of `c/jup.h`.
#[derive(Drop)]
pub enum AnyClient {
    Single(Client),
    Lasting(LastingClient),
}

impl AnyClient {
    /// Its session.
    pub fn session(&self) -> &Client
        ensures { result.now ≡ session_of self.now }
    {
        match self {
            AnyClient::Single(client) => client,
            AnyClient::Lasting(client) => client.session(),
        }
    }

    /// Takes bytes of the server. Returns 0, or the number of the refusal.
    pub fn feed(&mut self, alloc: Global, bytes: &[u8]) -> u32
        ensures { FeedsAny bytes.now result self.old self.new }
    {
        match self {
            AnyClient::Single(client) => match client.feed(alloc, bytes) {
                Ok(()) => 0,
                Err(end) => end_number(end),
            },
            AnyClient::Lasting(client) => match client.feed(alloc, bytes) {
                Ok(()) => 0,
                Err(fault) => lasting_number(Err(fault)),
            },
        }
    }

    /// How many bytes wait to be sent. Of a link that outlives its connections it is 1 if something waits for this one, and 0 if not.
    pub fn waiting(&self) -> usize
        ensures { Waits result self.now }
    {
        match self {
            AnyClient::Single(client) => client.waiting(),
            AnyClient::Lasting(client) => { if client.is_waiting() { 1 } else { 0 } }
        }
    }

    /// Moves bytes that wait to be sent out, the oldest first, and returns how many.
    pub fn move_out(&mut self, alloc: Global, to: &mut [u8]) -> usize
        ensures fits { result ≤ length to.old }
        ensures moved { MovesAny result (length to.old) (take result to.new) self.old self.new }
        ensures long { length to.new ≡ length to.old }
    {
        match self {
            AnyClient::Single(client) => client.move_out(to),
            AnyClient::Lasting(client) => client.move_out(alloc, to),
        }
    }

    /// Makes one edit of the 1 to 32 commands that these numbers spell. Returns 0, or the number of the refusal, which changes nothing.
    pub fn edit(&mut self, alloc: Global, commands: &[PlainCommand]) -> u32
        ensures made { result ≡ 0 → EditsAny commands.now self.old self.new }
        ensures refused { result ≢ 0 → self.new ≡ self.old }
        ensures over { stage_fault (stage_of (session_of self.old).phase) ≢ 0 → result ≡ stage_fault (stage_of (session_of self.old).phase) }
    {
        match self {
            AnyClient::Single(client) => client.edit_plain(alloc, commands),
            AnyClient::Lasting(client) => client.edit_plain(alloc, commands),
        }
    }

    /// Asks the server for all that it has. Returns 0, or the number of the refusal, which changes nothing.
    pub fn ping(&mut self, alloc: Global) -> u32
        ensures pinged { result ≡ 0 → DoesAny Sync Synced self.old self.new }
        ensures refused { result ≢ 0 → self.new ≡ self.old }
    {
        match self {
            AnyClient::Single(client) => outcome_number(client.ping(alloc)),
            AnyClient::Lasting(client) => lasting_number(client.ping(alloc)),
        }
    }

    /// Says goodbye. Returns 0, or the number of the refusal, which changes nothing.
    pub fn bye(&mut self, alloc: Global) -> u32
        ensures said { result ≡ 0 → DoesAny Quit SaidBye self.old self.new }
        ensures refused { result ≢ 0 → self.new ≡ self.old }
    {
        match self {
            AnyClient::Single(client) => outcome_number(client.bye(alloc)),
            AnyClient::Lasting(client) => lasting_number(client.bye(alloc)),
        }
    }

    /// Does what a line asks for, as the program `jup` takes it, and returns what that prints, or the number of the refusal.
    pub fn ask(&mut self, alloc: Global, line: &[u8]) -> Result<Vec<u8>, u32>
        ensures { self.new ≡ with_session (session_of self.new) self.old }
    {
        match self {
            AnyClient::Single(client) => client.ask(alloc, line),
            AnyClient::Lasting(client) => client.ask(alloc, line),
        }
    }

    /// Tells the oldest operation that the board took and that it has not told.
    pub fn next_change(&mut self) -> Option<BoardOp>
        ensures told { MatchOption result (((session_of self.old).changes ≡ []) × (self.new ≡ self.old))
            (λ op. self.old ≡ with_session (record (session_of self.new) { changes = op ∷ (session_of self.new).changes }) self.new) }
    {
        match self {
            AnyClient::Single(client) => client.next_change(),
            AnyClient::Lasting(client) => client.next_change(),
        }
    }

    /// The connection broke. Returns 0, or that no link outlives it.
    pub fn cut(&mut self) -> u32
        ensures { CutsAny result self.old self.new }
    {
        match self {
            AnyClient::Single(_) => NOT_LASTING,
            AnyClient::Lasting(client) => {
                client.cut();
                0
            }
        }
    }

    /// Asks a new connection to carry the link. Returns 0, or the number of the refusal, which changes nothing.
    pub fn resume(&mut self, alloc: Global) -> u32
        ensures { ResumesAny result self.old self.new }
    {
        match self {
            AnyClient::Single(_) => NOT_LASTING,
            AnyClient::Lasting(client) => match client.resume(alloc) {
                Ok(()) => 0,
                Err(fault) => lasting_number(Err(fault)),
            },
        }
    }

    /// So many seconds have passed. Returns whether the connection is to be given up.
    pub fn elapse(&mut self, seconds: u32) -> bool
        ensures elapsed { self.new ≡ elapsed_any seconds self.old }
        ensures silent { IsTrue result ↔ IsSilentAny self.new }
    {
        match self {
            AnyClient::Single(_) => false,
            AnyClient::Lasting(client) => client.elapse(seconds),
        }
    }

    /// What the server said as it opened the link, if it has, or the number of the refusal.
    pub fn terms(&self) -> Result<Option<Terms>, u32>
        ensures { result ≡ terms_of self.now }
    {
        match self {
            AnyClient::Single(_) => Err(NOT_LASTING),
            AnyClient::Lasting(client) => Ok(client.terms()),
        }
    }

    /// How many of its edits had their effect, if the server has said so, or the number of the refusal.
    pub fn arrived(&self) -> Result<Option<u32>, u32>
        ensures { result ≡ arrived_of self.now }
    {
        match self {
            AnyClient::Single(_) => Err(NOT_LASTING),
            AnyClient::Lasting(client) => Ok(client.arrived()),
        }
    }
}
