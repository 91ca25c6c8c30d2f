//! A client of a link that outlives its connections.
ghost use Rattle.std.specs.Prelude.{◌≡◌, ◌≢◌, ◌↔◌, ◌≤◌, [], ◌∷◌, length, take, IsTrue, IsErr, Err, IfOk, IfErr, IfSome, OnOk, OnErr, MatchOption};
ghost use Rattle.jup_batch.specs.Boards.{Windows, after};
ghost use Rattle.jup_lasting.specs.Links.{broken, after_asking, elapsed, IsSilent};
ghost use Rattle.jup_embed.specs.Sessions.{LacksUntold};
ghost use Rattle.jup_client.specs.declared.ends.ClientEnd.{ClientEnd as AnyEnd};
ghost use Rattle.jup_embed.specs.declared.phase.Phase.TheVariants.{Over as IsOver};
ghost use Rattle.jup_lasting.specs.declared.carriage.Carriage.TheVariants.{Cut as IsCut};
ghost use Rattle.jup_reconnect.specs.Lasting.{OverBy, IsFreshLasting, IsWaiting, MovesSaid, PutsSaid, RefusesResume};

use crate::faults::LastingFault;
use jup_embed::{Client, EmbedFault, Stage};
use jup_lasting::{Carriage, ClientLink, Terms};
use jup_resume::split;
use jup_window::BoardOp;
use jup_xform::NoMemory;
use std::alloc::Global;
use std::marker::Model;

/// A client of a link that outlives its connections. While none carries the link, its user edits on.
pub struct LastingClient {
    pub(crate) session: Client,
    pub(crate) link: ClientLink,
    // The number of the last ping that the server has answered.
    pub(crate) answered: u32,
}

// Written out, as that of `Client`.
impl Drop for LastingClient {
    fn drop(self) {
        let LastingClient {
            session: _,
            link: _,
            answered: _,
        } = self;
    }
}

impl Model for LastingClient {
    ghost use Rattle.jup_reconnect.specs.Lasting.{Lasting};

    ghost Value = { Lasting };

    ghost view = { λ c. record { session = c.session; link = c.link; answered = c.answered } };
}

impl LastingClient {
    /// A client before its first connection carries a byte. Its first line waits to be sent. If it is watched, it keeps changes, as
    /// [`Client::new`] says.
    pub fn new(alloc: Global, is_watched: bool) -> Result<LastingClient, NoMemory>
        ensures { IfOk result (IsFreshLasting is_watched) }
    {
        let mut link = ClientLink::new(alloc);
        link.ask(alloc)?;
        Ok(LastingClient {
            session: Client::ungreeted(alloc, is_watched),
            link,
            answered: 0,
        })
    }

    /// Its session: how far that is, and what its user sees. A cut changes nothing of it.
    pub fn session(&self) -> &Client
        ensures { result.now ≡ self.now.session }
    {
        &self.session
    }

    /// What the server said as it opened the link, once it has: the token, and for how many seconds the link waits without a connection.
    pub fn terms(&self) -> Option<Terms>
        ensures { result ≡ self.now.link.terms }
    {
        self.link.terms()
    }

    /// How many of its edits had their effect, once the link is over and the server has said so. They are the first that it made.
    pub fn arrived(&self) -> Option<u32>
        ensures { result ≡ self.now.link.arrived }
    {
        self.link.arrived()
    }

    /// Tells the oldest operation that the board took and that it has not told, as [`Client::next_change`] does.
    pub fn next_change(&mut self) -> Option<BoardOp>
        ensures told { MatchOption result ((self.old.session.changes ≡ []) × (self.new ≡ self.old))
            (λ op. self.old ≡ record self.new { session = record self.new.session { changes = op ∷ self.new.session.changes } }) }
        ensures copy { IfSome result (λ op. (copy : Windows) → LacksUntold copy self.old.session → LacksUntold (after (op ∷ []) copy) self.new.session) }
    {
        self.session.next_change()
    }

    /// The connection broke. What its user edits waits for the next one.
    pub fn cut(&mut self)
        ensures { self.new ≡ record self.old { link = broken self.old.link } }
    {
        self.link.cut();
    }

    /// Asks a new connection to carry the link. The first line for that waits to be sent. A refusal changes nothing.
    pub fn resume(&mut self, alloc: Global) -> Result<(), LastingFault>
        ensures asked { OnOk result (self.new ≡ record self.old { link = after_asking self.old.link }) }
        ensures refused { OnErr result (self.new ≡ self.old) }
        ensures over { (end : AnyEnd) → self.old.session.phase ≡ IsOver end → result ≡ Err (OverBy end) }
        ensures carried { self.old.link.carriage ≢ IsCut → IsErr result }
        ensures why { IfErr result (RefusesResume self.old) }
    {
        if let Stage::Over(end) = self.session.stage() {
            return Err(EmbedFault::Over(end).into());
        }
        if self.link.carriage() != Carriage::Cut {
            return Err(LastingFault::Carried);
        }
        self.link.ask(alloc)?;
        Ok(())
    }

    /// So many seconds have passed since this was last told. Returns whether nothing has come for 90: then the program gives the
    /// connection up. A `got` that is due after 60 seconds waits to be sent.
    pub fn elapse(&mut self, seconds: u32) -> bool
        ensures elapsed { self.new ≡ record self.old { link = elapsed seconds self.old.link.carriage self.old.link } }
        ensures silent { IsTrue result ↔ IsSilent self.new.link }
    {
        self.link.elapse(seconds)
    }

    /// Whether something waits to be sent on this connection.
    pub fn is_waiting(&self) -> bool
        ensures { IsTrue result ↔ IsWaiting self.now }
    {
        self.link.is_waiting()
            || (self.link.carriage() == Carriage::Carried && self.session.waiting() > 0)
    }

    /// Moves bytes for this connection out, the oldest first, and returns how many. Without memory for the lines that it keeps it moves
    /// fewer, and the others wait.
    pub fn move_out(&mut self, alloc: Global, to: &mut [u8]) -> usize
        ensures fits { result ≤ length to.old }
        ensures moved { MovesSaid (take result to.new) self.old self.new }
        ensures long { length to.new ≡ length to.old }
    {
        self.put_said();
        self.link.move_out(alloc, to)
    }

    // Puts what the session says on the link, line by line. What there is no memory for waits.
    #[tactic(auto, using(crate::proofs::Putting::puts_none, crate::proofs::Putting::puts_more, crate::proofs::Putting::line_within))]
    fn put_said(&mut self)
        ensures { PutsSaid self.old self.new }
    {
        while let Some((text, _)) = split(self.session.unsent(), b'\n') {
            let count = text.len() + 1;
            if self.link.put(text).is_err() {
                return;
            }
            self.session.drop_front(count);
        }
    }
}
