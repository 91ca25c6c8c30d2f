//! What a client of a lasting link makes of its server's bytes.
ghost use Rattle.std.specs.Prelude.{◌≡◌, ◌<◌, ◌≢◌, ℕ, List, [], length, Ok, Err, IsErr, IfErr, IfOk, OnOk};
ghost use Rattle.jup_number.specs.Numbers.{IsU32, IsReadingOf};
ghost use Rattle.jup_reconnect.specs.Lasting.{pong_text, FeedsLine, EndsLine, Handles, HearsOne, NotesPong, TakesText, with_bytes, StopsAt, Through, FeedsLasting, RefusesBytes, OverBy, left_by};
ghost use Rattle.jup_embed.specs.Sessions.{ended_by};
ghost use Rattle.jup_client.specs.declared.ends.ClientEnd.{ClientEnd as AnyEnd};
ghost use Rattle.jup_client.specs.declared.ends.ClientEnd.TheVariants.{Fault as EndedBy};
ghost use Rattle.jup_embed.specs.declared.phase.Phase.TheVariants.{Over as IsOver};
ghost use Rattle.jup_lasting.specs.declared.carriage.Carriage.TheVariants.{Cut as IsCut};

use crate::client::LastingClient;
use crate::faults::LastingFault;
use jup_client::ClientEnd;
use jup_embed::{Client, EmbedFault, Stage};
use jup_faults::Fault;
use jup_lasting::{Carriage, Heard, Hearing};
use jup_number::read_number;
use std::alloc::Global;

impl LastingClient {
    /// Takes bytes that the server sent on this connection, cut anywhere. The client hears the lines of the link in order, and what the notes
    /// between them say. After a refusal by `Cut` the connection does not carry the link, and the program closes it. Any other refusal is
    /// the end of the session.
    pub fn feed(&mut self, alloc: Global, bytes: &[u8]) -> Result<(), LastingFault>
        ensures fed { OnOk result (FeedsLasting bytes.now self.old self.new) }
        ensures refused { IfErr result (λ fault. RefusesBytes bytes.now self.old fault self.new) }
        ensures over { (end : AnyEnd) → self.old.session.phase ≡ IsOver end → result ≡ Err (OverBy end) }
        ensures cut { self.old.link.carriage ≡ IsCut → IsErr result }
    {
        if let Stage::Over(end) = self.session.stage() {
            return Err(EmbedFault::Over(end).into());
        }
        if self.link.carriage() == Carriage::Cut {
            return Err(LastingFault::Cut);
        }
        self.note_bytes(bytes);
        self.hear_all(alloc, bytes)
    }

    // Bytes end the silence of the connection.
    #[tactic(auto, using(crate::proofs::Hearing::with_some, crate::proofs::Hearing::with_none))]
    fn note_bytes(&mut self, bytes: &[u8])
        ensures { self.new ≡ with_bytes bytes.now self.old }
    {
        if !bytes.is_empty() {
            self.link.note_bytes();
        }
    }

    // Hears bytes, line by line, up to the first that is refused.
    #[tactic(auto, using(crate::proofs::Hearing::through_none, crate::proofs::Hearing::through_more, crate::proofs::Hearing::through_all, crate::proofs::Hearing::stops_at))]
    fn hear_all(&mut self, alloc: Global, bytes: &[u8]) -> Result<(), LastingFault>
        ensures heard { OnOk result ((lefts : List (List ℕ)) × Through lefts bytes.now [] self.old self.new) }
        ensures stopped { IfErr result (λ fault. StopsAt bytes.now self.old fault self.new) }
    {
        let mut rest = bytes;
        while !rest.is_empty() {
            rest = self.hear(alloc, rest)?;
        }
        Ok(())
    }

    // Hears bytes up to the end of the first line in them, and returns those after it.
    fn hear<'a>(&mut self, alloc: Global, piece: &'a [u8]) -> Result<&'a [u8], LastingFault>
        ensures heard { IfOk result (λ rest. HearsOne piece.now self.old (Ok tt) rest.now self.new) }
        ensures shorter { length piece.now ≢ 0 → IfOk result (λ rest. length rest.now < length piece.now) }
        ensures refused { IfErr result (λ fault. (rest : List ℕ) × HearsOne piece.now self.old (Err fault) rest self.new) }
    {
        let Hearing { heard, rest } = self.link.hear(alloc, piece);
        self.handle(alloc, heard)?;
        Ok(rest)
    }

    // Does what a piece brought.
    fn handle(&mut self, alloc: Global, heard: Heard) -> Result<(), LastingFault>
        ensures { Handles heard self.old result self.new }
    {
        match heard {
            Heard::Nothing => Ok(()),
            Heard::Line(text) => self.take_text(alloc, text.as_slice()),
            Heard::LongLine(_) => Err(self.end_by(Fault::LongLine.number())),
            Heard::Lost => Err(LastingFault::Cut),
            Heard::Begins => {
                self.session = Client::ungreeted(alloc, self.session.is_watched());
                self.answered = 0;
                Err(LastingFault::Cut)
            }
            Heard::Over(number) => Err(self.end_by(number)),
        }
    }

    // A line of the link, for the site.
    #[tactic(auto, using(crate::proofs::Hearing::text_ends, crate::proofs::Hearing::text_taken))]
    fn take_text(&mut self, alloc: Global, text: &[u8]) -> Result<(), LastingFault>
        ensures { TakesText text.now self.old result self.new }
    {
        self.note_pong(text);
        match self.feed_line(alloc, text) {
            Ok(()) => Ok(()),
            Err(end) => {
                self.leave_carrier();
                Err(EmbedFault::Over(end).into())
            }
        }
    }

    // Notes the number of a pong.
    fn note_pong(&mut self, text: &[u8])
        ensures { NotesPong text.now self.old self.new }
    {
        if let Some(number) = pong_number(text) {
            self.answered = number;
        }
    }

    // The site takes a line.
    fn feed_line(&mut self, alloc: Global, text: &[u8]) -> Result<(), ClientEnd>
        ensures fed { OnOk result (FeedsLine text.now self.old.session self.new.session) }
        ensures ends { IfErr result (λ end. EndsLine text.now self.old.session end self.new.session) }
        ensures rest { self.new ≡ record self.old { session = self.new.session } }
    {
        self.session.feed(alloc, text)?;
        self.session.feed(alloc, b"\n")
    }

    // Gives a link up that carries its lines. One whose last line came is still confirmed.
    fn leave_carrier(&mut self)
        ensures { self.new ≡ record self.old { link = left_by self.old.link.carriage self.old.link } }
    {
        if self.link.carriage() == Carriage::Carried {
            self.link.give_up();
        }
    }

    // The session is over by this number.
    fn end_by(&mut self, number: u32) -> LastingFault
        ensures fault { result ≡ OverBy (EndedBy number) }
        ensures ended { self.new ≡ record self.old { session = ended_by (EndedBy number) self.old.session } }
    {
        let end = ClientEnd::Fault(number);
        self.session.end(end);
        LastingFault::Refused(EmbedFault::Over(end))
    }
}

// The number in a line `pong N`.
fn pong_number(text: &[u8]) -> Option<u32>
    ensures { IsReadingOf pong_text IsU32 text.now result }
{
    read_number(text.strip_prefix(b"pong ")?)
}
