//! What the user of a lasting link asks for.
ghost use Rattle.std.specs.Prelude.{◌≡◌, ◌≢◌, Ok, Err, OnOk, OnErr, IfOk, IfErr};
ghost use Rattle.jup_client.specs.declared.asking.Request.TheVariants.{Sync as PingRequest, Quit as QuitRequest};
ghost use Rattle.jup_client.specs.declared.client.Told.TheVariants.{Synced, Bye as SaidBye};
ghost use Rattle.jup_embed.specs.Numbers.{stage_fault, MakesSpelled};
ghost use Rattle.jup_embed.specs.Sessions.{KeepsCopies, RefusesEdit, RefusesRequest, stage_of};
ghost use Rattle.jup_reconnect.specs.Lasting.{room_answer, ping_answer, admission, is_pinging, IfShut, RefusesCall, EditsLasting, DoesLasting, CommandsLasting};

use crate::client::LastingClient;
use crate::faults::{LastingFault, lasting_number};
use jup_client::{Request, Told, told_text};
use jup_embed::{EmbedFault, PlainCommand, Stage, UNTOLD};
use jup_window::Command;
use std::alloc::Global;

// The most pings that the server has not answered.
const MOST_PINGS: u32 = 1_000;

// The most lines that a client puts before its last.
const MOST_LINES: u64 = 4_294_967_293;

// The most lines that one call puts.
const LONGEST_CALL: u64 = 33;

impl LastingClient {
    /// Makes one edit of 1 to 32 commands, as [`Client::edit`](jup_embed::Client::edit) does, whether a connection carries the link or not. A
    /// refusal changes nothing.
    pub fn edit(&mut self, alloc: Global, commands: &[Command]) -> Result<(), LastingFault>
        ensures made { OnOk result (EditsLasting commands.now self.old self.new) }
        ensures copies { OnOk result (KeepsCopies self.old.session self.new.session) }
        ensures refused { OnErr result (self.new ≡ self.old) }
        ensures shut { IfShut (room_answer self.old) result }
        ensures why { IfErr result (RefusesCall (room_answer self.old) (RefusesEdit commands.now self.old.session.phase)) }
    {
        self.find_room()?;
        self.session.edit(alloc, commands)?;
        Ok(())
    }

    /// Makes one edit of the 1 to 32 commands that these numbers spell, as [`Client::edit_plain`](jup_embed::Client::edit_plain) does. Returns
    /// 0, or the number of the refusal, which changes nothing.
    pub fn edit_plain(&mut self, alloc: Global, commands: &[PlainCommand]) -> u32
        ensures made { result ≡ 0 → MakesSpelled commands.now self.old.session self.new.session }
        ensures rest { self.new ≡ record self.old { session = self.new.session } }
        ensures refused { result ≢ 0 → self.new ≡ self.old }
        ensures over { stage_fault (stage_of self.old.session.phase) ≢ 0 → result ≡ stage_fault (stage_of self.old.session.phase) }
    {
        match self.find_room() {
            Ok(()) => self.session.edit_plain(alloc, commands),
            Err(fault) => lasting_number(Err(fault)),
        }
    }

    /// Asks the server for all that it has. Refused is a ping while 1,000 are not answered. A refusal changes nothing.
    pub fn ping(&mut self, alloc: Global) -> Result<(), LastingFault>
        ensures pinged { OnOk result (DoesLasting PingRequest Synced self.old self.new) }
        ensures copies { OnOk result (KeepsCopies self.old.session self.new.session) }
        ensures refused { OnErr result (self.new ≡ self.old) }
        ensures shut { IfShut (admission PingRequest self.old) result }
        ensures why { IfErr result (RefusesCall (admission PingRequest self.old) (RefusesRequest PingRequest self.old.session.phase)) }
    {
        self.find_ping()?;
        self.session.ping(alloc)?;
        Ok(())
    }

    /// Says goodbye. The server then ends the link. A refusal changes nothing.
    pub fn bye(&mut self, alloc: Global) -> Result<(), LastingFault>
        ensures said { OnOk result (DoesLasting QuitRequest SaidBye self.old self.new) }
        ensures copies { OnOk result (KeepsCopies self.old.session self.new.session) }
        ensures refused { OnErr result (self.new ≡ self.old) }
        ensures why { IfErr result (RefusesCall (Ok tt) (RefusesRequest QuitRequest self.old.session.phase)) }
    {
        self.session.bye(alloc)?;
        Ok(())
    }

    /// Does what a line asks for, as [`Client::command`](jup_embed::Client::command) does.
    pub fn command(&mut self, alloc: Global, line: &[u8]) -> Result<Option<Told>, LastingFault>
        ensures { CommandsLasting result line.now self.old self.new }
    {
        let asked = self.session.take_line(alloc, line)?;
        let Some(request) = asked else {
            return Ok(None);
        };
        Ok(Some(self.request(alloc, &request)?))
    }

    /// Does what a line asks for, as [`Client::ask`](jup_embed::Client::ask) does, and returns what `jup` then prints, or the number of a fault.
    /// No clause says which text that is.
    pub fn ask(&mut self, alloc: Global, line: &[u8]) -> Result<Vec<u8>, u32>
        ensures { self.new ≡ record self.old { session = self.new.session } }
    {
        match self.command(alloc, line) {
            Ok(Some(told)) => self.printed(alloc, &told),
            Ok(None) => Ok(Vec::new(alloc)),
            Err(fault) => Err(lasting_number(Err(fault))),
        }
    }

    // What `jup` prints of what a line told.
    fn printed(&self, alloc: Global, told: &Told) -> Result<Vec<u8>, u32> {
        let Some(board) = self.session.board() else {
            return Err(EmbedFault::NotOpen.number());
        };
        told_text(alloc, told, board).map_err(|_| UNTOLD)
    }

    // Does a request, if it is admitted.
    fn request(&mut self, alloc: Global, request: &Request) -> Result<Told, LastingFault>
        ensures done { IfOk result (λ told. DoesLasting request.now told self.old self.new) }
        ensures refused { OnErr result (self.new ≡ self.old) }
        ensures shut { IfShut (admission request.now self.old) result }
    {
        self.admit(request)?;
        Ok(self.session.request(alloc, request)?)
    }

    // Whether a request may be done.
    fn admit(&self, request: &Request) -> Result<(), LastingFault>
        ensures { result ≡ admission request.now self.now }
    {
        match request {
            Request::Edit(_) | Request::Batch(_) => self.find_room(),
            Request::Sync => self.find_ping(),
            Request::Show | Request::Quit | Request::Bad => Ok(()),
        }
    }

    // Whether one more ping may wait for its pong.
    fn find_ping(&self) -> Result<(), LastingFault>
        ensures { result ≡ ping_answer (room_answer self.now) (is_pinging self.now) }
    {
        self.find_room()?;
        if self.session.pings().saturating_sub(self.answered) >= MOST_PINGS {
            return Err(LastingFault::Pings);
        }
        Ok(())
    }

    // Whether the lines of one more call leave room for the last line. What waits has no more lines than bytes.
    fn find_room(&self) -> Result<(), LastingFault>
        ensures { result ≡ room_answer self.now }
    {
        if let Stage::Over(end) = self.session.stage() {
            return Err(LastingFault::Refused(EmbedFault::Over(end)));
        }
        let waiting = u64::try_from(self.session.waiting()).unwrap_or(u64::MAX);
        let lines = waiting
            .saturating_add(u64::from(self.link.lines()))
            .saturating_add(LONGEST_CALL);
        if lines > MOST_LINES {
            return Err(LastingFault::LinesSpent);
        }
        Ok(())
    }
}
