//! A client of one session.
ghost use Rattle.std.specs.Prelude.{◌≡◌, ◌≤◌, ◌||◌, [], ◌∷◌, length, min, take, drop, None, Some, Ok, Err, IfOk, IfErr, OnOk, OnErr, IfSome, IsNone, MatchOption};
ghost use Rattle.jup_wire.specs.Lines.{line_bytes};
ghost use Rattle.jup_wire.specs.Streams.{HasRead};
ghost use Rattle.jup_wire.specs.declared.line.Line.TheVariants.{Hello};
ghost use Rattle.jup_batch.specs.Boards.{Windows, after, bare};
ghost use Rattle.jup_star.specs.Sites.{EditAnswers};
ghost use Rattle.jup_client.specs.declared.ends.ClientEnd.{ClientEnd as AnyEnd};
ghost use Rattle.jup_client.specs.declared.client.Told.TheVariants.{Synced, Bye as SaidBye};
ghost use Rattle.jup_client.specs.declared.asking.Request.TheVariants.{Sync, Quit};
ghost use Rattle.jup_stream.specs.declared.saying.Said.TheVariants.{Up as SaysUp};
ghost use Rattle.jup_embed.specs.declared.phase.Phase.TheVariants.{Greeting as InGreeting, Over as IsOver};
ghost use Rattle.jup_embed.specs.Sessions.{IsUngreeted, ended_by, pings_in, LacksUntold, KeepsCopies, stage_of, board_in, site_in, still_synced, refusal_of, HearsLine, HearsLines, Feeds, KeepsRest, RefusesLine, HearsUpTo, Ends, EditedIn, MakesEdit, RefusesEdit, RefusesRequest, RefusesAt, AnsweredIn, IsDone, Asks, DoesAsked, Commands, TakesLine};

use crate::changes::Changes;
use crate::phase::Phase;
use crate::refusals::EmbedFault;
use crate::unsent::Unsent;
use jup_client::{Answer, Asking, ClientEnd, Heard, Request, Told};
use jup_star::{Made, Site};
use jup_stream::{Said, StreamFault};
use jup_window::{Board, BoardOp, Command, EditFault, Within};
use jup_wire::{Line, Reader};
use jup_xform::NoMemory;
use std::alloc::Global;
use std::marker::{Model, PhantomData};

/// How far a session is.
#[derive(Clone, Copy, Debug, PartialEq, Eq)]
pub enum Stage {
    /// The server has not greeted.
    Greeting,
    /// Lines of its board come.
    Opening,
    Open,
    /// It has ended, for this reason.
    Over(ClientEnd),
}

/// A client of one session: it reads what its server sent, keeps what is to be sent, and has the site whose board the user edits.
pub struct Client {
    reader: Reader,
    phase: Phase,
    unsent: Unsent,
    changes: Changes,
    asking: Asking,
    is_synced: bool,
    // The checker learns of the types within a line from a field that names them.
    within: PhantomData<(Within, Line)>,
}

// Written out: a crate that drops a client then proves one call. It would prove a derived drop again, and those of all parts.
impl Drop for Client {
    fn drop(self) {
        let Client {
            reader: _,
            phase: _,
            unsent: _,
            changes: _,
            asking: _,
            is_synced: _,
            within: _,
        } = self;
    }
}

impl Model for Client {
    ghost use Rattle.jup_embed.specs.Sessions.{Session};

    ghost Value = { Session };

    ghost view = { λ c. record {
      progress = c.reader;
      phase = c.phase;
      waiting = c.unsent.bytes;
      changes = c.changes.untold;
      watched = c.changes.watched;
      asked = c.asking;
      synced = c.is_synced;
    } };
}

impl Client {
    /// A client before the first byte, whose greeting waits to be sent. If it is watched, it keeps each operation that its board takes
    /// until [`next_change`](Client::next_change) tells it.
    pub fn new(alloc: Global, is_watched: bool) -> Result<Client, NoMemory>
        ensures read { IfOk result (λ client. HasRead [] [] client.progress) }
        ensures phase { IfOk result (λ client. client.phase ≡ InGreeting) }
        ensures greets { IfOk result (λ client. client.waiting ≡ line_bytes Hello) }
        ensures changes { IfOk result (λ client. client.changes ≡ []) }
        ensures watched { IfOk result (λ client. client.watched ≡ is_watched) }
    {
        let unsent = Unsent::new(alloc)?;
        Ok(Client {
            reader: Reader::new(),
            phase: Phase::Greeting,
            unsent,
            changes: Changes::new(alloc, is_watched),
            asking: Asking::new(),
            is_synced: false,
            within: PhantomData,
        })
    }

    /// A client that greets nobody, for a link that does so itself. Making it takes no memory.
    pub fn ungreeted(alloc: Global, is_watched: bool) -> Client
        ensures { IsUngreeted is_watched result }
    {
        Client {
            reader: Reader::new(),
            phase: Phase::Greeting,
            unsent: Unsent::none(alloc),
            changes: Changes::new(alloc, is_watched),
            asking: Asking::new(),
            is_synced: false,
            within: PhantomData,
        }
    }

    /// Ends the session, unless it is over.
    pub fn end(&mut self, end: ClientEnd)
        ensures { self.new ≡ ended_by end self.old }
    {
        if !matches!(self.phase, Phase::Over(_)) {
            self.phase = Phase::Over(end);
        }
    }

    /// Whether it keeps changes.
    pub fn is_watched(&self) -> bool
        ensures { result ≡ self.now.watched }
    {
        self.changes.is_watched()
    }

    /// How many pings it sent, once the session is open.
    pub fn pings(&self) -> u32
        ensures { result ≡ pings_in self.now.phase }
    {
        match &self.phase {
            Phase::Open(state) => state.pings,
            Phase::Greeting | Phase::Opening(_) | Phase::Over(_) => 0,
        }
    }

    /// The bytes that wait to be sent, the oldest first.
    pub fn unsent(&self) -> &[u8]
        ensures { result.now ≡ self.now.waiting }
    {
        self.unsent.as_slice()
    }

    /// Drops so many of the bytes that wait, the oldest first.
    pub fn drop_front(&mut self, count: usize)
        requires { count ≤ length self.old.waiting }
        ensures { self.new ≡ record self.old { waiting = drop count self.old.waiting } }
    {
        self.unsent.drop_front(count);
    }

    /// How far the session is.
    pub fn stage(&self) -> Stage
        ensures { result ≡ stage_of self.now.phase }
    {
        match &self.phase {
            Phase::Greeting => Stage::Greeting,
            Phase::Opening(_) => Stage::Opening,
            Phase::Open(_) => Stage::Open,
            Phase::Over(end) => Stage::Over(*end),
        }
    }

    /// What the user sees, once the session is open.
    pub fn board(&self) -> Option<&Board>
        ensures open { IfSome result (λ board. board_in self.now.phase ≡ Some (bare board.now)) }
        ensures none { IsNone result → board_in self.now.phase ≡ None }
    {
        match &self.phase {
            Phase::Open(state) => Some(state.site.board()),
            Phase::Greeting | Phase::Opening(_) | Phase::Over(_) => None,
        }
    }

    /// The number of its site, and how many of its edits the server has not acknowledged, once the session is open.
    pub fn site(&self) -> Option<(u32, u32)>
        ensures { result ≡ site_in self.now.phase }
    {
        match &self.phase {
            Phase::Open(state) => Some((state.site.number(), state.site.backlog())),
            Phase::Greeting | Phase::Opening(_) | Phase::Over(_) => None,
        }
    }

    /// Whether the server has answered the last ping. False if it sent none.
    pub fn is_synced(&self) -> bool
        ensures { result ≡ self.now.synced }
    {
        self.is_synced
    }

    /// How many bytes wait to be sent.
    pub fn waiting(&self) -> usize
        ensures { result ≡ length self.now.waiting }
    {
        self.unsent.len()
    }

    /// Moves bytes that wait to be sent, the oldest first and as far as there is room, and returns how many. Nothing else changes.
    pub fn move_out(&mut self, to: &mut [u8]) -> usize
        ensures count { result ≡ min (length self.old.waiting) (length to.old) }
        ensures fits { result ≤ length to.old }
        ensures moved { take result to.new ≡ take result self.old.waiting }
        ensures beyond { drop result to.new ≡ drop result to.old }
        ensures left { self.new ≡ record self.old { waiting = drop result self.old.waiting } }
        ensures long { length to.new ≡ length to.old }
    {
        self.unsent.move_out(to)
    }

    /// Tells the oldest operation that the board took and that it has not told. Nothing else changes.
    pub fn next_change(&mut self) -> Option<BoardOp>
        ensures told { MatchOption result ((self.old.changes ≡ []) × (self.new ≡ self.old))
            (λ op. self.old ≡ record self.new { changes = op ∷ self.new.changes }) }
        ensures copy { IfSome result (λ op. (copy : Windows) → LacksUntold copy self.old → LacksUntold (after (op ∷ []) copy) self.new) }
    {
        self.changes.next()
    }

    /// Takes bytes that the server sent, cut anywhere, and hears the lines of all bytes so far in order. A fault ends the session.
    #[tactic(auto, using(crate::proofs::Sessions::fed_keeps))]
    pub fn feed(&mut self, alloc: Global, bytes: &[u8]) -> Result<(), ClientEnd>
        ensures fed { OnOk result (Feeds bytes.now self.old self.new) }
        ensures copies { OnOk result (KeepsCopies self.old self.new) }
        ensures ends { IfErr result (λ end. Ends bytes.now self.old end self.new) }
        ensures over { IfErr result (λ end. self.new.phase ≡ IsOver end) }
        ensures ended { (end : AnyEnd) → self.old.phase ≡ IsOver end → result ≡ Err end }
    {
        self.take_in(alloc, bytes)
    }

    // Takes bytes of the server, unless the session is over.
    fn take_in(&mut self, alloc: Global, bytes: &[u8]) -> Result<(), ClientEnd>
        ensures fed { OnOk result (Feeds bytes.now self.old self.new) }
        ensures ends { IfErr result (λ end. Ends bytes.now self.old end self.new) }
        ensures over { IfErr result (λ end. self.new.phase ≡ IsOver end) }
        ensures ended { (end : AnyEnd) → self.old.phase ≡ IsOver end → result ≡ Err end }
    {
        if let Phase::Over(end) = &self.phase {
            return Err(*end);
        }
        let fed = self.read_in(alloc, bytes);
        if let Err(end) = fed {
            self.phase = Phase::Over(end);
        }
        fed
    }

    // Reads lines, and hears them.
    fn read_in(&mut self, alloc: Global, bytes: &[u8]) -> Result<(), ClientEnd>
        ensures fed { OnOk result (Feeds bytes.now self.old self.new) }
        ensures ends { IfErr result (λ end. Ends bytes.now self.old end self.new) }
    {
        let fed = self.reader.feed(alloc, bytes)?;
        self.hear_all(alloc, fed.lines.as_slice())?;
        match fed.fault {
            Some(fault) => Err(StreamFault::Wire(fault).into()),
            None => Ok(()),
        }
    }

    // Hears lines in order, up to the first that is refused.
    fn hear_all(&mut self, alloc: Global, lines: &[Line]) -> Result<(), ClientEnd>
        ensures heard { OnOk result (HearsLines lines.now self.old self.new) }
        ensures refused { IfErr result (λ end. HearsUpTo lines.now self.old end self.new) }
        ensures read { self.new.progress ≡ self.old.progress }
    {
        for line in lines {
            self.hear(alloc, line)?;
        }
        Ok(())
    }

    // Hears a line. Room for the client's answer is made before it is heard.
    fn hear(&mut self, alloc: Global, line: &Line) -> Result<(), ClientEnd>
        ensures heard { OnOk result (HearsLine line.now self.old self.new) }
        ensures refused { IfErr result (RefusesLine line.now self.old) }
        ensures kept { OnErr result (KeepsRest self.old self.new) }
        ensures read { self.new.progress ≡ self.old.progress }
    {
        self.unsent.reserve()?;
        self.changes.reserve()?;
        let Heard {
            said,
            is_synced,
            shown,
        } = self.phase.hear(alloc, line)?;
        self.unsent.say(said);
        self.changes.keep_shown(shown);
        self.is_synced = either(self.is_synced, is_synced);
        Ok(())
    }

    /// Makes one edit of 1 to 32 commands, each of the board after those before it. The board shows it immediately, and its message waits
    /// to be sent. A refusal changes nothing.
    #[tactic(auto, using(crate::proofs::Sessions::made_keeps))]
    pub fn edit(&mut self, alloc: Global, commands: &[Command]) -> Result<(), EmbedFault>
        ensures made { OnOk result (MakesEdit commands.now self.old self.new) }
        ensures copies { OnOk result (KeepsCopies self.old self.new) }
        ensures refused { OnErr result (self.new ≡ self.old) }
        ensures why { IfErr result (λ fault. RefusesEdit commands.now self.old.phase fault) }
    {
        self.make(alloc, commands)
    }

    // Makes an edit. Room for its message is made before it.
    fn make(&mut self, alloc: Global, commands: &[Command]) -> Result<(), EmbedFault>
        ensures made { OnOk result (MakesEdit commands.now self.old self.new) }
        ensures refused { OnErr result (self.new ≡ self.old) }
        ensures why { IfErr result (λ fault. RefusesEdit commands.now self.old.phase fault) }
    {
        self.unsent.reserve()?;
        self.changes.reserve()?;
        let made = edit_in(alloc, &mut self.phase, commands)?;
        let said = Some(said_of(made));
        self.changes.keep_said(&said);
        self.unsent.say(said);
        Ok(())
    }

    /// Asks the server for all that it has. Once that has come, the client is synced. A refusal changes nothing.
    #[tactic(auto, using(crate::proofs::Sessions::pinged_so, crate::proofs::Sessions::request_keeps))]
    pub fn ping(&mut self, alloc: Global) -> Result<(), EmbedFault>
        ensures pinged { OnOk result (IsDone Sync self.old Synced self.new) }
        ensures copies { OnOk result (KeepsCopies self.old self.new) }
        ensures refused { OnErr result (self.new ≡ self.old) }
        ensures why { IfErr result (RefusesRequest Sync self.old.phase) }
    {
        self.request(alloc, &Request::Sync)?;
        Ok(())
    }

    /// Says goodbye. The server then ends the session. A refusal changes nothing.
    #[tactic(auto, using(crate::proofs::Sessions::left_so, crate::proofs::Sessions::request_keeps))]
    pub fn bye(&mut self, alloc: Global) -> Result<(), EmbedFault>
        ensures said { OnOk result (IsDone Quit self.old SaidBye self.new) }
        ensures copies { OnOk result (KeepsCopies self.old self.new) }
        ensures refused { OnErr result (self.new ≡ self.old) }
        ensures why { IfErr result (RefusesRequest Quit self.old.phase) }
    {
        self.request(alloc, &Request::Quit)?;
        Ok(())
    }

    /// Does what a line asks for, as the program `jup` takes it, and returns what that tells its user. A line that begins a batch or
    /// goes on with it tells nothing. A sync is over once the client is synced.
    #[tactic(auto, using(crate::proofs::Sessions::commands_keep))]
    pub fn command(&mut self, alloc: Global, line: &[u8]) -> Result<Option<Told>, EmbedFault>
        ensures does { Commands result line.now self.old self.new }
        ensures copies { KeepsCopies self.old self.new }
    {
        self.obey(alloc, line)
    }

    /// Takes a line of its user, as the program `jup` does, and returns the request that it completes. That is not done yet. If an
    /// allocation fails, nothing changes.
    pub fn take_line(&mut self, alloc: Global, line: &[u8]) -> Result<Option<Request>, NoMemory>
        ensures asked { IfOk result (λ asked. TakesLine line.now asked self.old self.new) }
        ensures refused { OnErr result (self.new ≡ self.old) }
    {
        self.asking.push(alloc, line)
    }

    // Does what a line asks for, if it completes a request.
    #[tactic(auto, using(crate::proofs::Sessions::commanded_so))]
    fn obey(&mut self, alloc: Global, line: &[u8]) -> Result<Option<Told>, EmbedFault>
        ensures { Commands result line.now self.old self.new }
    {
        let asked = self.take_line(alloc, line)?;
        self.do_asked(alloc, asked)
    }

    // Does what a line asks for, if it completed a request.
    fn do_asked(
        &mut self,
        alloc: Global,
        asked: Option<Request>,
    ) -> Result<Option<Told>, EmbedFault>
        ensures does { DoesAsked result asked self.old self.new }
        ensures asked { self.new.asked ≡ self.old.asked }
    {
        match asked {
            None => Ok(None),
            Some(request) => Ok(Some(self.request(alloc, &request)?)),
        }
    }

    /// Does a request. Room for what the client then says is made before it is done.
    pub fn request(&mut self, alloc: Global, request: &Request) -> Result<Told, EmbedFault>
        ensures asks { Asks request.now self.old result self.new }
        ensures asked { self.new.asked ≡ self.old.asked }
        ensures why { IfErr result (RefusesRequest request.now self.old.phase) }
    {
        self.unsent.reserve()?;
        self.changes.reserve()?;
        let Answer { said, told } = answer_in(alloc, &mut self.phase, request)?;
        self.changes.keep_said(&said);
        self.unsent.say(said);
        self.is_synced = still_synced(request, self.is_synced);
        Ok(told)
    }
}

fn either(one: bool, other: bool) -> bool
    ensures { result ≡ one || other }
{
    one || other
}

// Whether a synced client still is, after a request.
fn still_synced(request: &Request, is_synced: bool) -> bool
    ensures { result ≡ still_synced request.now is_synced }
{
    match request {
        Request::Sync => false,
        Request::Edit(_) | Request::Batch(_) | Request::Show | Request::Quit | Request::Bad =>
            is_synced,
    }
}

// The answer of an open session.
#[tactic(auto, using(crate::proofs::Sessions::refused_so, crate::proofs::Sessions::request_refused))]
fn answer_in(alloc: Global, phase: &mut Phase, request: &Request) -> Result<Answer, EmbedFault>
    ensures answered { IfOk result (λ answer. AnsweredIn request.now phase.old answer phase.new) }
    ensures refused { OnErr result (phase.new ≡ phase.old) }
    ensures why { IfErr result (RefusesRequest request.now phase.old) }
{
    match phase {
        Phase::Open(state) => match state.answer(alloc, request) {
            Ok(answer) => Ok(answer),
            Err(ClientEnd::NoMemory) => Err(EmbedFault::NoMemory),
            Err(end) => Err(EmbedFault::Over(end)),
        },
        Phase::Greeting | Phase::Opening(_) => Err(EmbedFault::NotOpen),
        Phase::Over(end) => Err(EmbedFault::Over(*end)),
    }
}

// Makes an edit in an open session.
fn edit_in(alloc: Global, phase: &mut Phase, commands: &[Command]) -> Result<Made, EmbedFault>
    ensures made { IfOk result (λ made. EditedIn commands.now phase.old made phase.new) }
    ensures refused { OnErr result (phase.new ≡ phase.old) }
    ensures why { IfErr result (λ fault. RefusesEdit commands.now phase.old fault) }
{
    match phase {
        Phase::Open(state) => edit_at(alloc, &mut state.site, commands),
        Phase::Greeting | Phase::Opening(_) => Err(EmbedFault::NotOpen),
        Phase::Over(end) => Err(EmbedFault::Over(*end)),
    }
}

// Makes an edit at its site.
fn edit_at(alloc: Global, site: &mut Site, commands: &[Command]) -> Result<Made, EmbedFault>
    ensures made { IfOk result (λ made. EditAnswers commands.now site.old site.new (Ok made)) }
    ensures refused { OnErr result (site.new ≡ site.old) }
    ensures why { IfErr result (λ fault. RefusesAt commands.now site.old fault) }
{
    match site.edit_batch(alloc, commands) {
        Ok(made) => Ok(made),
        Err(fault) => Err(refusal_of(fault)),
    }
}

// What the client says of an edit that it made.
fn said_of(made: Made) -> Said
    ensures { result ≡ SaysUp made.up }
{
    let Made { up, edit } = made;
    drop(edit);
    Said::Up(up)
}

// What a refusal of the site is to the caller of the client.
fn refusal_of(fault: EditFault) -> EmbedFault
    ensures { result ≡ refusal_of fault }
{
    match fault {
        EditFault::NoMemory => EmbedFault::NoMemory,
        fault => EmbedFault::Edit(fault),
    }
}
