//! What a session decides: which messages the lines of its site are, what comes next, whom it wakes, what it fetches, and how many pongs it
//! grants.
ghost use Rattle.std.specs.List.{flat_map};
ghost use Rattle.std.specs.Option.{option_to_list};
ghost use Rattle.std.specs.Prelude.{◌≡◌, ◌≢◌, IsOk, List, [], ◌∷◌, ◌++◌, OnOk, IfOk, IfErr, Some, IsSomeAnd, ◌<◌, ◌↔◌, IsTrue, IfNone, IfSome, IsNone, IsSome, OnSome, ◌+◌, ◌-◌, ◌≤◌, count_by};
ghost use Rattle.jup_star.specs.declared.faults.StarFault.TheVariants.{NoLink};
ghost use Rattle.jup_wire.specs.declared.line.Line.{Line};
ghost use Rattle.jup_wire.specs.declared.line.Line.TheVariants.{Hello};
ghost use Rattle.jup_faults.specs.Faults.{fault_number};
ghost use Rattle.jup_faults.specs.declared.table.Fault.TheVariants.{EarlyEnd};
ghost use Rattle.jup_hub.specs.declared.fault.HubFault.TheVariants.{Star};
ghost use Rattle.jup_rules.specs.Ends.{ending_of};
ghost use Rattle.jup_rules.specs.Sessions.{most_fetched, most_pongs, HasHeard, Leads, incoming_of, edits_with, next_of, edits_after, outcome, said_by, down_lines, HasSaid, IsRefused, is_pong};
ghost use Rattle.jup_stream.specs.declared.faults.StreamFault.{StreamFault};
ghost use Rattle.jup_stream.specs.declared.faults.StreamFault.TheVariants.{Misplaced};
ghost use Rattle.jup_stream.specs.declared.saying.Said.{Said};

use crate::{Ending, SessionFault};
use jup_gather::{Gather, Gathered, message_of, put_message};
use jup_hub::HubFault;
use jup_star::{Down, StarFault, Up};
use jup_stream::{Said, Stop, StreamFault};
use jup_wire::{Line, LineSink};
use std::alloc::Global;
use std::marker::Model;

/// Whether a session may begin with this line: it is the greeting, and any other is misplaced.
pub fn check_greeting(first: &Line) -> Result<(), StreamFault>
    ensures hello { first.now ≡ Hello → IsOk result }
    ensures other { first.now ≢ Hello → result ≡ Err Misplaced }
{
    match first {
        Line::Hello => Ok(()),
        _ => Err(StreamFault::Misplaced),
    }
}

/// Hears the next line of a site after its greeting, and answers what the site says by the lines up to it;
/// nothing if lines of a message are missing. Refused are a line that is misplaced, and one that no site
/// says.
pub fn hear_site(
    gather: &mut Gather,
    alloc: Global,
    line: &Line,
) -> Result<Option<Said>, StreamFault>
    // Whatever came before: what the site said so far is what all the lines so far say.
    ensures said { IfOk result (λ said. (lines : List Line) (saids : List Said)
        → HasSaid lines saids gather.old
        → HasSaid (lines ++ line.now ∷ []) (saids ++ option_to_list said) gather.new) }
    ensures refused { IfErr result (λ fault. IsRefused fault gather.old line.now gather.new) }
{
    match gather.push(alloc, line) {
        Ok(gathered) => said_by(message_of(gathered)),
        Err(_) => Err(StreamFault::NoMemory),
    }
}

// What a site says by the message to the star that its lines are, or by what they are instead.
fn said_by(heard: Result<Up, Gathered>) -> Result<Option<Said>, StreamFault>
    ensures { result ≡ said_by heard }
{
    match heard {
        Ok(up) => Ok(Some(Said::Up(up))),
        Err(Gathered::Held) => Ok(None),
        Err(Gathered::Plain(Line::Bye)) => Ok(Some(Said::Bye)),
        Err(_) => Err(StreamFault::Misplaced),
    }
}

/// Puts the lines of messages to a site, one message after the other.
pub fn put_downs<S: LineSink>(sink: &mut S, downs: &[Down]) -> Result<(), S::Fault>
    ensures { OnOk result (S.takes sink.old (flat_map down_lines downs.now) sink.new) }
{
    for down in downs {
        put_message(sink, down)?;
    }
    Ok(())
}

/// What a message waits for before the star takes it.
#[derive(Clone, Copy, Debug, PartialEq, Eq)]
pub enum Awaits {
    /// That the gate is ready for this edit of the site: which one it is, from 1.
    Gate(u32),
    /// That the site is owed fewer pongs than it may be.
    Pongs,
    Nothing,
}

/// A message of a site on its way to the star.
#[derive(Debug, Drop, PartialEq, Eq)]
pub struct Incoming {
    pub up: Up,
    pub awaits: Awaits,
}

/// What comes next, once a line was heard.
#[derive(Debug, Drop, PartialEq, Eq)]
pub enum Next {
    /// The next line: of a message some are missing.
    Line,
    /// The star takes this.
    Take(Incoming),
    /// No further line is read.
    End(Ending),
}

/// Hears the lines of a site after its greeting, one by one. It says which messages they are, which of the site's edits
/// each edit is, and what has to come before the star takes a message.
///
/// Contracts see the lines that are held of a message, and how many edits the site has sent.
#[derive(Drop)]
pub struct Gatekeeper {
    gather: Gather,
    edits: u32,
}

impl Model for Gatekeeper {
    ghost use Rattle.jup_rules.specs.Sessions.{Keeper};

    ghost Value = { Keeper };

    ghost view = { λ k. (k.gather, k.edits) };
}

impl Gatekeeper {
    /// No line has come yet.
    pub fn new() -> Gatekeeper
        ensures new { result ≡ (Some [], 0) }
        ensures heard { HasHeard [] [] result }
    {
        Gatekeeper {
            gather: Gather::new(),
            edits: 0,
        }
    }

    /// Hears the next line, and answers what comes next. A line that is misplaced, one that no site says, and a failed
    /// allocation end the session.
    pub fn hear(&mut self, alloc: Global, line: &Line) -> Next
        // Whatever came before: by all the lines so far the site said what was answered, and each edit is counted.
        ensures { (lines : List Line) (saids : List Said) → HasHeard lines saids self.old
            → Leads lines saids self.old line.now result self.new }
    {
        let said = hear_site(&mut self.gather, alloc, line);
        self.next(said)
    }

    // What comes next once the site has said this.
    fn next(&mut self, said: Result<Option<Said>, StreamFault>) -> Next
        ensures next { result ≡ next_of self.old.1 said }
        ensures counted { self.new ≡ (self.old.0, edits_after self.old.1 said) }
    {
        match said {
            Ok(None) => Next::Line,
            Ok(Some(Said::Up(up))) => Next::Take(self.admit(up)),
            Ok(Some(Said::Bye)) => Next::End(Ending::Bye),
            Err(fault) => Next::End(fault.into()),
        }
    }

    // A message, which is counted if it is an edit.
    fn admit(&mut self, up: Up) -> Incoming
        ensures incoming { result ≡ incoming_of self.old.1 up }
        ensures counted { self.new ≡ (self.old.0, edits_with self.old.1 up) }
    {
        let awaits = match &up {
            Up::Op(_) => {
                self.edits = self.edits.saturating_add(1);
                Awaits::Gate(self.edits)
            }
            Up::Ping(_) => Awaits::Pongs,
            Up::Ack(_) => Awaits::Nothing,
        };
        Incoming { up, awaits }
    }

    /// How the session ends if no further line comes: the site is gone only if its bytes end between messages.
    pub fn end(&self, stop: Stop) -> Ending
        ensures early { stop ≡ Stop.End → IsSomeAnd self.now.0 (λ part. part ≢ []) → result ≡ Ending.Fault (fault_number EarlyEnd) }
        ensures gone { stop ≡ Stop.End → self.now.0 ≡ Some [] → result ≡ Ending.Gone }
        ensures fault { (fault : StreamFault) → stop ≡ Stop.Fault fault → result ≡ ending_of (SessionFault.Stream fault) }
    {
        Ending::behind(&self.gather, stop)
    }
}

/// Whom a session wakes.
#[derive(Clone, Copy, Debug, PartialEq, Eq)]
pub enum Ring {
    All,
    /// The site's own writing half.
    Own,
}

/// What follows once the star has answered a message: whom the session wakes, or how it ends. An edit is news for all
/// sites, and what answers another message is for its own. If the site has no link any more it is gone.
pub fn ring_after(up: &Up, answer: Result<Option<u32>, HubFault>) -> Result<Ring, Ending>
    ensures { result ≡ outcome up.now answer }
{
    match (up, answer) {
        (Up::Op(_), Ok(_)) => Ok(Ring::All),
        (Up::Ack(_) | Up::Ping(_), Ok(_)) => Ok(Ring::Own),
        (_, Err(HubFault::Star(StarFault::NoLink))) => Err(Ending::Gone),
        (_, Err(fault)) => Err(SessionFault::Hub(fault).into()),
    }
}

/// Messages that one fetch asks for.
pub const MOST_FETCHED: u32 = 64;

/// Whether a fetch of a session that brought so many messages left none: it brought fewer than it asked for.
pub fn is_last_fetch(count: usize) -> bool
    ensures { IsTrue result ↔ (count < most_fetched) }
{
    count < MOST_FETCHED as usize
}

/// Why a session ends whose fetch was refused so. `None` if its site has no link any more: it has left, and the other half knows why.
pub fn refused_fetch(fault: HubFault) -> Option<SessionFault>
    ensures unlinked { IfNone result (fault ≡ Star NoLink) }
    ensures refused { IfSome result (λ ending. (fault ≢ Star NoLink) × (ending ≡ SessionFault.Hub fault)) }
{
    match fault {
        HubFault::Star(StarFault::NoLink) => None,
        fault => Some(SessionFault::Hub(fault)),
    }
}

/// Pongs that a site may be owed.
const MOST_PONGS: u32 = 1_024;

/// The pongs that a site is owed: one for each ping that was taken, until it is written. Contracts see their number.
///
/// Otherwise a site that pings and never reads would fill its outbox without end, and leave no memory for others.
#[derive(Debug, Drop)]
pub struct Pongs {
    owed: u32,
}

impl Model for Pongs {
    ghost use Rattle.std.specs.Prelude.{ℕ, ◌≤◌};
    ghost use Rattle.jup_rules.specs.Sessions.{most_pongs};

    ghost Value = { ℕ };

    ghost view = { λ p. p.owed };

    ghost invariant = { λ p. p.owed ≤ most_pongs };
}

/// That a ping was counted by [`Pongs::take_ping`], which alone makes this. So the star may take the ping.
#[derive(Debug, Drop, PartialEq, Eq)]
pub struct OwedPong {
    counted: (),
}

impl Pongs {
    /// No pong is owed yet.
    pub fn new() -> Pongs
        ensures { result ≡ 0 }
    {
        Pongs { owed: 0 }
    }

    /// Counts a ping that is to be taken. `None` if 1,024 pongs are owed: then it has to wait.
    pub fn take_ping(&mut self) -> Option<OwedPong>
        ensures taken { IsSome result ↔ (self.old < most_pongs) }
        ensures owed { OnSome result (self.new ≡ self.old + 1) }
        ensures same { IsNone result → self.new ≡ self.old }
        ensures most { self.new ≤ most_pongs }
    {
        if self.owed == MOST_PONGS {
            return None;
        }
        self.owed += 1;
        Some(OwedPong { counted: () })
    }

    /// Takes off pongs that were written. True if a ping may be taken that had to wait before.
    pub fn pay(&mut self, written: WrittenPongs) -> bool
        ensures owed { self.new ≡ self.old - written }
        ensures again { IsTrue result ↔ (most_pongs ≤ self.old) × (self.new < most_pongs) }
    {
        let WrittenPongs { count } = written;
        let had_to_wait = self.owed == MOST_PONGS;
        self.owed = (self.owed as usize).saturating_sub(count) as u32;
        had_to_wait && self.owed < MOST_PONGS
    }
}

/// Pongs that were written, and that are owed until they are paid. Contracts see how many. It is not `Drop`, and [`Pongs::pay`] alone uses it up.
#[derive(Debug)]
pub struct WrittenPongs {
    count: usize,
}

impl Model for WrittenPongs {
    ghost use Rattle.std.specs.Prelude.{ℕ};

    ghost Value = { ℕ };

    ghost view = { λ w. w.count };
}

impl WrittenPongs {
    /// Those among messages that were written.
    pub fn among(downs: &[Down]) -> WrittenPongs
        ensures { result ≡ count_by is_pong downs.now }
    {
        WrittenPongs {
            count: pongs_in(downs),
        }
    }
}

/// How many of these messages are pongs.
pub fn pongs_in(downs: &[Down]) -> usize
    ensures { result ≡ count_by is_pong downs.now }
{
    let mut pongs = 0;
    for down in downs {
        let is_one = is_pong(down);
        if is_one {
            pongs += 1;
        }
    }
    pongs
}

fn is_pong(down: &Down) -> bool
    ensures { result ≡ is_pong down.now }
{
    matches!(down, Down::Pong(_))
}
