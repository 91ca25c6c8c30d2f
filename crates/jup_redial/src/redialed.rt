//! What the threads of a client share of its link.
ghost use Rattle.std.specs.Prelude.{◌≡◌, ◌≢◌, ◌↔◌, ◌≤◌, ◌<◌, length, true, false, None, Some, is_some, IsTrue, IfOk, OnOk, OnErr, IfErr, IsErr};
ghost use Rattle.jup_resume.specs.Texts.{Lacks, HasNoFeed};
ghost use Rattle.jup_lasting.specs.Links.{HearsPiece, broken, elapsed, IsSilent, HasMore};
ghost use Rattle.jup_redial.specs.Trials.{longest_attempt};
ghost use Rattle.jup_redial.specs.Redialed.{new_shared, ended, ended_if_going, abandoned, HasNothing, Takes, IsPut, IsUnput, PutsFirst, IsSaid, Follows, Asks, IsFull, Hears, trials_after, Passes, PassesLine, PassesLong, BeginsAgain, fate_by, size_of, MovesPiece, GivesLast, fate_without_trial, Loses, IsOpen, GivesPiece, Notices, is_missed, holds_no_edit};

use crate::change::Change;
use crate::fate::Fate;
use crate::notice::Notice;
use crate::trials::{Trial, Trials};
use jup_faults::Fault;
use jup_lasting::{Carriage, ClientLink, Heard, Hearing};
use jup_net::{Given, Inbox};
use jup_resume::{KeepFault, LONGEST_LINE, split};
use std::alloc::Global;
use std::marker::Model;

/// Bytes that one read of a connection asks for.
pub(crate) const PIECE: usize = 4_096;

/// How many bytes have to find room before a connection is read: those of a read, and a line of which all but the end came before.
const ROOM: usize = PIECE + LONGEST_LINE + 1;

/// Why bytes of the client were not put.
#[derive(Clone, Copy, Debug, PartialEq, Eq)]
pub enum Unput {
    /// They have no whole line.
    NoLine,
    /// The link is over.
    Over,
}

/// What a connection writes next.
#[derive(Clone, Copy, Debug, PartialEq, Eq)]
pub enum Piece {
    /// So many bytes.
    Bytes(usize),
    /// Nothing more: the server's last line is confirmed.
    Last,
    /// Nothing more: it does not carry the link.
    Cut,
}

/// What the threads of a client share of its link. It has the link itself, what came and was not read yet, when the client tries again, and what became of the link.
#[derive(Drop)]
pub struct Redialed {
    link: ClientLink,
    inbox: Inbox,
    trials: Trials,
    fate: Fate,
    /// Whether the link has begun again, and its client has not.
    begins: bool,
    /// Whether its client reads no more.
    is_left: bool,
    /// Whether its user has read that the link is lost.
    is_lost: bool,
    /// Whether a thread may still write to the connection.
    is_writing: bool,
}

impl Model for Redialed {
    ghost use Rattle.jup_redial.specs.Redialed.{Shared};

    ghost Value = { Shared };

    ghost view = { λ r. record {
      link = r.link;
      inbox = r.inbox;
      trials = r.trials;
      fate = r.fate;
      begins = r.begins;
      is_left = r.is_left;
      is_lost = r.is_lost;
      is_writing = r.is_writing;
    } };
}

impl Redialed {
    /// A link before its first connection. Its user may say for how many seconds it is tried again after a loss.
    pub fn new(alloc: Global, inbox: Inbox, limit: Option<u32>) -> Redialed
        ensures { result ≡ new_shared inbox limit }
    {
        Redialed {
            link: ClientLink::new(alloc),
            inbox,
            trials: Trials::new(limit),
            fate: Fate::Goes,
            begins: false,
            is_left: false,
            is_lost: false,
            is_writing: false,
        }
    }

    /// What has become of the link.
    pub fn fate(&self) -> Fate
        ensures { result ≡ self.now.fate }
    {
        self.fate
    }

    /// How it is carried.
    pub fn carriage(&self) -> Carriage
        ensures { result ≡ self.now.link.carriage }
    {
        self.link.carriage()
    }
}

// What the client does.
impl Redialed {
    /// Whether its client has to wait for bytes.
    pub fn has_nothing(&self) -> bool
        ensures { IsTrue result ↔ HasNothing self.now }
    {
        !self.begins && matches!(self.fate, Fate::Goes) && self.inbox.has_nothing()
    }

    /// Gives the client the next bytes, and answers how many. There are none once the link is over or has begun again, or if none came.
    pub fn take(&mut self, buf: &mut [u8]) -> (usize, Change)
        requires { 1 ≤ length buf.old }
        ensures { Takes self.old buf.new result.0 self.new }
    {
        if self.begins {
            return (0, Change::new());
        }
        match self.inbox.take(buf) {
            Some(Given::Bytes(len)) => (len, Change::new()),
            Some(Given::End(_)) | None => (0, Change::new()),
        }
    }

    /// Puts the first line of these bytes of the client, and answers how many bytes it has. The greeting of protocol 3 is no line of the link. Once the server's last
    /// line has come, lines are dropped. If the link is over without that, pings and acknowledgements are: the client learns of the end as it reads.
    pub fn put(&mut self, bytes: &[u8]) -> (Result<usize, Unput>, Change)
        ensures bound { IfOk result.0 (λ len. len ≤ length bytes.now) }
        ensures put { IfOk result.0 (λ len. PutsFirst bytes.now self.old len self.new) }
        ensures none { result.0 ≡ Err Unput.NoLine → Lacks 10 bytes.now × (self.new ≡ self.old) }
        ensures over { result.0 ≡ Err Unput.Over → IsUnput self.old.fate self.old self.new }
    {
        (self.put_line(bytes), Change::new())
    }

    #[tactic(auto, using(crate::proofs::Cuts::cut_length))]
    fn put_line(&mut self, bytes: &[u8]) -> Result<usize, Unput>
        ensures bound { IfOk result (λ len. len ≤ length bytes.now) }
        ensures put { IfOk result (λ len. PutsFirst bytes.now self.old len self.new) }
        ensures none { result ≡ Err Unput.NoLine → Lacks 10 bytes.now × (self.new ≡ self.old) }
        ensures over { result ≡ Err Unput.Over → IsUnput self.old.fate self.old self.new }
    {
        let Some((text, rest)) = split(bytes, b'\n') else {
            return Err(Unput::NoLine);
        };
        self.say(text)?;
        Ok(bytes.len() - rest.len())
    }

    fn say(&mut self, text: &[u8]) -> Result<(), Unput>
        requires { HasNoFeed text.now }
        ensures ok { OnOk result (IsSaid text.now self.old self.new) }
        ensures err { IfErr result (λ why. (why ≡ Unput.Over) × IsUnput self.old.fate self.old self.new) }
    {
        if text == b"hello 3".as_slice() {
            return Ok(());
        }
        self.put_text(text)
    }

    fn put_text(&mut self, text: &[u8]) -> Result<(), Unput>
        requires { HasNoFeed text.now }
        ensures ok { OnOk result (IsPut text.now self.old.fate self.old self.new) }
        ensures err { IfErr result (λ why. (why ≡ Unput.Over) × IsUnput self.old.fate self.old self.new) }
    {
        match self.fate {
            Fate::Goes => match self.link.put(text) {
                Ok(()) => Ok(()),
                Err(KeepFault::NoMemory) => {
                    self.end(Fate::NoMemory);
                    Err(Unput::Over)
                }
                Err(KeepFault::LinesSpent | KeepFault::BadTaken) => Err(Unput::Over),
            },
            Fate::Finished => Ok(()),
            _ if holds_no_edit(text) => Ok(()),
            _ => Err(Unput::Over),
        }
    }

    // The link is over.
    fn end(&mut self, fate: Fate)
        ensures { self.new ≡ ended fate self.old }
    {
        self.fate = fate;
        self.link.give_up();
    }

    /// Its client begins again, if the link has. Whether it has.
    pub fn begin(&mut self) -> bool
        ensures was { result ≡ self.old.begins }
        ensures changed { self.new ≡ record self.old { begins = false } }
    {
        let begins = self.begins;
        self.begins = false;
        begins
    }

    /// Its client has said `bye`, and reads no more.
    pub fn leave(&mut self) -> Change
        ensures { self.new ≡ record self.old { is_left = true } }
    {
        self.is_left = true;
        Change::new()
    }

    /// Its client has ended without a `bye`. If the server's last line has come, the client still confirms it.
    pub fn abandon(&mut self) -> Change
        ensures { self.new ≡ abandoned self.old.fate self.old }
    {
        let change = self.leave();
        match self.fate {
            Fate::Finished => {}
            Fate::Goes => self.end(Fate::Abandoned),
            _ => self.link.give_up(),
        }
        change
    }
}

// What a connection does.
impl Redialed {
    /// Has a new connection carry the link. Whether it is to ask for that.
    pub fn ask(&mut self, alloc: Global) -> (bool, Change)
        ensures { Asks self.old result.0 self.new }
    {
        (self.has_asked(alloc), Change::new())
    }

    fn has_asked(&mut self, alloc: Global) -> bool
        ensures { Asks self.old result self.new }
    {
        if !matches!(self.fate, Fate::Goes) || self.link.carriage() != Carriage::Cut {
            return false;
        }
        if self.link.ask(alloc).is_err() {
            self.end(Fate::NoMemory);
            return false;
        }
        self.is_writing = true;
        true
    }

    /// Whether bytes of the connection have to wait until the client has read some.
    pub fn is_full(&self) -> bool
        ensures { IsTrue result ↔ IsFull self.now }
    {
        !self.is_left && matches!(self.fate, Fate::Goes) && self.inbox.room() < ROOM
    }

    /// Hears bytes of the connection up to the end of the first line in them, and answers those after it.
    pub fn hear<'a>(&mut self, alloc: Global, piece: &'a [u8], now: u64) -> (&'a [u8], Change)
        ensures heard { Hears piece.now now self.old result.0.now self.new }
        ensures shorter { length piece.now ≢ 0 → length result.0.now < length piece.now }
    {
        let was = self.carriage();
        let opened = self.has_opened();
        let Hearing { heard, rest } = self.hear_link(alloc, piece);
        self.follow(alloc, heard, was, opened, now);
        (rest, Change::new())
    }

    // Whether the server has opened the link.
    fn has_opened(&self) -> bool
        ensures { result ≡ is_some self.now.link.terms }
    {
        self.link.terms().is_some()
    }

    // The link hears them. It is silent no more.
    fn hear_link<'a>(&mut self, alloc: Global, piece: &'a [u8]) -> Hearing<'a>
        ensures heard { HearsPiece piece.now (record self.old.link { silence = 0 }) result.heard result.rest.now self.new.link }
        ensures same { self.new ≡ record self.old { link = self.new.link } }
        ensures shorter { length piece.now ≢ 0 → length result.rest.now < length piece.now }
    {
        self.link.note_bytes();
        self.link.hear(alloc, piece)
    }

    // What follows once the link has heard something, by how it was carried before, and whether it was open.
    fn follow(&mut self, alloc: Global, heard: Heard, was: Carriage, has_opened: bool, now: u64)
        ensures { Follows heard was has_opened now self.old self.new }
    {
        match heard {
            Heard::Nothing => self.note_answer(was, now),
            Heard::Line(text) => self.pass_on_line(text.as_slice()),
            Heard::LongLine(text) => self.pass_on_long(text.as_slice()),
            Heard::Lost => {}
            Heard::Begins => self.begin_again(alloc),
            Heard::Over(number) => self.fate = self.fate_by(number, was, has_opened),
        }
    }

    // The first line on this connection may have said that it carries the link.
    fn note_answer(&mut self, was: Carriage, now: u64)
        ensures { self.new ≡ record self.old { trials = trials_after was self.old.link.carriage self.old.link.terms now self.old.trials } }
    {
        if was != Carriage::Asking || self.link.carriage() != Carriage::Carried {
            return;
        }
        if let Some(terms) = self.link.terms() {
            self.trials.answer(terms, now);
        }
    }

    // A line of the server, which may be its last.
    fn pass_on_line(&mut self, text: &[u8])
        ensures { PassesLine text.now self.old self.new }
    {
        if self.link.carriage() == Carriage::Last {
            self.fate = Fate::Finished;
        }
        if self.pass_on(text) {
            self.pass_on(b"\n");
        }
    }

    // Bytes without a line feed, for the client to refuse.
    fn pass_on_long(&mut self, text: &[u8])
        ensures { PassesLong text.now self.old self.new }
    {
        self.fate = Fate::Faulty(Fault::LongLine.number());
        self.pass_on(text);
    }

    // Bytes for the client, if that reads on. Without room for them the link is over, and it answers false.
    fn pass_on(&mut self, bytes: &[u8]) -> bool
        ensures { Passes bytes.now self.old result self.new }
    {
        if self.is_left || self.inbox.put(bytes) {
            return true;
        }
        self.end(Fate::NoMemory);
        false
    }

    // The link begins again: what came of its board is dropped.
    fn begin_again(&mut self, alloc: Global)
        ensures { BeginsAgain self.old self.new }
    {
        match Inbox::new(alloc) {
            Ok(inbox) => {
                self.inbox = inbox;
                self.begins = true;
            }
            Err(_) => self.end(Fate::NoMemory),
        }
    }

    // Why the link is over, by the number that its end gives.
    fn fate_by(&self, number: u32, was: Carriage, has_opened: bool) -> Fate
        ensures { result ≡ fate_by number was has_opened self.now.link }
    {
        if was != Carriage::Asking {
            return Fate::Faulty(number);
        }
        if !has_opened {
            return Fate::Refused(number);
        }
        match self.link.arrived() {
            Some(arrived) => Fate::Ended {
                lost: self.link.edits().saturating_sub(arrived),
            },
            None => Fate::Forgotten(number),
        }
    }

    /// The connection is not read, since the client has not read what came before.
    pub fn wait_on(&mut self)
        ensures { self.new ≡ record self.old { link = record self.old.link { silence = 0 } } }
    {
        self.link.note_bytes();
    }

    /// So many seconds have passed on the connection. Whether it has brought nothing for too long.
    pub fn elapse(&mut self, seconds: u32) -> (bool, Change)
        ensures elapsed { self.new ≡ record self.old { link = elapsed seconds self.old.link.carriage self.old.link } }
        ensures silent { IsTrue result.0 ↔ IsSilent self.new.link }
    {
        (self.link.elapse(seconds), Change::new())
    }

    /// The connection carries the link no more.
    pub fn break_off(&mut self) -> Change
        ensures { self.new ≡ record self.old { link = broken self.old.link } }
    {
        // What was written to it counts no more.
        self.link.cut();
        Change::new()
    }

    /// The connection broke, or could not be made. What the client does then.
    pub fn lose(&mut self, is_connected: bool, now: u64) -> (Trial, Change)
        ensures { Loses is_connected now self.old result.0 self.new }
    {
        self.link.cut();
        if !matches!(self.fate, Fate::Goes) {
            return (Trial::Never, Change::new());
        }
        let trial = self.trials.fail(now);
        if trial == Trial::Never {
            self.end(self.fate_without_trial(is_connected));
        }
        (trial, Change::new())
    }

    // What becomes of a link that is tried no more.
    fn fate_without_trial(&self, is_connected: bool) -> Fate
        ensures { result ≡ fate_without_trial is_connected self.now.trials }
    {
        if self.trials.has_linked() {
            Fate::Late
        } else if is_connected {
            Fate::Unanswered
        } else {
            Fate::Unconnected
        }
    }

    /// An allocation failed for a connection, or no thread could be started for it.
    pub fn fail(&mut self) -> Change
        ensures { self.new ≡ ended_if_going Fate.NoMemory self.old }
    {
        if matches!(self.fate, Fate::Goes) {
            self.fate = Fate::NoMemory;
        }
        self.link.give_up();
        Change::new()
    }

    /// For how many milliseconds from now the server may leave a connection without an answer.
    pub fn longest_attempt(&self, now: u64) -> u64
        ensures { result ≡ longest_attempt now self.now.trials }
    {
        self.trials.longest_attempt(now)
    }

    /// Whether the connection has to wait for something to write.
    pub fn has_nothing_to_write(&self) -> bool
        ensures { IsTrue result ↔ ((IsOpen self.now.link.carriage) × (HasMore self.now.link → ⊥)) }
    {
        matches!(self.link.carriage(), Carriage::Asking | Carriage::Carried)
            && !self.link.is_waiting()
    }

    /// Moves out what the connection writes next.
    pub fn next_piece(&mut self, alloc: Global, to: &mut [u8]) -> Piece
        ensures fits { size_of result ≤ length to.old }
        ensures gives { GivesPiece self.old.link.carriage self.old to.new result self.new }
    {
        match self.link.carriage() {
            Carriage::Cut | Carriage::Over => Piece::Cut,
            Carriage::Asking | Carriage::Carried => self.move_out(alloc, to),
            Carriage::Last => self.last_piece(alloc, to),
        }
    }

    // What comes once the server's last line has: what is left of a line, and a `got`.
    fn last_piece(&mut self, alloc: Global, to: &mut [u8]) -> Piece
        ensures fits { size_of result ≤ length to.old }
        ensures gives { GivesLast to.new result self.old self.new }
    {
        if self.link.is_waiting() {
            self.move_out(alloc, to)
        } else {
            Piece::Last
        }
    }

    fn move_out(&mut self, alloc: Global, to: &mut [u8]) -> Piece
        ensures fits { size_of result ≤ length to.old }
        ensures moved { MovesPiece to.new result self.old self.new }
    {
        Piece::Bytes(self.link.move_out(alloc, to))
    }

    /// The connection writes no more.
    pub fn finish(&mut self) -> Change
        ensures { self.new ≡ record self.old { is_writing = false } }
    {
        self.is_writing = false;
        Change::new()
    }

    /// Whether a thread may still write to the connection.
    pub fn is_writing(&self) -> bool
        ensures { result ≡ self.now.is_writing }
    {
        self.is_writing
    }

    /// What its user is to be told now.
    pub fn notice(&mut self) -> Option<Notice>
        ensures { Notices self.old result self.new }
    {
        match self.link.carriage() {
            Carriage::Carried | Carriage::Last if self.is_lost => {
                self.is_lost = false;
                Some(Notice::Resumed)
            }
            Carriage::Cut | Carriage::Over if self.is_missed() => {
                self.is_lost = true;
                Some(Notice::Lost)
            }
            _ => None,
        }
    }

    // Whether its user still thinks that the link is carried, and misses it.
    fn is_missed(&self) -> bool
        ensures { result ≡ is_missed self.now }
    {
        !self.is_lost && self.trials.has_linked() && matches!(self.fate, Fate::Goes | Fate::Late)
    }
}

// Whether a line is a ping or an acknowledgement.
fn holds_no_edit(text: &[u8]) -> bool
    ensures { result ≡ holds_no_edit text.now }
{
    text.starts_with(b"ping ") || text.starts_with(b"ack ")
}
