//! The client's end of a link.
ghost use Rattle.std.specs.Prelude.{◌≡◌, ◌↔◌, ◌<◌, true, min, length, IsTrue, OnOk, OnErr, IsErrOf, ◌+◌, ◌≤◌, Some};
ghost use Rattle.std.specs.Option.{SomeIff};
ghost use Rattle.jup_resume.specs.Texts.{HasNoFeed};
ghost use Rattle.jup_lasting.specs.Links.{new_link, after_asking, broken, with_text, given_up, asks};
ghost use Rattle.jup_lasting.specs.declared.carriage.Carriage.TheVariants.{Cut as IsCut};

mod judging;
mod writing;

use crate::carriage::Carriage;
use crate::edits::begins_edit;
use crate::outgoing::Outgoing;
use crate::terms::Terms;
use jup_limits::NoMemory;
use jup_resume::{Confirming, KeepFault, Keeper, LineBytes, Note, Taker};
use std::alloc::Global;
use std::marker::Model;

/// For how many seconds a client hears nothing before it gives up a connection.
pub const LONGEST_SILENCE: u32 = 90;

/// What a piece of bytes brought to a client.
#[derive(Drop)]
pub enum Heard {
    /// Nothing for its site.
    Nothing,
    /// A line of the link for its site, without its line feed.
    Line(LineBytes),
    /// 256 bytes without a line feed, for its site to refuse.
    LongLine(LineBytes),
    /// The connection does not carry the link. Another may.
    Lost,
    /// The server has forgotten a link whose board has not come. It begins again, on another connection.
    Begins,
    /// The link is over, for the fault of this number.
    Over(u32),
}

/// What a piece brought, and the bytes of it that come after that.
#[derive(Drop)]
pub struct Hearing<'a> {
    pub heard: Heard,
    pub rest: &'a [u8],
}

/// The client's end of a link that outlives its connections.
#[derive(Drop)]
pub struct ClientLink {
    up: Keeper,
    down: Taker,
    confirming: Confirming,
    carriage: Carriage,
    outgoing: Outgoing,
    terms: Option<Terms>,
    is_ready: bool,
    lines: u32,
    edits: u32,
    arrived: Option<u32>,
    silence: u32,
}

impl Model for ClientLink {
    ghost use Rattle.std.specs.Prelude.{◌≡◌, ◌<◌, ◌≤◌, [], length};
    ghost use Rattle.jup_lasting.specs.Links.{Link, IsIdle};

    ghost Value = { Link };

    ghost view = { λ c. record {
      up = c.up;
      down = c.down;
      confirming = c.confirming;
      carriage = c.carriage;
      waiting = c.outgoing;
      terms = c.terms;
      is_ready = c.is_ready;
      lines = c.lines;
      edits = c.edits;
      arrived = c.arrived;
      silence = c.silence;
    } };

    ghost invariant = { λ c. (c.confirming.taken ≤ c.down.taken) × (IsIdle c.carriage → c.outgoing ≡ []) × (length c.down.part < 256) };
}

impl ClientLink {
    /// A link before its first connection. It takes no memory.
    pub fn new(alloc: Global) -> ClientLink
        ensures { result ≡ new_link }
    {
        ClientLink {
            up: Keeper::new(alloc),
            down: Taker::new(),
            confirming: Confirming::new(),
            carriage: Carriage::Cut,
            outgoing: Outgoing::new(alloc),
            terms: None,
            is_ready: false,
            lines: 0,
            edits: 0,
            arrived: None,
            silence: 0,
        }
    }

    /// How it is carried.
    pub fn carriage(&self) -> Carriage
        ensures { result ≡ self.now.carriage }
    {
        self.carriage
    }

    /// What the server said as it opened the link.
    pub fn terms(&self) -> Option<Terms>
        ensures { result ≡ self.now.terms }
    {
        self.terms
    }

    /// How many lines were put.
    pub fn lines(&self) -> u32
        ensures { result ≡ self.now.lines }
    {
        self.lines
    }

    /// How many edits were put.
    pub fn edits(&self) -> u32
        ensures { result ≡ self.now.edits }
    {
        self.edits
    }

    /// How many of its edits had their effect, if the server has said that. They are the first ones.
    pub fn arrived(&self) -> Option<u32>
        ensures { result ≡ self.now.arrived }
    {
        self.arrived
    }

    /// Asks a new connection to carry the link. The line for that waits to be written. Without memory nothing changes.
    pub fn ask(&mut self, alloc: Global) -> Result<(), NoMemory>
        requires { self.old.carriage ≡ IsCut }
        ensures asked { OnOk result (self.new ≡ after_asking self.old) }
        ensures refused { OnErr result (self.new ≡ self.old) }
    {
        let note = self.first_note();
        self.outgoing.put_note(alloc, &note)?;
        self.carriage = Carriage::Asking;
        self.silence = 0;
        Ok(())
    }

    // Its first line on a connection.
    fn first_note(&self) -> Note
        ensures { result ≡ asks self.now.terms self.now.down.taken }
    {
        match self.terms {
            None => Note::Hello,
            Some(terms) => Note::Resume {
                token: terms.token,
                taken: self.down.taken(),
            },
        }
    }

    /// The connection broke. What the client puts is kept, and written on the next one.
    pub fn cut(&mut self)
        ensures { self.new ≡ broken self.old }
    {
        self.up.cut();
        self.down.cut();
        self.outgoing.clear();
        self.carriage = match self.carriage {
            Carriage::Cut | Carriage::Asking | Carriage::Carried => Carriage::Cut,
            Carriage::Last | Carriage::Over => Carriage::Over,
        };
    }

    /// The site refused what came: nothing more is written or taken.
    pub fn give_up(&mut self)
        ensures { self.new ≡ given_up self.old }
    {
        self.outgoing.clear();
        self.carriage = Carriage::Over;
    }

    /// Puts a line of the site, given without its line feed. Refused are the 4,294,967,296th line, and then an allocation that fails.
    pub fn put(&mut self, text: &[u8]) -> Result<(), KeepFault>
        requires { HasNoFeed text.now }
        ensures ok { OnOk result (self.new ≡ with_text text.now self.old) }
        ensures err { OnErr result (self.new ≡ self.old) }
        ensures spent { IsErrOf result KeepFault.LinesSpent ↔ (4294967295 ≤ self.old.up.dropped + length self.old.up.kept) }
    {
        self.up.put(text)?;
        self.lines = self.lines.saturating_add(1);
        self.edits = self.edits.saturating_add(u32::from(begins_edit(text)));
        Ok(())
    }
}
