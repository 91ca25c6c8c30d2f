//! What a client makes of its user's requests and of its server's lines, once it is open.
ghost use Rattle.std.specs.Prelude.{◌≡◌};
ghost use Rattle.jup_client.specs.Clients.{edit_answer, sync_answer, after_sync, down_heard, Answers, Hears, Delivers};

use crate::{ClientEnd, Request};
use jup_batch::{BoardBatch, BoardEdits};
use jup_gather::{Gather, Gathered, message_of};
use jup_star::{Delivered, Down, Made, Site, Up};
use jup_stream::{Said, StreamFault};
use jup_window::EditFault;
use jup_wire::Line;
use std::alloc::Global;

/// What a client tells its user.
#[derive(Drop)]
pub enum Told {
    /// The number of its site.
    Site(u32),
    /// What was made of an edit.
    Made(BoardEdits),
    /// Why an edit was refused.
    Refused(EditFault),
    Synced,
    /// The board that it shows.
    Board,
    Bye,
    BadCommand,
}

/// What a client does for a request: it says this to its server, if anything, and then tells its user.
#[derive(Drop)]
pub struct Answer {
    pub said: Option<Said>,
    pub told: Told,
}

/// What a client does for a line of its server: it says this, if anything. `is_synced` if the line answers its last ping.
/// `shown` are the operations that its board took, if the line completes another site's edit.
#[derive(Drop)]
pub struct Heard {
    pub said: Option<Said>,
    pub is_synced: bool,
    pub shown: Option<BoardBatch>,
}

/// A client beside its link: its site, the lines that it holds of a message of its server, and the number of its
/// last ping. Pings are numbered from 1; the number is 0 if it sent none.
#[derive(Drop)]
pub struct ClientState {
    pub site: Site,
    pub gather: Gather,
    pub pings: u32,
}

impl ClientState {
    /// Does what its user asks for. A sync is over once [`hear`](ClientState::hear) says so.
    pub fn answer(&mut self, alloc: Global, request: &Request) -> Result<Answer, ClientEnd>
        ensures { Answers request.now self.old result self.new }
    {
        let (said, told) = match request {
            Request::Edit(command) => return edit_answer(self.site.edit(alloc, command)),
            Request::Batch(commands) => {
                return edit_answer(self.site.edit_batch(alloc, commands.as_slice()));
            }
            Request::Sync => return self.sync_answer(),
            Request::Show => (None, Told::Board),
            Request::Quit => (Some(Said::Bye), Told::Bye),
            Request::Bad => (None, Told::BadCommand),
        };
        Ok(Answer { said, told })
    }

    // Asks the server for all that it has.
    fn sync_answer(&mut self) -> Result<Answer, ClientEnd>
        ensures answer { result ≡ sync_answer self.old.pings }
        ensures after { self.new ≡ after_sync self.old }
    {
        let Some(count) = self.pings.checked_add(1) else {
            return Err(StreamFault::ReadsSpent.into());
        };
        self.pings = count;
        Ok(Answer {
            said: Some(Said::Up(Up::Ping(count))),
            told: Told::Synced,
        })
    }

    /// Hears a line of the server, after the line `ready`. A message of several lines is delivered by its last.
    pub fn hear(&mut self, alloc: Global, line: &Line) -> Result<Heard, ClientEnd>
        ensures { Hears line.now self.old result self.new }
    {
        let gathered = self.gather.push(alloc, line)?;
        match down_heard(message_of(gathered))? {
            Some(down) => self.deliver(alloc, down),
            None => Ok(Heard {
                said: None,
                is_synced: false,
                shown: None,
            }),
        }
    }

    // Delivers a message, and acknowledges it if that is owed.
    fn deliver(&mut self, alloc: Global, down: Down) -> Result<Heard, ClientEnd>
        ensures delivers { Delivers down self.old result self.new }
        ensures held { self.new.gather ≡ self.old.gather }
    {
        let is_synced = matches!(&down, Down::Pong(count) if *count == self.pings);
        let Delivered { owed, shown } = self.site.deliver_shown(alloc, down)?;
        Ok(Heard {
            said: owed.map(Up::Ack).map(Said::Up),
            is_synced,
            shown,
        })
    }
}

// The message to a site, by what its lines give; none if they are held.
fn down_heard(heard: Result<Down, Gathered>) -> Result<Option<Down>, ClientEnd>
    ensures { result ≡ down_heard heard }
{
    match heard {
        Ok(down) => Ok(Some(down)),
        Err(Gathered::Held) => Ok(None),
        Err(Gathered::Plain(Line::Error(number))) => Err(ClientEnd::Fault(number)),
        Err(_) => Err(StreamFault::Misplaced.into()),
    }
}

// What a client does for an edit, by what its site made of it.
fn edit_answer(outcome: Result<Made, EditFault>) -> Result<Answer, ClientEnd>
    ensures { result ≡ edit_answer outcome }
{
    match outcome {
        Ok(made) => Ok(Answer {
            said: Some(Said::Up(made.up)),
            told: Told::Made(made.edit),
        }),
        Err(EditFault::NoMemory) => Err(ClientEnd::NoMemory),
        Err(fault) => Ok(Answer {
            said: None,
            told: Told::Refused(fault),
        }),
    }
}
