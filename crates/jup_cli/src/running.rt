//! A client, run over any reader and writer.
ghost use Rattle.std.specs.Io.KnownBytes.{Appends};
ghost use Rattle.std.specs.Prelude.{◌≡◌, [], IfErr, IfOk, IsFalse, IsNone, IsOk, IsSome, OnOk};
ghost use Rattle.jup_stream.specs.Streams.{PutsLines};
ghost use Rattle.jup_cli.specs.Running.{Does, HearsNext, Syncs, said_lines};

use crate::After;
use crate::commands::Requests;
use jup_client::{Answer, ClientEnd, ClientState, Opening, Request, Told, told_text};
use jup_io::{Lasting, Peer};
use jup_stream::{Output, Said, Source, StreamFault, put_said};
use jup_window::Within;
use jup_wire::Line;
use std::alloc::Global;
use std::io::{Read, Write};
use std::marker::PhantomData;

/// A client, and its link.
#[derive(Drop)]
struct Client<F: Read + Drop, T: Write + Drop> {
    source: Source<F>,
    output: Output<Lasting<T>>,
    state: ClientState,
}

impl<F: Read + Drop, T: Write + Drop> Client<F, T> {
    // The client of a link, whose server it has greeted.
    fn open(alloc: Global, from: F, to: T) -> Result<Client<F, T>, ClientEnd> {
        let Ok(mut output) = Output::new(alloc, Lasting(to)) else {
            return Err(ClientEnd::NoMemory);
        };
        let mut source = Source::new(from);
        let state = greet(alloc, &mut source, &mut output)?;
        Ok(Client {
            source,
            output,
            state,
        })
    }

    // Shows the site to the user, and then does what the commands ask for, until `quit` or their end.
    fn run<C: Read + Drop, O: Write>(
        &mut self,
        alloc: Global,
        requests: &mut Requests<C>,
        out: &mut O,
    ) -> Result<(), ClientEnd> {
        self.tell_site(alloc, out)?;
        for _ in 0..u64::MAX {
            let request = requests.next_request(alloc, &mut self.source)?;
            let text = self.answer(alloc, &request)?;
            let after = After::request(&request);
            if after == After::Pong {
                self.sync(alloc)?;
            }
            print(out, text.as_slice())?;
            if after == After::Nothing {
                return Ok(());
            }
        }
        Err(StreamFault::ReadsSpent.into())
    }

    // Shows the user the number of the site, and the board.
    fn tell_site<O: Write>(&self, alloc: Global, out: &mut O) -> Result<(), ClientEnd> {
        let site = &self.state.site;
        let text = told_text(alloc, &Told::Site(site.number()), site.board())?;
        print(out, text.as_slice())
    }

    // Does what a request asks for, and answers the text that this prints for the user.
    fn answer(&mut self, alloc: Global, request: &Request) -> Result<Vec<u8>, ClientEnd>
        ensures { IfOk result (λ text. Does request.now self.old.state self.old.output text.items self.new.state self.new.output) }
    {
        let Answer { said, told } = self.state.answer(alloc, request)?;
        let text = told_text(alloc, &told, self.state.site.board())?;
        say(&mut self.output, said)?;
        Ok(text)
    }

    // Hears all that the server sent before it answers a ping.
    fn sync(&mut self, alloc: Global) -> Result<(), ClientEnd>
        ensures { OnOk result (Syncs self.old.source self.old.state self.old.output self.new.source self.new.state self.new.output) }
    {
        for _ in 0..u64::MAX {
            if self.hear_next(alloc)? {
                return Ok(());
            }
        }
        Err(StreamFault::ReadsSpent.into())
    }

    // Hears the next line of the server, and says what it owes for that. Whether the line answers its ping.
    fn hear_next(&mut self, alloc: Global) -> Result<bool, ClientEnd>
        ensures { IfOk result (λ synced. HearsNext self.old.source self.old.state self.old.output synced self.new.source self.new.state self.new.output) }
    {
        let line = self.source.next_line(alloc)?;
        let heard = self.state.hear(alloc, &line)?;
        let is_synced = heard.is_synced;
        say(&mut self.output, heard.said)?;
        Ok(is_synced)
    }
}

// Says this to the server, if anything.
#[tactic(auto, using(jup_stream::specs::Streams::puts_sent, jup_stream::specs::Streams::puts_none))]
fn say<O: Peer + Drop>(output: &mut Output<O>, said: Option<Said>) -> Result<(), ClientEnd>
    ensures lines { PutsLines output.old (said_lines said) output.new }
    ensures sent { IsSome said → IsOk result → IsFalse output.new.failed × (output.new.held ≡ []) }
    ensures same { IsNone said → output.new ≡ output.old }
    ensures failed { IfErr result (λ end. end ≡ ClientEnd.WriteFailed) }
{
    let Some(said) = said else {
        return Ok(());
    };
    match put_said(output, &said) {
        Ok(()) => {}
        Err(never) => match never {},
    }
    output.send()?;
    Ok(())
}

/// Greets a server, and then does what the commands ask for, a line each, until `quit` or their end.
pub fn run_client<C: Read + Drop, O: Write, F: Read + Drop, T: Write + Drop>(
    alloc: Global,
    commands: C,
    out: &mut O,
    from: F,
    to: T,
) -> Result<(), ClientEnd> {
    let mut client = Client::open(alloc, from, to)?;
    let mut requests = Requests::new(alloc, commands);
    client.run(alloc, &mut requests, out)
}

// Greets the server, and hears its welcome.
fn greet<F: Read + Drop, T: Write + Drop>(
    alloc: Global,
    source: &mut Source<F>,
    output: &mut Output<Lasting<T>>,
) -> Result<ClientState, ClientEnd> {
    let _of: Within = PhantomData;
    output.push(&Line::Hello);
    output.send()?;
    let mut opening = Opening::greeted(alloc, &source.next_line(alloc)?)?;
    for _ in 0..u64::MAX {
        if let Some(state) = opening.hear(alloc, &source.next_line(alloc)?)? {
            return Ok(state);
        }
    }
    Err(StreamFault::ReadsSpent.into())
}

fn print<O: Write>(out: &mut O, text: &[u8]) -> Result<(), ClientEnd>
    ensures printed { OnOk result (Appends (O.contents out.old) (O.contents out.new) text.now) }
    ensures failed { IfErr result (λ end. end ≡ ClientEnd.WriteFailed) }
{
    out.write_all(text).map_err(|_| ClientEnd::WriteFailed)?;
    out.flush().map_err(|_| ClientEnd::WriteFailed)
}
