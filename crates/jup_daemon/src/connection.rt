//! One connection: a session of protocol 3, a new link, or a carrier of a link.
ghost use Rattle.std.specs.Prelude.{◌≡◌};
ghost use Rattle.jup_hub.specs.Passes.{IsPassOf};

use crate::doorway::Doorway;
use crate::late::Late;
use crate::{Admission, DaemonEnd, Turn};
use jup_carrier::{
    Carrier, First, Found, Greeted, Link, LinkReader, LinkWriter, Links, Patience, Resumption,
    Tokens, carry, greet,
};
use jup_faults::Fault;
use jup_hub::{Hub, Pass};
use jup_net::hang_up;
use jup_resume::{FirstLine, Token};
use jup_session::{Bell, Open, Outgoing, Serving};
use std::alloc::Global;
use std::io::{Read, Write};
use std::net::TcpStream;
use std::sync::{Arc, Wait};
use std::thread;
use std::thread::Threads;
use std::time::{Clock, Duration};

/// For how many seconds a read of a carrier waits.
const LOOK: u64 = 1;

/// What a daemon has for each of its connections.
#[derive(Drop)]
pub(crate) struct Server<'a> {
    pub(crate) alloc: Global,
    pub(crate) hub: &'a Hub,
    pub(crate) bell: &'a Bell,
    pub(crate) links: &'a Links,
    pub(crate) doorway: &'a Doorway,
    pub(crate) late: &'a Late,
}

/// How a connection was accepted.
#[derive(Clone, Copy)]
pub(crate) enum Entry {
    Counted,
    /// It may only carry a link on. It waits under this number until it has said that.
    Late(u64),
}

impl<'a> Server<'a> {
    /// Keeps a connection that came late, until it has said what it is. `None` if it can't be kept.
    pub(crate) fn enter<R: Wait + Clock>(
        &self,
        rt: &R,
        stream: &TcpStream,
        admission: Admission,
    ) -> Option<Entry> {
        match admission {
            Admission::Counted => Some(Entry::Counted),
            Admission::Late => Some(Entry::Late(self.late.enter(rt, stream)?)),
        }
    }

    /// There is no thread for a connection. The daemon ends if that one was counted.
    pub(crate) fn abandon<R: Wait>(&self, rt: &R, entry: Entry) -> Result<(), DaemonEnd> {
        match entry {
            Entry::Counted => Err(DaemonEnd::NoMemory),
            Entry::Late(number) => {
                self.late.leave(rt, number);
                Ok(())
            }
        }
    }

    /// Nobody listens any more: a connection that waits to be accepted is refused, and one that came late is closed. None of them waits for what never comes.
    pub(crate) fn stop_listening<R: Wait>(&self, rt: &R) {
        self.doorway.shut();
        self.late.close(rt);
    }

    /// Serves a connection to its end.
    pub(crate) fn serve<R: Threads + Wait + Clock + Sync, T: Tokens>(
        &self,
        rt: &R,
        tokens: &T,
        stream: &TcpStream,
        entry: Entry,
        pass: Pass,
    )
        requires { IsPassOf self.now.hub.now pass }
    {
        let _ = stream.set_nodelay(true);
        match entry {
            Entry::Counted if !tokens.gives() => {
                self.learn(rt, Turn::Session);
                self.serve_session(rt, stream, &[], pass);
            }
            Entry::Counted => {
                let greeted = greet(rt, self.links.uptime(), stream, Patience::Protocol);
                self.serve_counted(rt, tokens, stream, &greeted, pass);
            }
            Entry::Late(number) => {
                let greeted = greet(rt, self.links.uptime(), stream, Patience::Short);
                self.late.leave(rt, number);
                self.serve_late(rt, stream, &greeted);
            }
        }
        self.doorway.look(rt, self.links);
    }

    // A connection that came after the last session.
    fn serve_late<R: Threads + Wait + Clock + Sync>(
        &self,
        rt: &R,
        stream: &TcpStream,
        greeted: &Greeted,
    ) {
        match greeted.first {
            First::Line(FirstLine::Resumes { token, taken }) => {
                self.resume(rt, stream, greeted, &token, taken);
            }
            First::Session | First::Early | First::Nothing | First::Line(_) => {}
        }
    }

    fn serve_counted<R: Threads + Wait + Clock + Sync, T: Tokens>(
        &self,
        rt: &R,
        tokens: &T,
        stream: &TcpStream,
        greeted: &Greeted,
        pass: Pass,
    )
        requires { IsPassOf self.now.hub.now pass }
    {
        match greeted.first {
            First::Session | First::Line(FirstLine::Session) => {
                self.learn(rt, Turn::Session);
                self.serve_session(rt, stream, greeted.rest(), pass);
            }
            First::Early => {
                self.learn(rt, Turn::Nothing);
                self.serve_session(rt, stream, greeted.rest(), pass);
            }
            First::Nothing => self.learn(rt, Turn::Nothing),
            First::Line(FirstLine::Opens) => self.open(rt, tokens, stream, greeted, pass),
            First::Line(FirstLine::Resumes { token, taken }) => {
                self.learn(rt, Turn::Resume);
                self.resume(rt, stream, greeted, &token, taken);
            }
            First::Line(FirstLine::OtherVersion) => {
                self.learn(rt, Turn::Session);
                refuse(rt, stream, Fault::BadVersion);
            }
            First::Line(FirstLine::Misspelled) => {
                let turn = if greeted.is_of_resume() {
                    Turn::Resume
                } else {
                    Turn::Session
                };
                self.learn(rt, turn);
                refuse(rt, stream, Fault::BadLine);
            }
        }
    }

    fn learn<R: Wait + Clock>(&self, rt: &R, turn: Turn) {
        self.doorway.learn(rt, turn);
        self.doorway.look(rt, self.links);
    }

    // A session of protocol 3.
    fn serve_session<R: Threads + Wait + Clock + Sync>(
        &self,
        rt: &R,
        stream: &TcpStream,
        first: &[u8],
        pass: Pass,
    )
        requires { IsPassOf self.now.hub.now pass }
    {
        let _ = stream.set_read_timeout(None);
        let from = first.chain(stream);
        let to = Outgoing::new(stream, Outgoing::PATIENCE);
        self.links.take_seat(rt);
        let _ = self.serving().serve(rt, from, to, pass);
        self.links.leave_seat(rt);
        hang_up(rt, stream);
    }

    fn serving(&self) -> Serving<'a, Open>
        ensures { result.hub.now ≡ self.now.hub.now }
    {
        Serving {
            alloc: self.alloc,
            hub: self.hub,
            bell: self.bell,
            gate: &Open,
        }
    }

    // A new link, which this connection carries first. Its session runs in this thread.
    fn open<R: Threads + Wait + Clock + Sync, T: Tokens>(
        &self,
        rt: &R,
        tokens: &T,
        stream: &TcpStream,
        greeted: &Greeted,
        pass: Pass,
    )
        requires { IsPassOf self.now.hub.now pass }
    {
        let Some(link) = self.new_link(rt, tokens) else {
            self.learn(rt, Turn::Session);
            refuse(rt, stream, Fault::NoMemory);
            return;
        };
        self.learn(rt, Turn::Link);
        self.serve_link(rt, stream, greeted, &*link, pass);
    }

    fn new_link<R: Wait, T: Tokens>(&self, rt: &R, tokens: &T) -> Option<Arc<Link, Global>> {
        let token = tokens.draw()?;
        self.links.open(rt, token).ok()
    }

    fn serve_link<R: Threads + Wait + Clock + Sync>(
        &self,
        rt: &R,
        stream: &TcpStream,
        greeted: &Greeted,
        link: &Link,
        pass: Pass,
    )
        requires { IsPassOf self.now.hub.now pass }
    {
        thread::scope(
            thread::scope_env(),
            rt,
            |scope|
                requires { IsPassOf self.now.hub.now pass }
            {
                let child = scope.spawn(move || self.carry(rt, stream, greeted, link, 1));
                if child.is_ok() {
                    self.links.take_seat(rt);
                    let reader = LinkReader::new(rt, link);
                    let writer = LinkWriter::new(rt, link);
                    let _ = self.serving().serve(rt, reader, writer, pass);
                    self.links.leave_seat(rt);
                } else {
                    refuse(rt, stream, Fault::NoMemory);
                }
                link.close(rt, self.links.uptime().millis(rt));
                self.doorway.look(rt, self.links);
            },
        );
    }

    // Carries a link on.
    fn resume<R: Threads + Wait + Clock + Sync>(
        &self,
        rt: &R,
        stream: &TcpStream,
        greeted: &Greeted,
        token: &Token,
        taken: u32,
    ) {
        let link = match self.links.find(rt, token) {
            Found::Link(link) => link,
            Found::Count(count) => return end(rt, stream, count),
            Found::Nothing => return refuse(rt, stream, Fault::NoSuchLink),
        };
        match link.resume(rt, taken, self.links.uptime().millis(rt)) {
            Resumption::GoesOn { carrier } => self.carry(rt, stream, greeted, &*link, carrier),
            Resumption::BadTaken => refuse(rt, stream, Fault::BadTaken),
            Resumption::Ended { taken } => end(rt, stream, taken),
        }
    }

    // Carries a link over a connection until that ends.
    fn carry<R: Threads + Wait + Clock + Sync>(
        &self,
        rt: &R,
        stream: &TcpStream,
        greeted: &Greeted,
        link: &Link,
        number: u64,
    ) {
        let _ = stream.set_read_timeout(Some(Duration::from_secs(LOOK)));
        let carrier = Carrier {
            link,
            number,
            uptime: self.links.uptime(),
        };
        let to = Outgoing::new(stream, Outgoing::PATIENCE);
        carry(rt, self.alloc, carrier, stream, greeted.rest(), stream, to);
        hang_up(rt, stream);
        self.doorway.look(rt, self.links);
    }
}

// Answers a first line by a fault, and nothing else.
fn refuse<R: Clock>(rt: &R, stream: &TcpStream, fault: Fault) {
    let number = fault.number();
    let mut to = Outgoing::new(stream, Outgoing::PATIENCE);
    let _ = writeln!(to, "error {number}");
    hang_up(rt, stream);
}

// Answers a `resume` of a link of which only the count is left.
fn end<R: Clock>(rt: &R, stream: &TcpStream, taken: u32) {
    let mut to = Outgoing::new(stream, Outgoing::PATIENCE);
    let _ = writeln!(to, "ended {taken}");
    hang_up(rt, stream);
}
