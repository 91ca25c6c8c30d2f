//! One session, from its first line to its last.
ghost use Rattle.std.specs.Prelude.{◌≡◌, ℕ, not, List, IsFalse, IsTrue};
ghost use Rattle.jup_hub.specs.Passes.{view_of, IsPassOf};
ghost use Rattle.jup_wire.specs.declared.line.Line.{Line};
ghost use Rattle.jup_wire.specs.declared.line.Line.TheVariants.{Error};
ghost use Rattle.jup_wire.specs.Lines.{line_bytes};
ghost use Rattle.jup_stream.specs.Streams.{PutsLines, IsFlushed, WritesFront};
ghost use Rattle.jup_session.specs.ExactSessions.{BothHalves, HasLines, IsExact};
ghost use Rattle.jup_session.specs.Sessions.{BothServe, IsSession, IsShutFor};

use super::ending::tell_untold;
use super::greeting::begin;
use super::halves::both_halves;
use super::link::SessionLink;
use super::watch::Watch;
use super::watched::Watched;
use super::{Bell, Undone};
use crate::Gate;
use jup_hub::{Hub, Pass};
use jup_io::{Lasting, Peer};
use jup_rules::{EndMark, Ending, Pongs};
use jup_stream::{Output, Source, StreamFault, pass_bytes, write_bytes};
use std::alloc::Global;
use std::io::{Read, Write};
use std::sync::{Mutex, Wait};
use std::thread::Threads;
use std::time::Clock;

/// What a server has for each of its sessions.
#[derive(Drop)]
pub struct Serving<'a, G: Gate> {
    /// Where a session takes its memory from.
    pub alloc: Global,
    /// The hub whose star the site of a session joins.
    pub hub: &'a Hub,
    /// Where sites wait for news.
    pub bell: &'a Bell,
    /// Asked before an edit of a site is taken.
    pub gate: &'a G,
}

/// What a session gives back.
#[derive(Drop)]
pub struct Session<O: Write + Drop> {
    pub pass: Pass,
    pub ending: Ending,
    pub writer: O,
    /// Whether a write has failed. The writer lacks the lines from there on.
    pub has_failed: bool,
    pub undone: Undone,
}

impl<'a, G: Gate> Serving<'a, G> {
    /// Runs a session: greets the site, then takes what it sends, and sends what the hub has for it. If a write takes less than all while the site is
    /// too far behind, the session gives the writer up.
    ///
    /// It reads in this thread, and writes in one of its own. It makes at most one join of the hub, and then calls for the site that
    /// joined alone, which has left when this returns. If contracts can name the bytes of the reader and of the writer, they say which bytes
    /// the session read, what it took by them, and which it wrote.
    pub fn serve<R: Threads + Wait + Clock + Sync, I: Read + Drop, O: Peer + Send + Drop>(
        &self,
        rt: &R,
        reader: I,
        writer: O,
        pass: Pass,
    ) -> Session<O>
        requires { IsPassOf self.now.hub.now pass }
        ensures pass { IsPassOf self.now.hub.now result.pass }
        ensures session { IsSession (view_of pass) (view_of result.pass) }
        ensures exact { IsExact (I.remaining reader) (O.contents writer) (O.contents result.writer) (view_of pass) (view_of result.pass) result.ending result.has_failed result.undone }
        ensures shut { (site : ℕ) × IsShutFor (G.is_shut self.now.gate.now) site result.undone.untaken }
        ensures failed { IsTrue result.has_failed → IsTrue (O.has_failed result.writer) }
        ensures well { IsFalse result.has_failed → IsTrue (O.is_well writer) → IsTrue (O.is_well result.writer) }
    {
        let watch = Watch::new(self.alloc, self.bell);
        match Output::new(self.alloc, Watched::new(rt, &watch, writer)) {
            Ok(output) => {
                let served = serve_lines(rt, self, &watch, reader, output, pass);
                let has_failed = served.output.has_failed();
                Session {
                    pass: served.pass,
                    ending: served.ending,
                    writer: served.output.into_peer().into_inner(),
                    has_failed,
                    undone: served.undone,
                }
            }
            Err(watched) => {
                let mut writer = watched.into_inner();
                let has_failed = tell_of_memory(&mut writer);
                Session {
                    pass,
                    ending: StreamFault::NoMemory.into(),
                    writer,
                    has_failed,
                    undone: Undone::NOTHING,
                }
            }
        }
    }
}

/// Runs a session as [`Serving::serve`] does, over any writer. Its peer is never given up.
pub fn serve_link<
    R: Threads + Wait + Clock + Sync,
    I: Read + Drop,
    O: Write + Send + Drop,
    G: Gate,
>(
    rt: &R,
    alloc: Global,
    reader: I,
    writer: O,
    hub: &Hub,
    pass: Pass,
    bell: &Bell,
    gate: &G,
) -> (Pass, Ending)
    requires { IsPassOf hub.now pass }
    ensures pass { IsPassOf hub.now result.0 }
    ensures session { IsSession (view_of pass) (view_of result.0) }
{
    let session = serve_session(rt, alloc, reader, writer, hub, pass, bell, gate);
    (session.pass, session.ending)
}

/// The same, and gives back the writer.
pub fn serve_session<
    R: Threads + Wait + Clock + Sync,
    I: Read + Drop,
    O: Write + Send + Drop,
    G: Gate,
>(
    rt: &R,
    alloc: Global,
    reader: I,
    writer: O,
    hub: &Hub,
    pass: Pass,
    bell: &Bell,
    gate: &G,
) -> Session<O>
    requires { IsPassOf hub.now pass }
    ensures pass { IsPassOf hub.now result.pass }
    ensures session { IsSession (view_of pass) (view_of result.pass) }
    ensures exact { IsExact (I.remaining reader) (O.contents writer) (O.contents result.writer) (view_of pass) (view_of result.pass) result.ending result.has_failed result.undone }
    ensures shut { (site : ℕ) × IsShutFor (G.is_shut gate.now) site result.undone.untaken }
{
    let serving = Serving {
        alloc,
        hub,
        bell,
        gate,
    };
    let Session {
        pass,
        ending,
        writer,
        has_failed,
        undone,
    } = serving.serve(rt, reader, Lasting(writer), pass);
    Session {
        pass,
        ending,
        writer: writer.0,
        has_failed,
        undone,
    }
}

// Writes the line that reports that the session is out of memory, without an allocation. True if that failed.
fn tell_of_memory<O: Peer + Drop>(writer: &mut O) -> bool
    ensures front { WritesFront (O.contents writer.old) (O.contents writer.new) (line_bytes (Error 8)) (not result) }
    ensures failed { IsTrue result → IsTrue (O.has_failed writer.new) }
    ensures well { IsFalse result → IsTrue (O.is_well writer.old) → IsTrue (O.is_well writer.new) }
{
    if !write_bytes(writer, b"error 8\n") {
        return true;
    }
    !pass_bytes(writer)
}

// What is left of a session after its last line.
#[derive(Drop)]
struct Served<O: Peer + Drop> {
    pass: Pass,
    ending: Ending,
    output: Output<O>,
    undone: Undone,
}

// A session that has room for its lines.
fn serve_lines<R: Threads + Wait + Clock + Sync, I: Read + Drop, O: Peer + Send + Drop, G: Gate>(
    rt: &R,
    serving: &Serving<'_, G>,
    watch: &Watch<'_>,
    reader: I,
    mut output: Output<O>,
    mut pass: Pass,
) -> Served<O>
    requires pass { IsPassOf serving.now.hub.now pass }
    ensures pass { IsPassOf serving.now.hub.now result.pass }
    ensures session { IsSession (view_of pass) (view_of result.pass) }
    ensures lines { (lines : List Line) × HasLines (I.remaining reader) (view_of pass) (view_of result.pass) result.ending result.output.failed result.undone lines
        × PutsLines output lines result.output }
    ensures shut { (site : ℕ) × IsShutFor (G.is_shut serving.now.gate.now) site result.undone.untaken }
    ensures flushed { IsFlushed result.output }
{
    let mut source = Source::new(reader);
    match begin(rt, serving, watch, &mut source, &mut output, &mut pass) {
        Ok(site) => {
            let link = SessionLink {
                alloc: serving.alloc,
                hub: serving.hub,
                bell: serving.bell,
                watch,
                end_mark: EndMark::new(),
                pongs: Mutex::new(Pongs::new()),
                site,
            };
            serve_halves(rt, &link, source, output, pass, serving.gate)
        }
        Err(ending) => Served {
            pass,
            ending,
            output,
            undone: Undone::NOTHING,
        },
    }
}

// Both halves, and the last line.
fn serve_halves<R: Threads + Wait + Clock + Sync, I: Read + Drop, O: Peer + Send + Drop, G: Gate>(
    rt: &R,
    link: &SessionLink<'_>,
    source: Source<I>,
    output: Output<O>,
    mut pass: Pass,
    gate: &G,
) -> Served<O>
    requires pass { IsPassOf link.now.hub.now pass }
    requires flushed { IsFlushed output }
    ensures pass { IsPassOf link.now.hub.now result.pass }
    ensures served { BothServe link.now.site (view_of pass) (view_of result.pass) }
    ensures halves { (lines : List Line) × BothHalves link.now.site source (view_of pass) (view_of result.pass) result.ending result.output.failed result.undone lines × PutsLines output lines result.output }
    ensures shut { IsShutFor (G.is_shut gate.now) link.now.site result.undone.untaken }
    ensures flushed { IsFlushed result.output }
{
    let theirs = link.hub.split(&mut pass);
    let halves = both_halves(rt, source, output, link, pass, theirs, gate);
    let mut pass = halves.pass;
    let heard = halves.heard;
    let wrote = halves.wrote;
    link.hub.rejoin(&mut pass, wrote.pass);
    let mut output = wrote.output;
    let ending = tell_untold(&mut output, wrote.told, heard.ending);
    Served {
        pass,
        ending,
        output,
        undone: Undone {
            untaken: heard.untaken,
            unsent: wrote.unsent,
        },
    }
}
