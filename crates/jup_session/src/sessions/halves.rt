//! Both halves of a session, each in its thread.
ghost use Rattle.std.specs.Prelude.{◌≡◌};
ghost use Rattle.jup_hub.specs.Passes.{view_of, IsPassOf};
ghost use Rattle.jup_stream.specs.Streams.{IsFlushed};
ghost use Rattle.jup_session.specs.Sessions.{Wrote as HasWritten, Heard as HasHeard, IsShutFor, HasMadeNone, HasServed};

use super::link::SessionLink;
use super::reading::{Heard, read_half};
use super::writing::{Wrote, write_half};
use crate::Gate;
use jup_hub::Pass;
use jup_io::Peer;
use jup_rules::{EndNoted, Ending};
use jup_stream::{Output, Source, StreamFault};
use std::io::Read;
use std::snapshot::Snapshot;
use std::sync::Wait;
use std::thread;
use std::thread::{Promise, Threads};
use std::time::Clock;

/// What both halves give back.
#[derive(Drop)]
pub(crate) struct Halves<I: Read + Drop, O: Peer + Drop> {
    pub(crate) source: Source<I>,
    pub(crate) pass: Pass,
    pub(crate) heard: Heard,
    /// That the end of the reading half is noted, so that the other one does not wait for it.
    pub(crate) over: EndNoted,
    pub(crate) wrote: Wrote<O>,
}

// What the thread of the writing half promises.
#[derive(Drop)]
struct Writing<'a, O: Peer + Drop> {
    link: &'a SessionLink<'a>,
    output: Snapshot<Output<O>>,
    pass: Snapshot<Pass>,
}

impl<'a, O: Peer + Drop> Promise<Wrote<O>> for Writing<'a, O> {
    ghost use Rattle.jup_hub.specs.Passes.{view_of, IsPassOf};
    ghost use Rattle.jup_stream.specs.Streams.{IsFlushed};
    ghost use Rattle.jup_session.specs.Sessions.{Wrote as HasWritten, HasServed};

    ghost kept_by = { λ p r. IsPassOf p.link.now.hub.now r.pass × HasServed p.link.now.site (view_of r.pass)
        × HasWritten p.link.now.site (view_of p.pass.value) p.output.value (view_of r.pass) r.output r.told r.unsent × IsFlushed r.output };
}

/// The reading half runs here, the writing half in a thread of its own. Where that can't be started nothing is read, and the writing
/// half runs here: it finds that the other has ended.
pub(crate) fn both_halves<
    R: Threads + Wait + Clock + Sync,
    I: Read + Drop,
    O: Peer + Send + Drop,
    G: Gate,
>(
    rt: &R,
    mut source: Source<I>,
    output: Output<O>,
    link: &SessionLink<'_>,
    mut pass: Pass,
    theirs: Pass,
    gate: &G,
) -> Halves<I, O>
    requires one { IsPassOf link.now.hub.now pass }
    requires two { IsPassOf link.now.hub.now theirs }
    requires new { HasMadeNone (view_of theirs) }
    requires flushed { IsFlushed output }
    ensures one { IsPassOf link.now.hub.now result.pass }
    ensures two { IsPassOf link.now.hub.now result.wrote.pass }
    ensures served { HasServed link.now.site (view_of result.wrote.pass) }
    ensures hears { HasHeard link.now.site source (view_of pass) result.source (view_of result.pass) result.heard.ending result.heard.untaken }
    ensures shut { IsShutFor (G.is_shut gate.now) link.now.site result.heard.untaken }
    ensures wrote { HasWritten link.now.site (view_of theirs) output (view_of result.wrote.pass) result.wrote.output result.wrote.told result.wrote.unsent }
    ensures flushed { IsFlushed result.wrote.output }
{
    thread::scope(
        thread::scope_env(),
        rt,
        |scope| -> Halves<I, O>
            requires { IsPassOf link.now.hub.now pass × IsPassOf link.now.hub.now theirs × HasMadeNone (view_of theirs) × IsFlushed output }
            ensures { IsPassOf link.entry.now.hub.now result.pass × IsPassOf link.entry.now.hub.now result.wrote.pass
                × HasServed link.entry.now.site (view_of result.wrote.pass)
                × HasHeard link.entry.now.site source (view_of pass) result.source (view_of result.pass) result.heard.ending result.heard.untaken
                × IsShutFor (G.is_shut gate.entry.now) link.entry.now.site result.heard.untaken
                × HasWritten link.entry.now.site (view_of theirs) output (view_of result.wrote.pass) result.wrote.output result.wrote.told result.wrote.unsent
                × IsFlushed result.wrote.output }
        {
            let promise = Writing {
                link,
                output: Snapshot::of(&output),
                pass: Snapshot::of(&theirs),
            };
            let child = scope.spawn_with(
                promise,
                move || -> Wrote<O>
                    requires { IsPassOf link.now.hub.now theirs × HasMadeNone (view_of theirs) × IsFlushed output }
                    ensures { IsPassOf link.entry.now.hub.now result.pass × HasServed link.entry.now.site (view_of result.pass)
                        × HasWritten link.entry.now.site (view_of theirs) output (view_of result.pass) result.output result.told result.unsent × IsFlushed result.output }
                { write_half(rt, output, link, theirs) },
            );
            match child {
                Ok(child) => {
                    let (heard, over) = read_half(rt, &mut source, link, &mut pass, gate);
                    let wrote = child.join(rt);
                    Halves {
                        source,
                        pass,
                        heard,
                        over,
                        wrote,
                    }
                }
                Err(refused) => {
                    let over = link.end(rt);
                    let wrote = (refused.value)();
                    let heard = Ending::from(StreamFault::NoMemory).into();
                    Halves {
                        source,
                        pass,
                        heard,
                        over,
                        wrote,
                    }
                }
            }
        },
    )
}
