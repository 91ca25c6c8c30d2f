//! The half of a session that reads and takes.
ghost use Rattle.std.specs.Prelude.{◌≡◌, ◌∷◌, [], IfOk, IfErr, Some, None};
ghost use Rattle.jup_hub.specs.Passes.{view_of, IsPassOf};
ghost use Rattle.jup_rules.specs.Sessions.{rung_by};
ghost use Rattle.jup_stream.specs.Streams.{HandsOn, Stops};
ghost use Rattle.jup_session.specs.Sessions.{EndsAt, HasAnswered, HasTaken, HearsAll, IsShutFor, IsWithheld};

use super::costly::{enter, leave_turn};
use super::due::Due;
use super::link::SessionLink;
use super::watch::Taken;
use crate::{Gate, take_edit};
use jup_hub::{HubFault, Pass};
use jup_rules::{
    Awaits, EndNoted, Ending, Gatekeeper, Incoming, Next, OwedPong, Untaken, ring_after,
};
use jup_star::Up;
use jup_stream::{Source, Stop, StreamFault};
use jup_wire::Line;
use std::alloc::Global;
use std::io::Read;
use std::sync::Wait;
use std::time::Clock;

/// How the reading half ended.
#[derive(Clone, Copy)]
pub(crate) struct Heard {
    pub(crate) ending: Ending,
    /// Why the last message was not taken although the star was not asked; `None` if there was none such.
    pub(crate) untaken: Option<Untaken>,
}

impl From<Ending> for Heard {
    ghost use Rattle.std.specs.Prelude.{None};

    ghost from_gives = { λ ending made. (made.ending ≡ ending) × (made.untaken ≡ None) };

    fn from(ending: Ending) -> Heard {
        Heard {
            ending,
            untaken: None,
        }
    }
}

impl From<Untaken> for Heard {
    ghost use Rattle.std.specs.Prelude.{Some};
    ghost use Rattle.jup_rules.specs.Ends.{ended_untaken};

    ghost from_gives = { λ why made. (made.ending ≡ ended_untaken why) × (made.untaken ≡ Some why) };

    fn from(why: Untaken) -> Heard {
        Heard {
            ending: why.into(),
            untaken: Some(why),
        }
    }
}

/// Takes what the site sends, and answers how that ended, once the end is noted.
pub(crate) fn read_half<R: Wait + Clock, I: Read + Drop, G: Gate>(
    rt: &R,
    source: &mut Source<I>,
    link: &SessionLink<'_>,
    pass: &mut Pass,
    gate: &G,
) -> (Heard, EndNoted)
    requires { IsPassOf link.now.hub.now pass.old }
    ensures pass { IsPassOf link.now.hub.now pass.new }
    ensures hears { HearsAll link.now.site source.old (view_of pass.old) source.new (view_of pass.new) result.0.ending result.0.untaken }
    ensures shut { IsShutFor (G.is_shut gate.now) link.now.site result.0.untaken }
{
    let mut due = Due::new();
    let heard = hear_all(rt, source, link, pass, gate, &mut due);
    // Noted before anybody is woken: the other half then sees it.
    let over = link.end(rt);
    due.close(rt, link);
    (heard, over)
}

// Takes message after message, each once its last line is there and the site is not too far behind.
#[tactic(auto, using(crate::proofs::Calls::shut_for_none, crate::proofs::Calls::shut_for))]
fn hear_all<R: Wait + Clock, I: Read + Drop, G: Gate>(
    rt: &R,
    source: &mut Source<I>,
    link: &SessionLink<'_>,
    pass: &mut Pass,
    gate: &G,
    due: &mut Due,
) -> Heard
    requires { IsPassOf link.now.hub.now pass.old }
    ensures pass { IsPassOf link.now.hub.now pass.new }
    ensures hears { HearsAll link.now.site source.old (view_of pass.old) source.new (view_of pass.new) result.ending result.untaken }
    ensures shut { IsShutFor (G.is_shut gate.now) link.now.site result.untaken }
{
    let mut keeper = Gatekeeper::new();
    for _ in 0..u64::MAX {
        wake_before_read(rt, source, link, due);
        let line = match next_line(source, link.alloc, due) {
            Ok(line) => line,
            Err(stop) => return keeper.end(stop).into(),
        };
        let incoming = match keeper.hear(link.alloc, &line) {
            Next::Line => continue,
            Next::Take(incoming) => incoming,
            Next::End(ending) => return ending.into(),
        };
        let turn = match enter(rt, link, &incoming.up, due) {
            Ok(turn) => turn,
            Err(far) => return Untaken::FarBehind(far).into(),
        };
        match handle(rt, link, pass, gate, &incoming, due) {
            Ok(taken) => leave_turn(rt, link, taken, turn, due),
            Err(heard) => {
                turn.give_up();
                return heard;
            }
        }
    }
    Ending::from(StreamFault::ReadsSpent).into()
}

// Wakes those who are due if the next line has to be read.
fn wake_before_read<R: Wait, I: Read + Drop>(
    rt: &R,
    source: &Source<I>,
    link: &SessionLink<'_>,
    due: &mut Due,
)
    ensures { source.now.waiting ≡ [] → due.new.ring ≡ None }
{
    if !source.has_line() {
        due.ring(rt, link);
    }
}

// The next line. Nobody may be due if it has to be read.
fn next_line<I: Read + Drop>(
    source: &mut Source<I>,
    alloc: Global,
    _due: &Due,
) -> Result<Line, Stop>
    requires { source.old.waiting ≡ [] → _due.now.ring ≡ None }
    ensures line { IfOk result (λ line. HandsOn source.old (line ∷ []) source.new) }
    ensures stop { IfErr result (λ stop. Stops source.old stop source.new) }
{
    source.next_line(alloc)
}

// What comes of a message: that the star took it and whom it rings, or how the session ends.
#[tactic(auto, using(crate::proofs::Calls::shut_for_none, crate::proofs::Calls::shut_for))]
fn handle<'m, R: Wait, G: Gate>(
    rt: &R,
    link: &SessionLink<'_>,
    pass: &mut Pass,
    gate: &G,
    incoming: &'m Incoming,
    due: &mut Due,
) -> Result<Taken<'m>, Heard>
    requires { IsPassOf link.now.hub.now pass.old }
    ensures pass { IsPassOf link.now.hub.now pass.new }
    ensures taken { IfOk result (λ taken. HasTaken link.now.site incoming.now (view_of pass.old) (view_of pass.new)) }
    ensures up { IfOk result (λ taken. taken.up.now ≡ incoming.now.up) }
    ensures rings { IfOk result (λ taken. taken.ring ≡ rung_by incoming.now.up) }
    ensures ends { IfErr result (λ heard. EndsAt link.now.site incoming.now (view_of pass.old) (view_of pass.new) heard.ending heard.untaken) }
    ensures shut { IfErr result (λ heard. IsShutFor (G.is_shut gate.now) link.now.site heard.untaken) }
{
    match take(rt, link, pass, gate, incoming, due) {
        Ok(answer) => match ring_after(&incoming.up, answer) {
            Ok(ring) => Ok(Taken::new(&incoming.up, ring)),
            Err(ending) => Err(ending.into()),
        },
        Err(why) => Err(why.into()),
    }
}

// Has the hub take a message, once what it waits for has come. Refused if that does not come.
fn take<R: Wait, G: Gate>(
    rt: &R,
    link: &SessionLink<'_>,
    pass: &mut Pass,
    gate: &G,
    incoming: &Incoming,
    due: &mut Due,
) -> Result<Result<Option<u32>, HubFault>, Untaken>
    requires { IsPassOf link.now.hub.now pass.old }
    ensures pass { IsPassOf link.now.hub.now pass.new }
    ensures called { IfOk result (λ answer. HasAnswered link.now.site incoming.now.up (view_of pass.old) (view_of pass.new) (Some answer)) }
    ensures withheld { IfErr result (λ why. IsWithheld incoming.now why × (view_of pass.new ≡ view_of pass.old)) }
    ensures shut { IfErr result (λ why. IsShutFor (G.is_shut gate.now) link.now.site (Some why)) }
{
    let up = &incoming.up;
    match incoming.awaits {
        Awaits::Gate(nth) => take_edit(
            rt,
            link.alloc,
            link.hub,
            pass,
            gate,
            link.site,
            nth,
            up,
            || due.ring(rt, link),
        )
        .ok_or(Untaken::GateShut(nth)),
        Awaits::Pongs => match take_ping(rt, link, due) {
            Ok(owed) => Ok(take_owed(rt, link, pass, up, owed)),
            Err(_) => Err(Untaken::Over),
        },
        Awaits::Nothing => Ok(link.hub.take(rt, link.alloc, pass, link.site, up)),
    }
}

// Has the hub take a ping whose pong is counted as owed.
fn take_owed<R: Wait>(
    rt: &R,
    link: &SessionLink<'_>,
    pass: &mut Pass,
    ping: &Up,
    _owed: OwedPong,
) -> Result<Option<u32>, HubFault>
    requires { IsPassOf link.now.hub.now pass.old }
    ensures pass { IsPassOf link.now.hub.now pass.new }
    ensures answered { HasAnswered link.now.site ping.now (view_of pass.old) (view_of pass.new) (Some result) }
{
    link.hub.take(rt, link.alloc, pass, link.site, ping)
}

// Counts a ping that is to be taken. If too many pongs are owed, it first wakes those that are due, among them the half that writes the pongs.
fn take_ping<R: Wait>(rt: &R, link: &SessionLink<'_>, due: &mut Due) -> Result<OwedPong, EndNoted> {
    if let Some(owed) = link.try_ping(rt) {
        return Ok(owed);
    }
    due.ring(rt, link);
    link.take_ping(rt, due)
}
