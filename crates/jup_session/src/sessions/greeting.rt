//! The greeting of a session: up to the line `ready`.
ghost use Rattle.std.specs.Prelude.{◌≡◌, ◌∷◌, [], OnOk, OnErr, IfOk, IfErr, IsErr, IsTrue, List};
ghost use Rattle.jup_hub.specs.declared.view.View.{View};
ghost use Rattle.jup_hub.specs.Passes.{view_of, IsPassOf};
ghost use Rattle.jup_wire.specs.declared.line.Line.{Line};
ghost use Rattle.jup_wire.specs.declared.line.Line.TheVariants.{Hello};
ghost use Rattle.jup_stream.specs.Streams.{PutsLines, IsFlushed, HandsOn};
ghost use Rattle.jup_session.specs.ExactSessions.{EndsEarly, Enters, IsTurnedAway, IsWelcomed};
ghost use Rattle.jup_session.specs.Sessions.{welcome_lines, Joins, IsSession};

use super::ending::tell;
use super::leaving::leave;
use super::watch::Watch;
use crate::{Gate, Serving};
use jup_hub::{Hub, Pass};
use jup_io::Peer;
use jup_layout::put_board;
use jup_rules::{Ending, SessionFault, check_greeting};
use jup_star::Joined;
use jup_stream::{Output, Source, StreamFault};
use jup_wire::Line;
use std::alloc::Global;
use std::io::Read;
use std::sync::Wait;

/// Greets the site, and answers its number. If no session begins, the site was sent the reason.
pub(crate) fn begin<R: Wait, I: Read + Drop, O: Peer + Drop, G: Gate>(
    rt: &R,
    serving: &Serving<'_, G>,
    watch: &Watch<'_>,
    source: &mut Source<I>,
    output: &mut Output<O>,
    pass: &mut Pass,
) -> Result<u32, Ending>
    requires { IsPassOf serving.now.hub.now pass.old }
    ensures pass { IsPassOf serving.now.hub.now pass.new }
    ensures joined { IfOk result (λ site. Joins site (view_of pass.old) (view_of pass.new)) }
    ensures over { OnErr result (IsSession (view_of pass.old) (view_of pass.new)) }
    ensures welcomed { IfOk result (λ site. (lines : List Line) × IsWelcomed site source.old (view_of pass.old) source.new (view_of pass.new) lines
        × PutsLines output.old lines output.new) }
    ensures early { IfErr result (λ ending. (lines : List Line) × EndsEarly source.old (view_of pass.old) source.new (view_of pass.new) ending output.new.failed lines
        × PutsLines output.old lines output.new) }
    ensures flushed { IsFlushed output.new }
{
    let joined = match greet(rt, serving.alloc, source, serving.hub, pass) {
        Ok(joined) => joined,
        Err(ending) => {
            tell(output, ending);
            return Err(ending);
        }
    };
    watch.join(rt);
    if let Err(fault) = welcome(output, &joined) {
        leave(rt, serving.alloc, serving.hub, pass, joined.site);
        return Err(fault.into());
    }
    Ok(joined.site)
}

// Reads the greeting, and joins.
fn greet<R: Wait, I: Read + Drop>(
    rt: &R,
    alloc: Global,
    source: &mut Source<I>,
    hub: &Hub,
    pass: &mut Pass,
) -> Result<Joined, Ending>
    requires { IsPassOf hub.now pass.old }
    ensures pass { IsPassOf hub.now pass.new }
    ensures hello { OnOk result (HandsOn source.old (Hello ∷ []) source.new) }
    ensures enters { IfOk result (λ joined. Enters joined (view_of pass.old) (view_of pass.new)) }
    ensures away { IfErr result (λ ending. IsTurnedAway source.old (view_of pass.old) source.new (view_of pass.new) ending) }
{
    match read_greeting(alloc, source) {
        Ok(()) => {}
        Err(ending) => return Err(ending),
    }
    match hub.join_site(rt, alloc, pass) {
        Ok(joined) => Ok(joined),
        Err(fault) => Err(SessionFault::Hub(fault).into()),
    }
}

// Reads the first line, which has to be the greeting.
fn read_greeting<I: Read + Drop>(alloc: Global, source: &mut Source<I>) -> Result<(), Ending>
    ensures hello { OnOk result (HandsOn source.old (Hello ∷ []) source.new) }
    ensures away { IfErr result (λ ending. (v : View) → IsTurnedAway source.old v source.new v ending) }
{
    let first = match source.next_line(alloc) {
        Ok(first) => first,
        Err(stop) => return Err(stop.into()),
    };
    if let Err(fault) = check_greeting(&first) {
        return Err(fault.into());
    }
    Ok(())
}

// Sends the site its number, the limit and the board. It takes no memory: a line is made when it is put, so a peer
// that does not read costs no more than its copy of the board.
fn welcome<O: Peer + Drop>(output: &mut Output<O>, joined: &Joined) -> Result<(), StreamFault>
    ensures lines { PutsLines output.old (welcome_lines joined.now) output.new }
    ensures fault { IfErr result (λ fault. fault ≡ StreamFault.WriteFailed) }
    ensures failed { IsErr result → IsTrue output.new.failed }
    ensures flushed { IsFlushed output.new }
{
    let site = joined.site;
    let limit = joined.limit;
    output.push(&Line::Welcome { site, limit });
    match put_board(output, &joined.board) {
        Ok(()) => {}
        Err(never) => match never {},
    }
    output.push(&Line::Ready);
    output.send()
}
