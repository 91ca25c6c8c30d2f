//! The half of a session that fetches and writes.
ghost use Rattle.std.specs.Prelude.{◌≡◌, ◌<◌, ◌↔◌, [], Bool, Some, None, IsTrue, IsFalse, IfOk, IfErr, IfSome, OnOk, OnErr, IfNone, IsNone, IsSome, length, count_by};
ghost use Rattle.std.specs.Result.{result_err};
ghost use Rattle.std.specs.List.{flat_map};
ghost use Rattle.jup_hub.specs.Passes.{view_of, IsPassOf};
ghost use Rattle.jup_rules.specs.Sessions.{down_lines, is_pong, most_fetched};
ghost use Rattle.jup_stream.specs.Streams.{PutsLines, IsFlushed};
ghost use Rattle.jup_session.specs.Sessions.{Answers, Brings, Forwards, ForwardsAll, StopsFetching, TellsFault, Wrote as HasWritten, told_line, Leaves, HasMadeNone, HasServed};

use super::ending::tell;
use super::leaving::leave;
use super::link::SessionLink;
use jup_hub::Pass;
use jup_io::Peer;
use jup_rules::{
    BothNoted, EndNoted, Ending, MOST_FETCHED, Noted, SessionFault, WrittenPongs, put_downs,
    refused_fetch,
};
use jup_star::{Down, Downs};
use jup_stream::{Output, StreamFault};
use std::sync::Wait;
use std::time::Clock;

/// What a fetch left.
#[derive(Clone, Copy, PartialEq, Eq)]
enum AfterFetch {
    Empty,
    /// The site has no link any more.
    Gone,
}

/// How the writing half came to its last fetch.
#[derive(Clone, Copy)]
struct Forwarded {
    left: Result<AfterFetch, SessionFault>,
    /// Whether the other half had ended before that. Then its ending counts.
    is_over: bool,
}

/// What the writing half gives back.
#[derive(Drop)]
pub(crate) struct Wrote<O: Peer + Drop> {
    pub(crate) pass: Pass,
    pub(crate) output: Output<O>,
    /// The ending that it reported to the site itself: a fault of its own.
    pub(crate) told: Option<Ending>,
    /// The fault for which it did not fetch all that waited; `None` if it did.
    pub(crate) unsent: Option<SessionFault>,
    /// That its end is noted, so that the other half does not wait for it.
    pub(crate) over: EndNoted,
    /// After a fault that it reported: that the other half has ended. `None` if the site's link was given up for that.
    pub(crate) both: Option<BothNoted>,
}

/// Writes what the hub has for the site until the other half has ended, and leaves. It reports a fault of its own to the site
/// immediately, and then lets the other half end. The last line of any other ending it leaves to its caller, which knows the ending.
pub(crate) fn write_half<R: Wait + Clock, O: Peer + Drop>(
    rt: &R,
    mut output: Output<O>,
    link: &SessionLink<'_>,
    mut pass: Pass,
) -> Wrote<O>
    requires pass { IsPassOf link.now.hub.now pass }
    requires new { HasMadeNone (view_of pass) }
    requires flushed { IsFlushed output }
    ensures pass { IsPassOf link.now.hub.now result.pass }
    ensures served { HasServed link.now.site (view_of result.pass) }
    ensures wrote { HasWritten link.now.site (view_of pass) output (view_of result.pass) result.output result.told result.unsent }
    ensures flushed { IsFlushed result.output }
    ensures lost { IsSome result.told → IsNone result.both → IsTrue result.output.lost }
{
    let forwarded = forward_all(rt, &mut output, link, &mut pass);
    let is_gone = is_gone(&forwarded.left);
    if !is_gone {
        leave(rt, link.alloc, link.hub, &mut pass, link.site);
    }
    let told = tell_fault(&mut output, &forwarded);
    let over = link.end(rt);
    let both = part(rt, &mut output, link, told);
    Wrote {
        pass,
        output,
        told,
        unsent: forwarded.left.err(),
        over,
        both,
    }
}

// Whether the site has no link any more.
fn is_gone(left: &Result<AfterFetch, SessionFault>) -> bool
    ensures { IsTrue result ↔ (left.now ≡ Ok AfterFetch.Gone) }
{
    matches!(left, Ok(AfterFetch::Gone))
}

// Reports a fault to the site, unless the other half had ended before, and answers the ending that it reported.
fn tell_fault<O: Peer + Drop>(output: &mut Output<O>, forwarded: &Forwarded) -> Option<Ending>
    ensures put { PutsLines output.old (told_line result) output.new }
    ensures fault { TellsFault result (result_err forwarded.now.left) }
    ensures flushed { IsFlushed output.old → IsFlushed output.new }
{
    match forwarded.left {
        Err(fault) if !forwarded.is_over => {
            let ending = fault.into();
            tell(output, ending);
            Some(ending)
        }
        _ => None,
    }
}

// Lets the other half end once this one has reported a fault. It may be reading, and a site that neither sends nor ends would keep it there. So the site's
// link is given up after ten seconds.
fn part<R: Clock, O: Peer + Drop>(
    rt: &R,
    output: &mut Output<O>,
    link: &SessionLink<'_>,
    told: Option<Ending>,
) -> Option<BothNoted>
    ensures put { PutsLines output.old [] output.new }
    ensures flushed { IsFlushed output.old → IsFlushed output.new }
    ensures lost { IsSome told → IsNone result → IsTrue output.new.lost }
{
    if told.is_none() || output.has_failed() {
        return None;
    }
    let both = link.wait_for_both(rt);
    if both.is_none() {
        output.give_up();
    }
    both
}

// Forwards at each ring, until the other half has ended or the site is too far behind.
fn forward_all<R: Wait, O: Peer + Drop>(
    rt: &R,
    output: &mut Output<O>,
    link: &SessionLink<'_>,
    pass: &mut Pass,
) -> Forwarded
    requires pass { IsPassOf link.now.hub.now pass.old }
    requires flushed { IsFlushed output.old }
    ensures pass { IsPassOf link.now.hub.now pass.new }
    ensures forwards { ForwardsAll link.now.site (view_of pass.old) output.old (view_of pass.new) output.new (result_err result.left) }
    ensures flushed { IsFlushed output.new }
    ensures gone { result.left ≡ Ok AfterFetch.Gone → Leaves link.now.site (view_of pass.old) (view_of pass.new) }
{
    let mut seen = 0;
    for _ in rt.forever() {
        seen = link.wait(rt, seen);
        // Read before the fetch, which then has all that the other half caused.
        let is_over = link.end_mark.get().is_some();
        let has_news = link.hub.news(pass);
        if is_over {
            // What fails from here on is no fault any more: the ending of the other half counts.
            let left = forward(rt, output, link, pass);
            return Forwarded { left, is_over };
        }
        if let Err(fault) = forward_news(rt, output, link, pass, has_news) {
            return Forwarded {
                left: Err(fault),
                is_over,
            };
        }
    }
    unreachable!()
}

// Forwards what is new, if anything. Refused if the site is too far behind.
fn forward_news<R: Wait, O: Peer + Drop>(
    rt: &R,
    output: &mut Output<O>,
    link: &SessionLink<'_>,
    pass: &mut Pass,
    has_news: bool,
) -> Result<(), SessionFault>
    requires pass { IsPassOf link.now.hub.now pass.old }
    requires flushed { IsFlushed output.old }
    ensures pass { IsPassOf link.now.hub.now pass.new }
    ensures forwards { Forwards link.now.site (view_of pass.old) output.old (view_of pass.new) output.new }
    ensures stopped { IfErr result (λ fault. ForwardsAll link.now.site (view_of pass.old) output.old (view_of pass.new) output.new (Some fault)) }
    ensures news { IsTrue has_news → OnOk result (ForwardsAll link.now.site (view_of pass.old) output.old (view_of pass.new) output.new None) }
    ensures none { IsFalse has_news → view_of pass.new ≡ view_of pass.old }
    ensures flushed { IsFlushed output.new }
{
    link.watch.check(rt)?;
    if has_news {
        let _ = forward(rt, output, link, pass)?;
    }
    Ok(())
}

// Fetches and writes until a fetch gives less than it asked for.
fn forward<R: Wait, O: Peer + Drop>(
    rt: &R,
    output: &mut Output<O>,
    link: &SessionLink<'_>,
    pass: &mut Pass,
) -> Result<AfterFetch, SessionFault>
    requires pass { IsPassOf link.now.hub.now pass.old }
    requires flushed { IsFlushed output.old }
    ensures pass { IsPassOf link.now.hub.now pass.new }
    ensures forwards { ForwardsAll link.now.site (view_of pass.old) output.old (view_of pass.new) output.new (result_err result) }
    ensures flushed { IsFlushed output.new }
    ensures gone { result ≡ Ok AfterFetch.Gone → Leaves link.now.site (view_of pass.old) (view_of pass.new) }
{
    for _ in rt.forever() {
        let downs = match fetch(rt, link, pass) {
            Ok(Some(downs)) => downs,
            Ok(None) => return Ok(AfterFetch::Gone),
            Err(fault) => return Err(fault),
        };
        let messages = downs.as_slice();
        match hand_on(rt, output, link, messages) {
            Ok(noted) => {
                if noted.is_last() {
                    return Ok(AfterFetch::Empty);
                }
            }
            Err(fault) => return Err(fault),
        }
    }
    unreachable!()
}

// Fetches what the hub has for the site, up to `MOST_FETCHED` messages. `None` if the site has no link any more. Refused if the site is
// too far behind.
fn fetch<R: Wait>(
    rt: &R,
    link: &SessionLink<'_>,
    pass: &mut Pass,
) -> Result<Option<Downs>, SessionFault>
    requires { IsPassOf link.now.hub.now pass.old }
    ensures pass { IsPassOf link.now.hub.now pass.new }
    ensures brings { IfOk result (λ fetched. IfSome fetched (λ downs. Answers link.now.site (view_of pass.old) (view_of pass.new) downs)) }
    ensures nothing { IfOk result (λ fetched. IfNone fetched (Answers link.now.site (view_of pass.old) (view_of pass.new) [])) }
    ensures refused { OnErr result (Brings link.now.site (view_of pass.old) (view_of pass.new) []) }
    ensures gone { result ≡ Ok None → Leaves link.now.site (view_of pass.old) (view_of pass.new) }
    ensures fault { IfErr result (λ fault. (failed : Bool) → StopsFetching failed fault) }
{
    link.watch.check(rt)?;
    match link
        .hub
        .fetch(rt, link.alloc, pass, link.site, MOST_FETCHED)
    {
        Ok(downs) => Ok(Some(downs)),
        Err(fault) => match refused_fetch(fault) {
            Some(fault) => Err(fault),
            None => Ok(None),
        },
    }
}

// Writes the messages of a fetch, which it notes first, and counts the pongs in it as paid. If memory for the note is refused, the messages are written and
// then the session ends: nothing else makes what is answered.
fn hand_on<R: Wait, O: Peer + Drop>(
    rt: &R,
    output: &mut Output<O>,
    link: &SessionLink<'_>,
    downs: &[Down],
) -> Result<Noted, SessionFault>
    ensures put { PutsLines output.old (flat_map down_lines downs.now) output.new }
    ensures flushed { IsFlushed output.old → IsFlushed output.new }
    ensures noted { IfOk result (λ noted. noted ≡ length downs.now) }
    ensures fault { IfErr result (StopsFetching output.new.failed) }
{
    let noted = link.watch.fetch(rt, downs);
    let written = write_downs(output, downs)?;
    link.pay(rt, written);
    Ok(noted?)
}

// Writes messages, in order, and answers the pongs among them.
fn write_downs<O: Peer + Drop>(
    output: &mut Output<O>,
    downs: &[Down],
) -> Result<WrittenPongs, StreamFault>
    ensures put { PutsLines output.old (flat_map down_lines downs.now) output.new }
    ensures flushed { IsFlushed output.old → IsFlushed output.new }
    ensures pongs { IfOk result (λ written. written ≡ count_by is_pong downs.now) }
    ensures fault { IfErr result (λ fault. (fault ≡ StreamFault.WriteFailed) × IsTrue output.new.failed) }
{
    send_downs(output, downs)?;
    Ok(WrittenPongs::among(downs))
}

// Writes messages, in order.
#[tactic(auto, using(jup_stream::specs::Streams::puts_sent, jup_stream::specs::Streams::puts_none))]
fn send_downs<O: Peer + Drop>(output: &mut Output<O>, downs: &[Down]) -> Result<(), StreamFault>
    ensures put { PutsLines output.old (flat_map down_lines downs.now) output.new }
    ensures flushed { IsFlushed output.old → IsFlushed output.new }
    ensures fault { IfErr result (λ fault. (fault ≡ StreamFault.WriteFailed) × IsTrue output.new.failed) }
{
    if downs.is_empty() {
        return Ok(());
    }
    match put_downs(output, downs) {
        Ok(()) => {}
        Err(never) => match never {},
    }
    output.send()
}
