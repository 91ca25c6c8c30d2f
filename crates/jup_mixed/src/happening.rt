//! What each event does to the star and the site.
ghost use Rattle.std.specs.Prelude.{◌≡◌, length, IfOk, OnErr};
ghost use Rattle.std.specs.Option.{option_map};
ghost use Rattle.jup_world.specs.Insides.{bare_attached, MakesFew};
ghost use Rattle.jup_mixed.specs.declared.events.MixEvent.TheVariants as event;
ghost use Rattle.jup_mixed.specs.Mixed.{most_edits, MixPlays, MixSpares, IsReady};

use crate::MixEvent;
use jup_link::Msg;
use jup_star::{Star, Up};
use jup_window::Command;
use jup_world::{Attached, Reply, star_refusal};
use jup_xform::{Few, NoMemory, Transform};
use std::alloc::Global;

/// The number of the site.
const HOME: u32 = 1;

/// Plays one event. If an allocation fails, `Down` may have fetched a message into the empty down stream.
pub(crate) fn happen(
    alloc: Global,
    star: &mut Star,
    site: &mut Option<Attached>,
    event: &MixEvent,
) -> Result<Reply, NoMemory>
    requires { IsReady star.old (option_map bare_attached site.old) }
    ensures plays { IfOk result (λ reply. MixPlays event.now star.old (option_map bare_attached site.old)
        reply star.new (option_map bare_attached site.new)) }
    ensures few { IfOk result (λ reply. MakesFew reply (most_edits event.now)) }
    ensures spared { OnErr result (MixSpares event.now star.old (option_map bare_attached site.old)
        star.new (option_map bare_attached site.new)) }
{
    match event {
        MixEvent::Edit(commands) => edit(alloc, star, site, commands.as_slice()),
        MixEvent::Up => move_up(alloc, star, site),
        MixEvent::Down => move_down(alloc, star, site),
        MixEvent::JoinStray => join_stray(alloc, star, site),
        MixEvent::Stray(link, up) => take_stray(alloc, star, site, *link, up),
        MixEvent::LeaveStray(link) => Ok(leave_stray(star, site, *link)),
    }
}

fn edit(
    alloc: Global,
    star: &Star,
    site: &mut Option<Attached>,
    commands: &[Command],
) -> Result<Reply, NoMemory>
    requires { IsReady star.now (option_map bare_attached site.old) }
    ensures plays { IfOk result (λ reply. MixPlays (event.Edit commands.now) star.now (option_map bare_attached site.old)
        reply star.now (option_map bare_attached site.new)) }
    ensures few { IfOk result (λ reply. MakesFew reply (length commands.now)) }
    ensures same { OnErr result (option_map bare_attached site.new ≡ option_map bare_attached site.old) }
{
    match site {
        Some(home) => home.edit(alloc, commands),
        None => Ok(Reply::Nothing),
    }
}

// The star takes the oldest message of the site, or detaches it.
fn move_up(alloc: Global, star: &mut Star, site: &mut Option<Attached>) -> Result<Reply, NoMemory>
    requires { IsReady star.old (option_map bare_attached site.old) }
    ensures few { IfOk result (λ reply. MakesFew reply 0) }
    ensures plays { IfOk result (λ reply. MixPlays event.Up star.old (option_map bare_attached site.old)
        reply star.new (option_map bare_attached site.new)) }
    ensures same_star { OnErr result (star.new ≡ star.old) }
    ensures same_site { OnErr result (option_map bare_attached site.new ≡ option_map bare_attached site.old) }
{
    let Some(home) = site else {
        return Ok(Reply::Nothing);
    };
    match home.move_up(alloc, star) {
        Ok(reply) => Ok(reply),
        Err(fault) => {
            let fault = star_refusal(fault)?;
            *site = None;
            Ok(Reply::Detached(fault))
        }
    }
}

// The site receives the oldest message on its way down.
fn move_down(alloc: Global, star: &mut Star, site: &mut Option<Attached>) -> Result<Reply, NoMemory>
    requires { IsReady star.old (option_map bare_attached site.old) }
    ensures few { IfOk result (λ reply. MakesFew reply 0) }
    ensures plays { IfOk result (λ reply. MixPlays event.Down star.old (option_map bare_attached site.old)
        reply star.new (option_map bare_attached site.new)) }
    ensures spared { OnErr result (MixSpares event.Down star.old (option_map bare_attached site.old)
        star.new (option_map bare_attached site.new)) }
{
    match site {
        Some(home) => home.move_down(alloc, star),
        None => Ok(Reply::Nothing),
    }
}

fn join_stray(alloc: Global, star: &mut Star, site: &Option<Attached>) -> Result<Reply, NoMemory>
    ensures few { IfOk result (λ reply. MakesFew reply 0) }
    ensures plays { IfOk result (λ reply. MixPlays event.JoinStray star.old (option_map bare_attached site.now)
        reply star.new (option_map bare_attached site.now)) }
    ensures same { OnErr result (star.new ≡ star.old) }
{
    match star.join(alloc) {
        Ok(joined) => Ok(Reply::Joined(joined.site)),
        Err(fault) => Ok(Reply::NoJoin(star_refusal(fault)?)),
    }
}

// The star takes a stranger's message, or detaches its link.
fn take_stray(
    alloc: Global,
    star: &mut Star,
    site: &Option<Attached>,
    link: u32,
    up: &Up,
) -> Result<Reply, NoMemory>
    ensures few { IfOk result (λ reply. MakesFew reply 0) }
    ensures plays { IfOk result (λ reply. MixPlays (event.Stray link up.now) star.old (option_map bare_attached site.now)
        reply star.new (option_map bare_attached site.now)) }
    ensures same { OnErr result (star.new ≡ star.old) }
{
    if link == HOME || star.waiting(link).is_none() {
        return Ok(Reply::Nothing);
    }
    match star.take(alloc, link, up) {
        Ok(Some(place)) => Ok(Reply::Taken(place)),
        Ok(None) => Ok(Reply::Heard),
        Err(fault) => Ok(Reply::Detached(star_refusal(fault)?)),
    }
}

fn leave_stray(star: &mut Star, site: &Option<Attached>, link: u32) -> Reply
    ensures plays { MixPlays (event.LeaveStray link) star.old (option_map bare_attached site.now)
        result star.new (option_map bare_attached site.now) }
    ensures few { MakesFew result 0 }
{
    if link == HOME {
        return Reply::Nothing;
    }
    match star.leave(link) {
        Ok(()) => Reply::Left,
        Err(_) => Reply::Nothing,
    }
}

/// The most edits that an event may make: one for each command.
pub(crate) fn most_edits(event: &MixEvent) -> usize
    ensures { result ≡ most_edits event.now }
{
    match event {
        MixEvent::Edit(commands) => commands.as_slice().len(),
        MixEvent::Up
        | MixEvent::Down
        | MixEvent::JoinStray
        | MixEvent::Stray(_, _)
        | MixEvent::LeaveStray(_) => 0,
    }
}

/// An equal event.
pub(crate) fn copy_event(alloc: Global, event: &MixEvent) -> Result<MixEvent, NoMemory>
    ensures { IfOk result (λ copied. copied ≡ event.now) }
{
    Ok(match event {
        MixEvent::Edit(commands) => MixEvent::Edit(Few::from_slice(alloc, commands.as_slice())?),
        MixEvent::Up => MixEvent::Up,
        MixEvent::Down => MixEvent::Down,
        MixEvent::JoinStray => MixEvent::JoinStray,
        MixEvent::Stray(link, up) => MixEvent::Stray(*link, copy_up(alloc, up)?),
        MixEvent::LeaveStray(link) => MixEvent::LeaveStray(*link),
    })
}

// An equal message.
fn copy_up(alloc: Global, up: &Up) -> Result<Up, NoMemory>
    ensures { IfOk result (λ copied. copied ≡ up.now) }
{
    Ok(match up {
        Up::Op(Msg { mine, heard, op }) => {
            Up::Op(Msg {
                mine: *mine,
                heard: *heard,
                op: op.copy(alloc)?,
            })
        }
        Up::Ack(heard) => Up::Ack(*heard),
        Up::Ping(count) => Up::Ping(*count),
    })
}
