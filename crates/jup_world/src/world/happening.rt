//! What an event does to a star and its sites.
ghost use Rattle.std.specs.Prelude.{◌≡◌, length, map, is_some, IfOk, OnOk, OnErr};
ghost use Rattle.jup_star.specs.Stars.{link_of};
ghost use Rattle.jup_world.specs.Worlds.{attached, without_site};
ghost use Rattle.jup_world.specs.Insides.{lane_of, bare_attached, lane_event, most_edits, MakesFew};
ghost use Rattle.jup_world.specs.Happenings.{Plays, AreReady, LanePlays, AreRead, SitesRest, LaneSpares};
ghost use Rattle.jup_world.specs.Lanes.{Plain, PushUp, PushDown, without_lane};
ghost use Rattle.jup_world.specs.Events as event;

use super::attached::{Attached, place_of};
use super::refusals::star_refusal;
use crate::{Event, Reply};
use jup_star::{Site, Star};
use jup_window::Command;
use jup_xform::NoMemory;
use std::alloc::Global;
use std::slice;

/// Plays one event. If an allocation fails, a message may have been fetched into an empty down stream, and
/// bytes may have been moved on the way that the event moves.
pub(crate) fn happen(
    alloc: Global,
    star: &mut Star,
    sites: &mut Vec<Attached>,
    event: &Event,
) -> Result<Reply, NoMemory>
    requires { AreReady star.old (map bare_attached sites.old.items) }
    ensures plays { IfOk result (λ reply. LanePlays (lane_event event.now) star.old (map lane_of sites.old.items)
        reply star.new (map bare_attached sites.new.items)) }
    ensures few { IfOk result (λ reply. MakesFew reply (most_edits event.now)) }
    ensures read { OnOk result (AreRead (lane_event event.now) star.old (map lane_of sites.old.items) (map lane_of sites.new.items)) }
    ensures spared { OnErr result (LaneSpares (lane_event event.now) star.old (map lane_of sites.old.items)
        star.new (map lane_of sites.new.items)) }
{
    match event {
        Event::Join => join(alloc, star, sites),
        Event::Leave(number) => Ok(leave(star, sites, *number)),
        Event::Edit(number, command) => {
            edit(alloc, star, sites, *number, slice::from_ref(command))
        }
        Event::Batch(number, commands) => edit(alloc, star, sites, *number, commands.as_slice()),
        Event::Up(number) => move_up(alloc, star, sites, *number),
        Event::Down(number) => move_down(alloc, star, sites, *number),
        Event::Ping(number, count) => ping(star, sites, *number, *count),
        Event::PushUp(number, most) => push_up(alloc, star, sites, *number, *most),
        Event::PushDown(number, most) => push_down(alloc, star, sites, *number, *most),
    }
}

fn join(alloc: Global, star: &mut Star, sites: &mut Vec<Attached>) -> Result<Reply, NoMemory>
    requires { AreReady star.old (map bare_attached sites.old.items) }
    ensures few { IfOk result (λ reply. MakesFew reply 0) }
    ensures plays { IfOk result (λ reply. Plays event.Join star.old (map bare_attached sites.old.items)
        reply star.new (map bare_attached sites.new.items)) }
    ensures read { OnOk result (AreRead (Plain (event.Join)) star.old (map lane_of sites.old.items) (map lane_of sites.new.items)) }
    ensures same_star { OnErr result (star.new ≡ star.old) }
    ensures same_sites { OnErr result (map lane_of sites.new.items ≡ map lane_of sites.old.items) }
{
    sites.reserve(1).map_err(|_| NoMemory)?;
    let joined = match star.join(alloc) {
        Ok(joined) => joined,
        Err(fault) => return Ok(Reply::NoJoin(star_refusal(fault)?)),
    };
    let number = joined.site;
    let site = Site::open(alloc, number, joined.limit, joined.board).unwrap();
    sites.push_reserved(Attached::new(alloc, site));
    Ok(Reply::Joined(number))
}

// Drops a site with its streams.
fn drop_site(sites: &mut Vec<Attached>, number: u32)
    ensures messages { map bare_attached sites.new.items ≡ without_site number (map bare_attached sites.old.items) }
    ensures bytes { map lane_of sites.new.items ≡ without_lane number (map lane_of sites.old.items) }
{
    sites.retain(|attached| attached.site.number() != number);
}

fn leave(star: &mut Star, sites: &mut Vec<Attached>, number: u32) -> Reply
    requires { is_some (attached number (map bare_attached sites.old.items)) ≡ is_some (link_of number star.old.links) }
    ensures few { MakesFew result 0 }
    ensures plays { Plays (event.Leave number) star.old (map bare_attached sites.old.items)
        result star.new (map bare_attached sites.new.items) }
    ensures read { AreRead (Plain (event.Leave number)) star.old (map lane_of sites.old.items) (map lane_of sites.new.items) }
{
    match star.leave(number) {
        Ok(()) => {
            drop_site(sites, number);
            Reply::Left
        }
        Err(_) => Reply::Nothing,
    }
}

fn edit(
    alloc: Global,
    star: &Star,
    sites: &mut Vec<Attached>,
    number: u32,
    commands: &[Command],
) -> Result<Reply, NoMemory>
    requires { AreReady star.now (map bare_attached sites.old.items) }
    ensures plays { IfOk result (λ reply. LanePlays (Plain (event.Edit number commands.now)) star.now (map lane_of sites.old.items)
        reply star.now (map bare_attached sites.new.items)) }
    ensures few { IfOk result (λ reply. MakesFew reply (length commands.now)) }
    ensures read { OnOk result (AreRead (Plain (event.Edit number commands.now)) star.now (map lane_of sites.old.items) (map lane_of sites.new.items)) }
    ensures same { OnErr result (map lane_of sites.new.items ≡ map lane_of sites.old.items) }
{
    match place_of(sites, number) {
        Some(at) => sites[at].edit(alloc, commands),
        None => Ok(Reply::Nothing),
    }
}

fn ping(star: &Star, sites: &mut Vec<Attached>, number: u32, count: u32) -> Result<Reply, NoMemory>
    requires { AreReady star.now (map bare_attached sites.old.items) }
    ensures few { IfOk result (λ reply. MakesFew reply 0) }
    ensures plays { IfOk result (λ reply. Plays (event.Ping number count) star.now (map bare_attached sites.old.items)
        reply star.now (map bare_attached sites.new.items)) }
    ensures read { OnOk result (AreRead (Plain (event.Ping number count)) star.now (map lane_of sites.old.items) (map lane_of sites.new.items)) }
    ensures same { OnErr result (map lane_of sites.new.items ≡ map lane_of sites.old.items) }
{
    let Some(at) = place_of(sites, number) else {
        return Ok(Reply::Nothing);
    };
    sites[at].ping(count)?;
    Ok(Reply::Asked)
}

// The star takes the oldest message of an up stream, or detaches the site.
fn move_up(
    alloc: Global,
    star: &mut Star,
    sites: &mut Vec<Attached>,
    number: u32,
) -> Result<Reply, NoMemory>
    requires { AreReady star.old (map bare_attached sites.old.items) }
    ensures few { IfOk result (λ reply. MakesFew reply 0) }
    ensures plays { IfOk result (λ reply. Plays (event.Up number) star.old (map bare_attached sites.old.items)
        reply star.new (map bare_attached sites.new.items)) }
    ensures read { OnOk result (AreRead (Plain (event.Up number)) star.old (map lane_of sites.old.items) (map lane_of sites.new.items)) }
    ensures spared { OnErr result (SitesRest (Plain (event.Up number)) star.old (map lane_of sites.old.items) star.new (map lane_of sites.new.items)) }
{
    let Some(at) = place_of(sites, number) else {
        return Ok(Reply::Nothing);
    };
    match sites[at].move_up(alloc, star) {
        Ok(reply) => Ok(reply),
        Err(fault) => {
            let fault = star_refusal(fault)?;
            drop_site(sites, number);
            Ok(Reply::Detached(fault))
        }
    }
}

// A site receives the oldest message on its way down.
fn move_down(
    alloc: Global,
    star: &mut Star,
    sites: &mut Vec<Attached>,
    number: u32,
) -> Result<Reply, NoMemory>
    requires { AreReady star.old (map bare_attached sites.old.items) }
    ensures few { IfOk result (λ reply. MakesFew reply 0) }
    ensures plays { IfOk result (λ reply. Plays (event.Down number) star.old (map bare_attached sites.old.items)
        reply star.new (map bare_attached sites.new.items)) }
    ensures read { OnOk result (AreRead (Plain (event.Down number)) star.old (map lane_of sites.old.items) (map lane_of sites.new.items)) }
    ensures spared { OnErr result (SitesRest (Plain (event.Down number)) star.old (map lane_of sites.old.items) star.new (map lane_of sites.new.items)) }
{
    match place_of(sites, number) {
        Some(at) => sites[at].move_down(alloc, star),
        None => Ok(Reply::Nothing),
    }
}

// Bytes of an up stream are moved to the star's reader.
fn push_up(
    alloc: Global,
    star: &Star,
    sites: &mut Vec<Attached>,
    number: u32,
    most: u32,
) -> Result<Reply, NoMemory>
    requires { AreReady star.now (map bare_attached sites.old.items) }
    ensures few { IfOk result (λ reply. MakesFew reply 0) }
    ensures plays { IfOk result (λ reply. LanePlays (PushUp number most) star.now (map lane_of sites.old.items)
        reply star.now (map bare_attached sites.new.items)) }
    ensures read { OnOk result (AreRead (PushUp number most) star.now (map lane_of sites.old.items) (map lane_of sites.new.items)) }
    ensures same { OnErr result (map lane_of sites.new.items ≡ map lane_of sites.old.items) }
{
    match place_of(sites, number) {
        Some(at) => sites[at].push_up(alloc, most),
        None => Ok(Reply::Nothing),
    }
}

// Bytes of a down stream are moved to the site's reader.
fn push_down(
    alloc: Global,
    star: &mut Star,
    sites: &mut Vec<Attached>,
    number: u32,
    most: u32,
) -> Result<Reply, NoMemory>
    requires { AreReady star.old (map bare_attached sites.old.items) }
    ensures few { IfOk result (λ reply. MakesFew reply 0) }
    ensures plays { IfOk result (λ reply. LanePlays (PushDown number most) star.old (map lane_of sites.old.items)
        reply star.new (map bare_attached sites.new.items)) }
    ensures read { OnOk result (AreRead (PushDown number most) star.old (map lane_of sites.old.items) (map lane_of sites.new.items)) }
    ensures spared { OnErr result (SitesRest (PushDown number most) star.old (map lane_of sites.old.items) star.new (map lane_of sites.new.items)) }
{
    match place_of(sites, number) {
        Some(at) => sites[at].push_down(alloc, star, most),
        None => Ok(Reply::Nothing),
    }
}
