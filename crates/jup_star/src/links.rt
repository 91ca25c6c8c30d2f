//! The links of a star.
ghost use Rattle.std.specs.Prelude.{◌≡◌, ◌<◌, not, nat_eq, map, filter, position, length, MatchOption, IsTrue, IfSome, OnOk, if◌then◌else◌};
ghost use Rattle.jup_batch.specs.Boards as board;
ghost use Rattle.jup_star.specs.Messages.{RelabelNoText};
ghost use Rattle.jup_star.specs.Stars.{is_of, link_sent, IsNew, AreApart, IsPlace, bare_link, AllHaveRoom, OthersHaveRoom, AllCount};

use crate::link::Link;
use jup_batch::BoardBatch;
use jup_xform::NoMemory;
use std::alloc::Global;

// The place of the first link of a site.
fn place_of(links: &[Link], site: u32) -> Option<usize>
    ensures { result ≡ position (λ l. nat_eq l.site site) links.now }
{
    links.iter().position(|link| link.site == site)
}

// Whether the link at a place is that of a site.
fn stands_at(links: &[Link], at: usize, site: u32) -> bool
    requires { AreApart (map bare_link links.now) }
    ensures { IsTrue result → IsPlace site (map bare_link links.now) at }
{
    match links.get(at) {
        Some(link) => link.site == site,
        None => false,
    }
}

/// Where the link of a site is.
pub(crate) fn link_at(links: &[Link], site: u32) -> Option<usize>
    requires { AreApart (map bare_link links.now) }
    ensures place { MatchOption result (IsNew site (map bare_link links.now)) (λ at. IsPlace site (map bare_link links.now) at) }
    ensures below { IfSome result (λ at. at < length links.now) }
{
    // Usually each site from that of the first link on has a link, so its place is known.
    let first = links.first().map_or(0, |link| link.site);
    let likely = site.saturating_sub(first) as usize;
    if stands_at(links, likely, site) {
        return Some(likely);
    }
    place_of(links, site)
}

/// Makes room in each link for one message and one operation, and copies of the operation.
pub(crate) fn reserve_all(
    alloc: Global,
    links: &mut [Link],
    op: &BoardBatch,
) -> Result<(), NoMemory>
    ensures same { map bare_link links.new ≡ map bare_link links.old }
    ensures room { OnOk result (AllHaveRoom (board.shape op.now) links.new) }
{
    for link in links.iter_mut() {
        link.reserve(alloc, op)?;
    }
    Ok(())
}

/// Sends an operation to each link but that of the site that it came from.
pub(crate) fn send_others(links: &mut [Link], site: u32, op: &BoardBatch)
    requires relabels { RelabelNoText op.now }
    requires room { OthersHaveRoom (board.shape op.now) site links.old }
    requires counted { AllCount (map bare_link links.old) }
    ensures { map bare_link links.new ≡ map (λ l. if is_of site l then l else link_sent op.now l) (map bare_link links.old) }
{
    for link in links.iter_mut() {
        if link.site != site {
            link.send(op);
        }
    }
}

/// Drops the link of a site, with its outbox.
pub(crate) fn detach(links: &mut Vec<Link>, site: u32)
    ensures { links.new.items ≡ filter (λ l. not (nat_eq l.site site)) links.old.items }
{
    links.retain(|link| link.site != site);
}
