//! A star and a site: a join, an edit and a departure.
ghost use Rattle.std.specs.Prelude.{◌≡◌, ◌+◌, None, IfOk, OnOk, OnErr};
ghost use Rattle.jup_star.specs.Stars.{link_of};

use jup_star::{Made, Site, Star};
use jup_window::{Command, EditFault};
use std::alloc::Global;

/// A site joins: it shows what the star shows, under the number that the star gave last.
pub fn attach(alloc: Global, star: &mut Star) -> anyhow::Result<Site>
    ensures board { IfOk result (λ site. site.board ≡ star.new.board) }
    ensures number { IfOk result (λ site. site.number ≡ star.new.given) }
{
    let joined = star.join(alloc)?;
    let site = Site::open(alloc, joined.site, joined.limit, joined.board)?;
    Ok(site)
}

/// A site makes an edit, which is one more that it made. A refusal leaves the site as it was.
pub fn make_edit(alloc: Global, site: &mut Site, command: &Command) -> Result<Made, EditFault>
    ensures made { OnOk result (site.new.made ≡ site.old.made + 1) }
    ensures same { OnErr result (site.new ≡ site.old) }
{
    site.edit(alloc, command)
}

/// A site leaves: whether it was attached or not, it is no longer.
pub fn detach(star: &mut Star, site: u32)
    ensures { link_of site star.new.links ≡ None }
{
    let _ = star.leave(site);
}
