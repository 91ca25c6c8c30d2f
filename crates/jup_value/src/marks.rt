//! The highest number that the items of each site had, which identifies a new name without a search.
ghost use Rattle.std.specs.Prelude.{◌≡◌, ◌+◌, ◌<◌, ◌≤◌, length, IsTrue, slice_get, vec_len, vec_capacity};
ghost use Rattle.jup_value.specs.Items.{is_marked, marks_below, raised, AreAscending};

use crate::Name;

// The mark at a place.
fn mark_at(marks: &[Name], at: usize) -> Option<Name>
    ensures { result ≡ slice_get marks.now at }
{
    marks.get(at).copied()
}

// Whether the mark at a place is that of a site.
fn stands_at(marks: &[Name], at: usize, site: u32) -> bool
    requires { AreAscending marks.now }
    ensures { IsTrue result → (at < length marks.now) × (at ≡ marks_below site marks.now) }
{
    match mark_at(marks, at) {
        Some(mark) => mark.site == site,
        None => false,
    }
}

// How many marks come before that of a site.
fn place_of_mark(marks: &[Name], site: u32) -> usize
    requires { AreAscending marks.now }
    ensures place { result ≡ marks_below site marks.now }
    ensures within { result ≤ length marks.now }
{
    // Usually each site from that of the first mark on has a mark, so its place is known.
    let first = mark_at(marks, 0).map_or(0, |mark| mark.site);
    let likely = site.saturating_sub(first) as usize;
    if stands_at(marks, likely, site) {
        return likely;
    }
    marks.partition_point(|mark| mark.site < site)
}

/// Whether the mark of the name's site is at or above its number.
pub(crate) fn is_at_mark(marks: &[Name], name: Name) -> bool
    requires { AreAscending marks.now }
    ensures { result ≡ is_marked name marks.now }
{
    let at = place_of_mark(marks, name.site);
    let Some(mark) = mark_at(marks, at) else {
        return false;
    };
    mark.site == name.site && name.number <= mark.number
}

/// Raises the mark of the name's site to its number. It takes no memory.
pub(crate) fn raise(marks: &mut Vec<Name>, name: Name)
    requires ascending { AreAscending marks.old.items }
    requires room { vec_len marks.old < vec_capacity marks.old }
    ensures marks { marks.new.items ≡ raised name marks.old.items }
    ensures kept_room { (vec_capacity marks.old ≤ vec_capacity marks.new)
        × (vec_len marks.new ≤ vec_len marks.old + 1) }
{
    let at = place_of_mark(marks, name.site);
    let Some(mark) = mark_at(marks, at) else {
        let _placed = marks.insert(at, name);
        return;
    };
    if mark.site != name.site {
        let _placed = marks.insert(at, name);
    } else if mark.number < name.number {
        marks[at] = name;
    }
}
