//! Hubs over a small board, and calls of two threads.
ghost use Rattle.jup_hub.specs.Passes.{IsPassOf};

use crate::expect::{expect_eq, expect_that};
use crate::first_edits::{first, insertion, star_of, told_of};
use jup_hub::{Closed, Hub, Pass};
use jup_seq::SeqEdit;
use jup_star::{Down, Downs, Entry, Star};
use jup_value::Name;
use jup_window::BoardEdit;
use jup_xform::{Few, OneOf};
use std::alloc::Global;
use std::process::Abort;
use std::sync::Wait;
use std::thread::join;
use test_boards::alone;

/// A hub over a star, with its first pass.
pub(crate) fn open_hub(rt: &impl Abort, alloc: Global, star: Star) -> (Hub, Pass)
    ensures { IsPassOf result.0 result.1 }
{
    match Hub::open(alloc, star) {
        Ok(opened) => opened,
        Err(_) => panic!(rt; "no memory"),
    }
}

/// A hub over a star with some sites attached, with its first pass.
pub(crate) fn hub_of(rt: &impl Abort, alloc: Global, sites: u32) -> (Hub, Pass)
    ensures { IsPassOf result.0 result.1 }
{
    open_hub(rt, alloc, star_of(rt, alloc, sites))
}

pub(crate) fn close(rt: &impl Abort, hub: Hub, pass: Pass) -> Closed
    requires { IsPassOf hub pass }
{
    match hub.close(pass) {
        Ok(closed) => closed,
        Err(_) => panic!(rt; "the turn is free"),
    }
}

// The entry of the first insertion of a site in the order.
fn entry_of(alloc: Global, site: u32) -> Entry {
    let name = Name { site, number: 1 };
    let put = BoardEdit {
        win: 1,
        wid: 1,
        what: OneOf::First(SeqEdit::Put(name, 'a')),
    };
    let edit = Few::from_slice(alloc, &[put]).unwrap();
    Entry { site, edit }
}

// An order has the first insertions of these sites.
fn has_edits(rt: &impl Abort, alloc: Global, order: &[Entry], sites: &[u32]) {
    expect_eq(rt, order.len(), sites.len());
    for (entry, site) in order.iter().zip(sites) {
        expect_eq(rt, entry, &entry_of(alloc, *site));
    }
}

/// The star of a hub that is closed after so many events, whose order has the first insertions of these sites.
pub(crate) fn ends(
    rt: &impl Abort,
    alloc: Global,
    hub: Hub,
    pass: Pass,
    events: u64,
    sites: &[u32],
) -> Star
    requires { IsPassOf hub pass }
{
    let closed = close(rt, hub, pass);
    expect_eq(rt, closed.events, events);
    has_edits(rt, alloc, closed.star.order(), sites);
    closed.star
}

/// Whether just the first insertion of site 1 was fetched.
pub(crate) fn tells_of_one(alloc: Global, downs: &Downs) -> bool {
    let edit = Down::Op(first(alone(alloc, insertion(1))));
    downs.as_slice() == [edit].as_slice()
}

/// The hub takes the first insertion of a site, at a place of its order.
pub(crate) fn takes<R: Abort + Wait>(
    rt: &R,
    alloc: Global,
    hub: &Hub,
    pass: &mut Pass,
    site: u32,
    place: u32,
)
    requires { IsPassOf hub.now pass.old }
    ensures { IsPassOf hub.now pass.new }
{
    let taken = hub.take(rt, alloc, pass, site, &told_of(alloc, site));
    expect_eq(rt, taken, Ok(Some(place)));
}

// In a thread of its own: the first insertion of a site is taken.
fn take_first<R: Wait>(rt: &R, alloc: Global, hub: &Hub, mut pass: Pass, site: u32) -> Pass
    requires { IsPassOf hub.now pass }
    ensures { IsPassOf hub.now result }
{
    let _ = hub.take(rt, alloc, &mut pass, site, &told_of(alloc, site));
    pass
}

// In a thread of its own: one more site joins.
fn join_alone<R: Wait>(rt: &R, alloc: Global, hub: &Hub, mut pass: Pass) -> Pass
    requires { IsPassOf hub.now pass }
    ensures { IsPassOf hub.now result }
{
    let _ = hub.join_site(rt, alloc, &mut pass);
    pass
}

// In a thread of its own: whether a fetch for site 2 gives just the first insertion of site 1.
fn fetch_alone<R: Wait>(rt: &R, alloc: Global, hub: &Hub, mut pass: Pass) -> bool
    requires { IsPassOf hub.now pass }
{
    match hub.fetch(rt, alloc, &mut pass, 2, 10) {
        Ok(downs) => tells_of_one(alloc, &downs),
        Err(_) => false,
    }
}

// One thread takes an edit while another has a site join. Their passes become one, which is split: a thread fetches that edit while another takes
// the next.
#[test]
fn a_thread_fetches_what_another_took(rt: HostRuntime) {
    let alloc = rt.alloc();
    let (hub, mut a) = hub_of(&rt, alloc, 2);
    let b = hub.split(&mut a);
    let (a, mut b) = join(
        &rt,
        || take_first(&rt, alloc, &hub, a, 1),
        || join_alone(&rt, alloc, &hub, b),
    );
    hub.rejoin(&mut b, a);
    let c = hub.split(&mut b);
    let (_, gives) = join(
        &rt,
        || take_first(&rt, alloc, &hub, b, 2),
        || fetch_alone(&rt, alloc, &hub, c),
    );
    expect_that(&rt, gives);
}
