//! Failed allocations in the hub, each test for the call of its name, as in `growths`: a call that fails is no event. And what else no program shows
//! of such a call: what other passes then have news of, and how many events there were.
ghost use Rattle.jup_hub.specs.Passes.{IsPassOf};

use crate::expect::{expect_eq, expect_that};
use crate::first_edits::{star_of, told_of};
use crate::hubs::{close, ends, hub_of, open_hub, takes, tells_of_one};
use jup_hub::{Closed, Hub, HubFault, Pass};
use jup_star::StarFault;
use std::alloc::Global;
use std::process::Abort;
use std::sync::Wait;
use test_boards::reads;
use test_marks::{begin, end};

const NO_MEMORY: HubFault = HubFault::Star(StarFault::NoMemory);

#[test]
fn hub_open(rt: HostRuntime) {
    let star = star_of(&rt, rt.alloc(), 1);
    begin(rt.alloc());
    let made = Hub::open(rt.alloc(), star);
    end(rt.alloc());
    let (hub, mut a) = match made {
        Ok(opened) => opened,
        Err(star) => {
            expect_eq(&rt, star.waiting(1), Some(0));
            expect_that(&rt, reads(star.board(), "pqr"));
            open_hub(&rt, rt.alloc(), star)
        }
    };
    expect_eq(&rt, hub.leave(&rt, &mut a, 1), Ok(()));
    let Closed { star, events } = close(&rt, hub, a);
    expect_eq(&rt, star.waiting(1), None);
    expect_eq(&rt, events, 1);
}

// The number that the next site is given, or why there is none.
fn next_number<R: Wait>(rt: &R, alloc: Global, hub: &Hub, pass: &mut Pass) -> Result<u32, HubFault>
    requires { IsPassOf hub.now pass.old }
    ensures { IsPassOf hub.now pass.new }
{
    match hub.join_site(rt, alloc, pass) {
        Ok(joined) => Ok(joined.site),
        Err(fault) => Err(fault),
    }
}

// The first site joins by a pass. If an allocation failed first, the other pass has no news of it.
fn joins_first<R: Abort + Wait>(rt: &R, alloc: Global, hub: &Hub, a: &mut Pass, b: &mut Pass)
    requires { IsPassOf hub.now a.old × IsPassOf hub.now b.old }
    ensures { IsPassOf hub.now a.new × IsPassOf hub.now b.new }
{
    begin(alloc);
    let mut number = next_number(rt, alloc, hub, a);
    end(alloc);
    if number == Err(NO_MEMORY) {
        expect_that(rt, !hub.news(b));
        number = next_number(rt, alloc, hub, a);
    }
    expect_eq(rt, number, Ok(1));
}

// The second joins by the other pass.
#[test]
fn hub_join_site(rt: HostRuntime) {
    let alloc = rt.alloc();
    let (hub, mut a) = hub_of(&rt, alloc, 0);
    let mut b = hub.split(&mut a);
    joins_first(&rt, alloc, &hub, &mut a, &mut b);
    expect_that(&rt, hub.news(&mut b));
    expect_eq(&rt, next_number(&rt, alloc, &hub, &mut b), Ok(2));
    hub.rejoin(&mut a, b);
    ends(&rt, alloc, hub, a, 2, &[]);
}

// The first edit is taken by a pass. If an allocation failed first, the other pass has no news of it.
fn takes_first<R: Abort + Wait>(rt: &R, alloc: Global, hub: &Hub, a: &mut Pass, b: &mut Pass)
    requires { IsPassOf hub.now a.old × IsPassOf hub.now b.old }
    ensures { IsPassOf hub.now a.new × IsPassOf hub.now b.new }
{
    let up = told_of(alloc, 1);
    begin(alloc);
    let mut place = hub.take(rt, alloc, a, 1, &up);
    end(alloc);
    if place == Err(NO_MEMORY) {
        expect_that(rt, !hub.news(b));
        place = hub.take(rt, alloc, a, 1, &up);
    }
    expect_eq(rt, place, Ok(Some(0)));
}

// The other pass has news of it once, and takes the second. A call is no news to its own pass.
#[test]
fn hub_take(rt: HostRuntime) {
    let alloc = rt.alloc();
    let (hub, mut a) = hub_of(&rt, alloc, 2);
    let mut b = hub.split(&mut a);
    takes_first(&rt, alloc, &hub, &mut a, &mut b);
    expect_that(&rt, hub.news(&mut b));
    expect_that(&rt, !hub.news(&mut b));
    expect_that(&rt, !hub.news(&mut a));
    takes(&rt, alloc, &hub, &mut b, 2, 1);
    hub.rejoin(&mut a, b);
    ends(&rt, alloc, hub, a, 2, &[1, 2]);
}

// A pass fetches just the first edit for site 2, again if an allocation failed.
fn is_told<R: Abort + Wait>(rt: &R, alloc: Global, hub: &Hub, pass: &mut Pass)
    requires { IsPassOf hub.now pass.old }
    ensures { IsPassOf hub.now pass.new }
{
    begin(alloc);
    let mut downs = hub.fetch(rt, alloc, pass, 2, 10);
    end(alloc);
    if downs.is_err() {
        downs = hub.fetch(rt, alloc, pass, 2, 10);
    }
    expect_that(rt, tells_of_one(alloc, &downs.expect(rt, "memory")));
}

// A fetch for site 9, which has no link, is refused. Site 1 leaves.
fn lets_one_leave<R: Abort + Wait>(rt: &R, alloc: Global, hub: &Hub, pass: &mut Pass)
    requires { IsPassOf hub.now pass.old }
    ensures { IsPassOf hub.now pass.new }
{
    let none = hub.fetch(rt, alloc, pass, 9, 1);
    expect_eq(rt, none.err(), Some(HubFault::Star(StarFault::NoLink)));
    expect_eq(rt, hub.leave(rt, pass, 1), Ok(()));
}

// A pass that is split from another fetches what that took. A call that is refused is an event too.
#[test]
fn hub_fetch(rt: HostRuntime) {
    let alloc = rt.alloc();
    let (hub, mut a) = hub_of(&rt, alloc, 2);
    takes(&rt, alloc, &hub, &mut a, 1, 0);
    let mut b = hub.split(&mut a);
    is_told(&rt, alloc, &hub, &mut b);
    lets_one_leave(&rt, alloc, &hub, &mut b);
    hub.rejoin(&mut a, b);
    let star = ends(&rt, alloc, hub, a, 4, &[1]);
    expect_eq(&rt, (star.waiting(1), star.waiting(2)), (None, Some(0)));
    expect_that(&rt, reads(star.board(), "apqr"));
}

// Whether the hub's board shows this text, by a call of a pass.
fn shows<R: Wait>(
    rt: &R,
    alloc: Global,
    hub: &Hub,
    pass: &mut Pass,
    text: &str,
) -> Result<bool, HubFault>
    requires { IsPassOf hub.now pass.old }
    ensures { IsPassOf hub.now pass.new }
{
    match hub.board(rt, alloc, pass) {
        Ok(board) => Ok(reads(&board, text)),
        Err(fault) => Err(fault),
    }
}

// The hub's board shows this text, at the second call if an allocation failed in the first.
fn is_shown<R: Abort + Wait>(rt: &R, alloc: Global, hub: &Hub, pass: &mut Pass, text: &str)
    requires { IsPassOf hub.now pass.old }
    ensures { IsPassOf hub.now pass.new }
{
    begin(alloc);
    let mut has_text = shows(rt, alloc, hub, pass, text);
    end(alloc);
    if has_text == Err(NO_MEMORY) {
        has_text = shows(rt, alloc, hub, pass, text);
    }
    expect_eq(rt, has_text, Ok(true));
}

// The board is the star's, and is no event. The pass that asks for it has then seen what it has.
#[test]
fn hub_board(rt: HostRuntime) {
    let alloc = rt.alloc();
    let (hub, mut a) = hub_of(&rt, alloc, 2);
    let mut b = hub.split(&mut a);
    is_shown(&rt, alloc, &hub, &mut b, "pqr");
    takes(&rt, alloc, &hub, &mut a, 1, 0);
    is_shown(&rt, alloc, &hub, &mut b, "apqr");
    expect_that(&rt, !hub.news(&mut b));
    is_shown(&rt, alloc, &hub, &mut a, "apqr");
    expect_that(&rt, !hub.news(&mut b));
    let star = ends(&rt, alloc, hub, a, 1, &[1]);
    expect_eq(&rt, star.waiting(2), Some(1));
}
