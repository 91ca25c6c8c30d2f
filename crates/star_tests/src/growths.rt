//! Failed allocations in ends, sites and the star, each test for the calls of its name. `./growths` makes one after another of the allocations between
//! two marks fail. A call that fails leaves all as it was, and gives its answer if it is made again.
use crate::expect::{expect_eq, expect_that};
use crate::first_edits::{
    counting_star_of, first, first_site, insertion, replacement, star_of, told_of,
};
use jup_link::End;
use jup_star::{Delivered, Down, Downs, Made, Site, SiteFault, Star, StarFault, Undelivered, Up};
use jup_window::{Command, EditFault, Setting, Value};
use jup_xform::Side;
use std::alloc::Global;
use std::marker::PhantomData;
use std::process::Abort;
use test_boards::{alone, reads};
use test_marks::{begin, end};

#[test]
fn end_reserve_one(rt: HostRuntime) {
    let mut link = End::new(rt.alloc(), Side::Client);
    begin(rt.alloc());
    let mut made = link.reserve_one();
    end(rt.alloc());
    if made.is_err() {
        expect_that(&rt, link.backlog() == 0 && !link.owes());
        made = link.reserve_one();
    }
    // What is sent below needs the room.
    assert!(rt; made.is_ok());
    let op = insertion(1);
    let sent = link.send(alone(rt.alloc(), op), alone(rt.alloc(), op));
    expect_eq(&rt, (sent.mine, link.backlog()), (0, 1));
}

#[test]
fn end_generate(rt: HostRuntime) {
    let mut link = End::new(rt.alloc(), Side::Client);
    begin(rt.alloc());
    let sent = link.generate(rt.alloc(), alone(rt.alloc(), insertion(1)));
    end(rt.alloc());
    let sent = match sent {
        Ok(sent) => sent,
        Err(_) => {
            expect_that(&rt, link.backlog() == 0 && !link.owes());
            let again = link.generate(rt.alloc(), alone(rt.alloc(), insertion(1)));
            again.expect(&rt, "memory")
        }
    };
    expect_eq(&rt, (sent.mine, link.backlog()), (0, 1));
}

// The number that the next site is given, or why there is none.
fn next_number(alloc: Global, star: &mut Star) -> Result<u32, StarFault> {
    match star.join(alloc) {
        Ok(joined) => Ok(joined.site),
        Err(fault) => Err(fault),
    }
}

// The next site is given this number. If an allocation failed first, it had no link.
fn joins_as(rt: &impl Abort, alloc: Global, star: &mut Star, wanted: u32) {
    begin(alloc);
    let mut number = next_number(alloc, star);
    end(alloc);
    if number == Err(StarFault::NoMemory) {
        expect_eq(rt, star.waiting(wanted), None);
        number = next_number(alloc, star);
    }
    expect_eq(rt, number, Ok(wanted));
    expect_eq(rt, star.waiting(wanted), Some(0));
}

#[test]
fn star_join(rt: HostRuntime) {
    let mut star = star_of(&rt, rt.alloc(), 0);
    for wanted in 1..=9 {
        joins_as(&rt, rt.alloc(), &mut star, wanted);
    }
}

// The star's text, its count of entries, and how many messages wait for site 2.
fn has(rt: &impl Abort, star: &Star, letters: &str, taken: usize, waiting: usize) {
    expect_eq(rt, (letters, reads(star.board(), letters)), (letters, true));
    expect_eq(
        rt,
        (star.order_len(), star.waiting(2)),
        (taken, Some(waiting)),
    );
}

// A star of two sites takes the first message of one, and then has this text and so many entries. If an allocation failed first, nothing was taken.
fn takes(
    rt: &impl Abort,
    alloc: Global,
    mut star: Star,
    site: u32,
    up: &Up,
    letters: &str,
    taken: usize,
) {
    begin(alloc);
    let mut place = star.take(alloc, site, up);
    end(alloc);
    if place == Err(StarFault::NoMemory) {
        has(rt, &star, "pqr", 0, 0);
        place = star.take(alloc, site, up);
    }
    let due = if taken == 1 { Some(0) } else { None };
    expect_eq(rt, place, Ok(due));
    has(rt, &star, letters, taken, 1);
}

// An edit of one operation, an edit of two, and a ping, which asks for room for its pong.
#[test]
fn star_take(rt: HostRuntime) {
    let alloc = rt.alloc();
    let told = told_of(alloc, 1);
    takes(&rt, alloc, star_of(&rt, alloc, 2), 1, &told, "apqr", 1);
    let replaced = Up::Op(first(replacement(&rt, alloc, 1)));
    takes(&rt, alloc, star_of(&rt, alloc, 2), 1, &replaced, "aqr", 1);
    let ping = Up::Ping(7);
    takes(&rt, alloc, star_of(&rt, alloc, 2), 2, &ping, "pqr", 0);
}

#[test]
fn counting_star_take(rt: HostRuntime) {
    let alloc = rt.alloc();
    let star = counting_star_of(&rt, alloc, 2);
    let replaced = Up::Op(first(replacement(&rt, alloc, 1)));
    takes(&rt, alloc, star, 1, &replaced, "aqr", 1);
}

// What is fetched for site 2. If an allocation failed first, it still waited.
fn fetched(rt: &impl Abort, alloc: Global, star: &mut Star) -> Downs {
    begin(alloc);
    let downs = star.fetch(alloc, 2, 10);
    end(alloc);
    match downs {
        Ok(downs) => downs,
        Err(_) => {
            has(rt, star, "pqr", 0, 2);
            star.fetch(alloc, 2, 10).expect(rt, "memory")
        }
    }
}

fn are_pongs(rt: &impl Abort, downs: &Downs) {
    let due = [Down::Pong(7), Down::Pong(8)];
    expect_eq(rt, downs.as_slice(), due.as_slice());
}

#[test]
fn star_fetch(rt: HostRuntime) {
    let mut star = star_of(&rt, rt.alloc(), 2);
    for &count in &[7, 8] {
        let heard = star.take(rt.alloc(), 2, &Up::Ping(count));
        expect_eq(&rt, heard, Ok(None));
    }
    let downs = fetched(&rt, rt.alloc(), &mut star);
    are_pongs(&rt, &downs);
    has(&rt, &star, "pqr", 0, 0);
}

// Why a site makes no edit of these commands, if so.
fn refusal(alloc: Global, site: &mut Site, commands: &[Command]) -> Option<EditFault> {
    // The checker has to know the types within what is dropped here.
    let _within: PhantomData<(Up, Made)> = PhantomData;
    match commands {
        [command] => site.edit(alloc, command).err(),
        commands => site.edit_batch(alloc, commands).err(),
    }
}

// A site makes an edit of these commands, and shows it. If an allocation failed first, it showed nothing of it.
fn edits(rt: &impl Abort, alloc: Global, commands: &[Command], letters: &str) {
    let mut site = first_site(rt, alloc);
    begin(alloc);
    let mut refused = refusal(alloc, &mut site, commands);
    end(alloc);
    if refused == Some(EditFault::NoMemory) {
        expect_that(rt, reads(site.board(), "pqr") && site.backlog() == 0);
        refused = refusal(alloc, &mut site, commands);
    }
    expect_eq(rt, refused, None);
    expect_that(rt, reads(site.board(), letters) && site.backlog() == 1);
}

const INSERTION: Command = Command::Insert {
    win: 1,
    wid: 1,
    place: 0,
    value: Value::Char('a'),
};

const DELETION: Command = Command::Delete {
    win: 1,
    wid: 1,
    place: 1,
};

const SWITCH: Command = Command::Set {
    win: 1,
    wid: 3,
    setting: Setting::Toggle(true),
};

// By `edit`, and by `edit_batch`.
#[test]
fn site_edit(rt: HostRuntime) {
    edits(&rt, rt.alloc(), &[INSERTION], "apqr");
    edits(&rt, rt.alloc(), &[INSERTION, DELETION, SWITCH], "aqr");
}

// A site receives an edit of site 2, and shows it. If an allocation failed first, it showed nothing of it.
fn delivers(rt: &impl Abort, alloc: Global, down: &Down, letters: &str) {
    let mut site = first_site(rt, alloc);
    begin(alloc);
    let mut owed = site.deliver(alloc, down);
    end(alloc);
    if owed == Err(SiteFault::NoMemory) {
        expect_that(rt, reads(site.board(), "pqr") && site.backlog() == 0);
        owed = site.deliver(alloc, down);
    }
    expect_eq(rt, owed, Ok(None));
    expect_that(rt, reads(site.board(), letters) && site.backlog() == 0);
}

// An edit of one operation, and one of two.
#[test]
fn site_deliver(rt: HostRuntime) {
    let alloc = rt.alloc();
    let inserted = Down::Op(first(alone(alloc, insertion(2))));
    delivers(&rt, alloc, &inserted, "apqr");
    let replaced = Down::Op(first(replacement(&rt, alloc, 2)));
    delivers(&rt, alloc, &replaced, "aqr");
}

// A site is handed an edit of site 2, and shows its operations. If an allocation failed first, the site showed nothing of it, and is
// handed what came back.
fn shows(rt: &impl Abort, alloc: Global, down: Down, count: usize, letters: &str) {
    let mut site = first_site(rt, alloc);
    begin(alloc);
    let first = site.deliver_shown(alloc, down);
    end(alloc);
    let delivered = match first {
        Err(Undelivered::NoMemory(back)) => {
            expect_that(rt, reads(site.board(), "pqr") && site.backlog() == 0);
            site.deliver_shown(alloc, back)
        }
        other => other,
    };
    let Delivered { owed, shown } = delivered.expect(rt, "memory");
    expect_eq(
        rt,
        (owed, shown.map(|ops| ops.as_slice().len())),
        (None, Some(count)),
    );
    expect_that(rt, reads(site.board(), letters) && site.backlog() == 0);
}

// An edit of one operation, and one of two.
#[test]
fn site_deliver_shown(rt: HostRuntime) {
    let alloc = rt.alloc();
    let inserted = Down::Op(first(alone(alloc, insertion(2))));
    shows(&rt, alloc, inserted, 1, "apqr");
    let replaced = Down::Op(first(replacement(&rt, alloc, 2)));
    shows(&rt, alloc, replaced, 2, "aqr");
}
