//! Failed allocations in worlds, each test for the call of its name. `./growths` makes one after another of the allocations
//! between the two marks fail. An event that fails leaves all that is seen as before, and gives its answer if it is played again.
use super::boards::{
    LIMIT, batch, drain, edits, insert, is_quiet, reads, reply_of, types, world_of,
};
use crate::expect::{expect_eq, expect_that};
use jup_seq::SeqEdit;
use jup_star::OpenFault;
use jup_text::write_board;
use jup_value::Name;
use jup_window::{Command, WidgetEdit};
use jup_world::{Event, Halted, Happened, Reply, World, room_for};
use jup_xform::{NoMemory, OneOf};
use std::alloc::Global;
use std::process::Abort;
use test_boards::board_of;
use test_marks::{begin, end};

// What a world shows: its boards as they are printed, and its order and its trace in full. Then what the sites wait for and what waits
// for them, and whether anything is on its way.
#[derive(Drop)]
struct Seen {
    boards: Vec<u8>,
    happened: String,
    backlogs: [Option<u32>; 2],
    waiting: [Option<usize>; 2],
    is_quiet: bool,
}

// The order of a world's edits and its trace, with all that is in them.
fn happened_in(rt: &impl Abort, alloc: Global, world: &World) -> String {
    let (order, trace) = (world.star().order(), world.trace());
    format!(in alloc; "{order:?} {trace:?}").expect(rt, "memory")
}

fn look_at(rt: &impl Abort, alloc: Global, world: &World) -> Seen {
    let mut boards = Vec::new(alloc);
    write_board(alloc, world.star().board(), &mut boards).expect(rt, "memory");
    for number in 1..3 {
        if let Some(site) = world.site(number) {
            write_board(alloc, site.board(), &mut boards).expect(rt, "memory");
        }
    }
    let backlog = |number: u32| -> Option<u32> { world.site(number).map(|site| site.backlog()) };
    Seen {
        boards,
        happened: happened_in(rt, alloc, world),
        backlogs: [backlog(1), backlog(2)],
        waiting: [world.star().waiting(1), world.star().waiting(2)],
        is_quiet: is_quiet(world),
    }
}

// Whether an event may fetch a message for a site, which then waits no more but is on its way.
fn may_fetch(event: &Event, number: u32) -> bool {
    match event {
        Event::Down(site) | Event::PushDown(site, _) => *site == number,
        _ => false,
    }
}

// As many messages wait for a site as before, or one less if one may have been fetched.
fn wait_as_before(rt: &impl Abort, fetched: bool, was: Option<usize>, now: Option<usize>) {
    let one_less = was.map(|count| count.saturating_sub(1));
    expect_that(rt, now == was || (fetched && now == one_less));
}

fn is_spared(rt: &impl Abort, event: &Event, was: &Seen, now: &Seen) {
    expect_eq(rt, now.boards.as_slice(), was.boards.as_slice());
    expect_eq(rt, now.happened.as_str(), was.happened.as_str());
    expect_eq(
        rt,
        (now.backlogs, now.is_quiet),
        (was.backlogs, was.is_quiet),
    );
    let fetched = may_fetch(event, 1);
    wait_as_before(rt, fetched, was.waiting[0], now.waiting[0]);
    let fetched = may_fetch(event, 2);
    wait_as_before(rt, fetched, was.waiting[1], now.waiting[1]);
}

// The event happens, with this reply. If an allocation fails, all is as before.
fn happens(rt: &impl Abort, alloc: Global, world: &mut World, wanted: &Happened) {
    let was = look_at(rt, alloc, world);
    begin(alloc);
    let mut reply = world.step(alloc, &wanted.event);
    end(alloc);
    if reply.is_err() {
        is_spared(rt, &wanted.event, &was, &look_at(rt, alloc, world));
        reply = world.step(alloc, &wanted.event);
    }
    let reply = reply.expect(rt, "memory");
    expect_eq(rt, (&wanted.event, &reply), (&wanted.event, &wanted.reply));
}

// A site has put in a character, as its insertion of this number.
fn put(site: u32, number: u32, value: char) -> WidgetEdit {
    OneOf::First(SeqEdit::Put(Name { site, number }, value))
}

// Site 1 types "a" and pings, site 2 makes one edit of "xy" at the same place. The bytes of a message are moved in parts.
fn first_part(rt: &impl Abort, alloc: Global) -> [(Event, Reply); 9] {
    let both = [insert(0, 'x'), insert(1, 'y')];
    let made = [put(2, 1, 'x'), put(2, 2, 'y')];
    [
        (Event::Join, Reply::Joined(1)),
        (Event::Join, Reply::Joined(2)),
        (types(1, 0, 'a'), reply_of(rt, alloc, put(1, 1, 'a'))),
        (
            batch(rt, alloc, 2, &both),
            Reply::Made(edits(rt, alloc, &made)),
        ),
        (Event::Ping(1, 7), Reply::Asked),
        // Of 37 bytes: "batch 0 0 1" and "do 1 1 text ins 0 1.1 97".
        (Event::PushUp(1, 20), Reply::Moved(20)),
        (Event::Up(1), Reply::Taken(0)),
        (Event::Up(1), Reply::Heard),
        (Event::Up(2), Reply::Taken(1)),
    ]
}

// Then each receives what the other made, and site 2 leaves. The trace has room for 16 events, so that the second departure of nobody makes it grow.
fn second_part() -> [(Event, Reply); 8] {
    [
        // Of the 7 of "pong 7".
        (Event::PushDown(1, 3), Reply::Moved(3)),
        (Event::Down(1), Reply::Heard),
        (Event::Down(1), Reply::Shown),
        (Event::PushDown(2, 1_000), Reply::Moved(37)),
        (Event::Down(2), Reply::Shown),
        (Event::Leave(2), Reply::Left),
        (Event::Leave(2), Reply::Nothing),
        (Event::Leave(2), Reply::Nothing),
    ]
}

fn all_events(rt: &impl Abort, alloc: Global) -> Vec<Happened> {
    let mut all = Vec::new(alloc);
    for (event, reply) in first_part(rt, alloc) {
        all.push(Happened { event, reply }).expect(rt, "memory");
    }
    for (event, reply) in second_part() {
        all.push(Happened { event, reply }).expect(rt, "memory");
    }
    all
}

#[test]
fn world_step(rt: HostRuntime) {
    let mut world = world_of(&rt, rt.alloc(), LIMIT, "text 1 \"\"", 0);
    let all = all_events(&rt, rt.alloc());
    for wanted in all.as_slice() {
        happens(&rt, rt.alloc(), &mut world, wanted);
    }
    expect_eq(&rt, world.trace(), all.as_slice());
    expect_that(
        &rt,
        is_quiet(&world) && reads(&world, 0, "xya") && reads(&world, 1, "xya"),
    );
}

#[test]
fn event_room_for(rt: HostRuntime) {
    begin(rt.alloc());
    let mut room: Result<Vec<Command>, NoMemory> = room_for(rt.alloc(), 2);
    end(rt.alloc());
    if room.is_err() {
        room = room_for(rt.alloc(), 2);
    }
    let room = room.expect(&rt, "memory");
    expect_that(&rt, room.is_empty() && room.capacity() >= 2);
}

#[test]
fn world_open(rt: HostRuntime) {
    let lines = ["window 1", "text 1 \"ab\""];
    let board = board_of(rt.alloc(), &lines).expect(&rt, "a board");
    begin(rt.alloc());
    let mut world = World::open(rt.alloc(), board, LIMIT);
    end(rt.alloc());
    if matches!(world, Err(OpenFault::NoMemory)) {
        let again = board_of(rt.alloc(), &lines).expect(&rt, "a board");
        world = World::open(rt.alloc(), again, LIMIT);
    }
    let world = world.expect(&rt, "a layout and a limit");
    expect_that(
        &rt,
        is_quiet(&world) && reads(&world, 0, "ab") && world.trace().is_empty(),
    );
}

// Two edits of each site on their way up, from the joins on.
fn crossing() -> [Event; 10] {
    [
        Event::Join,
        Event::Join,
        types(1, 0, 'a'),
        types(1, 1, 'b'),
        types(2, 0, 'x'),
        types(2, 1, 'y'),
        Event::Up(1),
        Event::Up(2),
        Event::Up(1),
        Event::Up(2),
    ]
}

// The star and both sites show "xyab", with nothing on its way.
fn all_agree(rt: &impl Abort, world: &World) {
    for number in 0..3 {
        expect_eq(rt, (number, reads(world, number, "xyab")), (number, true));
    }
    expect_that(rt, is_quiet(world));
}

// Events are played. The trace has what was done, and the rest goes on from there.
fn runs(rt: &impl Abort, alloc: Global, world: &mut World, events: &[Event]) {
    begin(alloc);
    let ran = world.run(alloc, events);
    end(alloc);
    if let Err(Halted { done }) = ran {
        expect_eq(rt, world.trace().len(), done);
        assert!(rt; done < events.len());
        expect_eq(rt, world.run(alloc, &events[done..]), Ok(()));
    }
    expect_eq(rt, world.trace().len(), events.len());
}

#[test]
fn world_run(rt: HostRuntime) {
    let mut world = world_of(&rt, rt.alloc(), LIMIT, "text 1 \"\"", 0);
    runs(&rt, rt.alloc(), &mut world, &crossing());
    drain(&rt, rt.alloc(), &mut world);
    all_agree(&rt, &world);
}

// A drain in which an allocation failed is called again.
#[test]
fn world_drain(rt: HostRuntime) {
    let mut world = world_of(&rt, rt.alloc(), LIMIT, "text 1 \"\"", 0);
    expect_eq(&rt, world.run(rt.alloc(), crossing().as_slice()), Ok(()));
    begin(rt.alloc());
    let drained = world.drain(rt.alloc());
    end(rt.alloc());
    if drained.is_err() {
        expect_eq(&rt, world.star().order().len(), 4);
        drain(&rt, rt.alloc(), &mut world);
    }
    all_agree(&rt, &world);
}
