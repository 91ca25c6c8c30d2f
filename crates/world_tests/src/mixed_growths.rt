//! Failed allocations in a star with strangers, each test for the call of its name. `./growths` makes one after another of the allocations between
//! two marks fail. An event that fails leaves all that is seen as before, and gives its answer if it is played again.
use crate::expect::{expect_eq, expect_that};
use crate::mixed_runs::{deleting_twice, filling, refusals, typing};
use jup_mixed::{MixEvent, MixHappened, Mixed};
use jup_star::OpenFault;
use jup_text::write_board;
use std::alloc::Global;
use std::process::Abort;
use test_boards::{board_of, reads};
use test_marks::{begin, end};

/// How many edits a star takes, if it is to have room.
const LIMIT: u32 = 100_000;

// What a star with strangers shows: its board and the site's as they are printed, and its order and its trace in full. Then how many
// messages wait for links 1 and 2, and whether anything is on its way to the site or from it.
#[derive(Drop)]
struct Seen {
    boards: Vec<u8>,
    happened: String,
    waiting: [Option<usize>; 2],
    is_quiet: bool,
}

// The order of the edits and the trace, with all that is in them.
fn happened_in(rt: &impl Abort, alloc: Global, mixed: &Mixed) -> String {
    let (order, trace) = (mixed.star().order(), mixed.trace());
    format!(in alloc; "{order:?} {trace:?}").expect(rt, "memory")
}

fn look_at(rt: &impl Abort, alloc: Global, mixed: &Mixed) -> Seen {
    let mut boards = Vec::new(alloc);
    write_board(alloc, mixed.star().board(), &mut boards).expect(rt, "memory");
    if let Some(site) = mixed.site() {
        write_board(alloc, site.board(), &mut boards).expect(rt, "memory");
    }
    Seen {
        boards,
        happened: happened_in(rt, alloc, mixed),
        waiting: [mixed.star().waiting(1), mixed.star().waiting(2)],
        is_quiet: mixed.quiet(),
    }
}

// All is seen as before; but if a message is moved down, one that waited may be on its way.
fn is_spared(rt: &impl Abort, event: &MixEvent, was: &Seen, now: &Seen) {
    expect_eq(rt, now.boards.as_slice(), was.boards.as_slice());
    expect_eq(rt, now.happened.as_str(), was.happened.as_str());
    expect_eq(rt, now.is_quiet, was.is_quiet);
    expect_eq(rt, now.waiting[1], was.waiting[1]);
    let one_less = was.waiting[0].map(|count| count.saturating_sub(1));
    let fetched = *event == MixEvent::Down && now.waiting[0] == one_less;
    expect_that(rt, fetched || now.waiting[0] == was.waiting[0]);
}

// The event happens, with this reply. If an allocation fails, all is as before.
fn happens(rt: &impl Abort, alloc: Global, mixed: &mut Mixed, wanted: &MixHappened) {
    let was = look_at(rt, alloc, mixed);
    begin(alloc);
    let mut reply = mixed.step(alloc, &wanted.event);
    end(alloc);
    if reply.is_err() {
        is_spared(rt, &wanted.event, &was, &look_at(rt, alloc, mixed));
        reply = mixed.step(alloc, &wanted.event);
    }
    let reply = reply.expect(rt, "memory");
    expect_eq(rt, (&wanted.event, &reply), (&wanted.event, &wanted.reply));
}

// The star reads so, and the site too. Or the site is not attached.
fn read(rt: &impl Abort, mixed: &Mixed, shown: (&str, bool)) {
    let (text, is_attached) = shown;
    expect_eq(rt, (text, reads(mixed.star().board(), text)), (text, true));
    let site_reads = mixed.site().map(|site| reads(site.board(), text));
    let due = if is_attached { Some(true) } else { None };
    expect_eq(rt, (text, site_reads), (text, due));
}

// A star over this text.
fn mixed_over(rt: &impl Abort, alloc: Global, text: &str, limit: u32) -> Mixed {
    let board = board_of(alloc, &["window 1", text]).expect(rt, "a board");
    Mixed::open(alloc, board, limit).expect(rt, "a limit and memory")
}

// Plays a run over a text, and all then show another.
fn plays(
    rt: &impl Abort,
    alloc: Global,
    opening: (&str, u32),
    run: &[MixHappened],
    shown: (&str, bool),
) {
    let (text, limit) = opening;
    let mut mixed = mixed_over(rt, alloc, text, limit);
    for wanted in run {
        happens(rt, alloc, &mut mixed, wanted);
    }
    expect_eq(rt, mixed.trace(), run);
    expect_that(rt, mixed.quiet());
    read(rt, &mixed, shown);
}

// All events are marked.
#[test]
fn mixed_step(rt: HostRuntime) {
    let alloc = rt.alloc();
    let (none, both) = (("text 1 \"\"", LIMIT), ("text 1 \"ab\"", LIMIT));
    plays(&rt, alloc, none, &typing(&rt, alloc), ("xys", true));
    plays(&rt, alloc, both, &deleting_twice(&rt, alloc), ("dbc", true));
    plays(&rt, alloc, both, &refusals(&rt, alloc), ("abc", true));
    let full = ("text 1 \"ab\"", 1);
    plays(&rt, alloc, full, &filling(&rt, alloc), ("b", false));
}

// Opens a star over a text "ab". The call is marked.
fn open_marked(rt: &impl Abort, alloc: Global, limit: u32) -> Result<Mixed, OpenFault> {
    let board = board_of(alloc, &["window 1", "text 1 \"ab\""]).expect(rt, "a board");
    begin(alloc);
    let opened = Mixed::open(alloc, board, limit);
    end(alloc);
    opened
}

fn is_open(rt: &impl Abort, mixed: &Mixed) {
    expect_that(rt, mixed.quiet() && reads(mixed.opening(), "ab"));
    read(rt, mixed, ("ab", true));
}

// A limit that is too low or too high is refused, also if an allocation would fail.
#[test]
fn mixed_open(rt: HostRuntime) {
    let alloc = rt.alloc();
    for &limit in &[0, 16_777_217] {
        let refused = open_marked(&rt, alloc, limit).err();
        expect_eq(&rt, (limit, refused), (limit, Some(OpenFault::BadLimit)));
    }
    let mut opened = open_marked(&rt, alloc, LIMIT);
    if matches!(&opened, Err(OpenFault::NoMemory)) {
        opened = open_marked(&rt, alloc, LIMIT);
    }
    is_open(&rt, &opened.expect(&rt, "a limit and memory"));
}
