//! Sessions over memory.
ghost use Rattle.std.specs.Prelude.{◌≡◌, ◌≤◌, length};
ghost use Rattle.jup_hub.specs.Passes.{IsPassOf};

use crate::expect::{expect_eq, expect_text};
use crate::fakes::{Counting, FailsAt, FailsBehind, LineByLine, OneByOne, Slow};
use jup_hub::{Hub, Pass};
use jup_layout::layout;
use jup_link::Msg;
use jup_seq::SeqOp;
use jup_session::{Bell, Ending, Gate, Open, Peer, Serving, serve_link, serve_session};
use jup_star::{Star, Up, is_short};
use jup_text::write_board;
use jup_value::{Item, Name};
use jup_window::{BoardOp, WidgetOp};
use jup_xform::{Batch, NoMemory};
use std::alloc::Global;
use std::fmt::Write;
use std::io;
use std::io::Read;
use std::ops::Range;
use std::process::Abort;
use std::sync::Wait;
use std::sync::atomic::{AtomicU32, Ordering};
use std::thread::Threads;
use std::time::Clock;

pub(crate) const EMPTY_TEXT: &[u8] = b"window 1\ntext 1\n";

// A star over the board of a layout.
fn star_over(rt: &impl Abort, alloc: Global, text: &[u8], limit: u32) -> Star
    requires { length text.now ≤ 16777216 }
{
    let board = layout(alloc, text).expect(rt, "a layout");
    assert!(rt; is_short(&board));
    Star::open(alloc, board, limit).expect(rt, "a layout and a limit")
}

// A hub over the board of a layout.
pub(crate) fn open_hub(rt: &impl Abort, alloc: Global, text: &[u8], limit: u32) -> (Hub, Pass)
    requires { length text.now ≤ 16777216 }
    ensures { IsPassOf result.0 result.1 }
{
    match Hub::open(alloc, star_over(rt, alloc, text, limit)) {
        Ok(opened) => opened,
        Err(_) => panic!(rt; "there is no memory"),
    }
}

// The star of a hub that no turn holds.
pub(crate) fn close(rt: &impl Abort, hub: Hub, pass: Pass) -> Star
    requires { IsPassOf hub pass }
{
    let closed = hub.close(pass).ok().expect(rt, "the turn is free");
    closed.star
}

// What a session left behind, beside what it wrote.
#[derive(Drop)]
pub(crate) struct Left {
    pub(crate) ending: Ending,
    pub(crate) board: Vec<u8>,
    pub(crate) taken: usize,
    pub(crate) waiting: Option<usize>,
}

// Runs a session on an empty text, alone.
pub(crate) fn ran<
    R: Threads + Wait + Clock + Sync + Abort,
    I: Read + Drop,
    O: io::Write + Send + Drop,
    G: Gate,
>(rt: &R, alloc: Global, from: I, to: O, bell: &Bell, gate: &G) -> Left {
    let (hub, pass) = open_hub(rt, alloc, EMPTY_TEXT, 100);
    let (pass, ending) = serve_link(rt, alloc, from, to, &hub, pass, bell, gate);
    left_in(rt, alloc, &close(rt, hub, pass), ending)
}

// What a server has for the sessions of a hub whose gate is open.
pub(crate) fn serving_at<'a>(alloc: Global, hub: &'a Hub, bell: &'a Bell) -> Serving<'a, Open>
    ensures { result.hub.now ≡ hub.now }
{
    Serving {
        alloc,
        hub,
        bell,
        gate: &Open,
    }
}

// The same, over a writer whose peer can be given up.
pub(crate) fn ran_over<
    R: Threads + Wait + Clock + Sync + Abort,
    I: Read + Drop,
    O: Peer + Send + Drop,
>(rt: &R, alloc: Global, from: I, to: O, bell: &Bell) -> Left {
    let (hub, pass) = open_hub(rt, alloc, EMPTY_TEXT, 100);
    let session = serving_at(alloc, &hub, bell).serve(rt, from, to, pass);
    left_in(rt, alloc, &close(rt, hub, session.pass), session.ending)
}

// What a session with this ending left in the star.
fn left_in(rt: &impl Abort, alloc: Global, star: &Star, ending: Ending) -> Left {
    let mut board = Vec::new(alloc);
    write_board(alloc, star.board(), &mut board).expect(rt, "there is memory");
    Left {
        ending,
        board,
        taken: star.order().len(),
        waiting: star.waiting(1),
    }
}

pub(crate) const TYPED: &[u8] = b"hello 3\nbatch 0 0 1\ndo 1 1 text ins 0 1.1 97\nping 7\nbye\n";

pub(crate) const TYPED_ANSWER: &str = "welcome 1 100\nwindow 1\ntext 1\nready\npong 7\nbye\n";

// Two insertions that are one edit, about which the gate is asked and informed once.
const PAIR: &[u8] =
    b"hello 3\nbatch 0 0 2\ndo 1 1 text ins 0 1.1 97\ndo 1 1 text ins 1 1.2 98\nbye\n";

#[test]
fn operations_of_one_message_are_one_edit(rt: HostRuntime) {
    let gate = Counting::new(1);
    let from = OneByOne {
        text: PAIR,
        is_next: false,
    };
    let mut written = Vec::new(rt.alloc());
    let left = ran(&rt, rt.alloc(), from, &mut written, &Bell::new(), &gate);
    expect_eq(&rt, (left.ending, left.taken), (Ending::Bye, 1));
    expect_text(&rt, written.as_slice(), CUT_ANSWER);
    expect_text(&rt, left.board.as_slice(), "window 1\ntext 1 \"ab\"\n");
    expect_eq(&rt, gate.asked.load(Ordering::SeqCst), 1);
    expect_eq(&rt, gate.told.load(Ordering::SeqCst), 1);
}

// A line for each of these numbers, between a first and a last text. The `#` in it becomes the number.
pub(crate) fn lines(
    rt: &impl Abort,
    alloc: Global,
    first: &str,
    line: &str,
    numbers: Range<u32>,
    last: &str,
) -> String {
    let mut text = String::from_str(alloc, first).expect(rt, "there is memory");
    let (before, after) = line.split_once('#').unwrap_or((line, ""));
    for number in numbers {
        writeln!(text, "{before}{number}{after}").expect(rt, "there is memory");
    }
    text.push_str(last).expect(rt, "there is memory");
    text
}

// A session whose writer is slow at its first pong. How many lines were read meanwhile.
fn read_while_slow<R: Threads + Wait + Clock + Sync + Abort>(
    rt: &R,
    alloc: Global,
    text: &[u8],
    written: &mut Vec<u8>,
) -> u32 {
    let (given, seen) = (AtomicU32::new(0), AtomicU32::new(0));
    let from = LineByLine {
        text,
        given: &given,
    };
    let to = Slow {
        rt,
        writes: 0,
        text: written,
        given: &given,
        seen: &seen,
    };
    let left = ran(rt, alloc, from, to, &Bell::new(), &Open);
    expect_eq(rt, left.ending, Ending::Bye);
    seen.load(Ordering::SeqCst)
}

// The greeting, the pings whose pongs are owed, and one more, which is read and waits.
#[test]
fn a_site_is_owed_at_most_1024_pongs(rt: HostRuntime) {
    let alloc = rt.alloc();
    let from = lines(&rt, alloc, "hello 3\n", "ping #", 0..3_000, "bye\n");
    let answer = lines(&rt, alloc, GREETING, "pong #", 0..3_000, "bye\n");
    let mut written = Vec::new(alloc);
    let read = read_while_slow(&rt, alloc, from.as_bytes(), &mut written);
    expect_eq(&rt, (read, read <= 1_026), (read, true));
    expect_text(&rt, written.as_slice(), answer.as_str());
}

// The half that reads waits with a ping beyond the 1,024 whose pongs are owed, and the half that writes fails: nobody waits any more.
#[test]
fn a_ping_that_waits_ends_with_its_session(rt: HostRuntime) {
    let alloc = rt.alloc();
    let text = lines(&rt, alloc, "hello 3\n", "ping #", 0..2_000, "bye\n");
    let given = AtomicU32::new(0);
    let from = LineByLine {
        text: text.as_bytes(),
        given: &given,
    };
    let to = FailsBehind {
        rt: &rt,
        is_first: true,
        given: &given,
        lines: 1_026,
    };
    let left = ran(&rt, alloc, from, to, &Bell::new(), &Open);
    expect_eq(&rt, left.ending, Ending::Fault(71));
}

/// Greets. Then another pass leaves for the first site, and a ping comes.
#[derive(Drop)]
struct LeftBy<'a, R> {
    rt: &'a R,
    hub: &'a Hub,
    pass: Pass,
    reads: u32,
    ghost ours: { IsPassOf hub.now pass },
}

impl<'a, R: Wait> Read for LeftBy<'a, R> {
    fn read(&mut self, buf: &mut [u8]) -> io::Result<usize> {
        self.reads = self.reads.saturating_add(1);
        let mut text: &[u8] = match self.reads {
            1 => b"hello 3\n",
            2 => {
                let _ = self.hub.leave(self.rt, &mut self.pass, 1);
                b"ping 1\n"
            }
            _ => b"",
        };
        text.read(buf)
    }
}

#[test]
fn another_pass_leaves_for_the_site(rt: HostRuntime) {
    let alloc = rt.alloc();
    let (hub, mut pass) = open_hub(&rt, alloc, EMPTY_TEXT, 100);
    let from = LeftBy {
        rt: &rt,
        hub: &hub,
        pass: hub.split(&mut pass),
        reads: 0,
    };
    let mut to = Vec::new(alloc);
    let (_, ending) = serve_link(&rt, alloc, from, &mut to, &hub, pass, &Bell::new(), &Open);
    expect_eq(&rt, ending, Ending::Gone);
    expect_text(&rt, to.as_slice(), CUT_ANSWER);
}

// The first edit of a site, an insertion into the text.
pub(crate) fn first_edit(alloc: Global, site: u32) -> Result<Up, NoMemory> {
    let name = Name { site, number: 1 };
    let item = Item { name, value: 'b' };
    let op = BoardOp {
        win: 1,
        wid: 1,
        op: WidgetOp::Text(SeqOp::Insert { place: 0, item }),
    };
    Ok(Up::Op(Msg {
        mine: 0,
        heard: 0,
        op: Batch::from_slice(alloc, &[op])?,
    }))
}

// The second session of a hub, whose writer fails at a write: how it ends, and whether a write of it has failed. The other site stays.
pub(crate) fn write_fails<R: Threads + Wait + Clock + Sync + Abort, I: Read + Drop>(
    rt: &R,
    alloc: Global,
    from: I,
    writes: u32,
) -> (Ending, bool) {
    let (hub, mut pass) = open_hub(rt, alloc, EMPTY_TEXT, 100);
    let first = hub.join_site(rt, alloc, &mut pass).expect(rt, "it joins");
    expect_eq(rt, first.site, 1);
    let mut text = Vec::new(alloc);
    let to = FailsAt {
        writes,
        text: &mut text,
    };
    let session = serve_session(rt, alloc, from, to, &hub, pass, &Bell::new(), &Open);
    let (mut pass, ended) = (session.pass, (session.ending, session.has_failed));
    let edit = first_edit(alloc, 1).expect(rt, "one operation takes no memory");
    expect_eq(rt, hub.take(rt, alloc, &mut pass, 1, &edit), Ok(Some(0)));
    let star = close(rt, hub, pass);
    expect_eq(rt, star.waiting(2), None);
    expect_eq(rt, star.waiting(1), Some(0));
    ended
}

#[test]
fn a_gate_that_stays_shut(rt: HostRuntime) {
    let gate = Counting::new(0);
    let mut written = Vec::new(rt.alloc());
    let left = ran(&rt, rt.alloc(), TYPED, &mut written, &Bell::new(), &gate);
    expect_eq(&rt, (left.ending, left.taken), (Ending::Fault(60), 0));
    let due = "welcome 1 100\nwindow 1\ntext 1\nready\nerror 60\n";
    expect_text(&rt, written.as_slice(), due);
    expect_eq(&rt, gate.asked.load(Ordering::SeqCst), 100_001);
    expect_eq(&rt, gate.told.load(Ordering::SeqCst), 0);
}

pub(crate) const GREETING: &str = "welcome 1 100\nwindow 1\ntext 1\nready\n";

pub(crate) const CUT_ANSWER: &str = "welcome 1 100\nwindow 1\ntext 1\nready\nbye\n";
