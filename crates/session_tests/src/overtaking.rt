//! Two sessions at one bell. One counts the operations of its site, by which the site of the other is behind.
ghost use Rattle.jup_hub.specs.Passes.{IsPassOf};

use crate::behind::MOST;
use crate::expect::{expect_eq, expect_text};
use crate::sessions::{EMPTY_TEXT, open_hub};
use jup_hub::{Hub, Pass};
use jup_session::{Bell, Ending, Open, serve_link};
use std::alloc::Global;
use std::io;
use std::io::Read;
use std::process::Abort;
use std::sync::Wait;
use std::sync::atomic::{AtomicBool, Ordering};
use std::thread::{Threads, join, sleep};
use std::time::{Clock, Duration};

/// Milliseconds that a reader waits at most for what the other session does.
const PATIENCE: u32 = 10_000;

/// Gives the greeting of site 1. Then others make operations, and it gives nothing until the bell has rung so often for its site.
#[derive(Drop)]
struct Lagging<'a, R> {
    rt: &'a R,
    bell: &'a Bell,
    greeting: &'a [u8],
    others: u32,
    has_joined: &'a AtomicBool,
    rings: u64,
}

impl<'a, R: Wait + Clock> Lagging<'a, R> {
    fn wait_for_rings(&self) {
        for _ in 0..PATIENCE {
            if self.bell.wait(self.rt, 1, u64::MAX) >= self.rings {
                return;
            }
            sleep(self.rt, Duration::from_millis(1));
        }
    }
}

impl<'a, R: Wait + Clock> Read for Lagging<'a, R> {
    fn read(&mut self, buf: &mut [u8]) -> io::Result<usize> {
        if self.greeting.is_empty() {
            self.bell.count(self.others);
            self.others = 0;
            self.has_joined.store(true, Ordering::SeqCst);
            self.wait_for_rings();
        }
        self.greeting.read(buf)
    }
}

/// Gives a text once the other site has joined.
#[derive(Drop)]
struct Later<'a, R> {
    rt: &'a R,
    has_joined: &'a AtomicBool,
    text: &'a [u8],
}

impl<'a, R: Clock> Read for Later<'a, R> {
    fn read(&mut self, buf: &mut [u8]) -> io::Result<usize> {
        for _ in 0..PATIENCE {
            if self.has_joined.load(Ordering::SeqCst) {
                break;
            }
            sleep(self.rt, Duration::from_millis(1));
        }
        self.text.read(buf)
    }
}

/// What a session came to.
#[derive(Drop)]
struct Came {
    ending: Ending,
    written: Vec<u8>,
}

// A session over memory.
fn serve<R: Threads + Wait + Clock + Sync, I: Read + Drop>(
    rt: &R,
    alloc: Global,
    from: I,
    hub: &Hub,
    pass: Pass,
    bell: &Bell,
) -> Came
    requires { IsPassOf hub.now pass }
{
    let mut written = Vec::new(alloc);
    let (_, ending) = serve_link(rt, alloc, from, &mut written, hub, pass, bell, &Open);
    Came { ending, written }
}

const EDIT: &[u8] = b"hello 3\nbatch 0 0 1\ndo 1 1 text ins 0 2.1 97\nbye\n";

// Site 1 is so many operations behind once it has joined. Then site 2 makes one by a session of its own. Site 1 is silent until the bell has rung so often
// for it. What both sessions came to.
fn overtaken_by_one<R: Threads + Wait + Clock + Sync + Abort>(
    rt: &R,
    alloc: Global,
    others: u32,
    rings: u64,
) -> (Came, Came) {
    let (hub, mut pass) = open_hub(rt, alloc, EMPTY_TEXT, 100);
    let theirs = hub.split(&mut pass);
    let (bell, has_joined) = (Bell::new(), AtomicBool::new(false));
    let lagging = Lagging {
        rt,
        bell: &bell,
        greeting: b"hello 3\n",
        others,
        has_joined: &has_joined,
        rings,
    };
    let later = Later {
        rt,
        has_joined: &has_joined,
        text: EDIT,
    };
    join(
        rt,
        ||
            requires { IsPassOf hub pass }
        { serve(rt, alloc, lagging, &hub, pass, &bell) },
        ||
            requires { IsPassOf hub theirs }
        { serve(rt, alloc, later, &hub, theirs, &bell) },
    )
}

// The operation is the last that site 1 may be behind, and its message comes. After one ring site 1 ends its link.
#[test]
fn an_operation_of_a_session_counts_once(rt: HostRuntime) {
    let (first, second) = overtaken_by_one(&rt, rt.alloc(), MOST - 1, 1);
    expect_eq(
        &rt,
        (first.ending, second.ending),
        (Ending::Gone, Ending::Bye),
    );
    let due =
        "welcome 1 100\nwindow 1\ntext 1\nready\nbatch 0 0 1\ndo 1 1 text ins 0 2.1 97\nbye\n";
    expect_text(&rt, first.written.as_slice(), due);
    let due = "welcome 2 100\nwindow 1\ntext 1\nready\nbye\n";
    expect_text(&rt, second.written.as_slice(), due);
}

// The operation is one too many. The second ring is that of the half that writes, once it has ended.
#[test]
fn an_operation_of_a_session_puts_another_site_too_far_behind(rt: HostRuntime) {
    let (first, second) = overtaken_by_one(&rt, rt.alloc(), MOST, 2);
    expect_eq(
        &rt,
        (first.ending, second.ending),
        (Ending::Fault(71), Ending::Bye),
    );
    let due = "welcome 1 100\nwindow 1\ntext 1\nready\nerror 71\n";
    expect_text(&rt, first.written.as_slice(), due);
}
