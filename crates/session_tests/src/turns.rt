//! A site whose costly message waits while another session has the turn.
ghost use Rattle.jup_hub.specs.Passes.{IsPassOf};

use crate::behind::{EDIT, MOST, Ticking};
use crate::expect::expect_eq;
use crate::sessions::{EMPTY_TEXT, open_hub};
use jup_session::{Bell, Ending, Gate, Open, serve_link};
use std::alloc::Global;
use std::io;
use std::io::Read;
use std::process::Abort;
use std::sync::Wait;
use std::sync::atomic::{AtomicU32, Ordering};
use std::thread::{Threads, join, sleep};
use std::time::{Clock, Duration};

/// Milliseconds that a site waits at most for what the other one does.
const PATIENCE: u32 = 10_000;

/// Milliseconds for which the first session keeps its turn, so that the second one comes to wait for it.
const KEPT: u64 = 100;

/// By how many operations both sites are behind once they have joined. For them an edit is long, and one of five operations is costly.
const BEHIND: u32 = MOST - 100;

/// An edit of five operations of the second site.
const COSTLY: &[u8] =
    b"batch 0 0 5\ndo 1 1 text ins 0 2.1 97\ndo 1 1 text ins 0 2.2 98\ndo 1 1 text ins 0 2.3 99\ndo 1 1 text ins 0 2.4 97\ndo 1 1 text ins 0 2.5 98\nbye\n";

/// The same of the first site. Its number is not the next one, so the star refuses it.
const REFUSED: &[u8] =
    b"batch 1 0 5\ndo 1 1 text ins 0 1.1 97\ndo 1 1 text ins 0 1.2 98\ndo 1 1 text ins 0 1.3 99\ndo 1 1 text ins 0 1.4 97\ndo 1 1 text ins 0 1.5 98\nbye\n";

/// How far both sessions have come: none has joined, the first one, both, or the first one has its turn.
#[derive(Drop)]
struct Steps<'a, R> {
    rt: &'a R,
    step: AtomicU32,
}

impl<'a, R: Clock> Steps<'a, R> {
    fn reach(&self, step: u32) {
        self.step.fetch_max(step, Ordering::SeqCst);
    }

    fn wait_for(&self, step: u32) {
        for _ in 0..PATIENCE {
            if self.step.load(Ordering::SeqCst) >= step {
                return;
            }
            sleep(self.rt, Duration::from_millis(1));
        }
    }
}

/// Gives a greeting at a step, by which its site joins. At the step after the next one it gives a text, before which others make operations.
#[derive(Drop)]
struct Stepwise<'a, R> {
    steps: &'a Steps<'a, R>,
    bell: &'a Bell,
    step: u32,
    greeting: &'a [u8],
    others: u32,
    text: &'a [u8],
}

impl<'a, R: Clock> Read for Stepwise<'a, R> {
    fn read(&mut self, buf: &mut [u8]) -> io::Result<usize> {
        if !self.greeting.is_empty() {
            self.steps.wait_for(self.step);
            return self.greeting.read(buf);
        }
        self.steps.reach(self.step.saturating_add(1));
        self.steps.wait_for(self.step.saturating_add(2));
        self.bell.count(self.others);
        self.others = 0;
        self.text.read(buf)
    }
}

/// Keeps the turn of the first session for some time. Then others make operations, and by the clock of the second session a second goes by.
#[derive(Drop)]
struct Keeping<'a, R> {
    steps: &'a Steps<'a, R>,
    bell: &'a Bell,
    others: u32,
    ticking: &'a Ticking<'a, R>,
}

impl<'a, R: Clock> Gate for Keeping<'a, R> {
    fn ready(&self, _site: u32, _nth: u32) -> bool {
        self.steps.reach(3);
        sleep(self.steps.rt, Duration::from_millis(KEPT));
        self.bell.count(self.others);
        self.ticking.pass();
        true
    }

    fn answered(&self, _site: u32, _nth: u32) {}
}

// How the session of the second site ends, and for how many microseconds it rests. It waits while the first one is at this text, and others make operations.
fn waits_beside<'a, R: Threads + Wait + Clock + Sync + Abort>(
    rt: &'a R,
    alloc: Global,
    text: &'a [u8],
    others: u32,
) -> (Ending, u64) {
    let (hub, mut pass) = open_hub(rt, alloc, EMPTY_TEXT, 100);
    let theirs = hub.split(&mut pass);
    let (bell, ticking) = (Bell::new(), Ticking::new(rt));
    let steps = Steps {
        rt,
        step: AtomicU32::new(0),
    };
    let gate = Keeping {
        steps: &steps,
        bell: &bell,
        others,
        ticking: &ticking,
    };
    let from_first = reader_of(&steps, &bell, 0, BEHIND, text);
    let from_second = reader_of(&steps, &bell, 1, 0, COSTLY);
    let (_, ending) = join(
        rt,
        ||
            requires { IsPassOf hub pass }
        {
            let mut to = Vec::new(alloc);
            serve_link(rt, alloc, from_first, &mut to, &hub, pass, &bell, &gate).1
        },
        ||
            requires { IsPassOf hub theirs }
        {
            let mut to = Vec::new(alloc);
            serve_link(
                &ticking,
                alloc,
                from_second,
                &mut to,
                &hub,
                theirs,
                &bell,
                &Open,
            )
            .1
        },
    );
    (ending, ticking.slept())
}

// The reader of a site that joins at this step, with its greeting.
fn reader_of<'a, R>(
    steps: &'a Steps<'a, R>,
    bell: &'a Bell,
    step: u32,
    others: u32,
    text: &'a [u8],
) -> Stepwise<'a, R> {
    Stepwise {
        steps,
        bell,
        step,
        greeting: b"hello 3\n",
        others,
        text,
    }
}

// The take of ten milliseconds counts, and not the second for which the session waits before it.
#[test]
fn a_session_rests_by_the_take_and_not_by_the_wait(rt: HostRuntime) {
    let rested = waits_beside(&rt, rt.alloc(), EDIT, 0);
    expect_eq(&rt, rested, (Ending::Bye, 70_000));
}

// Its message is not taken, so its session does not rest. Nothing was taken of the first site either, so no ring has the half that writes look.
#[test]
fn a_site_is_left_that_is_too_far_behind_as_its_turn_comes(rt: HostRuntime) {
    let rested = waits_beside(&rt, rt.alloc(), REFUSED, 200);
    expect_eq(&rt, rested, (Ending::Fault(71), 0));
}
