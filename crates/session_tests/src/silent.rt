//! A site that sends nothing while others put it too far behind.
ghost use Rattle.jup_hub.specs.Passes.{IsPassOf};

use crate::behind::{MOST, Ticking};
use crate::expect::{expect_eq, expect_text};
use crate::sessions::{EMPTY_TEXT, close, first_edit, open_hub, serving_at};
use jup_hub::{Hub, Pass};
use jup_session::{Bell, Ending, Peer};
use std::alloc::Global;
use std::io;
use std::io::{Read, Write};
use std::process::Abort;
use std::sync::Wait;
use std::sync::atomic::{AtomicU64, Ordering};
use std::thread::{Threads, sleep};
use std::time::{Clock, Duration};

/// Milliseconds that a reader waits at most until its link is given up.
const PATIENCE: u32 = 10_000;

/// When the reader of a silent site ends.
#[derive(Clone, Copy)]
enum Ends {
    /// Once the half that writes has ended.
    ByItself,
    /// Once its link is given up.
    GivenUp,
}

/// Gives a greeting. Then another site makes an edit, by which this one is too far behind, and it gives nothing until it ends.
#[derive(Drop)]
struct Beside<'a, R> {
    rt: &'a R,
    alloc: Global,
    bell: &'a Bell,
    hub: &'a Hub,
    pass: Pass,
    greeting: &'a [u8],
    ends: Ends,
    given_up: &'a AtomicU64,
    ghost ours: { IsPassOf hub.now pass },
}

impl<'a, R: Wait + Clock> Beside<'a, R> {
    // Has the hub take an edit of site 1, and rings.
    fn edit(&mut self) {
        if let Ok(edit) = first_edit(self.alloc, 1) {
            let _ = self.hub.take(self.rt, self.alloc, &mut self.pass, 1, &edit);
        }
        self.bell.count(MOST + 1);
        self.bell.ring(self.rt);
    }

    fn wait_until_given_up(&self) {
        for _ in 0..PATIENCE {
            if self.given_up.load(Ordering::SeqCst) > 0 {
                return;
            }
            sleep(self.rt, Duration::from_millis(1));
        }
    }
}

impl<'a, R: Wait + Clock> Read for Beside<'a, R> {
    fn read(&mut self, buf: &mut [u8]) -> io::Result<usize> {
        if self.greeting.is_empty() {
            self.edit();
            match self.ends {
                // The first ring is that of the edit, and the second is that of the end.
                Ends::ByItself => {
                    self.bell.wait(self.rt, 2, 1);
                }
                Ends::GivenUp => self.wait_until_given_up(),
            }
        }
        self.greeting.read(buf)
    }
}

/// Takes what it is given, and notes how often it was given up.
#[derive(Drop)]
struct Noting<'a> {
    text: &'a mut Vec<u8>,
    given_up: &'a AtomicU64,
}

impl<'a> Write for Noting<'a> {
    fn write(&mut self, buf: &[u8]) -> io::Result<usize> {
        self.text.write(buf)
    }

    fn flush(&mut self) -> io::Result<()> {
        Ok(())
    }
}

impl<'a> Peer for Noting<'a> {
    fn send(&mut self, bytes: &[u8]) -> io::Result<usize> {
        self.write(bytes)
    }

    fn pass_on(&mut self) -> io::Result<()> {
        self.flush()
    }

    fn give_up(&mut self) {
        self.given_up.fetch_add(1, Ordering::SeqCst);
    }
}

// What waits for it is not written, and why it is left is. How often its link is given up. The session runs in the first runtime, and the reader in the second.
fn given_up_at_a_ring<S: Threads + Wait + Clock + Sync, R: Wait + Clock + Sync + Abort>(
    serves: &S,
    rt: &R,
    alloc: Global,
    ends: Ends,
) -> u64 {
    let (hub, mut pass) = open_hub(rt, alloc, EMPTY_TEXT, 100);
    let first = hub.join_site(rt, alloc, &mut pass).expect(rt, "it joins");
    expect_eq(rt, first.site, 1);
    let (bell, given_up) = (Bell::new(), AtomicU64::new(0));
    let from = Beside {
        rt,
        alloc,
        bell: &bell,
        hub: &hub,
        pass: hub.split(&mut pass),
        greeting: b"hello 3\n",
        ends,
        given_up: &given_up,
    };
    let mut written = Vec::new(alloc);
    let to = Noting {
        text: &mut written,
        given_up: &given_up,
    };
    let session = serving_at(alloc, &hub, &bell).serve(serves, from, to, pass);
    let ended = (session.ending, session.has_failed);
    expect_eq(rt, ended, (Ending::Fault(71), false));
    let pass = session.pass;
    let due = "welcome 2 100\nwindow 1\ntext 1\nready\nerror 71\n";
    expect_text(rt, written.as_slice(), due);
    expect_eq(rt, close(rt, hub, pass).waiting(2), None);
    given_up.load(Ordering::SeqCst)
}

#[test]
fn a_silent_site_is_left_at_a_ring_once_it_is_too_far_behind(rt: HostRuntime) {
    let given_up = given_up_at_a_ring(&rt, &rt, rt.alloc(), Ends::ByItself);
    expect_eq(&rt, given_up, 0);
}

// By the clock of the session ten seconds go by without a wait.
#[test]
fn a_site_that_stays_silent_loses_its_link(rt: HostRuntime) {
    let ticking = Ticking::new(&rt);
    let given_up = given_up_at_a_ring(&ticking, &rt, rt.alloc(), Ends::GivenUp);
    expect_eq(&rt, (given_up, ticking.slept()), (1, 10_000_000));
}
