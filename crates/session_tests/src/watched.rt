//! A gate that looks at the hub.
ghost use Rattle.jup_hub.specs.Passes.{IsPassOf};

use crate::expect::expect_eq;
use crate::sessions::{EMPTY_TEXT, TYPED, open_hub};
use jup_hub::{Hub, Pass};
use jup_session::{Bell, Ending, Gate, serve_link};
use std::sync::atomic::{AtomicU32, Ordering};
use std::sync::{Mutex, Wait};

/// A hub, and a pass of it.
#[derive(Drop)]
struct Sight<'a> {
    hub: &'a Hub,
    pass: Pass,
    ghost ours: { IsPassOf hub.now pass },
}

impl<'a> Sight<'a> {
    // Whether there was an event since the last look.
    fn looks(&mut self) -> bool {
        self.hub.news(&mut self.pass)
    }
}

/// Looks at the hub when it is asked, and when it is answered. Counts the edits that the hub took between the two.
#[derive(Drop)]
struct Watching<'a, R> {
    rt: &'a R,
    sight: Mutex<Sight<'a>>,
    takes: AtomicU32,
}

impl<'a, R: Wait> Gate for Watching<'a, R> {
    fn ready(&self, _site: u32, _nth: u32) -> bool {
        let _ = self.sight.lock(self.rt).looks();
        true
    }

    fn answered(&self, _site: u32, _nth: u32) {
        if self.sight.lock(self.rt).looks() {
            self.takes.fetch_add(1, Ordering::SeqCst);
        }
    }
}

#[test]
fn the_gate_is_informed_once_the_hub_has_taken(rt: HostRuntime) {
    let alloc = rt.alloc();
    let (hub, mut pass) = open_hub(&rt, alloc, EMPTY_TEXT, 100);
    let sight = Sight {
        hub: &hub,
        pass: hub.split(&mut pass),
    };
    let gate = Watching {
        rt: &rt,
        sight: Mutex::new(sight),
        takes: AtomicU32::new(0),
    };
    let mut to = Vec::new(alloc);
    let (_, ending) = serve_link(&rt, alloc, TYPED, &mut to, &hub, pass, &Bell::new(), &gate);
    expect_eq(&rt, ending, Ending::Bye);
    expect_eq(&rt, gate.takes.load(Ordering::SeqCst), 1);
}
