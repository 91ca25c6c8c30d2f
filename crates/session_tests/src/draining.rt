//! What one thread reads of a link, and another takes.

use crate::expect::{expect_eq, expect_text};
use jup_net::{Drained, Inbox, Intake, drain};
use std::alloc::Global;
use std::io;
use std::io::{ErrorKind, Read};
use std::process::Abort;
use std::sync::Wait;
use std::thread::{Threads, join, sleep};
use std::time::{Clock, Duration};

/// What one read of a link comes to.
#[derive(Clone, Copy)]
enum Step {
    Bytes(&'static [u8]),
    Fails(ErrorKind),
    /// It waits for as long as its link lets it. Who takes waits meanwhile, and has to be woken by what comes next.
    Waits,
}

/// A link whose reads come to this, one after another, and then to its end.
#[derive(Drop)]
struct Steps<'a, R> {
    rt: &'a R,
    steps: &'a [Step],
    next: usize,
}

impl<'a, R: Clock> Read for Steps<'a, R> {
    fn read(&mut self, buf: &mut [u8]) -> io::Result<usize> {
        let Some(step) = self.steps.get(self.next) else {
            return Ok(0);
        };
        self.next = self.next.saturating_add(1);
        match step {
            Step::Bytes(bytes) => {
                let mut bytes: &[u8] = bytes;
                bytes.read(buf)
            }
            Step::Fails(kind) => Err(io::Error::from(*kind)),
            Step::Waits => {
                sleep(self.rt, Duration::from_millis(20));
                Err(io::Error::from(ErrorKind::WouldBlock))
            }
        }
    }
}

// All that an intake gives, and the failure after it, if it does not just end.
fn taken(rt: &(impl Wait + Abort), alloc: Global, intake: &Intake) -> (Vec<u8>, Option<ErrorKind>) {
    let mut from = Drained::new(rt, intake);
    let (mut bytes, mut piece) = (Vec::new(alloc), [0u8; 3]);
    for _ in rt.forever() {
        match from.read(&mut piece) {
            Ok(0) => break,
            Ok(len) => bytes
                .extend_from_slice(piece.get(..len).unwrap_or(&[]))
                .expect(rt, "there is memory"),
            Err(error) => return (bytes, Some(error.kind())),
        }
    }
    (bytes, None)
}

// What is taken of a link whose reads come to this.
fn expect_taken<R: Threads + Wait + Clock + Sync + Abort>(
    rt: &R,
    alloc: Global,
    steps: &[Step],
    due: &str,
    failure: Option<ErrorKind>,
) {
    let intake = Intake::new(Inbox::new(alloc).expect(rt, "there is memory"));
    let from = Steps { rt, steps, next: 0 };
    let ((), (bytes, kind)) = join(
        rt,
        || drain(rt, from, &intake),
        || taken(rt, alloc, &intake),
    );
    expect_text(rt, bytes.as_slice(), due);
    expect_eq(rt, kind, failure);
}

// A read that was interrupted, or has waited, is made again.
#[test]
fn what_a_link_brings_is_taken_and_then_its_end(rt: HostRuntime) {
    let steps = [
        Step::Waits,
        Step::Bytes(b"ab"),
        Step::Fails(ErrorKind::Interrupted),
        Step::Bytes(b"cdefg"),
        Step::Fails(ErrorKind::TimedOut),
        Step::Waits,
        Step::Bytes(b"h"),
        Step::Waits,
    ];
    expect_taken(&rt, rt.alloc(), &steps, "abcdefgh", None);
}

// A read that failed is no end.
#[test]
fn what_a_link_brings_is_taken_and_then_its_failure(rt: HostRuntime) {
    let steps = [
        Step::Bytes(b"ab"),
        Step::Waits,
        Step::Fails(ErrorKind::ConnectionReset),
        Step::Bytes(b"cd"),
    ];
    let failed = Some(ErrorKind::Other);
    expect_taken(&rt, rt.alloc(), &steps, "ab", failed);
}
