//! Sessions over bytes in memory, whose contracts name each byte that was read and written.
ghost use Rattle.std.specs.Prelude.{Some};
ghost use Rattle.jup_hub.specs.Passes.{view_of, IsPassOf};
ghost use Rattle.jup_session.specs.ExactSessions.{IsExact};

use crate::expect::{expect_eq, expect_text};
use crate::sessions::{CUT_ANSWER, EMPTY_TEXT, TYPED, TYPED_ANSWER, open_hub};
use jup_hub::{Hub, Pass};
use jup_session::{Bell, Ending, Open, Session, serve_session};
use std::alloc::Global;
use std::process::Abort;
use std::sync::Wait;
use std::thread::Threads;
use std::time::Clock;

// A session over bytes in memory. Its contract names those that it reads, and those that it appends to the writer.
fn serve_bytes<R: Threads + Wait + Clock + Sync>(
    rt: &R,
    alloc: Global,
    said: &[u8],
    to: Vec<u8>,
    hub: &Hub,
    pass: Pass,
) -> Session<Vec<u8>>
    requires { IsPassOf hub.now pass }
    ensures { IsExact (Some said.now) (Some to.items) (Some result.writer.items) (view_of pass) (view_of result.pass) result.ending result.has_failed result.undone }
{
    serve_session(rt, alloc, said, to, hub, pass, &Bell::new(), &Open)
}

// A session on an empty text ends so, and wrote this.
fn expect_written<R: Threads + Wait + Clock + Sync + Abort>(
    rt: &R,
    alloc: Global,
    said: &[u8],
    ending: Ending,
    written: &str,
) {
    let (hub, pass) = open_hub(rt, alloc, EMPTY_TEXT, 100);
    let session = serve_bytes(rt, alloc, said, Vec::new(alloc), &hub, pass);
    expect_eq(rt, (session.ending, session.has_failed), (ending, false));
    expect_eq(
        rt,
        (session.undone.untaken, session.undone.unsent),
        (None, None),
    );
    expect_text(rt, session.writer.as_slice(), written);
}

#[test]
fn all_that_is_written(rt: HostRuntime) {
    for &(said, ending, written) in &[
        (TYPED, Ending::Bye, TYPED_ANSWER),
        (b"hello 3\n".as_slice(), Ending::Gone, CUT_ANSWER),
        (b"".as_slice(), Ending::Gone, "bye\n"),
        (b"bye\n".as_slice(), Ending::Fault(44), "error 44\n"),
    ] {
        expect_written(&rt, rt.alloc(), said, ending, written);
    }
}
