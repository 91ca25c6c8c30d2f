//! Each read and each write of a session fails in turn. `tools/programs` has links and streams of the built programs fail.

use crate::expect::{expect_eq, expect_text, expect_that};
use crate::fakes::{Endless, FailsAfter, FailsAt, Full, OneByOne};
use crate::sessions::{TYPED, ran, write_fails};
use jup_cli::run_client;
use jup_client::ClientEnd;
use jup_session::{Bell, Ending, Open};
use std::alloc::Global;

// The beginning of a text, of so many bytes.
fn first_bytes(text: &[u8], len: usize) -> FailsAfter<'_> {
    FailsAfter {
        text: text.get(..len).unwrap_or(text),
    }
}

// What a session writes whose read fails after so many bytes of what was typed, and how many edits are taken by then.
fn due_after(len: usize) -> (&'static str, usize) {
    match len {
        0..8 => ("error 70\n", 0),
        8..45 => ("welcome 1 100\nwindow 1\ntext 1\nready\nerror 70\n", 0),
        45..52 => ("welcome 1 100\nwindow 1\ntext 1\nready\nerror 70\n", 1),
        _ => (
            "welcome 1 100\nwindow 1\ntext 1\nready\npong 7\nerror 70\n",
            1,
        ),
    }
}

#[test]
fn each_read_of_a_session(rt: HostRuntime) {
    expect_eq(&rt, TYPED.len(), 56);
    for len in 0..56 {
        let (from, mut written) = (first_bytes(TYPED, len), Vec::new(rt.alloc()));
        let left = ran(&rt, rt.alloc(), from, &mut written, &Bell::new(), &Open);
        let (due, taken) = due_after(len);
        expect_eq(&rt, (len, left.ending), (len, Ending::Fault(70)));
        expect_text(&rt, written.as_slice(), due);
        expect_eq(&rt, (len, left.taken, left.waiting), (len, taken, None));
    }
}

// A write that takes no byte has failed, and is not made again.
#[test]
fn a_session_whose_writer_is_full_ends(rt: HostRuntime) {
    let left = ran(&rt, rt.alloc(), TYPED, Full, &Bell::new(), &Open);
    expect_eq(
        &rt,
        (left.ending, left.taken, left.waiting),
        (Ending::Fault(71), 0, None),
    );
}

// The greeting, the pong and the last line are three writes. The pong meets the failure before the site says bye, which ends the session so, or after it.
#[test]
fn each_write_of_a_session(rt: HostRuntime) {
    let from: &[u8] = b"hello 3\nping 7\nbye\n";
    let (lost, bye) = (Ending::Fault(71), Ending::Bye);
    expect_eq(&rt, write_fails(&rt, rt.alloc(), from, 0), (lost, true));
    for writes in 1..3 {
        let (ending, has_failed) = write_fails(&rt, rt.alloc(), from, writes);
        expect_that(&rt, has_failed && (ending == lost || ending == bye));
    }
    expect_eq(&rt, write_fails(&rt, rt.alloc(), from, 3), (bye, false));
}

// A site that pings on and never says bye has a session that only its failed write ends: the first after the greeting, or a later one.
#[test]
fn a_write_that_fails_after_the_greeting(rt: HostRuntime) {
    for writes in 1..4 {
        let from = Endless {
            text: b"hello 3\n",
            line: b"ping 7\n",
        };
        let ended = write_fails(&rt, rt.alloc(), from, writes);
        expect_eq(&rt, (writes, ended), (writes, (Ending::Fault(71), true)));
    }
}

const LINK: &[u8] = b"welcome 1 100\nwindow 1\ntext 1\ntoggle 3 off\nready\npong 1\n";

#[test]
fn a_client_whose_link_takes_no_greeting_ends(rt: HostRuntime) {
    let (mut text, mut out) = (Vec::new(rt.alloc()), Vec::new(rt.alloc()));
    let link = FailsAt {
        writes: 0,
        text: &mut text,
    };
    let commands: &[u8] = b"sync\nquit\n";
    let end = run_client(rt.alloc(), commands, &mut out, LINK, link);
    expect_eq(&rt, end, Err(ClientEnd::WriteFailed));
    expect_eq(&rt, out.len(), 0);
}

#[test]
fn a_read_of_commands_that_is_interrupted_is_made_again(rt: HostRuntime) {
    let (mut to, mut out) = (Vec::new(rt.alloc()), Vec::new(rt.alloc()));
    let commands = OneByOne {
        text: b"set 1 3 on\nquit\n",
        is_next: false,
    };
    let end = run_client(rt.alloc(), commands, &mut out, LINK, &mut to);
    expect_eq(&rt, end, Ok(()));
    expect_text(&rt, out.as_slice(), "site 1\nmade set 1 3 on\nbye\n");
}
