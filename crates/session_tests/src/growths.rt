//! Failed allocations in sessions, in clients and in the words of a daemon, each test for the call of its name. `./growths` makes one after another of
//! the allocations between the two marks fail. What fails says so, and does all that was asked for if it begins again.
ghost use Rattle.jup_hub.specs.Passes.{IsPassOf};

use crate::expect::{expect_eq, expect_that};
use crate::programs::daemon_at;
use crate::sessions::{CUT_ANSWER, EMPTY_TEXT, GREETING, TYPED, TYPED_ANSWER, close, open_hub};
use jup_cli::run_client;
use jup_client::ClientEnd;
use jup_daemon::daemon_words;
use jup_hub::{Hub, Pass};
use jup_session::{Bell, Ending, Open, serve_link};
use std::alloc::Global;
use std::process::Abort;
use std::str;
use std::sync::Wait;
use std::thread::Threads;
use std::time::Clock;
use test_marks::{begin, end};

// Whether a session in which an allocation failed says so, wherever that was.
fn reports_no_memory(written: &[u8]) -> bool {
    match str::from_utf8(written) {
        Ok(written) => {
            let told = written.strip_prefix(GREETING).unwrap_or(written);
            told == "error 8\n" || told == "pong 7\nerror 8\n"
        }
        Err(_) => false,
    }
}

// A session ended so, and wrote what is due there. A fetch that is refused once the site has said bye is the last one, and what waited is lost.
fn is_due(rt: &impl Abort, ending: Ending, written: &[u8]) {
    if ending == Ending::Bye {
        let written = str::from_utf8(written);
        expect_that(rt, written == Ok(TYPED_ANSWER) || written == Ok(CUT_ANSWER));
    } else {
        expect_eq(rt, ending, Ending::Fault(8));
        expect_that(rt, reports_no_memory(written));
    }
}

// The session of a hub, of which nothing is left when it has ended.
fn serve_alone<R: Threads + Wait + Clock + Sync + Abort>(
    rt: &R,
    alloc: Global,
    hub: &Hub,
    pass: Pass,
) -> (Pass, Ending)
    requires { IsPassOf hub.now pass }
    ensures { IsPassOf hub.now result.0 }
{
    let mut to = Vec::with_capacity(alloc, 4_096).expect(rt, "memory");
    let bell = Bell::new();
    begin(alloc);
    let (pass, ending) = serve_link(rt, alloc, TYPED, &mut to, hub, pass, &bell, &Open);
    end(alloc);
    is_due(rt, ending, to.as_slice());
    (pass, ending)
}

// How a session on an empty text ends, whose site has then left, and whose pass has seen all.
fn session<R: Threads + Wait + Clock + Sync + Abort>(rt: &R, alloc: Global) -> Ending {
    let (hub, pass) = open_hub(rt, alloc, EMPTY_TEXT, 100);
    let (mut pass, ending) = serve_alone(rt, alloc, &hub, pass);
    expect_that(rt, !hub.news(&mut pass));
    let star = close(rt, hub, pass);
    expect_eq(rt, star.waiting(1), None);
    expect_that(rt, ending != Ending::Bye || star.order().len() == 1);
    ending
}

#[test]
fn session_served(rt: HostRuntime) {
    let mut ending = session(&rt, rt.alloc());
    if ending == Ending::Fault(8) {
        ending = session(&rt, rt.alloc());
    }
    expect_eq(&rt, ending, Ending::Bye);
}

const PRINTED: &str = "site 1\nmade ins 1 1 1.1 \"a\"\nmade ins 1 1 1.2 \"b\"; del 1 1 1.1\n\
    synced\nwindow 1\ntext 1 \"b\"\nbye\n";

// How a client ends, which printed the beginning of what is due, and all of it if it ended well.
fn client(rt: &impl Abort, alloc: Global) -> Result<(), ClientEnd> {
    let mut to = Vec::with_capacity(alloc, 256).expect(rt, "memory");
    let mut out = Vec::with_capacity(alloc, 256).expect(rt, "memory");
    let commands: &[u8] = b"ins 1 1 0 char \"a\"\nbatch 2\nins 1 1 1 char \"b\"\ndel 1 1 0\n\
        sync\nshow\nquit\n";
    let from: &[u8] = b"welcome 1 100\nwindow 1\ntext 1\nready\npong 1\n";
    begin(alloc);
    let ended = run_client(alloc, commands, &mut out, from, &mut to);
    end(alloc);
    expect_that(rt, PRINTED.as_bytes().starts_with(out.as_slice()));
    expect_that(rt, ended.is_err() || out.len() == PRINTED.len());
    ended
}

#[test]
fn client_run(rt: HostRuntime) {
    let mut ended = client(&rt, rt.alloc());
    if ended == Err(ClientEnd::NoMemory) {
        ended = client(&rt, rt.alloc());
    }
    expect_eq(&rt, ended, Ok(()));
}

// The limit and the sessions that words ask for, or the exit status if they are refused.
fn read_words(rt: &impl Abort, alloc: Global, limit: &str) -> Result<(u32, u32), u8> {
    let words = daemon_at(rt, alloc, "127.0.0.1:47011", limit, "2");
    begin(alloc);
    let told = daemon_words(alloc, &words);
    end(alloc);
    match told {
        Ok(told) => {
            expect_eq(rt, told.listen.as_str(), "127.0.0.1:47011");
            Ok((told.limit, told.sessions))
        }
        Err(unread) => Err(unread.status()),
    }
}

#[test]
fn words_of_a_daemon(rt: HostRuntime) {
    for &(limit, due) in &[("100", Ok((100, 2))), ("0", Err(2))] {
        let mut said = read_words(&rt, rt.alloc(), limit);
        if said == Err(3) {
            said = read_words(&rt, rt.alloc(), limit);
        }
        expect_eq(&rt, said, due);
    }
}
