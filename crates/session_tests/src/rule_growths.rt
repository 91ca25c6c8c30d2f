//! Failed allocations in what sessions and programs decide, each test for the call of its name, as in `growths`.

use crate::expect::{expect_eq, expect_text, expect_that};
use crate::programs::client_of;
use crate::sessions::first_edit;
use jup_cli::client_words;
use jup_client::{Asking, Request, Told, TypedLine, told_text};
use jup_daemon::{DaemonEnd, report_text, star_of_layout};
use jup_gather::Gather;
use jup_net::{Given, Inbox, LinkEnd};
use jup_rules::{Admission, Lag, hear_site};
use jup_star::{Down, Star, Up};
use jup_stream::StreamFault;
use jup_window::{Board, EditFault};
use jup_wire::Line;
use std::alloc::Global;
use std::process::Abort;
use test_marks::{begin, end};

const LAYOUT: &[u8] = b"window 1\ntext 1\nchar 0.1 122\nchar 0.2 97\n";

fn star(rt: &impl Abort, alloc: Global) -> Star {
    star_of_layout(alloc, LAYOUT, 100)
        .ok()
        .expect(rt, "a layout")
}

#[test]
fn layout_star(rt: HostRuntime) {
    begin(rt.alloc());
    let mut made = star_of_layout(rt.alloc(), LAYOUT, 100);
    end(rt.alloc());
    if matches!(made, Err(DaemonEnd::NoMemory)) {
        made = star_of_layout(rt.alloc(), LAYOUT, 100);
    }
    let star = made.ok().expect(&rt, "a layout");
    expect_that(
        &rt,
        star.order_len() == 0 && star.board().windows().len() == 1,
    );
}

#[test]
fn daemon_report(rt: HostRuntime) {
    let star = star(&rt, rt.alloc());
    begin(rt.alloc());
    let mut text = report_text(rt.alloc(), &star);
    end(rt.alloc());
    if text.is_err() {
        text = report_text(rt.alloc(), &star);
    }
    let text = text.expect(&rt, "memory");
    let due = b"order 0\nwindow 1\ntext 1 \"za\"\n";
    expect_eq(&rt, text.as_slice(), due.as_slice());
}

// What a client tells its user, or tells when it is asked again.
fn tell(rt: &impl Abort, alloc: Global, told: &Told, board: &Board) -> Vec<u8> {
    begin(alloc);
    let mut text = told_text(alloc, told, board);
    end(alloc);
    if text.is_err() {
        text = told_text(alloc, told, board);
    }
    text.expect(rt, "memory")
}

#[test]
fn client_told(rt: HostRuntime) {
    let star = star(&rt, rt.alloc());
    for (what, due) in &[
        (Told::Site(7), "site 7\n"),
        (Told::Board, "window 1\ntext 1 \"za\"\n"),
        (Told::Refused(EditFault::BadPlace), "refused 4\n"),
    ] {
        let text = tell(&rt, rt.alloc(), what, star.board());
        expect_text(&rt, text.as_slice(), due);
    }
}

// Takes a line of a user, and again if an allocation failed.
fn asks(rt: &impl Abort, alloc: Global, asking: &mut Asking, line: &[u8]) -> Option<Request> {
    begin(alloc);
    let mut asked = asking.push(alloc, line);
    end(alloc);
    if asked.is_err() {
        asked = asking.push(alloc, line);
    }
    asked.expect(rt, "memory")
}

#[test]
fn asking_push(rt: HostRuntime) {
    let mut asking = Asking::new();
    for &line in &[b"batch 2".as_slice(), b"ins 1 1 0 char \"a\"".as_slice()] {
        let none = asks(&rt, rt.alloc(), &mut asking, line);
        expect_that(&rt, none.is_none());
    }
    let both = asks(&rt, rt.alloc(), &mut asking, b"del 1 1 0");
    expect_that(
        &rt,
        matches!(&both, Some(Request::Batch(commands)) if commands.len() == 2),
    );
}

// A batch of two in which an allocation failed has not begun: its first line comes again.
#[test]
fn site_heard(rt: HostRuntime) {
    let mut gather = Gather::new();
    let two = Line::Batch {
        mine: 0,
        heard: 0,
        count: 2,
    };
    begin(rt.alloc());
    let mut said = hear_site(&mut gather, rt.alloc(), &two);
    end(rt.alloc());
    if said == Err(StreamFault::NoMemory) {
        expect_that(&rt, !gather.part());
        said = hear_site(&mut gather, rt.alloc(), &two);
    }
    expect_eq(&rt, said, Ok(None));
    expect_that(&rt, gather.part());
}

// The address that words name, or the exit status if they are refused.
fn address(rt: &impl Abort, alloc: Global) -> Result<String, u8> {
    let words = client_of(rt, alloc, "127.0.0.1:47011");
    begin(alloc);
    let told = client_words(alloc, &words);
    end(alloc);
    told.map_err(|unread| unread.status())
}

#[test]
fn words_of_a_client(rt: HostRuntime) {
    let mut told = address(&rt, rt.alloc());
    if matches!(told, Err(3)) {
        told = address(&rt, rt.alloc());
    }
    let told = told.ok().expect(&rt, "an address");
    expect_eq(&rt, told.as_str(), "127.0.0.1:47011");
}

// An inbox with a piece in it, whose room is full.
fn full_room(rt: &impl Abort, alloc: Global) -> Inbox {
    let mut inbox = Inbox::new(alloc).expect(rt, "memory");
    expect_that(rt, inbox.put(&[b'a'; Inbox::PIECE]));
    inbox
}

// What one call takes of an inbox.
fn taken(inbox: &mut Inbox) -> (Option<Given>, u8) {
    let mut room = [0u8; 64];
    let given = inbox.take(&mut room);
    (given, room[63])
}

#[test]
fn inbox_new(rt: HostRuntime) {
    begin(rt.alloc());
    let mut made = Inbox::new(rt.alloc());
    end(rt.alloc());
    if made.is_err() {
        made = Inbox::new(rt.alloc());
    }
    let inbox = made.expect(&rt, "memory");
    expect_that(&rt, inbox.has_nothing());
}

// What is refused changes nothing, and what had room is given before it.
#[test]
fn inbox_put(rt: HostRuntime) {
    let mut inbox = full_room(&rt, rt.alloc());
    let before = inbox.room();
    begin(rt.alloc());
    let mut is_put = inbox.put(b"b");
    end(rt.alloc());
    if !is_put {
        expect_eq(&rt, inbox.room(), before);
        is_put = inbox.put(b"b");
    }
    expect_that(&rt, is_put);
    inbox.end(LinkEnd::Failed);
    for _ in 0..Inbox::PIECE / 64 {
        expect_eq(&rt, taken(&mut inbox), (Some(Given::Bytes(64)), b'a'));
    }
    expect_eq(&rt, taken(&mut inbox), (Some(Given::Bytes(1)), 0));
    expect_eq(&rt, taken(&mut inbox).0, Some(Given::End(LinkEnd::Failed)));
}

// A message is noted once there is memory for the note, and its site is behind until it acknowledges it.
#[test]
fn lag_fetch(rt: HostRuntime) {
    let Ok(Up::Op(edit)) = first_edit(rt.alloc(), 2) else {
        panic!(rt; "one operation takes no memory");
    };
    let down = Down::Op(edit);
    let mut lag = Lag::new(rt.alloc(), 5);
    begin(rt.alloc());
    let mut noted = lag.fetch(&down);
    end(rt.alloc());
    if noted.is_err() {
        noted = lag.fetch(&down);
    }
    expect_that(&rt, noted.is_ok());
    expect_eq(&rt, lag.fetch(&Down::Pong(7)), Ok(()));
    expect_eq(
        &rt,
        (lag.admit(&Up::Ping(1), 6), lag.behind(6)),
        (Ok(Admission::Light), 1),
    );
    expect_eq(
        &rt,
        (lag.admit(&Up::Ack(1), 6), lag.behind(6)),
        (Ok(Admission::Light), 0),
    );
}

// A line of a user that has one more byte if an allocation failed for it before.
#[test]
fn typed_push(rt: HostRuntime) {
    let mut line = TypedLine::new(rt.alloc());
    begin(rt.alloc());
    let mut pushed = line.push(b'a');
    end(rt.alloc());
    if pushed.is_err() {
        expect_that(&rt, line.is_empty());
        pushed = line.push(b'a');
    }
    expect_that(&rt, pushed.is_ok());
    expect_eq(&rt, line.text(), b"a".as_slice());
}
