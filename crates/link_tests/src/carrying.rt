//! What a server writes on the carriers of a link, and in which order.
use crate::expect::{expect_eq, expect_that};
use crate::shared::{TOKEN, pass_over, put, resume, written};
use jup_links::{Carried, Heard, MOST_GIVEN, MOST_WRITTEN, Piece};
use jup_resume::Token;
use std::alloc::Global;
use std::process::Abort;

const LINK: &str = "link 07070707070707070707070707070707 300\n";

fn new_link(alloc: Global) -> Carried {
    Carried::new(alloc, Token::new(&TOKEN), 300)
}

// What a carrier writes next is this, and then something more or nothing.
fn writes(
    rt: &impl Abort,
    alloc: Global,
    carried: &mut Carried,
    carrier: u64,
    due: &str,
    piece: Piece,
) {
    let (out, came) = written(rt, alloc, carried, carrier);
    expect_eq(rt, out.as_slice(), due.as_bytes());
    expect_eq(rt, came, piece);
}

// The carrier brings lines, and the session is given them all.
fn hear_all(rt: &impl Abort, carried: &mut Carried, lines: &str, count: usize) {
    let (heard, change) = carried.hear(1, lines.as_bytes());
    pass_over(change);
    expect_eq(rt, heard, Heard::All);
    let mut line = [0; MOST_GIVEN];
    for _ in 0..count {
        let (len, change) = carried.give(&mut line);
        pass_over(change);
        expect_that(rt, len > 0);
    }
}

// The session returns.
fn close(rt: &impl Abort, carried: &mut Carried) {
    let change = carried.close(0).expect(rt, "memory");
    pass_over(change);
}

// A site that can't join gets one line. There is no link, and the server gives no token.
#[test]
fn a_site_that_cannot_join_gets_one_line(rt: HostRuntime) {
    for line in ["error 8\n", "error 30\n", "error 31\n", "error 34\n"] {
        let mut carried = new_link(rt.alloc());
        writes(&rt, rt.alloc(), &mut carried, 1, "", Piece::Bytes);
        expect_eq(&rt, put(&mut carried, line.as_bytes()), Ok(line.len()));
        close(&rt, &mut carried);
        writes(&rt, rt.alloc(), &mut carried, 1, line, Piece::Last);
        pass_over(carried.wrote_last(1, 0));
        expect_that(&rt, carried.is_refused() && carried.is_spent());
    }
}

// Before the last line comes a `got`, if the count has grown.
#[test]
fn each_last_line_comes_behind_its_got(rt: HostRuntime) {
    for last in [
        "bye\n",
        "error 8\n",
        "error 20\n",
        "error 32\n",
        "error 34\n",
        "error 46\n",
        "error 60\n",
        "error 71\n",
    ] {
        let mut carried = new_link(rt.alloc());
        expect_eq(&rt, put(&mut carried, b"ready\n"), Ok(6));
        hear_all(&rt, &mut carried, "ping 1\n", 1);
        pass_over(carried.ask());
        expect_eq(&rt, put(&mut carried, last.as_bytes()), Ok(last.len()));
        close(&rt, &mut carried);
        let due = format!(in rt.alloc(); "{LINK}ready\ngot 1\n{last}").expect(&rt, "memory");
        writes(&rt, rt.alloc(), &mut carried, 1, due.as_str(), Piece::Last);
    }
}

// A message that its session has not asked past counts in no `got`: it may have been refused.
#[test]
fn a_refused_message_is_not_confirmed(rt: HostRuntime) {
    let mut carried = new_link(rt.alloc());
    expect_eq(&rt, put(&mut carried, b"ready\n"), Ok(6));
    hear_all(
        &rt,
        &mut carried,
        "ping 1\nbatch 0 0 1\ndo 1 1 text no\nping 2\n",
        1,
    );
    pass_over(carried.ask());
    let mut line = [0; MOST_GIVEN];
    for _ in 0..2 {
        let (len, change) = carried.give(&mut line);
        pass_over(change);
        expect_that(&rt, len > 0);
    }
    expect_eq(&rt, put(&mut carried, b"error 24\n"), Ok(9));
    close(&rt, &mut carried);
    expect_eq(&rt, carried.handled(), 1);
    let due = format!(in rt.alloc(); "{LINK}ready\ngot 1\nerror 24\n").expect(&rt, "memory");
    writes(&rt, rt.alloc(), &mut carried, 1, due.as_str(), Piece::Last);
    resume(&rt, &mut carried, 1, 2);
    writes(
        &rt,
        rt.alloc(),
        &mut carried,
        2,
        "resumed 1\ngot 1\nerror 24\n",
        Piece::Last,
    );
}

// Pieces are the lines in their order, each whole. Another carrier writes them again.
#[test]
fn pieces_follow_one_another(rt: HostRuntime) {
    let mut carried = new_link(rt.alloc());
    let lines = "pong 123456\n"
        .repeat(rt.alloc(), 1_000)
        .expect(&rt, "memory");
    expect_eq(&rt, put(&mut carried, b"ready\n"), Ok(6));
    expect_eq(&rt, put(&mut carried, lines.as_bytes()), Ok(12_000));
    let (mut all, piece) = written(&rt, rt.alloc(), &mut carried, 1);
    expect_eq(&rt, piece, Piece::Bytes);
    expect_that(&rt, all.len() >= MOST_WRITTEN && all.last() == Some(&b'\n'));
    let (rest, _) = written(&rt, rt.alloc(), &mut carried, 1);
    expect_eq(&rt, all.extend_from_slice(rest.as_slice()).is_ok(), true);
    let due = format!(in rt.alloc(); "{LINK}ready\n{lines}").expect(&rt, "memory");
    expect_eq(&rt, all.as_slice(), due.as_bytes());
    resume(&rt, &mut carried, 1_000, 2);
    writes(&rt, rt.alloc(), &mut carried, 1, "", Piece::Cut);
    writes(
        &rt,
        rt.alloc(),
        &mut carried,
        2,
        "resumed 0\ngot 0\npong 123456\n",
        Piece::Bytes,
    );
}
