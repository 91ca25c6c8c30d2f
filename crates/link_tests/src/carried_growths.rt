//! Failed allocations in what a server keeps of links, each test for the call of its name, as in `resume_growths`. If one fails for a
//! connection, that is cut, and the next one carries the link on.
use crate::expect::expect_eq;
use crate::shared::{TOKEN, pass_over, put, resume, written};
use jup_carrier::{Found, Links, Uptime};
use jup_limits::NoMemory;
use jup_links::{Carried, Count, Counts, Heard, MOST_GIVEN, Piece, Unput};
use jup_resume::Token;
use std::alloc::Global;
use std::process::Abort;
use test_marks::{begin, end};

// A link whose site has its board.
fn ready(rt: &impl Abort, alloc: Global) -> Carried {
    let mut carried = Carried::new(alloc, Token::new(&TOKEN), 300);
    expect_eq(rt, put(&mut carried, b"ready\n"), Ok(6));
    carried
}

// The second carrier takes the link, whose client has taken so many lines.
fn resume_cut(rt: &impl Abort, carried: &mut Carried, taken: u32) {
    pass_over(carried.cut(1, 0));
    resume(rt, carried, taken, 2);
}

#[test]
fn carried_put(rt: HostRuntime) {
    let mut carried = ready(&rt, rt.alloc());
    resume_cut(&rt, &mut carried, 1);
    for _ in 0..20 {
        begin(rt.alloc());
        let mut came = put(&mut carried, b"pong 1\n");
        end(rt.alloc());
        if came.is_err() {
            expect_eq(&rt, came, Err(Unput::NoMemory));
            came = put(&mut carried, b"pong 1\n");
        }
        expect_eq(&rt, came, Ok(7));
    }
    let (out, _) = written(&rt, rt.alloc(), &mut carried, 2);
    let lines = "pong 1\n".repeat(rt.alloc(), 20).expect(&rt, "memory");
    let due = format!(in rt.alloc(); "resumed 0\ngot 0\n{lines}").expect(&rt, "memory");
    expect_eq(&rt, out.as_slice(), due.as_bytes());
}

// Takes a line of the site. If an allocation fails, its carrier is cut, and the next one brings the line again.
fn hear(rt: &impl Abort, carried: &mut Carried, line: &[u8]) -> Heard {
    let (heard, change) = carried.hear(1, line);
    pass_over(change);
    if heard != Heard::Cut {
        return heard;
    }
    resume_cut(rt, carried, 1);
    let (again, change) = carried.hear(2, line);
    pass_over(change);
    again
}

#[test]
fn carried_hear(rt: HostRuntime) {
    let mut carried = ready(&rt, rt.alloc());
    begin(rt.alloc());
    let heard = hear(&rt, &mut carried, b"ping 1\n");
    end(rt.alloc());
    expect_eq(&rt, heard, Heard::All);
    let mut line = [0; MOST_GIVEN];
    let (len, change) = carried.give(&mut line);
    pass_over(change);
    expect_eq(&rt, &line[..len.min(MOST_GIVEN)], b"ping 1\n".as_slice());
    let (len, change) = carried.give(&mut line);
    pass_over(change);
    expect_eq(&rt, len, 0);
}

// What a carrier writes first, and its number. If an allocation fails for the first carrier, that is the second one.
fn first_piece(rt: &impl Abort, alloc: Global, carried: &mut Carried) -> (u64, Vec<u8>) {
    let mut out = Vec::new(alloc);
    begin(alloc);
    let piece = carried.next_piece(1, &mut out);
    end(alloc);
    if piece.is_ok() {
        return (1, out);
    }
    resume_cut(rt, carried, 0);
    let (out, _) = written(rt, alloc, carried, 2);
    (2, out)
}

#[test]
fn carried_next_piece(rt: HostRuntime) {
    let mut carried = ready(&rt, rt.alloc());
    expect_eq(&rt, put(&mut carried, b"pong 1\n"), Ok(7));
    let (carrier, out) = first_piece(&rt, rt.alloc(), &mut carried);
    let due: &[u8] = match carrier {
        1 => b"link 07070707070707070707070707070707 300\nready\npong 1\n",
        _ => b"resumed 0\ngot 0\nready\npong 1\n",
    };
    expect_eq(&rt, out.as_slice(), due);
}

#[test]
fn carried_close(rt: HostRuntime) {
    let mut carried = ready(&rt, rt.alloc());
    expect_eq(&rt, put(&mut carried, b"bye\n"), Ok(4));
    resume_cut(&rt, &mut carried, 1);
    begin(rt.alloc());
    let closed = carried.close(0);
    end(rt.alloc());
    let change = match closed {
        Ok(change) => change,
        Err(NoMemory) => {
            expect_eq(&rt, carried.has_ended(), false);
            carried.close(0).expect(&rt, "memory")
        }
    };
    pass_over(change);
    let (out, piece) = written(&rt, rt.alloc(), &mut carried, 2);
    expect_eq(&rt, out.as_slice(), b"resumed 0\ngot 0\nbye\n".as_slice());
    expect_eq(&rt, piece, Piece::Last);
}

#[test]
fn counts_keep(rt: HostRuntime) {
    let mut counts = Counts::new(rt.alloc());
    let count = Count {
        token: Token::new(&TOKEN),
        taken: 5,
        has_edits: false,
        since: 0,
    };
    begin(rt.alloc());
    let mut kept = counts.keep(count);
    end(rt.alloc());
    if kept == Err(NoMemory) {
        expect_eq(&rt, counts.find(&count.token), None);
        kept = counts.keep(count);
    }
    expect_eq(&rt, kept, Ok(()));
    expect_eq(&rt, counts.find(&count.token), Some(5));
}

#[test]
fn links_open(rt: HostRuntime) {
    let links = Links::new(rt.alloc(), 300, Uptime::new(&rt));
    let token = Token::new(&TOKEN);
    begin(rt.alloc());
    let mut opened = links.open(&rt, token).is_ok();
    end(rt.alloc());
    if !opened {
        expect_eq(&rt, matches!(links.find(&rt, &token), Found::Nothing), true);
        opened = links.open(&rt, token).is_ok();
    }
    expect_eq(&rt, opened, true);
    expect_eq(&rt, matches!(links.find(&rt, &token), Found::Link(_)), true);
    expect_eq(&rt, links.tend(&rt), 1);
}
