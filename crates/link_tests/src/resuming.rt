//! Notes as the protocol spells them, first lines, and a link that is cut at each of its bytes.
use crate::expect::expect_eq;
use jup_resume::{Arrival, Confirming, FirstLine, KeepFault, Keeper, Note, Taker, Token};
use std::alloc::Global;
use std::process::Abort;

const TOKEN: [u8; 16] = [
    0x0f, 0x1e, 0x2d, 0x3c, 0x4b, 0x5a, 0x69, 0x78, 0x87, 0x96, 0xa5, 0xb4, 0xc3, 0xd2, 0xe1, 0xf0,
];

// A note is spelled so, and is read from that.
fn is_spelled(rt: &impl Abort, alloc: Global, note: &Note, due: &str) {
    let mut line = Vec::new(alloc);
    expect_eq(rt, note.write(alloc, &mut line), Ok(()));
    expect_eq(rt, line.strip_suffix(b"\n"), Some(due.as_bytes()));
    let Some(read) = Note::read(due.as_bytes()) else {
        return expect_eq(rt, "no note", due);
    };
    let again = format!(in alloc; "{read}").expect(rt, "memory");
    expect_eq(rt, again.as_str(), due);
}

// The number and the words by which the protocol names it that an end has put as many lines as a count can name.
#[test]
fn a_line_too_many_has_a_fault_of_its_own(rt: HostRuntime) {
    let spent = KeepFault::LinesSpent;
    expect_eq(&rt, spent.number(), 37);
    let words = format!(in rt.alloc(); "{spent}").expect(&rt, "memory");
    expect_eq(&rt, words.as_str(), "all lines of the link were put");
}

#[test]
fn notes_are_spelled(rt: HostRuntime) {
    let token = Token::new(&TOKEN);
    let taken = 11;
    for (note, due) in [
        (Note::Hello, "hello 4"),
        (
            Note::Link {
                token,
                seconds: 300,
                kept: false,
            },
            "link 0f1e2d3c4b5a69788796a5b4c3d2e1f0 300",
        ),
        (
            Note::Link {
                token,
                seconds: 0,
                kept: true,
            },
            "link 0f1e2d3c4b5a69788796a5b4c3d2e1f0 0 kept",
        ),
        (
            Note::Resume { token, taken },
            "resume 0f1e2d3c4b5a69788796a5b4c3d2e1f0 11",
        ),
        (Note::Resumed { taken: 1 }, "resumed 1"),
        (
            Note::Ended {
                taken: 4_294_967_295,
            },
            "ended 4294967295",
        ),
        (Note::Got { taken: 0 }, "got 0"),
    ] {
        is_spelled(&rt, rt.alloc(), &note, due);
    }
}

// What a first line asks for, in a word.
fn asked(text: &str) -> &'static str {
    match FirstLine::read(text.as_bytes()) {
        FirstLine::Session => "session",
        FirstLine::Opens => "opens",
        FirstLine::Resumes { .. } => "resumes",
        FirstLine::OtherVersion => "42",
        FirstLine::Misspelled => "40",
    }
}

#[test]
fn first_lines_are_told_apart(rt: HostRuntime) {
    for (text, due) in [
        ("hello 3", "session"),
        ("hello 5", "session"),
        ("hello", "session"),
        ("resumed 1", "session"),
        ("", "session"),
        ("hello 4", "opens"),
        ("hello 42", "42"),
        ("hello 4 ", "40"),
        ("hello 4\r", "40"),
        ("resume 0f1e2d3c4b5a69788796a5b4c3d2e1f0 11", "resumes"),
        ("resume 0f1e2d3c4b5a69788796a5b4c3d2e1f 11", "40"),
        ("resume 0F1e2d3c4b5a69788796a5b4c3d2e1f0 11", "40"),
        ("resume 0f1e2d3c4b5a69788796a5b4c3d2e1f0 007", "40"),
        ("resume 0f1e2d3c4b5a69788796a5b4c3d2e1f0  11", "40"),
        ("resume ", "40"),
    ] {
        expect_eq(&rt, asked(text), due);
    }
}

// Takes bytes, and puts the lines of the link among them after the text.
fn hand_on(rt: &impl Abort, taker: &mut Taker, bytes: &[u8], text: &mut Vec<u8>) {
    let mut piece = bytes;
    for _ in 0..bytes.len() {
        let took = taker.take(piece);
        piece = took.rest;
        if let Arrival::Line(line) = took.arrival {
            text.extend_from_slice(line.as_slice()).expect(rt, "memory");
            text.push(b'/').expect(rt, "memory");
            if taker.taken() < u32::MAX {
                taker.hand_on();
            }
        }
    }
}

// What a new carrier brings up to its cut after so many bytes.
fn carry(
    rt: &impl Abort,
    alloc: Global,
    keeper: &mut Keeper,
    taker: &mut Taker,
    cut: usize,
    text: &mut Vec<u8>,
) {
    expect_eq(rt, keeper.begin(taker.taken()), Ok(()));
    let mut wire = Vec::new(alloc);
    expect_eq(rt, Note::Got { taken: 0 }.write(alloc, &mut wire), Ok(()));
    for _ in 0..3 {
        let wrote = keeper.write_next(&mut wire);
        expect_eq(rt, wrote.is_ok(), true);
    }
    wire.truncate(cut);
    hand_on(rt, taker, wire.as_slice(), text);
    keeper.cut();
    taker.cut();
}

#[test]
fn a_link_is_cut_at_each_byte(rt: HostRuntime) {
    for cut in 0..20 {
        let mut keeper = Keeper::new(rt.alloc());
        expect_eq(&rt, keeper.put(b"ping 1"), Ok(()));
        expect_eq(&rt, keeper.put(b"bye"), Ok(()));
        let mut taker = Taker::new();
        let mut text = Vec::new(rt.alloc());
        carry(&rt, rt.alloc(), &mut keeper, &mut taker, cut, &mut text);
        carry(&rt, rt.alloc(), &mut keeper, &mut taker, 100, &mut text);
        expect_eq(&rt, text.as_slice(), b"ping 1/bye/".as_slice());
        expect_eq(&rt, keeper.kept_bytes(), 11);
    }
}

#[test]
fn counts_are_confirmed(rt: HostRuntime) {
    let mut confirming = Confirming::new();
    confirming.take(63);
    expect_eq(&rt, confirming.due(), None);
    expect_eq(&rt, confirming.due_at_end(), Some(63));
    confirming.take(64);
    expect_eq(&rt, confirming.due(), Some(64));
    confirming.told();
    confirming.elapse(59);
    expect_eq(&rt, confirming.due(), None);
    confirming.elapse(1);
    expect_eq(&rt, confirming.due(), Some(64));
    confirming.wrote();
    expect_eq(&rt, confirming.due(), None);
    confirming.end();
    expect_eq(&rt, confirming.due(), Some(64));
    confirming.told();
    confirming.begin();
    expect_eq(&rt, confirming.due(), Some(64));
}
