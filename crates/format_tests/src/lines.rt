//! Lines that no program writes, lines in pieces of each size, and what a reader does after a fault.
use crate::expect::{expect_eq, expect_that};
use jup_seq::SeqOp;
use jup_setting::SetOp;
use jup_value::{Item, Label, Name};
use jup_window::{BoardOp, WidgetOp, Within};
use jup_wire::{
    Fed, LONGEST, Line, MOST, Reader, WireFault, feed_of, has_spelling, read_line, write,
    write_reserved,
};
use std::alloc::Global;
use std::marker::PhantomData;
use std::process::Abort;

const LARGEST: u32 = 4_294_967_295;

pub(crate) fn name(site: u32, number: u32) -> Name {
    Name { site, number }
}

fn label(rt: &impl Abort, text: &[u8]) -> Label {
    Label::read(text).expect(rt, "a label")
}

fn batch(mine: u32, heard: u32, count: u32) -> Line {
    Line::Batch { mine, heard, count }
}

fn operation(win: u16, wid: u16, op: WidgetOp) -> Line {
    Line::Do(BoardOp { win, wid, op })
}

// The line is written so.
fn is_written(rt: &impl Abort, alloc: Global, line: &Line, text: &[u8]) {
    let mut written = Vec::new(alloc);
    write(alloc, line, &mut written).expect(rt, "memory");
    expect_eq(rt, written.as_slice(), text);
    let mut reserved = Vec::with_capacity(alloc, LONGEST).expect(rt, "memory");
    write_reserved(line, &mut reserved);
    expect_eq(rt, reserved.as_slice(), text);
}

// The line has no spelling: nothing is written for it, with all room that there may be.
fn is_not_written(rt: &impl Abort, alloc: Global, line: &Line) {
    expect_that(rt, !has_spelling(line));
    let mut written = Vec::new(alloc);
    write(alloc, &Line::Bye, &mut written).expect(rt, "memory");
    expect_eq(rt, write(alloc, line, &mut written), Ok(()));
    expect_eq(rt, written.as_slice(), b"bye\n".as_slice());
    let mut reserved = Vec::with_capacity(alloc, LONGEST).expect(rt, "memory");
    write_reserved(line, &mut reserved);
    expect_that(rt, reserved.is_empty());
}

// The bytes before their line feed, which is the last, are the line by themselves.
fn is_read_by_itself(rt: &impl Abort, line: &Line, text: &[u8]) {
    let (_, before) = text.split_last().expect(rt, "a line feed");
    expect_eq(rt, feed_of(text), Some(before.len()));
    expect_that(rt, read_line(before).expect(rt, "a line") == *line);
}

// The line is written so, and these bytes are read as it.
fn check_line(rt: &impl Abort, alloc: Global, line: &Line, text: &[u8]) {
    expect_that(rt, has_spelling(line));
    is_written(rt, alloc, line, text);
    is_read_by_itself(rt, line, text);
}

// No program comes to these counts and places, and none sends a setting as a no-op. The last line is the longest.
#[test]
fn lines_that_no_program_writes_have_their_bytes(rt: HostRuntime) {
    let toggle = operation(1, 3, WidgetOp::Toggle(SetOp::Nothing));
    check_line(&rt, rt.alloc(), &toggle, b"do 1 3 toggle no\n");
    let slider = operation(1, 3, WidgetOp::Slider(SetOp::Nothing));
    check_line(&rt, rt.alloc(), &slider, b"do 1 3 slider no\n");
    let longest = b"batch 4294967295 4294967295 32\n";
    expect_eq(&rt, longest.len(), 31);
    check_line(&rt, rt.alloc(), &batch(LARGEST, LARGEST, 32), longest);
    let relabel = WidgetOp::List(SeqOp::Relabel {
        place: LARGEST,
        name: name(65_535, 2),
        value: label(&rt, b"red ink"),
    });
    let text = b"do 1 2 list rel 4294967295 65535.2 red ink\n";
    check_line(&rt, rt.alloc(), &operation(1, 2, relabel), text);
    let insert = WidgetOp::List(SeqOp::Insert {
        place: LARGEST,
        item: Item {
            name: name(LARGEST, LARGEST),
            value: label(&rt, &[b'x'; 48]),
        },
    });
    let text =
        b"do 65535 65535 list ins 4294967295 4294967295.4294967295 xxxxxxxxxxxxxxxxxxxxxxxxxxxxxxxxxxxxxxxxxxxxxxxx\n";
    expect_eq(&rt, text.len(), LONGEST);
    expect_that(&rt, LONGEST <= MOST);
    check_line(&rt, rt.alloc(), &operation(65_535, 65_535, insert), text);
}

#[test]
fn lines_without_a_spelling_are_not_written(rt: HostRuntime) {
    is_not_written(&rt, rt.alloc(), &batch(0, 0, 0));
    is_not_written(&rt, rt.alloc(), &batch(0, 0, 33));
    let relabel = WidgetOp::Text(SeqOp::Relabel {
        place: 0,
        name: name(0, 1),
        value: 'a',
    });
    is_not_written(&rt, rt.alloc(), &operation(1, 1, relabel));
}

// What a reader gives for a piece.
fn feed(rt: &impl Abort, alloc: Global, reader: &mut Reader, piece: &[u8]) -> Fed {
    reader.feed(alloc, piece).expect(rt, "memory")
}

// A reader gives these lines for a piece, and this fault or none.
fn gives(
    rt: &impl Abort,
    alloc: Global,
    reader: &mut Reader,
    piece: &[u8],
    lines: &[Line],
    fault: Option<WireFault>,
) {
    let fed = feed(rt, alloc, reader, piece);
    expect_eq(rt, fed.lines.as_slice(), lines);
    expect_eq(rt, fed.fault, fault);
}

#[test]
fn lines_before_a_fault_are_given_and_none_after(rt: HostRuntime) {
    let alloc = rt.alloc();
    let version = Some(WireFault::BadVersion);
    let mut reader = Reader::new();
    gives(
        &rt,
        alloc,
        &mut reader,
        b"ping 7\npi",
        &[Line::Ping(7)],
        None,
    );
    expect_eq(&rt, reader.finish(), Err(WireFault::EarlyEnd));
    let second = b"ng 8\nhello 1\nping 9\n";
    gives(&rt, alloc, &mut reader, second, &[Line::Ping(8)], version);
    gives(&rt, alloc, &mut reader, b"ping 10\n", &[], version);
    expect_eq(&rt, reader.finish(), Err(WireFault::BadVersion));
}

// Lines of each kind, each operation and each way of a switch among them.
const EACH_KIND: &[u8] = b"hello 3
welcome 1 100
window 65535
text 1
list 2
toggle 3 on
toggle 3 off
slider 4 -2147483648 2147483647 0
char 0.1 122
item 0.2  red ink
ready
batch 4294967295 4294967295 32
do 1 1 text ins 0 1.1 97
do 3 4 text del 5 2.3
do 1 1 text no
do 65535 65535 list ins 4294967295 4294967295.4294967295 xxxxxxxxxxxxxxxxxxxxxxxxxxxxxxxxxxxxxxxxxxxxxxxx
do 1 2 list del 0 0.2
do 1 2 list rel 4294967295 65535.2 red ink
do 1 2 list no
do 1 3 toggle set on
do 1 3 toggle set off
do 1 3 toggle no
do 1 4 slider set -5
do 1 4 slider no
ack 64
ping 7
pong 4294967295
bye
error 44
";

// A reader gives these lines for the pieces of one size of some bytes, and holds a part after each that ends within a line.
fn come_in_pieces(rt: &impl Abort, alloc: Global, bytes: &[u8], size: usize, lines: &[Line]) {
    let mut reader = Reader::new();
    let mut came = 0usize;
    for piece in bytes.chunks(size.max(1)) {
        let fed = feed(rt, alloc, &mut reader, piece);
        expect_eq(rt, fed.fault, None);
        for line in fed.lines.as_slice() {
            expect_eq(rt, lines.get(came).copied(), Some(*line));
            came = came.saturating_add(1);
        }
        expect_eq(rt, reader.finish().is_ok(), piece.ends_with(b"\n"));
    }
    expect_eq(rt, came, lines.len());
}

#[test]
fn lines_of_each_kind_come_over_any_cut(rt: HostRuntime) {
    let alloc = rt.alloc();
    let whole = feed(&rt, alloc, &mut Reader::new(), EACH_KIND);
    expect_eq(&rt, whole.lines.as_slice().len(), 29);
    for size in 1..=EACH_KIND.len() {
        come_in_pieces(&rt, alloc, EACH_KIND, size, whole.lines.as_slice());
    }
}

// What is wrong with bytes that are no line.
fn fault_of(text: &[u8]) -> Option<WireFault> {
    let _of: Within = PhantomData;
    match read_line(text) {
        Ok(_) => None,
        Err(fault) => Some(fault),
    }
}

#[test]
fn texts_that_are_no_line_by_themselves(rt: HostRuntime) {
    expect_eq(&rt, fault_of(b"ping 07"), Some(WireFault::BadLine));
    expect_eq(&rt, fault_of(b"hello 1"), Some(WireFault::BadVersion));
    expect_eq(&rt, fault_of(b"ping 7\n"), Some(WireFault::BadLine));
    expect_eq(&rt, feed_of(b"ping 7\nbye\n"), Some(6));
    expect_eq(&rt, feed_of(b"ping 7"), None);
}
