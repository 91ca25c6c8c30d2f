//! The lines of a board that is sent, and a printed board that is read on after a line was refused.
use crate::expect::{expect_eq, expect_that};
use jup_layout::{BoardBuilder, LayoutFault, board_of};
use jup_text::{BoardReader, UnreadLine};
use jup_value::Name;
use jup_window::{Board, Widget};
use jup_wire::Line;
use std::alloc::Global;
use std::process::Abort;

// Builds a board line by line.
pub(crate) fn build(alloc: Global, lines: &[Line]) -> Result<Board, LayoutFault> {
    let mut builder = BoardBuilder::new(alloc);
    for line in lines {
        builder = builder.take(alloc, line)?;
    }
    builder.finish()
}

// The lines are refused so.
fn check_fault(rt: &impl Abort, made: Result<Board, LayoutFault>, line: u32, number: u32) {
    expect_eq(rt, made.err(), Some(LayoutFault { line, number }));
}

// The board has an item of site 2.
fn has_site_2(rt: &impl Abort, made: Result<Board, LayoutFault>) {
    expect_that(rt, made.expect(rt, "a board's lines").has_site(2));
}

#[test]
fn lines_of_a_board_have_any_names_but_none_twice(rt: HostRuntime) {
    let alloc = rt.alloc();
    let named = |site| Line::Char(Name { site, number: 1 }, 'a');
    let apart = [Line::Window(1), Line::Text(1), named(2), named(1)];
    has_site_2(&rt, board_of(alloc, &apart));
    has_site_2(&rt, build(alloc, &apart));
    let twice = [
        Line::Window(1),
        Line::Text(1),
        named(2),
        named(2),
        Line::Ready,
    ];
    check_fault(&rt, board_of(alloc, &twice), 4, 45);
    check_fault(&rt, build(alloc, &twice), 4, 45);
}

// The name of the first item of a text of window 1.
fn first_name(board: &Board, wid: u16) -> Option<Name> {
    match board.widget(1, wid) {
        Some(Widget::Text(text)) => Some(text.get(0)?.name),
        _ => None,
    }
}

// Reads a line, and once more if an allocation failed, as it may be one time.
fn take(reader: &mut BoardReader, alloc: Global, line: &str) -> Result<(), UnreadLine> {
    match reader.take(alloc, line) {
        Err(UnreadLine::NoMemory) => reader.take(alloc, line),
        taken => taken,
    }
}

// Run this with each allocation failing in turn.
#[test]
fn a_line_that_is_refused_numbers_no_items(rt: HostRuntime) {
    let alloc = rt.alloc();
    let mut reader = BoardReader::new(alloc);
    for &(line, taken) in &[
        ("text 1 \"a\"", Err(UnreadLine::BadLine)),
        ("window 1", Ok(())),
        ("text 1 \"ab\"", Ok(())),
        ("text 1 \"xyz\"", Err(UnreadLine::BadLine)),
        ("text 2 \"xy", Err(UnreadLine::BadLine)),
        ("list 1 \"x\" \"y\"", Err(UnreadLine::BadLine)),
        ("list 2 \"x\"\"y\"", Err(UnreadLine::BadLine)),
        ("text 2 \"c\"", Ok(())),
    ] {
        expect_eq(&rt, (line, take(&mut reader, alloc, line)), (line, taken));
    }
    let board = reader.whole();
    let name = |number: u32| Some(Name { site: 0, number });
    expect_eq(&rt, first_name(&board, 1), name(1));
    expect_eq(&rt, first_name(&board, 2), name(3));
}
