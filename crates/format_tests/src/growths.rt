//! Failed allocations in lines, layouts, messages and printed texts, each test for the call of its name. `./growths` makes one after another of the
//! allocations between the two marks fail. A call that fails leaves all as it was, and gives its answer if it is made again.
use crate::boards::build;
use crate::expect::{expect_eq, expect_that};
use crate::messages::{TOGGLED, TWO, push};
use jup_batch::BoardBatch;
use jup_gather::{Gather, Gathered, lines_of_op};
use jup_layout::{LayoutFault, board_of, layout, lines_of};
use jup_link::Msg;
use jup_seq::{SeqEdit, SeqOp};
use jup_text::{BoardReader, UnreadLine, read_quoted, write_board, write_edit};
use jup_value::{Item, Name};
use jup_window::{Board, BoardEdit, BoardOp, WidgetEdit, WidgetOp, Within};
use jup_wire::{Fed, Line, Reader, WireFault, write};
use jup_xform::{Batch, Few, NoMemory, OneOf};
use std::alloc::Global;
use std::marker::PhantomData;
use std::process::Abort;
use test_marks::{begin, end};

const FOUR_WIDGETS: &[u8] = b"window 1
text 1
char 0.1 122
list 2
item 0.2 red
toggle 3 off
slider 4 0 10 5
";

// Appends a line's bytes.
fn append(alloc: Global, line: &Line, written: &mut Vec<u8>) -> Result<(), NoMemory> {
    write(alloc, line, written)
}

#[test]
fn line_write(rt: HostRuntime) {
    let mut written = Vec::new(rt.alloc());
    for _ in 0..20 {
        let before = written.len();
        begin(rt.alloc());
        let mut wrote = append(rt.alloc(), &Line::Ready, &mut written);
        end(rt.alloc());
        if wrote.is_err() {
            expect_eq(&rt, written.len(), before);
            wrote = append(rt.alloc(), &Line::Ready, &mut written);
        }
        expect_eq(&rt, wrote, Ok(()));
    }
    let wanted = "ready\n".repeat(rt.alloc(), 20).expect(&rt, "memory");
    expect_eq(&rt, written.as_slice(), wanted.as_bytes());
}

// What a reader gives for a piece. If an allocation failed first, it still held half a line.
fn fed(rt: &impl Abort, alloc: Global, reader: &mut Reader, piece: &[u8]) -> Fed {
    begin(alloc);
    let first = reader.feed(alloc, piece);
    end(alloc);
    match first {
        Ok(fed) => fed,
        Err(_) => {
            expect_eq(rt, reader.finish(), Err(WireFault::EarlyEnd));
            reader.feed(alloc, piece).expect(rt, "memory")
        }
    }
}

// These lines were given, and no fault.
fn gives(rt: &impl Abort, fed: &Fed, lines: &[Line]) {
    expect_eq(rt, fed.lines.as_slice(), lines);
    expect_eq(rt, fed.fault, None);
}

// The reader was given a line and a half, and is given the other half and a line.
#[test]
fn reader_feed(rt: HostRuntime) {
    let mut reader = Reader::new();
    let first = reader.feed(rt.alloc(), b"bye\npi").expect(&rt, "memory");
    gives(&rt, &first, &[Line::Bye]);
    let second = fed(&rt, rt.alloc(), &mut reader, b"ng 1\nready\n");
    gives(&rt, &second, &[Line::Ping(1), Line::Ready]);
    expect_eq(&rt, reader.finish(), Ok(()));
}

// The board of a layout, or made again if an allocation failed.
fn laid(rt: &impl Abort, alloc: Global) -> Board {
    begin(alloc);
    let made = layout(alloc, FOUR_WIDGETS);
    end(alloc);
    match made {
        Err(LayoutFault { number: 8, .. }) => layout(alloc, FOUR_WIDGETS).expect(rt, "memory"),
        made => made.expect(rt, "a layout"),
    }
}

// Lines are written so.
fn are_spelled(rt: &impl Abort, alloc: Global, lines: &[Line], due: &[u8]) {
    let mut written = Vec::new(alloc);
    for line in lines {
        append(alloc, line, &mut written).expect(rt, "memory");
    }
    expect_eq(rt, written.as_slice(), due);
}

#[test]
fn layout_text(rt: HostRuntime) {
    let board = laid(&rt, rt.alloc());
    let lines = lines_of(rt.alloc(), &board).expect(&rt, "memory");
    are_spelled(&rt, rt.alloc(), lines.as_slice(), FOUR_WIDGETS);
}

// A board of four widgets.
fn four_widgets(rt: &impl Abort, alloc: Global) -> Board {
    layout(alloc, FOUR_WIDGETS).expect(rt, "a layout")
}

#[test]
fn board_lines_of(rt: HostRuntime) {
    let board = four_widgets(&rt, rt.alloc());
    begin(rt.alloc());
    let lines = lines_of(rt.alloc(), &board);
    end(rt.alloc());
    let lines = match lines {
        Ok(lines) => lines,
        Err(_) => lines_of(rt.alloc(), &board).expect(&rt, "memory"),
    };
    are_spelled(&rt, rt.alloc(), lines.as_slice(), FOUR_WIDGETS);
}

#[test]
fn board_of_lines(rt: HostRuntime) {
    let board = four_widgets(&rt, rt.alloc());
    let lines = lines_of(rt.alloc(), &board).expect(&rt, "memory");
    begin(rt.alloc());
    let back = board_of(rt.alloc(), lines.as_slice());
    end(rt.alloc());
    let back = match back {
        Err(LayoutFault { number: 8, .. }) => board_of(rt.alloc(), lines.as_slice()),
        back => back,
    };
    expect_that(&rt, back.expect(&rt, "a board's lines").same(&board));
}

#[test]
fn builder_take(rt: HostRuntime) {
    let board = four_widgets(&rt, rt.alloc());
    let lines = lines_of(rt.alloc(), &board).expect(&rt, "memory");
    begin(rt.alloc());
    let back = build(rt.alloc(), lines.as_slice());
    end(rt.alloc());
    let back = match back {
        Err(LayoutFault { number: 8, .. }) => build(rt.alloc(), lines.as_slice()),
        back => back,
    };
    expect_that(&rt, back.expect(&rt, "a board's lines").same(&board));
}

#[test]
fn gather_push(rt: HostRuntime) {
    let mut gather = Gather::new();
    begin(rt.alloc());
    let gathered = gather.push(rt.alloc(), &TWO);
    end(rt.alloc());
    let gathered = match gathered {
        Ok(gathered) => gathered,
        Err(_) => {
            expect_that(&rt, !gather.part());
            push(&rt, rt.alloc(), &mut gather, &TWO)
        }
    };
    expect_eq(&rt, gathered, Gathered::Held);
    let next = push(&rt, rt.alloc(), &mut gather, &Line::Do(TOGGLED));
    expect_eq(&rt, next, Gathered::Held);
    expect_that(&rt, gather.part());
}

// The k-th of some operations, from 1: a character is put at the front of a text.
fn insertion(k: u32) -> BoardOp {
    let item = Item {
        name: Name { site: 1, number: k },
        value: 'a',
    };
    BoardOp {
        win: 1,
        wid: 1,
        op: WidgetOp::Text(SeqOp::Insert { place: 0, item }),
    }
}

// A message of so many operations.
fn message(rt: &impl Abort, alloc: Global, count: u32) -> Msg<BoardBatch> {
    let _of: Within = PhantomData;
    let mut ops = Vec::new(alloc);
    for k in 1..=count {
        ops.push(insertion(k)).expect(rt, "memory");
    }
    assert!(rt; 1 <= ops.len() && ops.len() <= 32);
    Msg {
        mine: 5,
        heard: 7,
        op: Batch::new(ops),
    }
}

#[test]
fn message_lines_of_op(rt: HostRuntime) {
    let msg = message(&rt, rt.alloc(), 2);
    begin(rt.alloc());
    let lines = lines_of_op(rt.alloc(), &msg);
    end(rt.alloc());
    let lines = match lines {
        Ok(lines) => lines,
        Err(_) => lines_of_op(rt.alloc(), &msg).expect(&rt, "memory"),
    };
    let due = b"batch 5 7 2\ndo 1 1 text ins 0 1.1 97\ndo 1 1 text ins 0 1.2 97\n";
    are_spelled(&rt, rt.alloc(), lines.as_slice(), due);
}

const PRINTED: &str = "window 1\ntext 1 \"z\"\nlist 2 \"red\"\ntoggle 3 off\nslider 4 0 10 5\n";

// Texts are put after what was there.
#[test]
fn text_write_board(rt: HostRuntime) {
    let board = four_widgets(&rt, rt.alloc());
    let mut text = Vec::from_slice(rt.alloc(), b">").expect(&rt, "memory");
    begin(rt.alloc());
    let mut wrote = write_board(rt.alloc(), &board, &mut text);
    end(rt.alloc());
    if wrote.is_err() {
        expect_eq(&rt, text.as_slice(), b">".as_slice());
        wrote = write_board(rt.alloc(), &board, &mut text);
    }
    expect_eq(&rt, wrote, Ok(()));
    expect_eq(&rt, &text[..1], &b">"[..]);
    expect_eq(&rt, &text[1..], PRINTED.as_bytes());
}

#[test]
fn text_write_edit(rt: HostRuntime) {
    let name = Name { site: 1, number: 7 };
    let edit = |what: WidgetEdit| -> BoardEdit {
        BoardEdit {
            win: 1,
            wid: 1,
            what,
        }
    };
    let edits = [
        edit(OneOf::First(SeqEdit::Put(name, 'a'))),
        edit(OneOf::First(SeqEdit::Deleted(name))),
    ];
    let edits = Few::from_slice(rt.alloc(), &edits).expect(&rt, "memory");
    let mut text = Vec::from_slice(rt.alloc(), b">").expect(&rt, "memory");
    begin(rt.alloc());
    let mut wrote = write_edit(rt.alloc(), &edits, &mut text);
    end(rt.alloc());
    if wrote.is_err() {
        expect_eq(&rt, text.as_slice(), b">".as_slice());
        wrote = write_edit(rt.alloc(), &edits, &mut text);
    }
    expect_eq(&rt, wrote, Ok(()));
    let wanted = b">ins 1 1 1.7 \"a\"; del 1 1 1.7";
    expect_eq(&rt, text.as_slice(), wanted.as_slice());
}

#[test]
fn text_read_quoted(rt: HostRuntime) {
    begin(rt.alloc());
    let mut chars = read_quoted(rt.alloc(), "\"abcdef\"");
    end(rt.alloc());
    if chars.is_err() {
        chars = read_quoted(rt.alloc(), "\"abcdef\"");
    }
    let chars = chars.expect(&rt, "memory").expect(&rt, "a text");
    expect_eq(
        &rt,
        chars.as_slice(),
        ['a', 'b', 'c', 'd', 'e', 'f'].as_slice(),
    );
}

// Has the reader take a line, a second time if an allocation failed in the first.
fn take_line(rt: &impl Abort, alloc: Global, reader: &mut BoardReader, line: &str) {
    begin(alloc);
    let mut taken = reader.take(alloc, line);
    end(alloc);
    if taken == Err(UnreadLine::NoMemory) {
        taken = reader.take(alloc, line);
    }
    expect_eq(rt, (line, taken), (line, Ok(())));
}

// The items of a line that was refused because an allocation failed were not numbered, so the items after them have the numbers that are due.
#[test]
fn board_reader_take(rt: HostRuntime) {
    let mut reader = BoardReader::new(rt.alloc());
    let lines = [
        "window 1",
        "text 1 \"z\"",
        "list 2 \"red\"",
        "toggle 3 off",
        "slider 4 0 10 5",
    ];
    for line in lines {
        take_line(&rt, rt.alloc(), &mut reader, line);
    }
    let board = four_widgets(&rt, rt.alloc());
    expect_that(&rt, reader.whole().same(&board));
}
