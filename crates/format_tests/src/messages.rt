//! Lines out of their place among those of messages, and messages of one operation that are read in place.
use crate::expect::{expect_eq, expect_that};
use crate::lines::name;
use jup_gather::{Gather, Gathered};
use jup_seq::SeqOp;
use jup_setting::SetOp;
use jup_value::Item;
use jup_window::{BoardOp, WidgetOp, Within};
use jup_wire::{Line, LoneEdit, read_single};
use std::alloc::Global;
use std::marker::PhantomData;
use std::process::Abort;

pub(crate) const TOGGLED: BoardOp = BoardOp {
    win: 1,
    wid: 3,
    op: WidgetOp::Toggle(SetOp::Set(true)),
};

pub(crate) const TWO: Line = Line::Batch {
    mine: 5,
    heard: 7,
    count: 2,
};

// What a gathering gives for a line.
pub(crate) fn push(rt: &impl Abort, alloc: Global, gather: &mut Gather, line: &Line) -> Gathered {
    gather.push(alloc, line).expect(rt, "memory")
}

// A gathering gives this for a line.
fn gives(rt: &impl Abort, alloc: Global, gather: &mut Gather, line: &Line, due: Gathered) {
    expect_eq(rt, push(rt, alloc, gather, line), due);
}

// A line is misplaced, and so is every line after it, whichever comes.
fn is_stopped_by(rt: &impl Abort, alloc: Global, gather: &mut Gather, misplaced: &Line) {
    gives(rt, alloc, gather, misplaced, Gathered::Misplaced);
    for &line in &[Line::Ping(7), TWO, Line::Do(TOGGLED), Line::Bye] {
        gives(rt, alloc, gather, &line, Gathered::Misplaced);
        expect_that(rt, !gather.part());
    }
}

#[test]
fn no_line_has_a_place_after_one_that_has_none(rt: HostRuntime) {
    let alloc = rt.alloc();
    let mut gather = Gather::new();
    gives(&rt, alloc, &mut gather, &TWO, Gathered::Held);
    let toggled = Line::Do(TOGGLED);
    gives(&rt, alloc, &mut gather, &toggled, Gathered::Held);
    expect_that(&rt, gather.part());
    is_stopped_by(&rt, alloc, &mut gather, &Line::Ping(1));
    is_stopped_by(&rt, alloc, &mut Gather::new(), &toggled);
    // A batch of no operation, and one of too many.
    for &count in &[0, 33] {
        let line = Line::Batch {
            mine: 0,
            heard: 0,
            count,
        };
        is_stopped_by(&rt, alloc, &mut Gather::new(), &line);
    }
}

// The bytes are read as this message, or as none.
fn expect_single(rt: &impl Abort, bytes: &[u8], due: Option<LoneEdit>) {
    let _of: Within = PhantomData;
    expect_eq(rt, read_single(bytes), due);
}

fn single(mine: u32, heard: u32, op: WidgetOp, len: usize) -> Option<LoneEdit> {
    let op = BoardOp {
        win: 2,
        wid: 31,
        op,
    };
    Some(LoneEdit {
        mine,
        heard,
        op,
        len,
    })
}

// What "batch 5 0 1" and "do 2 31 text ins 10 4.17 233" say.
fn inserted() -> Option<LoneEdit> {
    let item = Item {
        name: name(4, 17),
        value: 'é',
    };
    single(5, 0, WidgetOp::Text(SeqOp::Insert { place: 10, item }), 41)
}

#[test]
fn one_operation_is_read_and_what_comes_after_it_is_left(rt: HostRuntime) {
    let whole = b"batch 5 0 1\ndo 2 31 text ins 10 4.17 233\n".as_slice();
    expect_single(&rt, whole, inserted());
    let more = b"batch 5 0 1\ndo 2 31 text ins 10 4.17 233\nba".as_slice();
    expect_single(&rt, more, inserted());
    let op = WidgetOp::Text(SeqOp::Delete {
        place: 0,
        name: name(0, 99),
    });
    let whole = b"batch 0 7 1\ndo 2 31 text del 0 0.99\nbye\n".as_slice();
    expect_single(&rt, whole, single(0, 7, op, 36));
    let toggled = WidgetOp::Toggle(SetOp::Set(true));
    let whole = b"batch 5 0 1\ndo 2 31 toggle set on\nack 3\n".as_slice();
    expect_single(&rt, whole, single(5, 0, toggled, 34));
    let deleted = WidgetOp::List(SeqOp::Delete {
        place: 3,
        name: name(8, 1),
    });
    let whole = b"batch 1 2 1\ndo 2 31 list del 3 8.1\n".as_slice();
    expect_single(&rt, whole, single(1, 2, deleted, 35));
    let nothing = WidgetOp::Text(SeqOp::Nothing);
    let whole = b"batch 0 0 1\ndo 2 31 text no\n".as_slice();
    expect_single(&rt, whole, single(0, 0, nothing, 28));
}

#[test]
fn any_other_message_is_left_to_be_read_line_by_line(rt: HostRuntime) {
    for &bytes in &[
        b"".as_slice(),
        b"ack 3\n".as_slice(),
        b"batch 5 0 2\ndo 1 1 text del 0 0.9\ndo 1 1 text del 0 0.8\n".as_slice(),
        // Its last line feed has not come.
        b"batch 5 0 1\ndo 1 1 text del 0 0.9".as_slice(),
        b"batch 5 0 1\ndo 1 3 toggle set on".as_slice(),
        b"batch 5 0 1\n".as_slice(),
        // It is spelled otherwise.
        b"batch 05 0 1\ndo 1 1 text del 0 0.9\n".as_slice(),
        b"batch 5 0 1\r\ndo 1 1 text del 0 0.9\n".as_slice(),
        b"batch 5 0 1\nack 3\n".as_slice(),
        b"batch 5 0 1\ndo 1 1 text rel 0 0.9 97\n".as_slice(),
        b"batch 5 0 1\ndo 1 65536 text del 0 0.9\n".as_slice(),
        b"batch 5 0 1\ndo 1 1 text del 0  0.9\n".as_slice(),
        b"batch 5 0 1\ndo 1 1 text del 0 0.9 \n".as_slice(),
        // No code of a character, and one too large for a number of this size.
        b"batch 5 0 1\ndo 1 1 text ins 0 0.9 55296\n".as_slice(),
        b"batch 5 4294967296 1\ndo 1 1 text del 0 0.9\n".as_slice(),
    ] {
        expect_single(&rt, bytes, None);
    }
}
