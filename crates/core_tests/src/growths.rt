//! Failed allocations in sequences, operations, batches and boards, each test for the call of its name. `./growths` makes one after another of the
//! allocations between the two marks fail. A call that fails leaves all as it was, and gives its answer if it is made again.
use crate::blocks::{counts, sequence_of};
use crate::boards::toggle;
use crate::expect::{expect_eq, expect_that};
use crate::sequences::{attempt, insert, reads, text};
use jup_seq::{SeqEdit, SeqOp, TextOp};
use jup_value::{Item, Name, NoMemory, Seq};
use jup_window::{Board, BoardFault, BoardOp, Widget, WidgetOp};
use jup_xform::{Batch, Few, Transform};
use std::alloc::Global;
use std::process::Abort;
use test_marks::{begin, end};

// Room for so many insertions is made in a sequence of so many items, which stay.
fn makes_room(rt: &impl Abort, alloc: Global, count: u32, more: u32) {
    let mut seq = sequence_of(alloc, count, true).expect(rt, "memory");
    let blocks = seq.blocks();
    begin(alloc);
    let mut made = seq.reserve_more(more);
    end(alloc);
    if made == Err(NoMemory) {
        expect_that(rt, counts(&seq, 0, count) && seq.blocks() == blocks);
        made = seq.reserve_more(more);
    }
    expect_eq(rt, made, Ok(()));
    expect_that(rt, counts(&seq, 0, count) && seq.blocks() == blocks);
}

#[test]
fn seq_reserve_more(rt: HostRuntime) {
    for &count in &[0, 1, 128, 300] {
        makes_room(&rt, rt.alloc(), count, 40);
    }
}

// The same, for one insertion.
fn makes_room_for_one(rt: &impl Abort, alloc: Global, count: u32) {
    let mut seq = sequence_of(alloc, count, true).expect(rt, "memory");
    begin(alloc);
    let mut made = seq.reserve_one();
    end(alloc);
    if made == Err(NoMemory) {
        expect_that(rt, counts(&seq, 0, count));
        made = seq.reserve_one();
    }
    expect_eq(rt, made, Ok(()));
    expect_that(rt, counts(&seq, 0, count));
}

// The sequence of 300 items is then as long as its blocks and tables have room for.
#[test]
fn seq_reserve_one(rt: HostRuntime) {
    for count in 0..300 {
        makes_room_for_one(&rt, rt.alloc(), count);
    }
}

#[test]
fn seq_copy(rt: HostRuntime) {
    let seq = sequence_of(rt.alloc(), 300, true).expect(&rt, "memory");
    begin(rt.alloc());
    let copied = seq.copy(rt.alloc());
    end(rt.alloc());
    let copied = match copied {
        Ok(copied) => copied,
        Err(_) => {
            expect_that(&rt, counts(&seq, 0, 300));
            seq.copy(rt.alloc()).expect(&rt, "memory")
        }
    };
    expect_that(&rt, counts(&copied, 0, 300));
}

// The first two insertions of a site.
fn two_insertions() -> [TextOp; 2] {
    let name = Name { site: 1, number: 2 };
    let item = Item { name, value: 'Y' };
    let second = SeqOp::Insert { place: 1, item };
    [insert(0, 1, 'X'), second]
}

// Room for an operation is made in an empty text, which stays empty, and then the operation gives it these letters.
fn makes_room_for<T: Transform<State = Seq<char>>>(
    rt: &impl Abort,
    alloc: Global,
    op: &T,
    letters: &str,
)
    requires { T.can_reserve 0 }
{
    let mut seq = text(alloc, "");
    begin(alloc);
    let mut made = op.reserve(alloc, 0, &mut seq);
    end(alloc);
    if made.is_err() {
        expect_that(rt, reads(&seq, ""));
        made = op.reserve(alloc, 0, &mut seq);
    }
    expect_that(rt, made.is_ok() && reads(&seq, ""));
    expect_that(rt, attempt(alloc, op, &mut seq) && reads(&seq, letters));
}

#[test]
fn operation_reserve(rt: HostRuntime) {
    makes_room_for(&rt, rt.alloc(), &insert(0, 1, 'X'), "X");
}

#[test]
fn batch_reserve(rt: HostRuntime) {
    let both = Batch::from_slice(rt.alloc(), &two_insertions()).expect(&rt, "memory");
    makes_room_for(&rt, rt.alloc(), &both, "XY");
}

#[test]
fn batch_from_slice(rt: HostRuntime) {
    let ops = two_insertions();
    begin(rt.alloc());
    let both = Batch::from_slice(rt.alloc(), &ops);
    end(rt.alloc());
    let both = match both {
        Ok(both) => both,
        Err(_) => Batch::from_slice(rt.alloc(), &ops).expect(&rt, "memory"),
    };
    expect_eq(&rt, both.as_slice(), ops.as_slice());
}

#[test]
fn batch_copy(rt: HostRuntime) {
    let both = Batch::from_slice(rt.alloc(), &two_insertions()).expect(&rt, "memory");
    begin(rt.alloc());
    let copied = both.copy(rt.alloc());
    end(rt.alloc());
    let copied = match copied {
        Ok(copied) => copied,
        Err(_) => both.copy(rt.alloc()).expect(&rt, "memory"),
    };
    expect_that(&rt, copied == both);
}

// The edits are those of the two insertions.
fn are_insertions(rt: &impl Abort, alloc: Global, edits: &[SeqEdit<char>]) {
    for (op, edit) in two_insertions().iter().zip(edits) {
        expect_that(rt, op.edit(alloc) == Ok(*edit));
    }
    expect_eq(rt, edits.len(), 2);
}

#[test]
fn batch_edit(rt: HostRuntime) {
    let both = Batch::from_slice(rt.alloc(), &two_insertions()).expect(&rt, "memory");
    begin(rt.alloc());
    let edits = both.edit(rt.alloc());
    end(rt.alloc());
    let edits = match edits {
        Ok(edits) => edits,
        Err(_) => both.edit(rt.alloc()).expect(&rt, "memory"),
    };
    are_insertions(&rt, rt.alloc(), edits.as_slice());
}

#[test]
fn few_from_slice(rt: HostRuntime) {
    begin(rt.alloc());
    let few = Few::from_slice(rt.alloc(), &[1u32, 2]);
    end(rt.alloc());
    let few = match few {
        Ok(few) => few,
        Err(_) => Few::from_slice(rt.alloc(), &[1u32, 2]).expect(&rt, "memory"),
    };
    expect_eq(&rt, few.as_slice(), [1u32, 2].as_slice());
}

// Window 1 has an empty text 1 and a toggle 2 that is off.
fn text_and_toggle(rt: &impl Abort, alloc: Global) -> Board {
    let mut board = Board::new(alloc);
    board.add_window(alloc, 1).expect(rt, "it is new");
    let text = Widget::Text(Seq::new(alloc));
    board.add_widget(1, 1, text).expect(rt, "it is new");
    board.add_widget(1, 2, toggle()).expect(rt, "it is new");
    board
}

fn on_text(op: TextOp) -> BoardOp {
    let op = WidgetOp::Text(op);
    BoardOp { win: 1, wid: 1, op }
}

// A board of a text and a toggle, and no item.
fn is_blank(rt: &impl Abort, alloc: Global, board: &Board) {
    expect_that(rt, board.same(&text_and_toggle(rt, alloc)));
}

// Room for an operation is made. If an allocation failed first, the board was blank.
fn has_room_for(rt: &impl Abort, alloc: Global, board: &mut Board, op: &BoardOp) {
    begin(alloc);
    let mut made = op.reserve(alloc, 0, board);
    end(alloc);
    if made.is_err() {
        is_blank(rt, alloc, board);
        made = op.reserve(alloc, 0, board);
    }
    expect_that(rt, made.is_ok());
}

#[test]
fn board_reserve(rt: HostRuntime) {
    let op: BoardOp = on_text(insert(0, 1, 'X'));
    let mut board = text_and_toggle(&rt, rt.alloc());
    has_room_for(&rt, rt.alloc(), &mut board, &op);
    is_blank(&rt, rt.alloc(), &board);
    expect_that(
        &rt,
        attempt(rt.alloc(), &op, &mut board) && board.has_site(1),
    );
}

#[test]
fn board_copy(rt: HostRuntime) {
    let mut board = text_and_toggle(&rt, rt.alloc());
    expect_that(
        &rt,
        attempt(rt.alloc(), &on_text(insert(0, 1, 'X')), &mut board),
    );
    begin(rt.alloc());
    let copied = board.copy(rt.alloc());
    end(rt.alloc());
    let copied = match copied {
        Ok(copied) => copied,
        Err(_) => board.copy(rt.alloc()).expect(&rt, "memory"),
    };
    expect_that(&rt, copied.same(&board));
}

#[test]
fn add_window(rt: HostRuntime) {
    let mut board = Board::new(rt.alloc());
    for win in 1..=64 {
        begin(rt.alloc());
        let mut added = board.add_window(rt.alloc(), win);
        end(rt.alloc());
        if added == Err(BoardFault::NoMemory) {
            expect_eq(
                &rt,
                board.windows().len(),
                usize::from(win).saturating_sub(1),
            );
            added = board.add_window(rt.alloc(), win);
        }
        expect_eq(&rt, added, Ok(()));
        expect_eq(&rt, board.windows().len(), usize::from(win));
    }
}

// How many widgets window 1 has.
fn widgets_of(board: &Board) -> usize {
    match board.windows().first() {
        Some((_, window)) => window.widgets().len(),
        None => 0,
    }
}

#[test]
fn add_widget(rt: HostRuntime) {
    let mut board = Board::new(rt.alloc());
    board.add_window(rt.alloc(), 1).expect(&rt, "memory");
    for wid in 1..=64 {
        begin(rt.alloc());
        let mut added = board.add_widget(1, wid, toggle());
        end(rt.alloc());
        if added == Err(BoardFault::NoMemory) {
            expect_eq(&rt, widgets_of(&board), usize::from(wid).saturating_sub(1));
            added = board.add_widget(1, wid, toggle());
        }
        expect_eq(&rt, added, Ok(()));
        expect_eq(&rt, widgets_of(&board), usize::from(wid));
    }
}
