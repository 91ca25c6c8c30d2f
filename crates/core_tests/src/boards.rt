//! What no program asks of a board. `tools/played` has what boards show, and which commands they refuse.
use crate::expect::{expect_eq, expect_that};
use crate::sequences::text;
use jup_seq::SeqOp;
use jup_setting::Toggle;
use jup_value::{Item, Label, Name, Seq};
use jup_window::{Board, BoardFault, BoardOp, Command, Edit, EditFault, Effect, Widget, WidgetOp};
use jup_xform::Transform;
use std::alloc::Global;
use std::process::Abort;

const NAME: Name = Name { site: 1, number: 1 };

pub(crate) fn toggle() -> Widget {
    Widget::Toggle(Toggle { on: false })
}

// Puts a widget into window 1.
fn add(rt: &impl Abort, board: &mut Board, wid: u16, widget: Widget) {
    board.add_widget(1, wid, widget).expect(rt, "it is new");
}

// A board with an empty window 1.
fn one_window(rt: &impl Abort, alloc: Global) -> Board {
    let mut board = Board::new(alloc);
    board.add_window(alloc, 1).expect(rt, "it is new");
    board
}

// Window 1 has an empty text 1, and a list 2 of one item, 0.1 red.
fn one_label(rt: &impl Abort, alloc: Global) -> Board {
    let name = Name { site: 0, number: 1 };
    let value = Label::read(b"red").expect(rt, "a label");
    let mut list = Seq::new(alloc);
    list.reserve_one().expect(rt, "there is memory");
    if list.is_empty() && list.place_of(name).is_none() {
        list.insert(0, Item { name, value });
    }
    let mut board = one_window(rt, alloc);
    add(rt, &mut board, 1, Widget::Text(Seq::new(alloc)));
    add(rt, &mut board, 2, Widget::List(list));
    board
}

// A layout has a window above each widget, and items of site 0 alone.
#[test]
fn what_no_layout_has_is_found(rt: HostRuntime) {
    let mut board = one_label(&rt, rt.alloc());
    expect_that(&rt, board.only_site(0) && !board.only_site(1));
    let added = board.add_widget(2, 0, toggle());
    expect_eq(&rt, added, Err(BoardFault::NoWindow));
}

// An operation on the text.
fn on_text(op: SeqOp<char>) -> BoardOp {
    BoardOp {
        win: 1,
        wid: 1,
        op: WidgetOp::Text(op),
    }
}

#[test]
fn text_takes_no_relabel(rt: HostRuntime) {
    let mut board = one_window(&rt, rt.alloc());
    add(&rt, &mut board, 1, Widget::Text(text(rt.alloc(), "x")));
    let op = on_text(SeqOp::Relabel {
        place: 0,
        name: Name { site: 0, number: 1 },
        value: 'z',
    });
    expect_that(&rt, !op.valid(&board));
    let nothing = Edit {
        win: 1,
        wid: 1,
        what: Effect::Nothing,
    };
    expect_eq(&rt, op.meaning().shown(), nothing);
}

// The list of `one_label` has one item.
fn has_one_item(rt: &impl Abort, list: &Widget) {
    expect_eq(rt, list.item_count(), 1);
    expect_eq(rt, list.name_at(0), Some(Name { site: 0, number: 1 }));
    expect_eq(rt, list.name_at(1), None);
}

// A deletion at place 7 is judged by the count of items and the name that it is given.
fn is_judged(rt: &impl Abort, list: &Widget, command: &Command) {
    expect_eq(rt, (command.ids(), command.place()), ((1, 2), 7));
    let last = SeqOp::Delete {
        place: 7,
        name: NAME,
    };
    let made = command.on_widget(list, NAME, 8, Some(NAME));
    expect_eq(rt, made, Ok(WidgetOp::List(last)));
    let refused = command.on_widget(list, NAME, 1, None);
    expect_eq(rt, refused, Err(EditFault::BadPlace));
}

#[test]
fn command_is_judged_by_what_is_given_of_items(rt: HostRuntime) {
    let board = one_label(&rt, rt.alloc());
    let list = board.named_widget(1, 2).expect(&rt, "it is there");
    has_one_item(&rt, list);
    let deletion = Command::Delete {
        win: 1,
        wid: 2,
        place: 7,
    };
    is_judged(&rt, list, &deletion);
    expect_that(
        &rt,
        matches!(board.named_widget(1, 9), Err(EditFault::NoWidget)),
    );
    expect_that(
        &rt,
        matches!(board.named_widget(9, 2), Err(EditFault::NoWindow)),
    );
}
