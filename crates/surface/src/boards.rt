//! `jup_window`: boards, their operations, and commands.

use jup_value::Name;
use jup_window::{Board, BoardEdit, BoardFault, BoardOp, Command, Edit, EditFault, Widget, Window};
use jup_xform::{NoMemory, Transform};
use std::alloc::Global;

/// The calls of a board that answer values.
pub fn calls() {
    let _: fn(Global) -> Board = Board::new;
    let _: fn(&mut Board, Global, u16) -> Result<(), BoardFault> = Board::add_window;
    let _: fn(&mut Board, u16, u16, Widget) -> Result<(), BoardFault> = Board::add_widget;
    let _: fn(&Board, &Board) -> bool = Board::same;
    let _: fn(&Board, u32) -> bool = Board::has_site;
    let _: fn(&Board, u32) -> bool = Board::only_site;
    let _: fn(&Board, Global) -> Result<Board, NoMemory> = Board::copy;
    let _: fn(&Board, &Command, Name) -> Result<BoardOp, EditFault> = Board::name_it;
    let _: fn(BoardFault) -> u32 = BoardFault::number;
    let _: fn(EditFault) -> u32 = EditFault::number;
}

/// `Board::windows`.
pub fn windows(board: &Board) -> &[(u16, Window)] {
    board.windows()
}

/// `Window::widgets`.
pub fn widgets(window: &Window) -> &[(u16, Widget)] {
    window.widgets()
}

/// `Board::widget`.
pub fn widget(board: &Board, win: u16, wid: u16) -> Option<&Widget> {
    board.widget(win, wid)
}

/// An operation on boards.
pub fn edited(op: &BoardOp, alloc: Global, state: &Board) -> Result<BoardEdit, NoMemory> {
    let _valid: bool = op.valid(state);
    op.edit(alloc)
}

/// `BoardEdit::shown`.
pub fn shown(edit: &BoardEdit) -> Edit {
    edit.shown()
}
