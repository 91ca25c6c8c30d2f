//! `jup_wire`, `jup_layout`, `jup_gather` and `jup_text`: lines, messages and printed texts.

use jup_batch::{BoardBatch, BoardEdits};
use jup_gather::{Gather, Gathered, MOST_MESSAGE, lines_of_op};
use jup_layout::{BoardBuilder, LayoutFault, board_of, layout, lines_of};
use jup_link::Msg;
use jup_window::{Board, Command};
use jup_wire::{Fed, Line, Lines, MOST, Reader, WireFault, write, write_reserved};
use jup_xform::NoMemory;
use std::alloc::Global;

/// Lines as bytes.
pub fn bytes() {
    let _: fn(Global, &Line, &mut Vec<u8>) -> Result<(), NoMemory> = write;
    let _: fn(&Line, &mut Vec<u8>) = write_reserved;
    let _: fn() -> Reader = Reader::new;
    let _: fn(&mut Reader, Global, &[u8]) -> Result<Fed, NoMemory> = Reader::feed;
    let _: fn(&Reader) -> Result<(), WireFault> = Reader::finish;
    let _: fn(WireFault) -> u32 = WireFault::number;
    let _: [usize; 2] = [MOST, MOST_MESSAGE];
}

/// Boards as lines.
pub fn boards() {
    let _: fn(Global, &Board) -> Result<Lines, NoMemory> = lines_of;
    let _: fn(Global, &[Line]) -> Result<Board, LayoutFault> = board_of;
    let _: fn(Global, &[u8]) -> Result<Board, LayoutFault> = layout;
    let _: fn(Global) -> BoardBuilder = BoardBuilder::new;
    let _: fn(BoardBuilder, Global, &Line) -> Result<BoardBuilder, LayoutFault> =
        BoardBuilder::take;
    let _: fn(BoardBuilder) -> Result<Board, LayoutFault> = BoardBuilder::finish;
}

/// Edits as lines.
pub fn edits() {
    let _: fn(Global, &Msg<BoardBatch>) -> Result<Lines, NoMemory> = lines_of_op;
    let _: fn() -> Gather = Gather::new;
    let _: fn(&mut Gather, Global, &Line) -> Result<Gathered, NoMemory> = Gather::push;
    let _: fn(&Gather) -> bool = Gather::part;
}

/// Commands, boards and edits as text, by the crate that has them and by that of worlds.
pub fn texts() {
    let _: fn(&[u8]) -> Option<Command> = jup_text::read_command;
    let _: fn(&[u8]) -> Option<Command> = jup_world::read_command;
    let _: fn(Global, &Board, &mut Vec<u8>) -> Result<(), NoMemory> = jup_text::write_board;
    let _: fn(Global, &Board, &mut Vec<u8>) -> Result<(), NoMemory> = jup_world::write_board;
    let _: fn(Global, &BoardEdits, &mut Vec<u8>) -> Result<(), NoMemory> = jup_text::write_edit;
    let _: fn(Global, &BoardEdits, &mut Vec<u8>) -> Result<(), NoMemory> = jup_world::write_edit;
}

/// The fields of what a reader was fed, and of a fault of a layout.
pub fn told(fed: Fed, fault: LayoutFault) -> (Lines, Option<WireFault>, u32, u32) {
    (fed.lines, fed.fault, fault.line, fault.number)
}
