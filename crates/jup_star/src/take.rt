//! How a star takes an edit.
ghost use Rattle.std.specs.Prelude.{◌≡◌, ◌≤◌, ◌<◌, true, false, length, map, slice_set, vec_len, OnOk, IfOk};
ghost use Rattle.jup_batch.specs.Boards.{bare, after, shape, HasRoom, board_batches, accepts};
ghost use Rattle.jup_star.specs.Memory.{coming};
ghost use Rattle.jup_star.specs.Orders.{with_entry};
ghost use Rattle.jup_star.specs.Stars as star;
ghost use Rattle.jup_star.specs.Stars.{operation_at, link_heard, without, link_of, AreApart, links_after, BoardLink, IsPlace, IsHeardBy, bare_link, AllHaveRoom, OthersHaveRoom, AllCount};

use crate::ends::copy_of;
use crate::link::Link;
use crate::links::{reserve_all, send_others};
use crate::order::{NewEntry, Order};
use jup_batch::BoardBatch;
use jup_link::Msg;
use jup_window::Board;
use jup_xform::{NoMemory, Transform};
use std::alloc::Global;

/// What an edit takes with it, made while an allocation may still fail: its message, and its entry.
#[derive(Drop)]
pub(crate) struct Prepared {
    pub(crate) msg: Msg<BoardBatch>,
    pub(crate) entry: NewEntry,
}

/// Makes all room that an edit will need, and all copies.
pub(crate) fn reserve_edit(
    alloc: Global,
    site: u32,
    msg: &Msg<BoardBatch>,
    board: &mut Board,
    links: &mut Vec<Link>,
    order: &mut Order,
) -> Result<Prepared, NoMemory>
    requires { length order.old.state.entries < 18446744073709551615 }
    ensures board { bare board.new ≡ bare board.old }
    ensures links { map bare_link links.new.items ≡ map bare_link links.old.items }
    ensures order { order.new.state ≡ order.old.state }
    ensures board_room { OnOk result (HasRoom msg.now.op 0 board.new) }
    ensures link_room { OnOk result (AllHaveRoom (shape msg.now.op) links.new.items) }
    ensures order_room { OnOk result (1 ≤ order.new.spare) }
    ensures msg { IfOk result (λ prepared. prepared.msg ≡ msg.now) }
    ensures entry { IfOk result (λ prepared. coming prepared.entry ≡ record { entry = star.entry board_batches site msg.now; keeps = order.old.state.keeps }) }
{
    msg.op.reserve(alloc, 0, board)?;
    order.reserve_one()?;
    reserve_all(alloc, links, &msg.op)?;
    Ok(Prepared {
        msg: copy_of(alloc, msg)?,
        entry: order.entry_of(alloc, site, msg)?,
    })
}

/// Whether an operation may be applied to a board.
pub(crate) fn fits(op: &BoardBatch, board: &Board) -> bool
    ensures { result ≡ accepts op.now (bare board.now) }
{
    op.valid(board)
}

// Hands an edit to the link that it came by.
fn hear_at(links: &mut Vec<Link>, at: usize, site: u32, msg: Msg<BoardBatch>) -> BoardBatch
    requires place { IsPlace site (map bare_link links.old.items) at }
    requires below { at < vec_len links.old }
    requires heard { IsHeardBy site msg (map bare_link links.old.items) }
    requires room { AllHaveRoom (shape msg.op) links.old.items }
    ensures op { (l : BoardLink) → link_of site (map bare_link links.old.items) ≡ Some l
        → result ≡ operation_at board_batches l.end msg }
    ensures links { (l : BoardLink) → link_of site (map bare_link links.old.items) ≡ Some l
        → map bare_link links.new.items ≡ slice_set (map bare_link links.old.items) at (link_heard board_batches msg l) }
    ensures room { OthersHaveRoom (shape msg.op) site links.new.items }
{
    links[at].hear(msg)
}

/// Applies the operation of a message and sends it on, if it fits the board, and answers whether it does.
/// Otherwise only the link that it came by has changed. It takes no memory.
pub(crate) fn carry_out(
    board: &mut Board,
    links: &mut Vec<Link>,
    order: &mut Order,
    at: usize,
    site: u32,
    msg: Msg<BoardBatch>,
    entry: NewEntry,
) -> bool
    requires place { IsPlace site (map bare_link links.old.items) at }
    requires below { at < vec_len links.old }
    requires heard { IsHeardBy site msg (map bare_link links.old.items) }
    requires entry { coming entry ≡ record { entry = star.entry board_batches site msg; keeps = order.old.state.keeps } }
    requires apart { AreApart (map bare_link links.old.items) }
    requires counted { AllCount (map bare_link links.old.items) }
    requires board_room { HasRoom msg.op 0 board.old }
    requires link_room { AllHaveRoom (shape msg.op) links.old.items }
    requires order_room { 1 ≤ order.old.spare }

    ensures fits { (l : BoardLink) → link_of site (map bare_link links.old.items) ≡ Some l
        → result ≡ accepts (operation_at board_batches l.end msg) (bare board.old) }
    ensures others { result ≡ false → without site (map bare_link links.new.items) ≡ without site (map bare_link links.old.items) }
    ensures same_board { result ≡ false → bare board.new ≡ bare board.old }
    ensures same_order { result ≡ false → order.new.state ≡ order.old.state }
    ensures board { result ≡ true → (l : BoardLink) → link_of site (map bare_link links.old.items) ≡ Some l
        → bare board.new ≡ after (operation_at board_batches l.end msg) (bare board.old) }
    ensures links { result ≡ true → (l : BoardLink) → link_of site (map bare_link links.old.items) ≡ Some l
        → map bare_link links.new.items ≡ links_after board_batches site msg (operation_at board_batches l.end msg) (map bare_link links.old.items) }
    ensures order { result ≡ true → order.new.state ≡ with_entry (star.entry board_batches site msg) order.old.state }
{
    let op = hear_at(links, at, site, msg);
    if !fits(&op, board) {
        return false;
    }
    op.apply(board);
    send_others(links, site, &op);
    order.push(entry);
    true
}
