//! A star over a small board, one of its sites, and the first edits of all of them.
ghost use Rattle.jup_window.specs.Entries.{EachWidget};
ghost use Rattle.jup_star.specs.Stars.{IsShort};

use crate::expect::expect_that;
use jup_batch::BoardBatch;
use jup_link::Msg;
use jup_seq::SeqOp;
use jup_star::{Site, Star, Up};
use jup_value::{Item, Name};
use jup_window::{Board, BoardOp, WidgetOp};
use jup_xform::Batch;
use std::alloc::Global;
use std::process::Abort;
use test_boards::{alone, board_of};

const LIMIT: u32 = 100_000;

// Window 1 has the text 1 "pqr" and the toggle 3, which is off.
fn board(rt: &impl Abort, alloc: Global) -> Board
    ensures { EachWidget IsShort result }
{
    let lines = ["window 1", "text 1 \"pqr\"", "toggle 3 off"];
    board_of(alloc, &lines).expect(rt, "a board")
}

/// A star over this board, with some sites attached.
pub(crate) fn star_of(rt: &impl Abort, alloc: Global, sites: u32) -> Star {
    let star = Star::open(alloc, board(rt, alloc), LIMIT).expect(rt, "a layout and a limit");
    with_sites(rt, alloc, star, sites)
}

/// The same star, which only counts its order.
pub(crate) fn counting_star_of(rt: &impl Abort, alloc: Global, sites: u32) -> Star {
    let star = Star::open_counting(alloc, board(rt, alloc), LIMIT);
    with_sites(rt, alloc, star.expect(rt, "a layout and a limit"), sites)
}

fn with_sites(rt: &impl Abort, alloc: Global, mut star: Star, sites: u32) -> Star {
    for _ in 0..sites {
        expect_that(rt, star.join(alloc).is_ok());
    }
    star
}

/// Site 1, as such a star would open it.
pub(crate) fn first_site(rt: &impl Abort, alloc: Global) -> Site {
    Site::open(alloc, 1, LIMIT, board(rt, alloc)).expect(rt, "a site's number")
}

fn on_text(op: SeqOp<char>) -> BoardOp {
    let op = WidgetOp::Text(op);
    BoardOp { win: 1, wid: 1, op }
}

/// The first insertion of a site, before all items.
pub(crate) fn insertion(site: u32) -> BoardOp {
    let name = Name { site, number: 1 };
    let item = Item { name, value: 'a' };
    on_text(SeqOp::Insert { place: 0, item })
}

// The deletion of the p after that insertion.
fn deletion() -> BoardOp {
    let name = Name { site: 0, number: 1 };
    on_text(SeqOp::Delete { place: 1, name })
}

/// That insertion and then the deletion of the p, as one edit.
pub(crate) fn replacement(rt: &impl Abort, alloc: Global, site: u32) -> BoardBatch {
    Batch::from_slice(alloc, &[insertion(site), deletion()]).expect(rt, "memory")
}

/// The message of an edit that is the first on a link.
pub(crate) fn first(op: BoardBatch) -> Msg<BoardBatch> {
    let (mine, heard) = (0, 0);
    Msg { mine, heard, op }
}

/// The message in which a site tells its star of that insertion.
pub(crate) fn told_of(alloc: Global, site: u32) -> Up {
    Up::Op(first(alone(alloc, insertion(site))))
}
