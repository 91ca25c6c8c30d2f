//! Operations on boards.
ghost use Rattle.std.specs.Prelude.{◌≡◌, ◌<◌, Ok, OnOk, OnErr, refl};
ghost use Rattle.jup_window.specs.Entries.{same_place};
ghost use Rattle.jup_window.specs.Boards as board;
ghost use Rattle.jup_window.specs.Laws.Boards as board_laws;

use crate::boards::Board;
use crate::edits::BoardEdit;
use crate::kinds::WidgetOp;
use jup_xform::{NoMemory, Transform};
use std::alloc::Global;

/// An operation on the widget that the ids of a window and of a widget name.
#[derive(Clone, Copy, Debug, PartialEq, Eq)]
pub struct BoardOp {
    pub win: u16,
    pub wid: u16,
    pub op: WidgetOp,
}

impl BoardOp {
    /// What the operation means. It takes no memory. Inlined, since most callers ask for one part of it.
    #[inline]
    pub fn meaning(&self) -> BoardEdit
        ensures { result ≡ board.edit_of self.now }
    {
        BoardEdit {
            win: self.win,
            wid: self.wid,
            what: self.op.meaning(),
        }
    }

    // Whether both are on one widget.
    pub(crate) fn is_with(&self, other: &BoardOp) -> bool
        ensures { result ≡ same_place (board.place self.now) (board.place other.now) }
    {
        self.win == other.win && self.wid == other.wid
    }
}

impl Transform for BoardOp {
    type State = Board;

    type Edit = BoardEdit;

    ghost Content = { board.Content };

    ghost content = { board.content };

    ghost meaning = { board.meaning };

    ghost edit_of = { board.edit_of };

    ghost bare = { board.bare };

    ghost is_valid = { board.IsValid };

    ghost after = { board.after };

    ghost has_room = { board.HasRoom };

    ghost can_reserve = { λ n. n < 4294967295 };

    ghost is_distinct = { board.HasDistinctNames };

    ghost is_small = { board.IsSmall };

    ghost keeps_order = { board.KeepsOrder };

    ghost are_apart = { board.AreApart };

    ghost is_fresh = { board.IsFresh };

    ghost Name = { board.Placed };

    ghost holds = { board.Holds };

    ghost inserts = { board.Inserts };

    ghost deletes = { board.Deletes };

    ghost changes = { board.Changes };

    ghost client_past = { board.client_past };

    ghost server_past = { board.server_past };

    ghost Shape = { Unit {0} };

    ghost shape = { λ o. tt };

    ghost copies_freely = { λ o. Unit {0} };

    fn valid(&self, state: &Board) -> bool {
        match state.widget(self.win, self.wid) {
            Some(widget) => self.op.valid(widget),
            None => false,
        }
    }

    fn apart(&self, other: &BoardOp) -> bool {
        self.op.apart(&other.op)
    }

    fn fresh_after(&self, earlier: &BoardOp) -> bool {
        self.op.fresh_after(&earlier.op)
    }

    /// An allocation can fail only if there is not room already.
    fn reserve(&self, alloc: Global, beside: u32, state: &mut Board) -> Result<(), NoMemory>
        requires { beside < 4294967295 }
        ensures ok { OnOk result (board.HasRoom self.now beside state.new) }
        ensures same { board.bare state.new ≡ board.bare state.old }
        ensures kept { board.KeepsRoom state.old state.new }
        ensures refused_without_room { OnErr result (board.HasRoom self.now beside state.old → ⊥) }
    {
        state.reserve(alloc, self.win, self.wid, beside, &self.op)
    }

    fn apply(&self, state: &mut Board) {
        state.apply(self.win, self.wid, &self.op)
    }

    fn transform(c: &mut BoardOp, s: &mut BoardOp) {
        if c.is_with(s) {
            WidgetOp::transform(&mut c.op, &mut s.op);
        }
    }

    /// It takes no memory and is never refused.
    fn copy(&self, _alloc: Global) -> Result<BoardOp, NoMemory>
        ensures { result ≡ Ok self.now }
    {
        Ok(*self)
    }

    fn write_to(&self, into: &mut BoardOp) {
        *into = *self;
    }

    /// It takes no memory and is never refused.
    fn edit(&self, _alloc: Global) -> Result<BoardEdit, NoMemory>
        ensures { result ≡ Ok (board.edit_of self.now) }
    {
        Ok(self.meaning())
    }

    ghost square = { board_laws.square };

    ghost effect_one = { board_laws.effect_one };

    ghost effect_two = { board_laws.effect_two };

    ghost order = { board_laws.order };

    ghost distinct_after = { board_laws.distinct_after };

    ghost small_after = { board_laws.small_after };

    ghost small_below = { board_laws.small_below };

    ghost small_before = { board_laws.small_before };

    ghost apart_swap = { board_laws.apart_swap };

    ghost apart_client = { board_laws.apart_client };

    ghost apart_server = { board_laws.apart_server };

    ghost fresh_client = { board_laws.fresh_client };

    ghost fresh_server = { board_laws.fresh_server };

    ghost fresh_of_client = { board_laws.fresh_of_client };

    ghost fresh_of_server = { board_laws.fresh_of_server };

    ghost room_less = { board_laws.room_less };

    ghost room_client = { board_laws.room_client };

    ghost room_server = { board_laws.room_server };

    ghost shape_client = { λ c s. refl };

    ghost shape_server = { λ s c. refl };

    ghost inserts_client = { board_laws.inserts_client };

    ghost inserts_server = { board_laws.inserts_server };

    ghost changes_client = { board_laws.changes_client };

    ghost changes_server = { board_laws.changes_server };

    ghost apart_names = { board_laws.apart_names };

    ghost fresh_names = { board_laws.fresh_names };

    ghost inserts_new = { board_laws.inserts_new };

    ghost changes_held = { board_laws.changes_held };

    ghost held_before = { board_laws.held_before };

    ghost held_after = { board_laws.held_after };

    ghost order_self = { board_laws.order_self };

    ghost order_chain = { board_laws.order_chain };

    ghost meaning_none = { board_laws.meaning_none };

    ghost meaning_more = { board_laws.meaning_more };

    ghost edit_client = { board_laws.edit_client };

    ghost edit_server = { board_laws.edit_server };
}
