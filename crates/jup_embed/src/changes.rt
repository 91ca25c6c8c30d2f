//! The operations that a board took and that the client has not told its user.
ghost use Rattle.std.specs.Prelude.{◌≡◌, ◌≤◌, ◌+◌, ◌++◌, ◌∷◌, [], false, length, vec_len, vec_capacity, IsTrue, IsErr, OnOk, MatchOption};
ghost use Rattle.jup_embed.specs.Sessions.{kept, operations_in, operations_said};

use jup_batch::{BoardBatch, MOST_COMMANDS};
use jup_star::Up;
use jup_stream::Said;
use jup_window::{BoardOp, Within};
use jup_xform::NoMemory;
use std::alloc::Global;
use std::marker::{Model, PhantomData};

/// The operations that a board took and that the client has not told, oldest first. None are kept if nobody watches. Contracts see
/// them, how many that it has told are still held, whether somebody watches, and for how many more there is room.
#[derive(Drop)]
pub(crate) struct Changes {
    ops: Vec<BoardOp>,
    // How many of them the client has told.
    told: usize,
    is_watched: bool,
    within: Within,
}

impl Model for Changes {
    ghost use Rattle.std.specs.Prelude.{◌-◌, ◌≤◌, drop, length, vec_len, vec_capacity};
    ghost use Rattle.jup_embed.specs.Sessions.{Untold};

    ghost Value = { Untold };

    ghost view = { λ c. record { untold = drop c.told c.ops.items; told = c.told; watched = c.is_watched; room = vec_capacity c.ops - vec_len c.ops } };

    ghost invariant = { λ c. c.told ≤ length c.ops.items };
}

impl Changes {
    /// None. It takes no memory.
    pub(crate) fn new(alloc: Global, is_watched: bool) -> Changes
        ensures untold { result.untold ≡ [] }
        ensures told { result.told ≡ 0 }
        ensures watched { result.watched ≡ is_watched }
    {
        Changes {
            ops: Vec::new(alloc),
            told: 0,
            is_watched,
            within: PhantomData,
        }
    }

    /// Whether somebody watches.
    pub(crate) fn is_watched(&self) -> bool
        ensures { result ≡ self.now.watched }
    {
        self.is_watched
    }

    /// Tells the oldest. Where none is left, none is held.
    #[tactic(auto, using(crate::proofs::Sessions::one_left, crate::proofs::Sessions::none_left))]
    pub(crate) fn next(&mut self) -> Option<BoardOp>
        ensures told { MatchOption result ((self.old.untold ≡ []) × (self.new.untold ≡ [])) (λ op. self.old.untold ≡ op ∷ self.new.untold) }
        ensures held { MatchOption result (self.new.told ≡ 0) (λ _. self.new.told ≡ self.old.told + 1) }
        ensures watched { self.new.watched ≡ self.old.watched }
    {
        if self.told < self.ops.len() {
            let op = self.ops[self.told];
            self.told += 1;
            return Some(op);
        }
        self.ops.clear();
        self.told = 0;
        None
    }

    /// Makes room for the operations of an edit, if they are kept. If nobody watches, this needs no memory.
    pub(crate) fn reserve(&mut self) -> Result<(), NoMemory>
        ensures untold { self.new.untold ≡ self.old.untold }
        ensures told { self.new.told ≡ self.old.told }
        ensures watched { self.new.watched ≡ self.old.watched }
        ensures room { OnOk result (IsTrue self.new.watched → 32 ≤ self.new.room) }
        ensures nobody { self.old.watched ≡ false → self.new ≡ self.old }
        ensures why { IsErr result → IsTrue self.old.watched }
    {
        if self.is_watched && self.ops.reserve(MOST_COMMANDS).is_err() {
            return Err(NoMemory);
        }
        Ok(())
    }

    /// Keeps the operations of another site's edit, if somebody watches. There is room for them.
    #[tactic(auto, using(crate::proofs::Sessions::none_more, crate::proofs::Sessions::none_kept))]
    pub(crate) fn keep_shown(&mut self, shown: Option<BoardBatch>)
        requires { IsTrue self.old.watched → 32 ≤ self.old.room }
        ensures untold { self.new.untold ≡ self.old.untold ++ kept self.old.watched (operations_in shown) }
        ensures told { self.new.told ≡ self.old.told }
        ensures watched { self.new.watched ≡ self.old.watched }
    {
        if let Some(ops) = &shown {
            self.keep(ops.as_slice());
        }
    }

    /// Keeps the operations of what the client says, if that is an edit and somebody watches. There is room for them.
    #[tactic(auto, using(crate::proofs::Sessions::none_more, crate::proofs::Sessions::none_kept))]
    pub(crate) fn keep_said(&mut self, said: &Option<Said>)
        requires { IsTrue self.old.watched → 32 ≤ self.old.room }
        ensures untold { self.new.untold ≡ self.old.untold ++ kept self.old.watched (operations_said said.now) }
        ensures told { self.new.told ≡ self.old.told }
        ensures watched { self.new.watched ≡ self.old.watched }
    {
        if let Some(Said::Up(Up::Op(msg))) = said {
            self.keep(msg.op.as_slice());
        }
    }

    // Keeps operations, if somebody watches.
    #[tactic(auto, using(crate::proofs::Sessions::none_more))]
    fn keep(&mut self, ops: &[BoardOp])
        requires few { length ops.now ≤ 32 }
        requires room { IsTrue self.old.watched → 32 ≤ self.old.room }
        ensures untold { self.new.untold ≡ self.old.untold ++ kept self.old.watched ops.now }
        ensures told { self.new.told ≡ self.old.told }
        ensures watched { self.new.watched ≡ self.old.watched }
    {
        if self.is_watched {
            push_all(&mut self.ops, ops);
        }
    }
}

// Puts operations behind others. It takes no memory.
fn push_all(ops: &mut Vec<BoardOp>, more: &[BoardOp])
    requires { vec_len ops.old + length more.now ≤ vec_capacity ops.old }
    ensures { ops.new.items ≡ ops.old.items ++ more.now }
{
    for op in more {
        ops.push_reserved(*op);
    }
}
