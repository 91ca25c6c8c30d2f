//! Lists of operations as one operation: what a user does in one gesture. A batch is transformed past another by
//! the grid of both lists.

ghost use Rattle.std.specs.Prelude.{◌≡◌, ℕ, ◌+◌, ◌-◌, ◌*◌, ◌≤◌, ◌↔◌, IsTrue, List, [], ◌∷◌, length, OnOk, OnErr, IfOk};
ghost use Rattle.jup_limits.specs.Limits.{most_operations};
ghost use Rattle.jup_xform.specs.Grids.{after_all, AreValid};
ghost use Rattle.jup_xform.specs.Batches.{EachTo, EachPair, edits, shapes, Inserts, Deletes, Changes, batch_meaning, IsValidBatch, is_small_batch, has_batch_room, can_reserve_batch, batch_client_past, batch_server_past, copies_freely_batch, items_of};
ghost use Rattle.jup_xform.specs.Laws.Grids.{distinct_after_all};
ghost use Rattle.jup_xform.specs.Laws.BoundLaws.{lawful, keeps_meaning, keeps_fresh};
ghost use Rattle.jup_xform.specs.Laws.Batches.{batch_square, batch_small_after, batch_small_below, batch_small_before, EachPair-swap, EachPair-left, EachPair-right, batch_effect_one, batch_order, batch_inserts_client, batch_inserts_server, batch_changes_client, batch_changes_server, batch_apart_names, batch_fresh_names, batch_inserts_new, batch_changes_held, batch_held_before, batch_held_after, batch_meaning_more, batch_edit_client, batch_edit_server, batch_effect_two, batch_room_less, batch_room_past, batch_shape_past};

use crate::few::Store;
use crate::row::grid;
use crate::{Few, NoMemory, Transform};
use jup_limits::MOST_OPERATIONS;
use std::alloc::Global;
use std::marker::Model;

/// An operation that a batch may hold. A trace determines whether it may be applied after others: it is taken
/// of a state and carried past one operation after another, without applying any.
pub trait Single: Transform {
    /// What of a state determines whether the operation may be applied.
    type Trace: Copy;

    /// That this is the operation's trace of a state.
    ghost is_trace: { Self → Self.State → Self.Trace → Type 0 };

    /// The trace of the first operation, once the second was applied.
    ghost trace_past: { Self → Self.Trace → Self → Self.Trace };

    /// That a trace allows its operation to be applied.
    ghost allows: { Self → Self.Trace → Type 0 };

    /// The trace that is taken of a state, before any operation is applied.
    fn trace(&self, state: &Self::State) -> Self::Trace
        ensures { is_trace self.now (Self.bare state.now) result };

    /// The trace once an earlier operation was applied.
    fn trace_after(&self, trace: Self::Trace, earlier: &Self) -> Self::Trace
        ensures { result ≡ trace_past self.now trace earlier.now };

    /// Whether the operation may be applied if it has this trace.
    fn allowed_by(&self, trace: Self::Trace) -> bool
        ensures { IsTrue result ↔ allows self.now trace };

    /// A trace stays one past a valid operation.
    ghost traced: { (o e : Self) (x : Self.State) (r : Self.Trace) → Self.is_valid e x → is_trace o x r → is_trace o (Self.after e x) (trace_past o r e) };

    /// It allows its operation exactly if that is valid.
    ghost told: { (o : Self) (x : Self.State) (r : Self.Trace) → is_trace o x r → (allows o r ↔ Self.is_valid o x) };
}

/// A list of 1 to 32 operations. One alone takes no memory.
pub struct Batch<T> {
    ops: Few<T>,
}

// Written out: a crate that drops a batch then proves one call. It would prove a derived drop again, and those of all parts.
impl<T: Drop> Drop for Batch<T> {
    fn drop(self) {
        let Batch { ops: _ } = self;
    }
}

impl<T> Model for Batch<T> {
    ghost use Rattle.std.specs.Prelude.{◌≤◌, List, length};
    ghost use Rattle.jup_limits.specs.Limits.{most_operations};

    ghost Value = { List T };

    ghost view = { λ b. b.ops };

    ghost invariant = { λ b. (1 ≤ length b.ops) × (length b.ops ≤ most_operations) };
}

impl<T> Batch<T> {
    /// A batch of these operations, which are 1 to 32.
    pub fn new(ops: Vec<T>) -> Batch<T>
        requires some { 1 ≤ length ops.items }
        requires few { length ops.items ≤ most_operations }
        ensures { result ≡ ops.items }
    {
        Batch { ops: Few::of(ops) }
    }

    /// A batch of one operation. It takes no memory.
    pub fn one(op: T) -> Batch<T>
        ensures { result ≡ op ∷ [] }
    {
        Batch { ops: Few::one(op) }
    }

    /// The operations in order. Callers learn here, too, that they are 1 to 32.
    pub fn as_slice(&self) -> &[T]
        ensures ops { result.now ≡ self.now }
        ensures some { 1 ≤ length result.now }
        ensures few { length result.now ≤ most_operations }
    {
        self.ops.as_slice()
    }
}

impl<T: Transform> Batch<T> {
    /// A batch of copies of these operations, which are 1 to 32. One that is copied without memory takes none.
    pub fn from_slice(alloc: Global, ops: &[T]) -> Result<Batch<T>, NoMemory>
        requires some { 1 ≤ length ops.now }
        requires few { length ops.now ≤ most_operations }
        ensures ops { IfOk result (λ batch. batch ≡ ops.now) }
        ensures refused { OnErr result (copies_freely_batch T.Transform ops.now → ⊥) }
    {
        let ops = match ops {
            [op] => Few::one(op.copy(alloc)?),
            _ => Few::of(copies_of(alloc, ops)?),
        };
        Ok(Batch { ops })
    }
}

/// Copies of operations.
fn copies_of<T: Transform>(alloc: Global, ops: &[T]) -> Result<Vec<T>, NoMemory>
    ensures { IfOk result (λ copies. copies.items ≡ ops.now) }
{
    let mut copies = Vec::with_capacity(alloc, ops.len()).map_err(|_| NoMemory)?;
    for op in ops {
        copies.push(op.copy(alloc)?).map_err(|_| NoMemory)?;
    }
    Ok(copies)
}

/// The edits of operations.
fn edits_of<T: Transform>(alloc: Global, ops: &[T]) -> Result<Vec<T::Edit>, NoMemory>
    ensures { IfOk result (λ all. all.items ≡ edits T.Transform ops.now) }
{
    let mut all = Vec::with_capacity(alloc, ops.len()).map_err(|_| NoMemory)?;
    for op in ops {
        all.push(op.edit(alloc)?).map_err(|_| NoMemory)?;
    }
    Ok(all)
}

/// Moves a client's list and a server's past one another: the grid, with a clause for each list.
fn cross<T: Transform>(c: &mut [T], s: &mut [T])
    ensures client { c.new ≡ batch_client_past T.Transform c.old s.old }
    ensures server { s.new ≡ batch_server_past T.Transform s.old c.old }
{
    grid(c, s);
}

/// The same for the server's list in its store.
fn cross_store<T: Transform>(c: &mut [T], s: &mut Store<T>)
    ensures client { c.new ≡ batch_client_past T.Transform c.old (items_of s.old) }
    ensures server { items_of s.new ≡ batch_server_past T.Transform (items_of s.old) c.old }
    ensures same_length { length (items_of s.new) ≡ length (items_of s.old) }
{
    match s {
        Store::One(one) => cross(c, &mut one[..]),
        Store::More(list) => cross(c, list.as_mut_slice()),
    }
}

/// Whether each operation is apart from another.
fn all_apart<T: Transform>(ops: &[T], other: &T) -> bool
    ensures { IsTrue result ↔ EachTo T.are_apart ops.now other.now }
{
    for op in ops {
        if !op.apart(other) {
            return false;
        }
    }
    true
}

/// Whether each operation is fresh after an earlier one.
fn all_fresh<T: Transform>(ops: &[T], earlier: &T) -> bool
    ensures { IsTrue result ↔ EachTo T.is_fresh ops.now earlier.now }
{
    for op in ops {
        if !op.fresh_after(earlier) {
            return false;
        }
    }
    true
}

/// Whether an operation is fresh after each of some earlier ones.
fn fresh_after_all<T: Transform>(op: &T, earlier: &[T]) -> bool
    ensures { IsTrue result ↔ EachTo (λ e o. T.is_fresh o e) earlier.now op.now }
{
    for one in earlier {
        if !op.fresh_after(one) {
            return false;
        }
    }
    true
}

/// Whether an operation may be applied after earlier ones, each of which may be applied after those before it.
fn valid_after<T: Single>(op: &T, earlier: &[T], state: &T::State) -> bool
    requires { AreValid T.Transform earlier.now (T.bare state.now) }
    ensures { IsTrue result ↔ T.is_valid op.now (after_all T.Transform earlier.now (T.bare state.now)) }
{
    // The first is judged on the state as it is, which may be quicker than by a trace.
    if earlier.is_empty() {
        return op.valid(state);
    }
    let mut trace = op.trace(state);
    for one in earlier {
        trace = op.trace_after(trace, one);
    }
    op.allowed_by(trace)
}

/// Whether an operation may follow earlier ones in a batch.
fn may_follow<T: Single>(op: &T, earlier: &[T], state: &T::State) -> bool
    requires { AreValid T.Transform earlier.now (T.bare state.now) }
    ensures { IsTrue result
        ↔ (T.is_valid op.now (after_all T.Transform earlier.now (T.bare state.now)) × EachTo (λ e o. T.is_fresh o e) earlier.now op.now) }
{
    valid_after(op, earlier, state) && fresh_after_all(op, earlier)
}

/// Writes each operation into one of the same shape.
fn write_all<T: Transform>(from: &[T], into: &mut [T])
    requires { shapes T.Transform from.now ≡ shapes T.Transform into.old }
    ensures { into.new ≡ from.now }
{
    for at in 0..from.len() {
        from[at].write_to(&mut into[at]);
    }
}

impl<T: Single> Transform for Batch<T> {
    type State = T::State;

    type Edit = Few<T::Edit>;

    ghost Content = { T.Content };

    ghost content = { T.content };

    ghost meaning = { batch_meaning T.Transform };

    ghost edit_of = { edits T.Transform };

    ghost bare = { T.bare };

    ghost is_valid = { IsValidBatch T.Transform };

    ghost after = { after_all T.Transform };

    ghost has_room = { has_batch_room T.Transform };

    ghost can_reserve = { can_reserve_batch T.Transform };

    ghost is_distinct = { T.is_distinct };

    ghost is_small = { is_small_batch T.Transform };

    ghost keeps_order = { T.keeps_order };

    ghost are_apart = { EachPair T.are_apart };

    ghost is_fresh = { EachPair T.is_fresh };

    ghost Name = { T.Name };

    ghost holds = { T.holds };

    ghost inserts = { Inserts T.Transform };

    ghost deletes = { Deletes T.Transform };

    ghost changes = { Changes T.Transform };

    ghost client_past = { batch_client_past T.Transform };

    ghost server_past = { batch_server_past T.Transform };

    ghost Shape = { List T.Shape };

    ghost shape = { shapes T.Transform };

    ghost copies_freely = { copies_freely_batch T.Transform };

    fn valid(&self, state: &T::State) -> bool {
        let ops = self.as_slice();
        for at in 0..ops.len() {
            let op = &ops[at];
            let earlier = &ops[..at];
            if !may_follow(op, earlier, state) {
                return false;
            }
        }
        true
    }

    fn apart(&self, other: &Batch<T>) -> bool {
        for op in other.as_slice() {
            if !all_apart(self.as_slice(), op) {
                return false;
            }
        }
        true
    }

    fn fresh_after(&self, earlier: &Batch<T>) -> bool {
        for op in earlier.as_slice() {
            if !all_fresh(self.as_slice(), op) {
                return false;
            }
        }
        true
    }

    fn reserve(&self, alloc: Global, beside: u32, state: &mut T::State) -> Result<(), NoMemory> {
        let others = beside * MOST_OPERATIONS + (self.as_slice().len() as u32 - 1);
        for op in self.as_slice() {
            op.reserve(alloc, others, state)?;
        }
        Ok(())
    }

    fn apply(&self, state: &mut T::State) {
        for op in self.as_slice() {
            op.apply(state);
        }
    }

    fn transform(c: &mut Batch<T>, s: &mut Batch<T>) {
        match (&mut c.ops.store, &mut s.ops.store) {
            // The grid of two single operations, as in typing, is one square.
            (Store::One(one), Store::One(other)) => T::transform(&mut one[0], &mut other[0]),
            (Store::One(one), other) => cross_store(&mut one[..], other),
            (Store::More(list), other) => cross_store(list.as_mut_slice(), other),
        }
    }

    fn copy(&self, alloc: Global) -> Result<Batch<T>, NoMemory> {
        Batch::from_slice(alloc, self.as_slice())
    }

    fn write_to(&self, into: &mut Batch<T>) {
        match &mut into.ops.store {
            Store::One(one) => write_all(self.as_slice(), &mut one[..]),
            Store::More(list) => write_all(self.as_slice(), list.as_mut_slice()),
        }
    }

    fn edit(&self, alloc: Global) -> Result<Few<T::Edit>, NoMemory> {
        Ok(match self.as_slice() {
            [op] => Few::one(op.edit(alloc)?),
            ops => Few::of(edits_of(alloc, ops)?),
        })
    }

    ghost square = { batch_square T.Transform.own (lawful T.Transform) (keeps_fresh T.Transform) };

    ghost effect_one = { batch_effect_one T.Transform.own (keeps_meaning T.Transform) (lawful T.Transform) };

    ghost effect_two = { λ x c s distinct small valid_c valid_s apart. batch_effect_two T.Transform.own (keeps_meaning T.Transform) (lawful T.Transform) (keeps_fresh T.Transform) x c s distinct small valid_c valid_s apart };

    ghost order = { batch_order T.Transform.own (keeps_meaning T.Transform) (lawful T.Transform) };

    ghost distinct_after = { λ x c distinct valid. distinct_after_all T.Transform.own (lawful T.Transform) c x distinct valid.valid };

    ghost small_after = { batch_small_after T.Transform.own (lawful T.Transform) };

    ghost small_below = { batch_small_below T.Transform.own (lawful T.Transform) };

    ghost small_before = { batch_small_before T.Transform.own (lawful T.Transform) };

    ghost apart_swap = { EachPair-swap T.are_apart T.are_apart T.apart_swap };

    ghost apart_client = { EachPair-left T.are_apart T.client_past T.server_past T.apart_client };

    ghost apart_server = { EachPair-left T.are_apart T.server_past T.client_past T.apart_server };

    ghost fresh_client = { EachPair-left T.is_fresh T.client_past T.server_past T.fresh_client };

    ghost fresh_server = { EachPair-left T.is_fresh T.server_past T.client_past T.fresh_server };

    ghost fresh_of_client = { EachPair-right T.is_fresh T.client_past T.server_past T.fresh_of_client };

    ghost fresh_of_server = { EachPair-right T.is_fresh T.server_past T.client_past T.fresh_of_server };

    ghost room_less = { batch_room_less T.Transform.own T.room_less };

    ghost room_client = { batch_room_past T.Transform.own T.client_past T.server_past T.room_client };

    ghost room_server = { batch_room_past T.Transform.own T.server_past T.client_past T.room_server };

    ghost shape_client = { batch_shape_past T.Transform.own T.client_past T.server_past T.shape_client };

    ghost shape_server = { batch_shape_past T.Transform.own T.server_past T.client_past T.shape_server };

    ghost inserts_client = { batch_inserts_client T.Transform.own (keeps_meaning T.Transform) };

    ghost inserts_server = { batch_inserts_server T.Transform.own (keeps_meaning T.Transform) };

    ghost changes_client = { batch_changes_client T.Transform.own (keeps_meaning T.Transform) };

    ghost changes_server = { batch_changes_server T.Transform.own (keeps_meaning T.Transform) };

    ghost apart_names = { batch_apart_names T.Transform.own (keeps_meaning T.Transform) };

    ghost fresh_names = { batch_fresh_names T.Transform.own (keeps_meaning T.Transform) };

    ghost inserts_new = { batch_inserts_new T.Transform.own (keeps_meaning T.Transform) };

    ghost changes_held = { batch_changes_held T.Transform.own (keeps_meaning T.Transform) };

    ghost held_before = { batch_held_before T.Transform.own (keeps_meaning T.Transform) };

    ghost held_after = { batch_held_after T.Transform.own (keeps_meaning T.Transform) };

    ghost order_self = { T.order_self };

    ghost order_chain = { T.order_chain };

    ghost meaning_none = { T.meaning_none };

    ghost meaning_more = { batch_meaning_more T.Transform.own (keeps_meaning T.Transform) };

    ghost edit_client = { batch_edit_client T.Transform.own (keeps_meaning T.Transform) };

    ghost edit_server = { λ c s apart. batch_edit_server T.Transform.own (keeps_meaning T.Transform) (lawful T.Transform) c s apart };
}
