//! Operations that can be transformed past one another, after the Jupiter collaboration system
//! (Nichols, Curtis, Dixon and Lamping, UIST 1995).
//!
//! [`Transform`] says what links, stars and worlds may rely on, and nothing of any widget. Its ghost members
//! are the words, and its methods compute them. Its laws are proved of each operation type.
#![tactic(auto)]

ghost use Rattle.std.specs.Prelude.{◌≡◌, ℕ, ◌+◌, ◌↔◌, ◌⊎◌, IsTrue, List, [], ◌∷◌, ◌++◌, OnOk, OnErr, IfOk};
ghost use Rattle.jup_xform.specs.Rows.{row_operation, SomeOf};

use std::alloc::Global;

mod batch;
mod comparing;
mod concurrent;
mod few;
pub mod laws;
mod one_of;
mod row;

pub use batch::{Batch, Single};
pub use concurrent::meet;
pub use few::Few;
pub use jup_limits::NoMemory;
pub use one_of::{OneOf, OneTrace};
pub use row::{Side, across, grid};

/// An operation on a state, which can be transformed past an operation that the other end of a link made at
/// the same time. `c` is a client's operation and `s` a server's.
pub trait Transform: Drop {
    /// What operations are applied to. It may keep room for growth, which contracts see beside the rest.
    type State;

    /// What an operation means, without the place where it applies.
    type Edit: Drop;

    /// What a state holds, without the order of its items.
    ghost Content: { Type 0 };

    ghost content: { Self.State → Content };

    /// The content after a list of edits.
    ghost meaning: { Content → List Self.Edit → Content };

    /// The edit that an operation makes.
    ghost edit_of: { Self → Self.Edit };

    /// A state without the room that it keeps.
    ghost bare: { Self.State → Self.State };

    /// Whether the operation may be applied, and the state that it leaves.
    ghost is_valid: { Self → Self.State → Type 0 };

    ghost after: { Self → Self.State → Self.State };

    /// There is room for the operation and for so many others in the same sequence.
    ghost has_room: { Self → ℕ → Self.State → Type 0 };

    /// Room for one operation and so many others beside it may be asked for.
    ghost can_reserve: { ℕ → Type 0 };

    /// The names in each sequence are distinct.
    ghost is_distinct: { Self.State → Type 0 };

    /// Each sequence is shorter than 2,147,483,648 items by more than this number.
    ghost is_small: { ℕ → Self.State → Type 0 };

    /// Names that one sequence has in both states are in the same order in both.
    ghost keeps_order: { Self.State → Self.State → Type 0 };

    /// The insertions of both have no name in common.
    ghost are_apart: { Self → Self → Type 0 };

    /// The operation inserts no name that the other, which comes before it, inserts or deletes.
    ghost is_fresh: { Self → Self → Type 0 };

    /// A name of an item together with its sequence.
    ghost Name: { Type 0 };

    /// The names that a state holds, and those that an edit inserts, deletes, and deletes or gives
    /// another value.
    ghost holds: { Self.State → Name → Type 0 };

    ghost inserts: { Self.Edit → Name → Type 0 };

    ghost deletes: { Self.Edit → Name → Type 0 };

    ghost changes: { Self.Edit → Name → Type 0 };

    /// A client's operation past a server's, and a server's past a client's.
    ghost client_past: { Self → Self → Self };

    ghost server_past: { Self → Self → Self };

    /// What is fixed when an operation is made, as the number of operations in a batch.
    ghost Shape: { Type 0 };

    ghost shape: { Self → Shape };

    /// The operations of which a copy takes no memory.
    ghost copies_freely: { Self → Type 0 };

    /// Whether the operation may be applied to the state.
    fn valid(&self, state: &Self::State) -> bool
        ensures { IsTrue result ↔ is_valid self.now (bare state.now) };

    /// Whether the insertions of both have no name in common.
    fn apart(&self, other: &Self) -> bool
        ensures { IsTrue result ↔ are_apart self.now other.now };

    /// Whether it inserts no name that `earlier` inserts or deletes.
    fn fresh_after(&self, earlier: &Self) -> bool
        ensures { IsTrue result ↔ is_fresh self.now earlier.now };

    /// Makes room for this operation and for `beside` others in the same sequence. An allocation can fail
    /// only if there is not room already.
    fn reserve(&self, alloc: Global, beside: u32, state: &mut Self::State) -> Result<(), NoMemory>
        requires { can_reserve beside }
        ensures ok { OnOk result (has_room self.now beside state.new) }
        ensures same { bare state.new ≡ bare state.old }
        ensures kept { (o : Self) (n : ℕ) → has_room o n state.old → has_room o n state.new }
        ensures refused_without_room { OnErr result (has_room self.now beside state.old → ⊥) };

    /// Applies the operation. It takes no memory, and lowers the room of a state by one at most.
    fn apply(&self, state: &mut Self::State)
        requires valid { is_valid self.now (bare state.old) }
        requires room { has_room self.now 0 state.old }
        ensures after { bare state.new ≡ after self.now (bare state.old) }
        ensures room { (o : Self) (n : ℕ) → has_room o (n + 1) state.old → has_room o n state.new };

    /// Moves a client's operation and a server's past one another.
    fn transform(c: &mut Self, s: &mut Self)
        ensures client { c.new ≡ client_past c.old s.old }
        ensures server { s.new ≡ server_past s.old c.old };

    fn copy(&self, alloc: Global) -> Result<Self, NoMemory>
        ensures copied { IfOk result (λ copied. copied ≡ self.now) }
        ensures refused { OnErr result (copies_freely self.now → ⊥) };

    /// Overwrites an operation of the same shape. It takes no memory.
    fn write_to(&self, into: &mut Self)
        requires { shape self.now ≡ shape into.old }
        ensures { into.new ≡ self.now };

    /// The edit that the operation makes. An allocation can fail only if a copy allocates too.
    fn edit(&self, alloc: Global) -> Result<Self::Edit, NoMemory>
        ensures edit { IfOk result (λ edit. edit ≡ edit_of self.now) }
        ensures refused { OnErr result (copies_freely self.now → ⊥) };

    /// Both ways round are valid and give one state: the 1995 paper's requirement on a transform.
    ghost square: { (x : Self.State) (c s : Self) → is_distinct x → is_small 1 x → is_valid c x → is_valid s x → are_apart c s
        → is_valid (server_past s c) (after c x) × is_valid (client_past c s) (after s x)
        × (after (server_past s c) (after c x) ≡ after (client_past c s) (after s x)) };

    /// An operation has the effect of its edit; of two concurrent ones the client's edit counts as the later.
    ghost effect_one: { (x : Self.State) (c : Self) → is_distinct x → is_valid c x
        → content (after c x) ≡ meaning (content x) (edit_of c ∷ []) };

    ghost effect_two: { (x : Self.State) (c s : Self) → is_distinct x → is_small 1 x → is_valid c x → is_valid s x → are_apart c s
        → content (after (server_past s c) (after c x)) ≡ meaning (content x) (edit_of s ∷ edit_of c ∷ []) };

    /// What an operation keeps of a state: order, distinct names, and smallness, less one.
    ghost order: { (x : Self.State) (c : Self) → is_distinct x → is_valid c x → keeps_order x (after c x) };

    ghost distinct_after: { (x : Self.State) (c : Self) → is_distinct x → is_valid c x → is_distinct (after c x) };

    ghost small_after: { (n : ℕ) (x : Self.State) (c : Self) → is_small (n + 1) x → is_valid c x → is_small n (after c x) };

    ghost small_below: { (n : ℕ) (x : Self.State) → is_small (n + 1) x → is_small n x };

    ghost small_before: { (n : ℕ) (x : Self.State) (c : Self) → is_valid c x → is_small (n + 1) (after c x) → is_small n x };

    /// What a transform keeps of an operation: apartness, freshness, the room that it needs, its shape.
    ghost apart_swap: { (c s : Self) → are_apart c s → are_apart s c };

    ghost apart_client: { (c s t : Self) → are_apart c t → are_apart (client_past c s) t };

    ghost apart_server: { (s c t : Self) → are_apart s t → are_apart (server_past s c) t };

    ghost fresh_client: { (c s t : Self) → is_fresh c t → is_fresh (client_past c s) t };

    ghost fresh_server: { (s c t : Self) → is_fresh s t → is_fresh (server_past s c) t };

    ghost fresh_of_client: { (c s t : Self) → is_fresh t c → is_fresh t (client_past c s) };

    ghost fresh_of_server: { (s c t : Self) → is_fresh t s → is_fresh t (server_past s c) };

    ghost room_less: { (n : ℕ) (x : Self.State) (c : Self) → has_room c (n + 1) x → has_room c n x };

    ghost room_client: { (n : ℕ) (x : Self.State) (c s : Self) → has_room c n x → has_room (client_past c s) n x };

    ghost room_server: { (n : ℕ) (x : Self.State) (s c : Self) → has_room s n x → has_room (server_past s c) n x };

    ghost shape_client: { (c s : Self) → shape (client_past c s) ≡ shape c };

    ghost shape_server: { (s c : Self) → shape (server_past s c) ≡ shape s };

    /// Names: a transform inserts no others, and what is held before and after an operation.
    ghost inserts_client: { (c s : Self) (n : Name) → inserts (edit_of (client_past c s)) n → inserts (edit_of c) n };

    ghost inserts_server: { (s c : Self) (n : Name) → inserts (edit_of (server_past s c)) n → inserts (edit_of s) n };

    /// A client's operation past a server's still changes what it changed, except what the server's changes.
    /// A server's past a client's changes nothing else.
    ghost changes_client: { (c s : Self) (n : Name) → changes (edit_of c) n → changes (edit_of (client_past c s)) n ⊎ changes (edit_of s) n };

    ghost changes_server: { (s c : Self) (n : Name) → changes (edit_of (server_past s c)) n → changes (edit_of s) n };

    ghost apart_names: { (c s : Self) (n : Name) → are_apart c s → inserts (edit_of c) n → inserts (edit_of s) n → ⊥ };

    ghost fresh_names: { (c t : Self) (n : Name) → is_fresh c t → inserts (edit_of c) n → (inserts (edit_of t) n ⊎ deletes (edit_of t) n) → ⊥ };

    ghost inserts_new: { (x : Self.State) (c : Self) (n : Name) → is_valid c x → inserts (edit_of c) n → holds x n → ⊥ };

    ghost changes_held: { (x : Self.State) (c : Self) (n : Name) → is_valid c x → changes (edit_of c) n → holds x n ⊎ inserts (edit_of c) n };

    ghost held_before: { (x : Self.State) (c : Self) (n : Name) → is_valid c x → holds (after c x) n → holds x n ⊎ inserts (edit_of c) n };

    ghost held_after: { (x : Self.State) (c : Self) (n : Name) → is_valid c x → holds x n → holds (after c x) n ⊎ deletes (edit_of c) n };

    /// Order kept chains if what both ends hold is held in between.
    ghost order_self: { (x : Self.State) → keeps_order x x };

    ghost order_chain: { (x y z : Self.State) → keeps_order x y → keeps_order y z → ((n : Name) → holds x n → holds z n → holds y n) → keeps_order x z };

    /// Lists of edits: no edit changes nothing, and two lists in turn mean the joined list, if the second
    /// inserts no name that the first changes.
    ghost meaning_none: { (k : Content) → meaning k [] ≡ k };

    ghost meaning_more: { (k : Content) (es fs : List Self.Edit) → ((n : Name) → SomeOf (λ f. inserts f n) fs → SomeOf (λ e. changes e n) es → ⊥)
        → meaning (meaning k es) fs ≡ meaning k (es ++ fs) };

    /// A client's operation past what is left of a server's means what it meant, anywhere after the server's edit.
    ghost edit_client: { (c s : Self) (past : List Self) (k : Content) (before between later : List Self.Edit)
        → meaning k (before ++ edit_of s ∷ (between ++ edit_of (client_past c (row_operation server_past s past)) ∷ later))
        ≡ meaning k (before ++ edit_of s ∷ (between ++ edit_of c ∷ later)) };

    /// A server's operation past a client's, after the client's edit, means the server's edit before the client's.
    ghost edit_server: { (c s : Self) → are_apart c s → (k : Content) (before later : List Self.Edit)
        → meaning k (before ++ edit_of c ∷ edit_of (server_past s c) ∷ later) ≡ meaning k (before ++ edit_of s ∷ edit_of c ∷ later) };
}
