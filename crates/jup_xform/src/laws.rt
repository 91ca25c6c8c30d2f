//! What a batch is, by its operations, and what an operation of one of two kinds is, by its kind. The laws of
//! `Transform` use an implementation's own words. These functions say what those words are for operations of any type,
//! and do nothing else. The words are what an operation is applied to and leaves, when it may be applied, how two are
//! transformed, and what a list of edits means.
ghost use Rattle.std.specs.Prelude.{◌≡◌, ℕ, ◌+◌, ◌*◌, ◌<◌, ◌≤◌, ◌⊎◌, ◌↔◌, List, [], ◌∷◌, length, Contains};
ghost use Rattle.jup_limits.specs.Limits.{most_operations};
ghost use Rattle.jup_xform.specs.Batches.{joined};
ghost use Rattle.jup_xform.specs.Either.{firsts, seconds};
ghost use Rattle.jup_xform.specs.Rows.{SomeOf, grid_rows};

use crate::{Batch, OneOf, Single, Transform};

/// A batch is of what its operations are applied to, and holds nothing besides: content, order and names are theirs.
pub fn batch_content<T: Single>()
    ensures content { (x : T.State) → ⟦<Batch<T> as Transform>⟧.content x ≡ T.content x }
    ensures order { (x y : T.State) → ⟦<Batch<T> as Transform>⟧.keeps_order x y ↔ T.keeps_order x y }
    ensures holds { (x : T.State) (n : T.Name) → ⟦<Batch<T> as Transform>⟧.holds x n ↔ T.holds x n }
{}

/// When a batch may be applied. One operation may be applied as a batch if it may be applied at all. More may be
/// applied if the first may be, and then the others after it. None of these inserts a name that the first inserts
/// or deletes. There are 1 to 32 operations.
pub fn batch_validity<T: Single>()
    ensures none { (x : T.State) → ¬ ⟦<Batch<T> as Transform>⟧.is_valid [] x }
    ensures one { (op : T) (x : T.State) → ⟦<Batch<T> as Transform>⟧.is_valid (op ∷ []) x ↔ T.is_valid op x }
    ensures more { (op : T) (later : List T) (x : T.State) → 1 ≤ length later
        → ⟦<Batch<T> as Transform>⟧.is_valid (op ∷ later) x
        ↔ (T.is_valid op x × ⟦<Batch<T> as Transform>⟧.is_valid later (T.after op x)
        × ((one : T) → Contains later one → T.is_fresh one op) × (length later < most_operations)) }
{}

/// A batch leaves what its operations leave, applied in order.
pub fn batch_outcome<T: Single>()
    ensures none { (x : T.State) → ⟦<Batch<T> as Transform>⟧.after [] x ≡ x }
    ensures more { (op : T) (later : List T) (x : T.State)
        → ⟦<Batch<T> as Transform>⟧.after (op ∷ later) x ≡ ⟦<Batch<T> as Transform>⟧.after later (T.after op x) }
{}

/// The edits of a batch are those of its operations, in order. Each name that one of them inserts, deletes or changes
/// is one that the batch inserts, deletes or changes.
pub fn batch_edits<T: Single>()
    ensures none { ⟦<Batch<T> as Transform>⟧.edit_of [] ≡ [] }
    ensures more { (op : T) (later : List T)
        → ⟦<Batch<T> as Transform>⟧.edit_of (op ∷ later) ≡ T.edit_of op ∷ ⟦<Batch<T> as Transform>⟧.edit_of later }
    ensures inserts { (edits : List T.Edit) (n : T.Name)
        → ⟦<Batch<T> as Transform>⟧.inserts edits n ↔ SomeOf (λ edit. T.inserts edit n) edits }
    ensures deletes { (edits : List T.Edit) (n : T.Name)
        → ⟦<Batch<T> as Transform>⟧.deletes edits n ↔ SomeOf (λ edit. T.deletes edit n) edits }
    ensures changes { (edits : List T.Edit) (n : T.Name)
        → ⟦<Batch<T> as Transform>⟧.changes edits n ↔ SomeOf (λ edit. T.changes edit n) edits }
{}

/// A list of batches' edits means what the joined list means to their operations.
pub fn batch_meaning<T: Single>()
    ensures { (before : T.Content) (edits : List (List T.Edit))
        → ⟦<Batch<T> as Transform>⟧.meaning before edits ≡ T.meaning before (joined edits) }
{}

/// Two concurrent batches past one another are the grid of both lists: each operation in order past the whole of the
/// other list as it then is.
pub fn batch_transform<T: Single>()
    ensures client { (cs ss : List T)
        → ⟦<Batch<T> as Transform>⟧.client_past cs ss ≡ grid_rows T.client_past T.server_past cs ss }
    ensures server { (ss cs : List T)
        → ⟦<Batch<T> as Transform>⟧.server_past ss cs ≡ grid_rows T.server_past T.client_past ss cs }
{}

/// The premises of the laws. Of a state they are those of an operation, with as many items fewer as this and the
/// other batches may insert. Of two batches they are that each operation of one is apart from each of the other,
/// or fresh after it.
pub fn premises<T: Single>()
    ensures whole { (x : T.State) → ⟦<Batch<T> as Transform>⟧.bare x ≡ T.bare x }
    ensures distinct { (x : T.State) → ⟦<Batch<T> as Transform>⟧.is_distinct x ↔ T.is_distinct x }
    ensures small { (more : ℕ) (x : T.State)
        → ⟦<Batch<T> as Transform>⟧.is_small more x ↔ T.is_small (32 * more + 31) x }
    ensures apart { (cs ss : List T) → ⟦<Batch<T> as Transform>⟧.are_apart cs ss
        ↔ ((c s : T) → Contains cs c → Contains ss s → T.are_apart c s) }
    ensures fresh { (later earlier : List T) → ⟦<Batch<T> as Transform>⟧.is_fresh later earlier
        ↔ ((one other : T) → Contains later one → Contains earlier other → T.is_fresh one other) }
{}

/// When an operation of one of two kinds may be applied, and what it leaves: as its own kind says of a state of that
/// kind. To a state of the other kind it may not be applied.
pub fn one_of_validity<A: Transform, B: Transform>()
    ensures first { (op : A) (x : A.State)
        → ⟦<OneOf<A, B> as Transform>⟧.is_valid (OneOf.First op) (OneOf.First x) ↔ A.is_valid op x }
    ensures second { (op : B) (x : B.State)
        → ⟦<OneOf<A, B> as Transform>⟧.is_valid (OneOf.Second op) (OneOf.Second x) ↔ B.is_valid op x }
    ensures first_on_second { (op : A) (x : B.State)
        → ¬ ⟦<OneOf<A, B> as Transform>⟧.is_valid (OneOf.First op) (OneOf.Second x) }
    ensures second_on_first { (op : B) (x : A.State)
        → ¬ ⟦<OneOf<A, B> as Transform>⟧.is_valid (OneOf.Second op) (OneOf.First x) }
    ensures first_leaves { (op : A) (x : A.State)
        → ⟦<OneOf<A, B> as Transform>⟧.after (OneOf.First op) (OneOf.First x) ≡ OneOf.First (A.after op x) }
    ensures second_leaves { (op : B) (x : B.State)
        → ⟦<OneOf<A, B> as Transform>⟧.after (OneOf.Second op) (OneOf.Second x) ≡ OneOf.Second (B.after op x) }
{}

/// Two operations of one kind past one another become what their kind says. Of two kinds both stay as they are.
pub fn one_of_transform<A: Transform, B: Transform>()
    ensures first { (c s : A)
        → (⟦<OneOf<A, B> as Transform>⟧.client_past (OneOf.First c) (OneOf.First s) ≡ OneOf.First (A.client_past c s))
        × (⟦<OneOf<A, B> as Transform>⟧.server_past (OneOf.First s) (OneOf.First c) ≡ OneOf.First (A.server_past s c)) }
    ensures second { (c s : B)
        → (⟦<OneOf<A, B> as Transform>⟧.client_past (OneOf.Second c) (OneOf.Second s) ≡ OneOf.Second (B.client_past c s))
        × (⟦<OneOf<A, B> as Transform>⟧.server_past (OneOf.Second s) (OneOf.Second c) ≡ OneOf.Second (B.server_past s c)) }
    ensures first_past_second { (a : A) (b : B)
        → (⟦<OneOf<A, B> as Transform>⟧.client_past (OneOf.First a) (OneOf.Second b) ≡ OneOf.First a)
        × (⟦<OneOf<A, B> as Transform>⟧.server_past (OneOf.First a) (OneOf.Second b) ≡ OneOf.First a) }
    ensures second_past_first { (a : A) (b : B)
        → (⟦<OneOf<A, B> as Transform>⟧.client_past (OneOf.Second b) (OneOf.First a) ≡ OneOf.Second b)
        × (⟦<OneOf<A, B> as Transform>⟧.server_past (OneOf.Second b) (OneOf.First a) ≡ OneOf.Second b) }
{}

/// An edit is of its operation's kind. A list of edits means to a content what those of its kind mean, in order.
pub fn one_of_meaning<A: Transform, B: Transform>()
    ensures first_edit { (op : A) → ⟦<OneOf<A, B> as Transform>⟧.edit_of (OneOf.First op) ≡ OneOf.First (A.edit_of op) }
    ensures second_edit { (op : B) → ⟦<OneOf<A, B> as Transform>⟧.edit_of (OneOf.Second op) ≡ OneOf.Second (B.edit_of op) }
    ensures first { (before : A.Content) (edits : List (OneOf A.Edit B.Edit))
        → ⟦<OneOf<A, B> as Transform>⟧.meaning (OneOf.First before) edits ≡ OneOf.First (A.meaning before (firsts edits)) }
    ensures second { (before : B.Content) (edits : List (OneOf A.Edit B.Edit))
        → ⟦<OneOf<A, B> as Transform>⟧.meaning (OneOf.Second before) edits ≡ OneOf.Second (B.meaning before (seconds edits)) }
{}
