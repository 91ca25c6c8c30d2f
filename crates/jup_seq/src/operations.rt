//! Insertions into sequences, deletions from them, and other values for their items.
ghost use Rattle.std.specs.Prelude.{◌≡◌, ℕ, ◌↔◌, ◌+◌, ◌-◌, ◌<◌, ◌≤◌, if◌then◌else◌, nat_le, nat_lt, length, false, refl, IsTrue, Ok, OnOk, OnErr};
ghost use Rattle.jup_value.specs.Items.{has_name, name_at};
ghost use Rattle.jup_value.specs.declared.names.Name.{Name as ItemName};
ghost use Rattle.jup_seq.specs.Operations.{bare, IsSmall, HasDistinctNames, KeepsOrder, IsValid, after, HasRoom, AreApart, is_no_relabel, inserted_by, deleted_by, next_place, client_past, server_past, Content, content, meaning, edit_of};
ghost use Rattle.jup_seq.specs.Names.{Holds, InsertsName, DeletesName, ChangesName, IsFresh};
ghost use Rattle.jup_seq.specs.Laws.Squares as laws;
ghost use Rattle.jup_seq.specs.Laws.EditLists as edit_lists;
ghost use Rattle.jup_seq.specs.Names as names;

use jup_limits::SMALL_LENGTH;
use jup_value::{Item, Label, Name, Seq};
use jup_xform::{NoMemory, Transform};
use std::alloc::Global;

/// An operation on a sequence. Places are counted from 0.
#[derive(Clone, Copy, Debug, PartialEq, Eq)]
pub enum SeqOp<V> {
    /// Puts an item before the one at the place, or at the end.
    Insert { place: u32, item: Item<V> },
    /// Takes out the item at the place, which has the name.
    Delete { place: u32, name: Name },
    /// Gives the item at the place, which has the name, another value.
    Relabel { place: u32, name: Name, value: V },
    /// What is left of a deletion, or a relabel, if the other end deleted the same item, and of a server's
    /// relabel if the client relabelled the same item.
    Nothing,
}

/// An operation on a text.
pub type TextOp = SeqOp<char>;

/// An operation on a list of labels.
pub type ListOp = SeqOp<Label>;

/// What an operation does to the content of a sequence, without the place where it does it.
#[derive(Clone, Copy, Debug, PartialEq, Eq)]
pub enum SeqEdit<V> {
    /// An item of the name with the value is put in.
    Put(Name, V),
    /// The item of the name is taken out.
    Deleted(Name),
    /// The item of the name is given the value.
    Relabelled(Name, V),
    Nothing,
}

impl<V: Copy> SeqOp<V> {
    /// The name of the item that it puts in.
    pub fn inserted_name(&self) -> Option<Name>
        ensures { result ≡ inserted_by self.now }
    {
        match self {
            SeqOp::Insert { item, .. } => Some(item.name),
            _ => None,
        }
    }

    /// The name of the item that it takes out.
    pub fn deleted_name(&self) -> Option<Name>
        ensures { result ≡ deleted_by self.now }
    {
        match self {
            SeqOp::Delete { name, .. } => Some(*name),
            _ => None,
        }
    }

    /// What it does, without the place. It takes no memory.
    pub fn meaning(&self) -> SeqEdit<V>
        ensures { result ≡ edit_of self.now }
    {
        match *self {
            SeqOp::Insert { item, .. } => SeqEdit::Put(item.name, item.value),
            SeqOp::Delete { name, .. } => SeqEdit::Deleted(name),
            SeqOp::Relabel { name, value, .. } => SeqEdit::Relabelled(name, value),
            SeqOp::Nothing => SeqEdit::Nothing,
        }
    }

    /// Whether it gives no item another value.
    pub fn is_no_relabel(&self) -> bool
        ensures { result ≡ is_no_relabel self.now }
    {
        !matches!(self, SeqOp::Relabel { .. })
    }
}

// Whether an item with this name may be put at a place.
fn takes<V: Copy>(state: &Seq<V>, place: u32, name: Name) -> bool
    ensures { IsTrue result
        ↔ ((place ≤ length state.now.items) × (has_name name state.now.items ≡ false)
        × IsSmall 0 state.now) }
{
    place <= state.len() && state.place_of(name).is_none() && state.len() < SMALL_LENGTH
}

// Whether the item at a place has this name.
fn stands_at<V: Copy>(state: &Seq<V>, place: u32, name: Name) -> bool
    ensures { IsTrue result ↔ (name_at place state.now.items ≡ Some name) }
{
    state.get(place).is_some_and(|item| item.name == name)
}

// Moves the places of two insertions.
fn part(client: &mut u32, server: &mut u32)
    ensures client { client.new ≡ (if nat_le client.old server.old then client.old else next_place client.old) }
    ensures server { server.new ≡ (if nat_lt server.old client.old then server.old else next_place server.old) }
{
    // At one place the client's item comes first.
    if *client <= *server {
        *server = server.saturating_add(1);
    } else {
        *client = client.saturating_add(1);
    }
}

// Moves the places of an insertion and a deletion: an insertion up to the place of the deletion comes before its item.
fn meet(inserted: &mut u32, deleted: &mut u32)
    ensures inserted { inserted.new ≡ (if nat_le inserted.old deleted.old then inserted.old else inserted.old - 1) }
    ensures deleted { deleted.new ≡ (if nat_le inserted.old deleted.old then next_place deleted.old else deleted.old) }
{
    if *inserted <= *deleted {
        *deleted = deleted.saturating_add(1);
    } else {
        *inserted -= 1;
    }
}

// Moves the places of two deletions of different items.
fn close_up(client: &mut u32, server: &mut u32)
    ensures client { client.new ≡ (if nat_lt server.old client.old then client.old - 1 else client.old) }
    ensures server { server.new ≡ (if nat_lt client.old server.old then server.old - 1 else server.old) }
{
    if *server < *client {
        *client -= 1;
    } else if *client < *server {
        *server -= 1;
    }
}

// Moves the place of a relabel past an insertion.
fn make_way(inserted: u32, place: &mut u32)
    ensures { place.new ≡ (if nat_le inserted place.old then next_place place.old else place.old) }
{
    if inserted <= *place {
        *place = place.saturating_add(1);
    }
}

// Moves the place of a relabel past the deletion of another item.
fn follow(deleted: u32, place: &mut u32)
    ensures { place.new ≡ (if nat_lt deleted place.old then place.old - 1 else place.old) }
{
    if deleted < *place {
        *place -= 1;
    }
}

impl<V: Copy> Transform for SeqOp<V> {
    type State = Seq<V>;

    type Edit = SeqEdit<V>;

    ghost Content = { Content V };

    ghost content = { content };

    ghost meaning = { meaning };

    ghost edit_of = { edit_of };

    ghost bare = { bare };

    ghost is_valid = { IsValid };

    ghost after = { after };

    ghost has_room = { HasRoom };

    ghost can_reserve = { λ beside. beside < 4294967295 };

    ghost is_distinct = { HasDistinctNames };

    ghost is_small = { IsSmall };

    ghost keeps_order = { KeepsOrder };

    ghost are_apart = { AreApart };

    ghost is_fresh = { IsFresh };

    ghost Name = { ItemName };

    ghost holds = { Holds };

    ghost inserts = { InsertsName };

    ghost deletes = { DeletesName };

    ghost changes = { ChangesName };

    ghost client_past = { client_past };

    ghost server_past = { server_past };

    ghost Shape = { Unit {0} };

    ghost shape = { λ o. tt };

    ghost copies_freely = { λ o. Unit {0} };

    fn valid(&self, state: &Seq<V>) -> bool {
        match self {
            SeqOp::Insert { place, item } => takes(state, *place, item.name),
            SeqOp::Delete { place, name } | SeqOp::Relabel { place, name, .. } => {
                stands_at(state, *place, *name)
            }
            SeqOp::Nothing => true,
        }
    }

    fn apart(&self, other: &SeqOp<V>) -> bool {
        match (self, other) {
            (SeqOp::Insert { item, .. }, SeqOp::Insert { item: put, .. }) => item.name != put.name,
            _ => true,
        }
    }

    fn fresh_after(&self, earlier: &SeqOp<V>) -> bool {
        match (self, earlier) {
            (SeqOp::Insert { item, .. }, SeqOp::Insert { item: put, .. }) => item.name != put.name,
            (SeqOp::Insert { item, .. }, SeqOp::Delete { name, .. }) => item.name != *name,
            _ => true,
        }
    }

    /// An allocation can fail only if there is not room already.
    fn reserve(&self, _alloc: Global, beside: u32, state: &mut Seq<V>) -> Result<(), NoMemory>
        requires { beside < 4294967295 }
        ensures ok { OnOk result (HasRoom self.now beside state.new) }
        ensures same { bare state.new ≡ bare state.old }
        ensures kept { (o : SeqOp V) (n : ℕ) → HasRoom o n state.old → HasRoom o n state.new }
        ensures refused_without_room { OnErr result (HasRoom self.now beside state.old → ⊥) }
    {
        match self {
            SeqOp::Insert { .. } => state.reserve_more(beside + 1),
            SeqOp::Delete { .. } | SeqOp::Relabel { .. } | SeqOp::Nothing => Ok(()),
        }
    }

    fn apply(&self, state: &mut Seq<V>) {
        match *self {
            SeqOp::Insert { place, item } => state.insert(place, item),
            SeqOp::Delete { place, .. } => {
                let _item = state.remove(place);
            }
            SeqOp::Relabel { place, value, .. } => state.set_value(place, value),
            SeqOp::Nothing => {}
        }
    }

    fn transform(c: &mut SeqOp<V>, s: &mut SeqOp<V>) {
        match (&mut *c, &mut *s) {
            (SeqOp::Nothing, _) | (_, SeqOp::Nothing) => {}
            (SeqOp::Insert { place, .. }, SeqOp::Insert { place: at, .. }) => part(place, at),
            (SeqOp::Insert { place, .. }, SeqOp::Delete { place: at, .. }) => meet(place, at),
            (SeqOp::Delete { place: at, .. }, SeqOp::Insert { place, .. }) => meet(place, at),
            (SeqOp::Insert { place, .. }, SeqOp::Relabel { place: at, .. }) => make_way(*place, at),
            (SeqOp::Relabel { place: at, .. }, SeqOp::Insert { place, .. }) => make_way(*place, at),
            (SeqOp::Delete { name, .. }, SeqOp::Delete { name: gone, .. }) if name == gone => {
                *c = SeqOp::Nothing;
                *s = SeqOp::Nothing;
            }
            (SeqOp::Delete { place, .. }, SeqOp::Delete { place: at, .. }) => close_up(place, at),
            (SeqOp::Delete { name: gone, .. }, SeqOp::Relabel { name, .. }) if name == gone => {
                *s = SeqOp::Nothing;
            }
            (SeqOp::Delete { place, .. }, SeqOp::Relabel { place: at, .. }) => follow(*place, at),
            (SeqOp::Relabel { name, .. }, SeqOp::Delete { name: gone, .. }) if name == gone => {
                *c = SeqOp::Nothing;
            }
            (SeqOp::Relabel { place: at, .. }, SeqOp::Delete { place, .. }) => follow(*place, at),
            (SeqOp::Relabel { name, .. }, SeqOp::Relabel { name: again, .. }) => {
                if name == again {
                    *s = SeqOp::Nothing;
                }
            }
        }
    }

    /// It takes no memory and is never refused.
    fn copy(&self, _alloc: Global) -> Result<SeqOp<V>, NoMemory>
        ensures { result ≡ Ok self.now }
    {
        Ok(*self)
    }

    fn write_to(&self, into: &mut SeqOp<V>) {
        *into = *self;
    }

    /// It takes no memory and is never refused.
    fn edit(&self, _alloc: Global) -> Result<SeqEdit<V>, NoMemory>
        ensures { result ≡ Ok (edit_of self.now) }
    {
        Ok(self.meaning())
    }

    ghost square = { laws.square };

    ghost effect_one = { laws.effect_one };

    ghost effect_two = { laws.effect_two };

    ghost order = { laws.order };

    ghost distinct_after = { laws.distinct_after };

    ghost small_after = { laws.small_after };

    ghost small_below = { laws.small_below };

    ghost small_before = { laws.small_before };

    ghost apart_swap = { laws.apart_swap };

    ghost apart_client = { laws.apart_client };

    ghost apart_server = { laws.apart_server };

    ghost fresh_client = { names.fresh_client };

    ghost fresh_server = { names.fresh_server };

    ghost fresh_of_client = { names.fresh_of_client };

    ghost fresh_of_server = { names.fresh_of_server };

    ghost room_less = { laws.room_less };

    ghost room_client = { laws.room_client };

    ghost room_server = { laws.room_server };

    ghost shape_client = { λ c s. refl };

    ghost shape_server = { λ s c. refl };

    ghost inserts_client = { names.inserts_client };

    ghost inserts_server = { names.inserts_server };

    ghost changes_client = { names.changes_client };

    ghost changes_server = { names.changes_server };

    ghost apart_names = { names.apart_names };

    ghost fresh_names = { names.fresh_names };

    ghost inserts_new = { names.inserts_new };

    ghost changes_held = { names.changes_held };

    ghost held_before = { names.held_before };

    ghost held_after = { names.held_after };

    ghost order_self = { λ x m n hm hn gm gn. refl };

    ghost order_chain = { laws.order_chain };

    ghost meaning_none = { λ k. refl };

    ghost meaning_more = { names.meaning_more };

    ghost edit_client = { edit_lists.edit_client };

    ghost edit_server = { edit_lists.edit_server };
}
