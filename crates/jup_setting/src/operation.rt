//! The operation that sets a value, and its edit.
ghost use Rattle.std.specs.Prelude.{◌≡◌, ℕ, IsOk, Ok, refl};
ghost use Rattle.jup_setting.specs.Settings.{set_server_past, set_client_past, set_edit, last_setting, setting_after, IsValidSetting};
ghost use Rattle.jup_setting.specs.Laws.Settings.{setting_square, setting_effect_one, setting_effect_two, valid_later, valid_server, last_setting-append, set_edit_server};

use crate::SettingValue;
use jup_xform::{NoMemory, Transform};
use std::alloc::Global;

/// A change of the value that a widget shows. `Nothing` is what a concurrent setting leaves of it.
#[derive(Clone, Copy, Debug, PartialEq, Eq)]
pub enum SetOp<V> {
    Set(V),
    Nothing,
}

/// What a change of a setting means.
#[derive(Clone, Copy, Debug, PartialEq, Eq)]
pub enum SettingEdit<V> {
    Set(V),
    Nothing,
}

impl<V: Copy> SetOp<V> {
    /// What it means. It takes no memory.
    pub fn meaning(&self) -> SettingEdit<V>
        ensures { result ≡ set_edit self.now }
    {
        match self {
            SetOp::Set(value) => SettingEdit::Set(*value),
            SetOp::Nothing => SettingEdit::Nothing,
        }
    }
}

// A setting has no names and no sequences, and needs no room: what the trait asks of these holds always.
impl<V: SettingValue> Transform for SetOp<V> {
    type State = V::Widget;

    type Edit = SettingEdit<V>;

    ghost Content = { V };

    ghost content = { V.shown };

    ghost meaning = { last_setting };

    ghost edit_of = { set_edit };

    ghost bare = { λ x. x };

    ghost is_valid = { IsValidSetting V.is_allowed };

    ghost after = { setting_after V.shown V.showing };

    ghost has_room = { λ o n x. Unit {0} };

    ghost can_reserve = { λ n. Unit {0} };

    ghost is_distinct = { λ x. Unit {0} };

    ghost is_small = { λ n x. Unit {0} };

    ghost keeps_order = { λ x y. Unit {0} };

    ghost are_apart = { λ c s. Unit {0} };

    ghost is_fresh = { λ c t. Unit {0} };

    ghost Name = { ⊥ };

    ghost holds = { λ x n. ⊥ };

    ghost inserts = { λ e n. ⊥ };

    ghost deletes = { λ e n. ⊥ };

    ghost changes = { λ e n. ⊥ };

    ghost client_past = { set_client_past };

    ghost server_past = { set_server_past };

    ghost Shape = { Unit {0} };

    ghost shape = { λ o. tt };

    ghost copies_freely = { λ o. Unit {0} };

    fn valid(&self, widget: &V::Widget) -> bool {
        match self {
            SetOp::Set(value) => value.allowed_by(widget),
            SetOp::Nothing => true,
        }
    }

    fn apart(&self, _other: &SetOp<V>) -> bool {
        true
    }

    fn fresh_after(&self, _earlier: &SetOp<V>) -> bool {
        true
    }

    fn reserve(&self, _alloc: Global, _beside: u32, _widget: &mut V::Widget) -> Result<(), NoMemory>
        ensures made { IsOk result }
        ensures same { _widget.new ≡ _widget.old }
    {
        Ok(())
    }

    fn apply(&self, widget: &mut V::Widget) {
        match self {
            SetOp::Set(value) => value.put_into(widget),
            SetOp::Nothing => {}
        }
    }

    fn transform(c: &mut SetOp<V>, s: &mut SetOp<V>) {
        if let SetOp::Set(_) = c {
            *s = SetOp::Nothing;
        }
    }

    fn copy(&self, _alloc: Global) -> Result<SetOp<V>, NoMemory>
        ensures { result ≡ Ok self.now }
    {
        Ok(*self)
    }

    fn write_to(&self, into: &mut SetOp<V>) {
        *into = *self;
    }

    fn edit(&self, _alloc: Global) -> Result<SettingEdit<V>, NoMemory>
        ensures { result ≡ Ok (set_edit self.now) }
    {
        Ok(self.meaning())
    }

    ghost square = { λ x c s a b valid_c valid_s f. (
      valid_server V.shown V.showing V.is_allowed V.still_allowed s c x valid_s,
      valid_later V.shown V.showing V.is_allowed V.still_allowed c s x valid_c,
      setting_square V.shown V.showing V.shown_showing V.showing_showing x c s,
    ) };

    ghost effect_one = { λ x c a b. setting_effect_one V.shown V.showing V.shown_showing x c };

    ghost effect_two = { λ x c s a b d e f. setting_effect_two V.shown V.showing V.shown_showing x c s };

    ghost order = { λ x c a b. tt };

    ghost distinct_after = { λ x c a b. tt };

    ghost small_after = { λ n x c a b. tt };

    ghost small_below = { λ n x a. tt };

    ghost small_before = { λ n x c a b. tt };

    ghost apart_swap = { λ c s a. tt };

    ghost apart_client = { λ c s t a. tt };

    ghost apart_server = { λ s c t a. tt };

    ghost fresh_client = { λ c s t a. tt };

    ghost fresh_server = { λ s c t a. tt };

    ghost fresh_of_client = { λ c s t a. tt };

    ghost fresh_of_server = { λ s c t a. tt };

    ghost room_less = { λ n x c a. tt };

    ghost room_client = { λ n x c s a. tt };

    ghost room_server = { λ n x s c a. tt };

    ghost shape_client = { λ c s. refl };

    ghost shape_server = { λ s c. refl };

    ghost inserts_client = { λ c s n a. a };

    ghost inserts_server = { λ s c n a. a };

    ghost changes_client = { λ c s n a. absurd a };

    ghost changes_server = { λ s c n a. a };

    ghost apart_names = { λ c s n a b d. b };

    ghost fresh_names = { λ c t n a b d. b };

    ghost inserts_new = { λ x c n a b d. b };

    ghost changes_held = { λ x c n a b. absurd b };

    ghost held_before = { λ x c n a b. absurd b };

    ghost held_after = { λ x c n a b. absurd b };

    ghost order_self = { λ x. tt };

    ghost order_chain = { λ x y z a b c. tt };

    ghost meaning_none = { λ k. refl };

    ghost meaning_more = { λ k es fs a. last_setting-append k es fs };

    ghost edit_client = { λ c s past k before between later. refl };

    ghost edit_server = { λ c s a k before later. set_edit_server c s k before later };
}
