//! Whether a setting may be applied after other settings, without applying them.
ghost use Rattle.std.specs.Prelude.{◌↔◌, IsTrue};
ghost use Rattle.jup_setting.specs.Settings.{IsValidSetting};
ghost use Rattle.jup_setting.specs.Laws.Settings.{still_told};

use crate::{SetOp, SettingValue};
use jup_xform::{Single, Transform};

// No setting changes what values a widget takes, so a trace is whether the value is among them.
impl<V: SettingValue> Single for SetOp<V> {
    type Trace = bool;

    ghost is_trace = { λ o w taken. IsTrue taken ↔ IsValidSetting V.is_allowed o w };

    ghost trace_past = { λ o taken e. taken };

    ghost allows = { λ o taken. IsTrue taken };

    fn trace(&self, widget: &V::Widget) -> bool {
        self.valid(widget)
    }

    fn trace_after(&self, taken: bool, _earlier: &SetOp<V>) -> bool {
        taken
    }

    fn allowed_by(&self, taken: bool) -> bool {
        taken
    }

    ghost traced = { λ o e w taken valid is. still_told V.shown V.showing V.is_allowed V.still_allowed V.showing_showing V.showing_shown o e w taken is };

    ghost told = { λ o w taken is. is };
}
