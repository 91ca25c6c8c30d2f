//! `jup_setting` and `jup_seq`: settings and sequences, and which states and edits their operations have.

use jup_seq::{ListOp, SeqEdit, TextOp};
use jup_setting::{BadBounds, SetOp, SettingEdit, Slider, Toggle};
use jup_value::{Label, Seq};
use jup_xform::{NoMemory, Transform};
use std::alloc::Global;

/// Toggles and sliders.
pub fn settings(on: bool) -> Toggle {
    let _: fn(i32, i32, i32) -> Result<Slider, BadBounds> = Slider::new;
    let _: fn(&Slider) -> i32 = Slider::lo;
    let _: fn(&Slider) -> i32 = Slider::hi;
    let _: fn(&Slider) -> i32 = Slider::value;
    let _: fn(BadBounds) -> u32 = BadBounds::number;
    Toggle { on }
}

/// An operation on toggles.
pub fn toggled(
    op: &SetOp<bool>,
    alloc: Global,
    state: &Toggle,
) -> Result<SettingEdit<bool>, NoMemory> {
    let _valid: bool = op.valid(state);
    op.edit(alloc)
}

/// An operation on sliders.
pub fn slid(op: &SetOp<i32>, alloc: Global, state: &Slider) -> Result<SettingEdit<i32>, NoMemory> {
    let _valid: bool = op.valid(state);
    op.edit(alloc)
}

/// An operation on texts.
pub fn typed(op: &TextOp, alloc: Global, state: &Seq<char>) -> Result<SeqEdit<char>, NoMemory> {
    let _valid: bool = op.valid(state);
    op.edit(alloc)
}

/// An operation on lists.
pub fn listed(op: &ListOp, alloc: Global, state: &Seq<Label>) -> Result<SeqEdit<Label>, NoMemory> {
    let _valid: bool = op.valid(state);
    op.edit(alloc)
}
