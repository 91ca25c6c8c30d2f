//! What differs on lines by the kind of a widget: operations, and the lines of widgets without items. Another such kind is one more case in each function here and in
//! `specs/Kinds` and `proofs/ByKind`.
ghost use Rattle.std.specs.Prelude.{◌≡◌, ◌∷◌, ◌++◌, decimal, IfSome, Some};
ghost use Rattle.jup_window.specs.Widgets.{bare};
ghost use Rattle.std.specs.Fmt.{DisplaysOnOk};
ghost use Rattle.jup_number.specs.Numbers.{IsReadingOf};
ghost use Rattle.jup_wire.specs.Fields.{switch_text, after_spaces, dispatch};
ghost use Rattle.jup_wire.specs.Kinds.{body_fields, body_of, value_of, said_widget, value_word, value_fields, value_table, HasRanges, kind_number, value_numbers, setting_text, IsSetting, toggle_of, slider_of};
ghost use Rattle.jup_wire.specs.Streams.{HasRoom, Appends};

use crate::fields::{FieldValue, field, id_before, split};
use crate::parse::{seq_op, set_op, text_op};
use crate::spell::{push, push_field};
use crate::writing::{push_seq, push_set, push_word};
use jup_number::read_integer;
use jup_setting::{Slider, Toggle};
use jup_value::Label;
use jup_window::{Setting, Widget, WidgetOp};
use std::fmt;

/// What the line of a widget without items says of it.
#[derive(Clone, Copy, Debug, PartialEq, Eq)]
pub enum WidgetValue {
    Toggle(bool),
    /// Its value may be outside its bounds, which a layout refuses.
    Slider { lo: i32, hi: i32, value: i32 },
}

impl WidgetValue {
    /// What the line of a widget says; none if it is a text or a list.
    pub fn of(widget: &Widget) -> Option<WidgetValue>
        ensures value { result ≡ value_of widget.now }
        ensures said { IfSome result (λ value. said_widget value ≡ Some widget.now) }
    {
        match widget {
            Widget::Toggle(toggle) => Some(WidgetValue::Toggle(toggle.on)),
            Widget::Slider(slider) => Some(WidgetValue::Slider {
                lo: slider.lo(),
                hi: slider.hi(),
                value: slider.value(),
            }),
            _ => None,
        }
    }

    /// The widget that the line says; none if its value is not within its bounds.
    pub fn widget(self) -> Option<Widget>
        ensures said { result ≡ said_widget self }
        ensures bare { IfSome result (λ widget. bare widget ≡ widget) }
    {
        match self {
            WidgetValue::Toggle(on) => Some(Widget::Toggle(Toggle { on })),
            WidgetValue::Slider { lo, hi, value } => match Slider::new(lo, hi, value) {
                Ok(slider) => Some(Widget::Slider(slider)),
                Err(_) => None,
            },
        }
    }

    /// The number by which callers in other languages know its kind.
    pub fn kind_number(&self) -> u32
        ensures { result ≡ kind_number self.now }
    {
        match self {
            WidgetValue::Toggle(_) => 3,
            WidgetValue::Slider { .. } => 4,
        }
    }

    /// Its bounds and what it shows, as numbers. A toggle has no bounds, and shows 0 or 1.
    pub fn numbers(&self) -> (i32, i32, i32)
        ensures { result ≡ value_numbers self.now }
    {
        match *self {
            WidgetValue::Toggle(on) => (0, 0, i32::from(on)),
            WidgetValue::Slider { lo, hi, value } => (lo, hi, value),
        }
    }

    /// The word of its kind.
    pub fn word(&self) -> &'static str
        ensures { result.now ≡ value_word self.now }
    {
        match self {
            WidgetValue::Toggle(_) => "toggle",
            WidgetValue::Slider { .. } => "slider",
        }
    }
}

impl fmt::Display for WidgetValue {
    ghost use Rattle.std.specs.Prelude.{Some};
    ghost use Rattle.std.specs.List.{join_with_byte};
    ghost use Rattle.jup_wire.specs.Kinds.{value_fields};

    ghost output = { λ value. Some (join_with_byte 32 (value_fields value)) };

    fn fmt<W: fmt::Write>(&self, f: &mut fmt::Formatter<W>) -> fmt::Result {
        match self {
            WidgetValue::Toggle(on) => write_switch(f, *on),
            WidgetValue::Slider { lo, hi, value } => write!(f, "{lo} {hi} {value}"),
        }
    }
}

/// The lines of widgets without items, as people read them.
pub const VALUE_LINES: &str = "`toggle I VALUE` or `slider I LO HI VALUE`";

/// What has to follow the id on the line of a widget without items, as people read it, by the word of its kind. None if that is no such kind's.
pub fn value_due(word: &str) -> Option<&'static str> {
    match word {
        "toggle" => Some("`on` or `off` is due"),
        "slider" => Some(
            "`LO HI VALUE` is due, numbers from -2147483648 to 2147483647 with no plus sign, no leading zero and no -0",
        ),
        _ => None,
    }
}

/// What a command sets, as texts have it.
#[derive(Drop)]
pub struct PrintedSetting(pub Setting);

impl fmt::Display for PrintedSetting {
    ghost use Rattle.std.specs.Prelude.{Some};
    ghost use Rattle.jup_wire.specs.Kinds.{setting_text};

    ghost output = { λ setting. Some (setting_text setting.0) };

    fn fmt<W: fmt::Write>(&self, f: &mut fmt::Formatter<W>) -> fmt::Result {
        match &self.0 {
            Setting::Toggle(on) => write_switch(f, *on),
            Setting::Slider(value) => write!(f, "{value}"),
        }
    }
}

fn write_switch<W: fmt::Write>(f: &mut fmt::Formatter<W>, on: bool) -> fmt::Result
    ensures { DisplaysOnOk W.Write.write_str_gives f.old result (Some (switch_text on)) f.new }
{
    f.write_str(if on { "on" } else { "off" })
}

/// Reads what a command sets: `on`, `off` or a number.
pub fn read_setting(word: &[u8]) -> Option<Setting>
    ensures { IsReadingOf setting_text IsSetting word.now result }
{
    match read_switch(word) {
        Some(on) => Some(Setting::Toggle(on)),
        None => Some(Setting::Slider(read_integer(word)?)),
    }
}

/// Reads `on` or `off`.
#[tactic(auto, using(crate::proofs::ByKind::switch_reading))]
pub fn read_switch(word: &[u8]) -> Option<bool>
    ensures { IsReadingOf switch_text (λ on. Unit {0}) word.now result }
{
    bool::read(word)
}

// Its numbers are in the ranges of their types.
pub(crate) fn has_ranges(value: WidgetValue)
    ensures { HasRanges value }
{
    if let WidgetValue::Slider { lo, hi, value } = value {
        let _numbers = (lo, hi, value);
    }
}

/// Appends the line of a widget without items, without its line feed.
pub(crate) fn push_value(out: &mut Vec<u8>, wid: u16, value: &WidgetValue)
    requires { HasRoom out.old 48 }
    ensures { Appends out.old out.new (value_word value.now ++ after_spaces (decimal wid ∷ value_fields value.now)) 48 }
{
    match value {
        WidgetValue::Toggle(on) => {
            push_word(out, b"toggle", &wid);
            push_field(out, on);
        }
        WidgetValue::Slider { lo, hi, value } => {
            push_word(out, b"slider", &wid);
            push_field(out, lo);
            push_field(out, hi);
            push_field(out, value);
        }
    }
}

/// The line of a widget without items, by its word and what follows that.
pub fn read_value(word: &[u8], rest: &[u8]) -> Option<(u16, WidgetValue)>
    ensures { result ≡ dispatch value_table word.now rest.now }
{
    if word == b"toggle".as_slice() {
        return toggle(rest);
    }
    if word == b"slider".as_slice() {
        return slider(rest);
    }
    None
}

#[tactic(auto, unfolding(crate::specs::Kinds::toggle_of))]
fn toggle(rest: &[u8]) -> Option<(u16, WidgetValue)>
    ensures { result ≡ toggle_of rest.now }
{
    let (wid, rest) = id_before(rest)?;
    let on = bool::read(rest)?;
    Some((wid, WidgetValue::Toggle(on)))
}

#[tactic(auto, unfolding(crate::specs::Kinds::slider_of))]
fn slider(rest: &[u8]) -> Option<(u16, WidgetValue)>
    ensures { result ≡ slider_of rest.now }
{
    let (wid, rest) = id_before(rest)?;
    let (lo, rest) = field::<i32>(rest)?;
    let (hi, rest) = field::<i32>(rest)?;
    let value = i32::read(rest)?;
    Some((wid, WidgetValue::Slider { lo, hi, value }))
}

/// Appends the fields of an operation on a widget, by the widget's kind, a space before each.
pub(crate) fn push_body(out: &mut Vec<u8>, op: &WidgetOp)
    requires { HasRoom out.old 91 }
    ensures { Appends out.old out.new (after_spaces (body_fields op.now)) 91 }
{
    match op {
        WidgetOp::Text(op) => {
            push(out, b" text");
            push_seq(out, op);
        }
        WidgetOp::List(op) => {
            push(out, b" list");
            push_seq(out, op);
        }
        WidgetOp::Toggle(op) => {
            push(out, b" toggle");
            push_set(out, op);
        }
        WidgetOp::Slider(op) => {
            push(out, b" slider");
            push_set(out, op);
        }
    }
}

/// An operation on a widget, by the widget's kind.
#[tactic(auto, unfolding(crate::specs::Kinds::body_of))]
pub(crate) fn body(bytes: &[u8]) -> Option<WidgetOp>
    ensures { result ≡ body_of bytes.now }
{
    let (kind, rest) = split(bytes, b' ')?;
    if kind == b"text".as_slice() {
        return Some(WidgetOp::Text(text_op(rest)?));
    }
    if kind == b"list".as_slice() {
        return Some(WidgetOp::List(seq_op::<Label>(rest)?));
    }
    if kind == b"toggle".as_slice() {
        return Some(WidgetOp::Toggle(set_op::<bool>(rest)?));
    }
    if kind == b"slider".as_slice() {
        return Some(WidgetOp::Slider(set_op::<i32>(rest)?));
    }
    None
}
