//! The kinds of widgets: what each shows, what is done to it, and what a user asks of it. Another kind without items is one more case in each function here and in
//! `specs/Kinds`; what other files say of a widget without items holds of it too.
ghost use Rattle.std.specs.Prelude.{◌≡◌, ◌<◌, ◌↔◌, IsTrue, OnOk, OnErr};
ghost use Rattle.jup_window.specs.Kinds.{edit_of, effect, effect_setting, setting_on};
ghost use Rattle.jup_window.specs.Widgets as widget;

use crate::entries::TableValue;
use crate::faults::EditFault;
use jup_seq::{ListOp, SeqEdit, SeqOp, TextOp};
use jup_setting::{SetOp, SettingEdit, Slider, Toggle};
use jup_value::{Label, Name, Seq};
use jup_xform::{NoMemory, OneOf, Transform};
use std::alloc::Global;

/// What a window shows and users edit.
#[derive(Drop)]
pub enum Widget {
    /// A sequence of characters.
    Text(Seq<char>),
    /// A sequence of labels.
    List(Seq<Label>),
    Toggle(Toggle),
    Slider(Slider),
}

/// An operation on a widget of one kind.
#[derive(Clone, Copy, Debug, PartialEq, Eq)]
pub enum WidgetOp {
    Text(TextOp),
    List(ListOp),
    Toggle(SetOp<bool>),
    Slider(SetOp<i32>),
}

/// What an operation does to the content of a widget, by the widget's kind: of a text, a list, a toggle or a slider.
/// No place is in it.
pub type WidgetEdit = OneOf<
    SeqEdit<char>,
    OneOf<SeqEdit<Label>, OneOf<SettingEdit<bool>, SettingEdit<i32>>>,
>;

/// What an edit of a widget is shown as, whatever the kind.
#[derive(Clone, Copy, Debug, PartialEq, Eq)]
pub enum Effect {
    /// A character is put into a text under a name.
    PutChar(Name, char),
    /// A label is put into a list under a name.
    PutLabel(Name, Label),
    /// The item with the name is gone, from a text or from a list.
    Deleted(Name),
    /// The item with the name is given another label, in a list.
    Relabelled(Name, Label),
    /// A toggle is set.
    Toggled(bool),
    /// A slider is set.
    Slid(i32),
    /// Nothing changes.
    Nothing,
}

/// The value that a command sets.
#[derive(Clone, Copy, Debug, PartialEq, Eq)]
pub enum Setting {
    Toggle(bool),
    Slider(i32),
}

impl Setting {
    ghost use Rattle.std.specs.Prelude.{◌≢◌, IsNone, IfSome};
    ghost use Rattle.jup_window.specs.Kinds.{setting_kind, setting_number, IsToldBy};
    ghost use Rattle.jup_window.specs.declared.kinds.Setting.{Setting as AnySetting};

    /// The setting that callers in other languages tell by the number of its kind, and a value. None if no kind has that number.
    pub fn told(kind: u32, value: i32) -> Option<Setting>
        ensures told { IfSome result (λ setting. (kind ≡ setting_kind setting) × IsToldBy setting value) }
        ensures none { IsNone result → (setting : AnySetting) → kind ≢ setting_kind setting }
    {
        match kind {
            5 => Some(Setting::Toggle(value != 0)),
            6 => Some(Setting::Slider(value)),
            _ => None,
        }
    }

    /// The number by which callers in other languages know its kind.
    pub fn kind_number(self) -> u32
        ensures { result ≡ setting_kind self }
    {
        match self {
            Setting::Toggle(_) => 5,
            Setting::Slider(_) => 6,
        }
    }

    /// Its value as a number: 0 or 1 of a toggle.
    pub fn number(self) -> i32
        ensures { result ≡ setting_number self }
    {
        match self {
            Setting::Toggle(on) => i32::from(on),
            Setting::Slider(value) => value,
        }
    }
}

impl WidgetOp {
    ghost use Rattle.jup_window.specs.Kinds.{op_setting};

    /// What it sets; none of an operation on a text or a list, and of one that sets nothing.
    pub fn setting(&self) -> Option<Setting>
        ensures { result ≡ op_setting self.now }
    {
        match self {
            WidgetOp::Toggle(SetOp::Set(on)) => Some(Setting::Toggle(*on)),
            WidgetOp::Slider(SetOp::Set(value)) => Some(Setting::Slider(*value)),
            _ => None,
        }
    }
}

impl TableValue for Widget {
    ghost bare = { widget.bare };

    fn same(&self, other: &Widget) -> bool {
        match (self, other) {
            (Widget::Text(one), Widget::Text(other)) => one.same(other),
            (Widget::List(one), Widget::List(other)) => one.same(other),
            (Widget::Toggle(one), Widget::Toggle(other)) => one.on == other.on,
            (Widget::Slider(one), Widget::Slider(other)) => {
                one.lo() == other.lo() && one.hi() == other.hi() && one.value() == other.value()
            }
            _ => false,
        }
    }

    fn copy(&self, alloc: Global) -> Result<Widget, NoMemory> {
        match self {
            Widget::Text(text) => Ok(Widget::Text(text.copy(alloc)?)),
            Widget::List(list) => Ok(Widget::List(list.copy(alloc)?)),
            Widget::Toggle(toggle) => Ok(Widget::Toggle(*toggle)),
            Widget::Slider(slider) => Ok(Widget::Slider(*slider)),
        }
    }
}

impl WidgetOp {
    // Whether the widget is of the operation's kind and the operation may be applied to it. A text takes no relabel.
    pub(crate) fn valid(&self, state: &Widget) -> bool
        ensures { IsTrue result ↔ widget.IsValid self.now (widget.bare state.now) }
    {
        match (self, state) {
            (WidgetOp::Text(op), Widget::Text(text)) => op.is_no_relabel() && op.valid(text),
            (WidgetOp::List(op), Widget::List(list)) => op.valid(list),
            (WidgetOp::Toggle(op), Widget::Toggle(toggle)) => op.valid(toggle),
            (WidgetOp::Slider(op), Widget::Slider(slider)) => op.valid(slider),
            _ => false,
        }
    }

    // Makes room for the operation and for so many others. A widget without items needs none.
    pub(crate) fn reserve(
        &self,
        alloc: Global,
        beside: u32,
        state: &mut Widget,
    ) -> Result<(), NoMemory>
        requires { beside < 4294967295 }
        ensures ok { OnOk result (widget.HasRoom self.now beside state.new) }
        ensures same { widget.bare state.new ≡ widget.bare state.old }
        ensures kept { widget.KeepsRoom state.old state.new }
        ensures refused_without_room { OnErr result (widget.HasRoom self.now beside state.old → ⊥) }
    {
        match (self, state) {
            (WidgetOp::Text(op), Widget::Text(text)) => op.reserve(alloc, beside, text),
            (WidgetOp::List(op), Widget::List(list)) => op.reserve(alloc, beside, list),
            _ => Ok(()),
        }
    }

    // Applies the operation. It takes no memory.
    pub(crate) fn apply(&self, state: &mut Widget)
        requires valid { widget.IsValid self.now (widget.bare state.old) }
        requires room { widget.HasRoom self.now 0 state.old }
        ensures after { widget.bare state.new ≡ widget.after self.now (widget.bare state.old) }
        ensures room { widget.TakesRoomOfOne state.old state.new }
    {
        match (self, state) {
            (WidgetOp::Text(op), Widget::Text(text)) => op.apply(text),
            (WidgetOp::List(op), Widget::List(list)) => op.apply(list),
            (WidgetOp::Toggle(op), Widget::Toggle(toggle)) => op.apply(toggle),
            (WidgetOp::Slider(op), Widget::Slider(slider)) => op.apply(slider),
            _ => {}
        }
    }

    // Moves two operations on one widget past one another.
    pub(crate) fn transform(c: &mut WidgetOp, s: &mut WidgetOp)
        ensures client { c.new ≡ widget.client_past c.old s.old }
        ensures server { s.new ≡ widget.server_past s.old c.old }
    {
        match (c, s) {
            (WidgetOp::Text(c), WidgetOp::Text(s)) => TextOp::transform(c, s),
            (WidgetOp::List(c), WidgetOp::List(s)) => ListOp::transform(c, s),
            (WidgetOp::Toggle(c), WidgetOp::Toggle(s)) => SetOp::<bool>::transform(c, s),
            (WidgetOp::Slider(c), WidgetOp::Slider(s)) => SetOp::<i32>::transform(c, s),
            _ => {}
        }
    }

    // What the operation does to the content of its widget. A relabel of a text does nothing.
    pub(crate) fn meaning(&self) -> WidgetEdit
        ensures { result ≡ edit_of self.now }
    {
        match self {
            WidgetOp::Text(SeqOp::Relabel { .. }) => OneOf::First(SeqEdit::Nothing),
            WidgetOp::Text(op) => OneOf::First(op.meaning()),
            WidgetOp::List(op) => OneOf::Second(OneOf::First(op.meaning())),
            WidgetOp::Toggle(op) => OneOf::Second(OneOf::Second(OneOf::First(op.meaning()))),
            WidgetOp::Slider(op) => OneOf::Second(OneOf::Second(OneOf::Second(op.meaning()))),
        }
    }
}

// An edit without its kind. No text takes a relabel.
pub(crate) fn effect_of(edit: &WidgetEdit) -> Effect
    ensures { result ≡ effect edit.now }
{
    match *edit {
        OneOf::First(SeqEdit::Put(name, value)) => Effect::PutChar(name, value),
        OneOf::First(SeqEdit::Deleted(name)) => Effect::Deleted(name),
        OneOf::Second(OneOf::First(SeqEdit::Put(name, value))) => Effect::PutLabel(name, value),
        OneOf::Second(OneOf::First(SeqEdit::Deleted(name))) => Effect::Deleted(name),
        OneOf::Second(OneOf::First(SeqEdit::Relabelled(name, value))) => {
            Effect::Relabelled(name, value)
        }
        OneOf::Second(OneOf::Second(OneOf::First(SettingEdit::Set(on)))) => Effect::Toggled(on),
        OneOf::Second(OneOf::Second(OneOf::Second(SettingEdit::Set(value)))) => Effect::Slid(value),
        _ => Effect::Nothing,
    }
}

impl Effect {
    /// What it sets, if it sets the value of a widget without items.
    pub fn setting(&self) -> Option<Setting>
        ensures { result ≡ effect_setting self.now }
    {
        match *self {
            Effect::Toggled(on) => Some(Setting::Toggle(on)),
            Effect::Slid(value) => Some(Setting::Slider(value)),
            _ => None,
        }
    }
}

// The operation on a widget that a value to be set becomes.
pub(crate) fn setting_of(widget: &Widget, setting: Setting) -> Result<WidgetOp, EditFault>
    ensures { result ≡ setting_on setting widget.now }
{
    match (widget, setting) {
        (Widget::Toggle(_), Setting::Toggle(on)) => Ok(WidgetOp::Toggle(SetOp::Set(on))),
        (Widget::Slider(slider), Setting::Slider(value)) => {
            if value < slider.lo() || slider.hi() < value {
                return Err(EditFault::BadValue);
            }
            Ok(WidgetOp::Slider(SetOp::Set(value)))
        }
        _ => Err(EditFault::WrongKind),
    }
}
