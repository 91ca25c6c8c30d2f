//! Changes of a board in plain numbers.
ghost use Rattle.std.specs.Prelude.{◌≡◌, pos, length, take};
ghost use Rattle.jup_embed.specs.Numbers.{bare_change, Shows};

use super::kinds::{DELETE, INSERT_CHAR, INSERT_LABEL, NOTHING, RELABEL};
use jup_limits::LONGEST_LABEL;
use jup_seq::SeqOp;
use jup_value::{Label, Name};
use jup_window::{BoardOp, WidgetOp};

/// A change of a board in numbers. `kind` is that of the command that makes such a change, or 0 if the board stayed as it was.
#[repr(C)]
#[derive(Clone, Copy)]
pub struct PlainChange {
    pub kind: u32,
    pub win: u16,
    pub wid: u16,
    /// The place in the text or list as the changes before this one left it.
    pub place: u32,
    /// The name of the item: the number of its site, and its own.
    pub site: u32,
    pub number: u32,
    pub value: i32,
    pub label_len: u32,
    pub label: [u8; 48],
}

impl PlainChange {
    /// What an operation changes.
    pub fn of(op: &BoardOp) -> PlainChange
        ensures { Shows result op.now }
    {
        match &op.op {
            WidgetOp::Text(SeqOp::Insert { place, item }) => PlainChange {
                value: scalar_of(item.value),
                ..of_item(op, INSERT_CHAR, *place, item.name)
            },
            WidgetOp::List(SeqOp::Insert { place, item }) => {
                with_label(of_item(op, INSERT_LABEL, *place, item.name), &item.value)
            }
            WidgetOp::Text(SeqOp::Delete { place, name })
            | WidgetOp::List(SeqOp::Delete { place, name }) => of_item(op, DELETE, *place, *name),
            WidgetOp::List(SeqOp::Relabel { place, name, value }) => {
                with_label(of_item(op, RELABEL, *place, *name), value)
            }
            other => match other.setting() {
                Some(setting) => PlainChange {
                    value: setting.number(),
                    ..of_widget(op, setting.kind_number())
                },
                None => of_widget(op, NOTHING),
            },
        }
    }
}

// A change of this kind, with its widget and nothing else.
fn of_widget(op: &BoardOp, kind: u32) -> PlainChange
    ensures { result ≡ bare_change kind op.now }
{
    PlainChange {
        kind,
        win: op.win,
        wid: op.wid,
        place: 0,
        site: 0,
        number: 0,
        value: 0,
        label_len: 0,
        label: [0; LONGEST_LABEL],
    }
}

// A change of the item that has this name and was at the place.
fn of_item(op: &BoardOp, kind: u32, place: u32, name: Name) -> PlainChange
    ensures { result ≡ record (bare_change kind op.now) { place = place; site = name.site; number = name.number } }
{
    PlainChange {
        place,
        site: name.site,
        number: name.number,
        ..of_widget(op, kind)
    }
}

// The same change, with this label.
fn with_label(change: PlainChange, label: &Label) -> PlainChange
    ensures len { result.label_len ≡ length label.now }
    ensures label { take result.label_len result.label ≡ label.now }
    ensures rest { result ≡ record change { label_len = result.label_len; label = result.label } }
{
    let text = label.bytes();
    let mut bytes = [0; LONGEST_LABEL];
    bytes[..text.len()].copy_from_slice(text);
    PlainChange {
        label_len: text.len() as u32,
        label: bytes,
        ..change
    }
}

// A scalar value is at most 0x10FFFF.
fn scalar_of(value: char) -> i32
    ensures { result ≡ pos value }
{
    i32::try_from(u32::from(value)).unwrap_or(0)
}
