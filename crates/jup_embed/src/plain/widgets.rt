//! Widgets in plain numbers.
ghost use Rattle.std.specs.Prelude.{◌≡◌};
ghost use Rattle.jup_wire.specs.Kinds.{kind_number, value_numbers};
ghost use Rattle.jup_embed.specs.Numbers.{IsWidget};

use super::kinds::{LIST, TEXT, UNKNOWN};
use crate::board_view::{WidgetKind, WidgetView};
use jup_wire::WidgetValue;

/// A widget in numbers, without its items. `kind` says which of the other fields count.
#[repr(C)]
#[derive(Clone, Copy)]
pub struct PlainWidget {
    pub win: u16,
    pub wid: u16,
    pub kind: u32,
    /// How many characters a text has, or items a list.
    pub items: u32,
    pub lo: i32,
    pub hi: i32,
    /// What a widget without items shows: 0 or 1 of a toggle, or the value of a slider.
    pub value: i32,
}

impl PlainWidget {
    /// The numbers of a widget.
    pub fn of(view: &WidgetView) -> PlainWidget
        ensures { IsWidget result view.now }
    {
        let WidgetView { win, wid, kind } = *view;
        let bare = PlainWidget {
            win,
            wid,
            kind: TEXT,
            items: 0,
            lo: 0,
            hi: 0,
            value: 0,
        };
        match kind {
            WidgetKind::Text(items) => PlainWidget { items, ..bare },
            WidgetKind::List(items) => PlainWidget {
                kind: LIST,
                items,
                ..bare
            },
            WidgetKind::Value(value) => of_value(bare, &value),
            WidgetKind::Unknown => PlainWidget {
                kind: UNKNOWN,
                ..bare
            },
        }
    }
}

// A widget without items, by its ids.
fn of_value(bare: PlainWidget, value: &WidgetValue) -> PlainWidget
    ensures { result ≡ record bare { kind = kind_number value.now; lo = (value_numbers value.now).0; hi = (value_numbers value.now).1; value = (value_numbers value.now).2 } }
{
    let (lo, hi, shown) = value.numbers();
    PlainWidget {
        kind: value.kind_number(),
        lo,
        hi,
        value: shown,
        ..bare
    }
}
