//! What can be found out of a widget of a board as it is after operations. No operation is applied, and no memory is taken.
ghost use Rattle.std.specs.Prelude.{◌≡◌, ◌≤◌};
ghost use Rattle.jup_window.specs.Widgets.{item_count};
ghost use Rattle.jup_batch.specs.Boards as later;

use jup_seq::Source;
use jup_value::Name;
use jup_window::{BoardOp, Command, EditFault, Widget, WidgetOp};

// Whether an operation is on the widget of these ids.
fn is_on(ids: (u16, u16), op: &BoardOp) -> bool
    ensures { result ≡ later.is_on ids op.now }
{
    op.win == ids.0 && op.wid == ids.1
}

// How many items the widget has after an operation, if there were so many before it.
fn count_past(ids: (u16, u16), count: u32, op: &BoardOp) -> u32
    ensures { result ≡ later.count_past ids count op.now }
{
    if !is_on(ids, op) {
        return count;
    }
    match &op.op {
        WidgetOp::Text(op) => op.length_after(count),
        WidgetOp::List(op) => op.length_after(count),
        _ => count,
    }
}

// Where an item came from, given where it was after an operation.
fn source_past(ids: (u16, u16), source: Source, op: &BoardOp) -> Source
    ensures { result ≡ later.source_past ids source op.now }
{
    if !is_on(ids, op) {
        return source;
    }
    match (source, &op.op) {
        (Source::Place(place), WidgetOp::Text(op)) => op.source(place),
        (Source::Place(place), WidgetOp::List(op)) => op.source(place),
        _ => source,
    }
}

// How many items the widget of these ids has after some operations, if it had so many before them.
fn count_after(ids: (u16, u16), count: u32, earlier: &[BoardOp]) -> u32
    ensures { result ≡ later.count_after ids count earlier.now }
{
    earlier
        .iter()
        .fold(count, |count, op| count_past(ids, count, op))
}

// Where the item that is at a place after some operations came from.
fn source_before(ids: (u16, u16), place: u32, earlier: &[BoardOp]) -> Source
    ensures { result ≡ later.source_before ids (Source.Place place) earlier.now }
{
    earlier.iter().rev().fold(
        Source::Place(place),
        |source, op| source_past(ids, source, op),
    )
}

// The name of the item at a place of a widget after some operations, if it then has so many items.
fn held_after(
    widget: &Widget,
    ids: (u16, u16),
    place: u32,
    count: u32,
    earlier: &[BoardOp],
) -> Option<Name>
    ensures { result ≡ later.held_after ids place count earlier.now widget.now }
{
    if place >= count {
        return None;
    }
    match source_before(ids, place, earlier) {
        Source::Inserted(name) => Some(name),
        Source::Place(place) => widget.name_at(place),
    }
}

/// The operation on a board of a command, as it becomes one on this widget of the board after some
/// operations.
pub(crate) fn told_after(
    command: &Command,
    name: Name,
    earlier: &[BoardOp],
    widget: &Widget,
) -> Result<BoardOp, EditFault>
    ensures told { result ≡ later.told_after command.now name earlier.now widget.now }
    ensures few { item_count widget.now ≤ 4294967295 }
{
    let ids = command.ids();
    let count = count_after(ids, widget.item_count(), earlier);
    let held = held_after(widget, ids, command.place(), count, earlier);
    let op = command.on_widget(widget, name, count, held)?;
    let (win, wid) = ids;
    Ok(BoardOp { win, wid, op })
}
