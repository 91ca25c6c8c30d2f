//! Boards as lines.
ghost use Rattle.std.specs.Prelude.{◌≡◌, OnOk, IfOk};
ghost use Rattle.jup_value.specs.Items.{AreDistinct};
ghost use Rattle.jup_layout.specs.Drafts.{item_lines, widget_lines, window_lines, board_lines, IsWidget, IsWindow, IsBoard};

use jup_value::{Label, Name, Seq};
use jup_window::{Board, Widget, Window};
use jup_wire::{Line, LineSink, Lines, WidgetValue};
use jup_xform::NoMemory;
use std::alloc::Global;

/// A value of an item, which has a line of its own kind.
trait ItemValue: Copy {
    ghost use Rattle.jup_value.specs.declared.names.Name.{Name};
    ghost use Rattle.jup_wire.specs.declared.line.Line.{Line};

    ghost line_of: { Name → Self → Line };

    fn line(name: Name, value: Self) -> Line
        ensures { result ≡ line_of name value };
}

impl ItemValue for char {
    ghost use Rattle.jup_wire.specs.declared.line.Line.TheVariants as lines;

    ghost line_of = { lines.Char };

    fn line(name: Name, value: char) -> Line
        ensures { result ≡ lines.Char name value }
    {
        Line::Char(name, value)
    }
}

impl ItemValue for Label {
    ghost use Rattle.jup_wire.specs.declared.line.Line.TheVariants as lines;

    ghost line_of = { lines.Item };

    fn line(name: Name, value: Label) -> Line
        ensures { result ≡ lines.Item name value }
    {
        Line::Item(name, value)
    }
}

// Puts the lines of a sequence's items, in order.
fn put_items<S: LineSink, V: ItemValue>(sink: &mut S, items: &Seq<V>) -> Result<(), S::Fault>
    ensures lines { OnOk result (S.takes sink.old (item_lines V.line_of items.now.items) sink.new) }
    ensures distinct { AreDistinct items.now.items }
{
    for item in items.iter() {
        sink.put(V::line(item.name, item.value))?;
    }
    Ok(())
}

fn put_widget<S: LineSink>(sink: &mut S, wid: u16, widget: &Widget) -> Result<(), S::Fault>
    ensures lines { OnOk result (S.takes sink.old (widget_lines (wid, widget.now)) sink.new) }
    ensures sound { OnOk result (IsWidget (wid, widget.now)) }
{
    match widget {
        Widget::Text(items) => {
            sink.put(Line::Text(wid))?;
            put_items(sink, items)
        }
        Widget::List(items) => {
            sink.put(Line::List(wid))?;
            put_items(sink, items)
        }
        other => match WidgetValue::of(other) {
            Some(value) => sink.put(Line::Value(wid, value)),
            None => Ok(()),
        },
    }
}

fn put_window<S: LineSink>(sink: &mut S, win: u16, window: &Window) -> Result<(), S::Fault>
    ensures lines { OnOk result (S.takes sink.old (window_lines (win, window.now)) sink.new) }
    ensures sound { OnOk result (IsWindow (win, window.now)) }
{
    sink.put(Line::Window(win))?;
    for (wid, widget) in window.widgets() {
        put_widget(sink, *wid, widget)?;
    }
    Ok(())
}

/// Puts the lines of a board: each window's line, and after it each widget's with its items, all ascending by id.
pub fn put_board<S: LineSink>(sink: &mut S, board: &Board) -> Result<(), S::Fault>
    ensures lines { OnOk result (S.takes sink.old (board_lines board.now) sink.new) }
    ensures sound { OnOk result (IsBoard board.now) }
{
    for (win, window) in board.windows() {
        put_window(sink, *win, window)?;
    }
    Ok(())
}

/// A board as lines, as `put_board` puts them.
pub fn lines_of(alloc: Global, board: &Board) -> Result<Lines, NoMemory>
    ensures lines { IfOk result (λ made. made ≡ board_lines board.now) }
    ensures sound { IfOk result (λ made. IsBoard board.now) }
{
    let mut made = Lines::new(alloc);
    put_board(&mut made, board)?;
    Ok(made)
}
