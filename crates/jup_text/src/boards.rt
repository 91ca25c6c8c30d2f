//! Boards: a line for each window, and after it one for each of its widgets, ascending by id.
ghost use Rattle.std.specs.Prelude.{◌≡◌, ◌∷◌, ◌++◌, Some, OnOk, OnErr};
ghost use Rattle.std.specs.Fmt.{AppendsText, DisplaysOnOk};
ghost use Rattle.std.specs.List.{flat_map};
ghost use Rattle.jup_window.specs.Kinds.{HasNoItems};
ghost use Rattle.jup_text.specs.Boards.{board_text, window_lines, widget_line};
ghost use Rattle.jup_text.specs.Words.{quoted};

use super::quoted::{Quoted, QuotedLabel};
use jup_value::{Label, Seq};
use jup_window::{Board, Widget, Window};
use jup_wire::WidgetValue;
use jup_xform::NoMemory;
use std::alloc::Global;
use std::fmt;

/// Appends a board as it is printed, each line with its line feed, or nothing if an allocation fails.
pub fn write_board(alloc: Global, board: &Board, into: &mut Vec<u8>) -> Result<(), NoMemory>
    ensures appended { OnOk result (into.new.items ≡ into.old.items ++ board_text board.now) }
    ensures same { OnErr result (into.new.items ≡ into.old.items) }
{
    append(alloc, &PrintedBoard(board), into)
}

// Appends a text, or nothing if an allocation fails.
pub(super) fn append<D: fmt::Display>(
    alloc: Global,
    text: &D,
    into: &mut Vec<u8>,
) -> Result<(), NoMemory>
    ensures appended { OnOk result (AppendsText into.old.items into.new.items (D.output text.now)) }
    ensures same { OnErr result (into.new.items ≡ into.old.items) }
{
    let Ok(text) = format!(in alloc; "{text}") else {
        return Err(NoMemory);
    };
    into.extend_from_slice(text.as_bytes())
        .map_err(|_| NoMemory)
}

/// A board as it is printed.
#[derive(Drop)]
pub struct PrintedBoard<'a>(pub &'a Board);

impl fmt::Display for PrintedBoard<'_> {
    ghost output = { λ board. Some (board_text board.0.now) };

    fn fmt<W: fmt::Write>(&self, f: &mut fmt::Formatter<W>) -> fmt::Result {
        for entry in self.0.windows() {
            write_window(f, entry)?;
        }
        Ok(())
    }
}

// Writes a window's line, and those of its widgets.
fn write_window<W: fmt::Write>(f: &mut fmt::Formatter<W>, entry: &(u16, Window)) -> fmt::Result
    ensures { DisplaysOnOk W.Write.write_str_gives f.old result (Some (window_lines entry.now)) f.new }
{
    let (win, window) = entry;
    writeln!(f, "window {win}")?;
    for entry in window.widgets() {
        write_widget(f, entry)?;
    }
    Ok(())
}

fn write_widget<W: fmt::Write>(f: &mut fmt::Formatter<W>, entry: &(u16, Widget)) -> fmt::Result
    ensures { DisplaysOnOk W.Write.write_str_gives f.old result (Some (widget_line entry.now)) f.new }
{
    let (wid, widget) = entry;
    match widget {
        Widget::Text(text) => {
            let text = Quoted(text);
            writeln!(f, "text {wid} {text}")
        }
        Widget::List(list) => {
            write!(f, "list {wid}")?;
            write_labels(f, list)?;
            writeln!(f)
        }
        other => write_value(f, *wid, other),
    }
}

// Writes the line of a widget without items.
fn write_value<W: fmt::Write>(f: &mut fmt::Formatter<W>, wid: u16, widget: &Widget) -> fmt::Result
    ensures { HasNoItems widget.now → DisplaysOnOk W.Write.write_str_gives f.old result (Some (widget_line (wid, widget.now))) f.new }
{
    let Some(value) = WidgetValue::of(widget) else {
        return Ok(());
    };
    let word = value.word();
    writeln!(f, "{word} {wid} {value}")
}

// Writes each label after a space.
fn write_labels<W: fmt::Write>(f: &mut fmt::Formatter<W>, list: &Seq<Label>) -> fmt::Result
    ensures { DisplaysOnOk W.Write.write_str_gives f.old result
        (Some (flat_map (λ item. 32 ∷ quoted item.value) list.now.items)) f.new }
{
    for item in list.iter() {
        let label = QuotedLabel(&item.value);
        write!(f, " {label}")?;
    }
    Ok(())
}
