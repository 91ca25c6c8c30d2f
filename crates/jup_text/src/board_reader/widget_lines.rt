//! The lines of widgets, as they are printed.
ghost use Rattle.std.specs.Prelude.{◌≡◌, ◌≢◌, ℕ, List, ◌∷◌, ◌++◌, map, IfOk, IfSome, IsSome, IsOkUnless, MatchOption, codes, decimal};
ghost use Rattle.std.specs.Char.{IsScalar};
ghost use Rattle.std.specs.List.{flat_map};
ghost use Rattle.jup_value.specs.Labels.{IsLabelText};
ghost use Rattle.jup_window.specs.declared.kinds.Widget.{Widget};
ghost use Rattle.jup_text.specs.declared.board_reader.UnreadLine.TheVariants as untaken;
ghost use Rattle.jup_wire.specs.declared.kinds.WidgetValue.{WidgetValue};
ghost use Rattle.jup_wire.specs.Kinds.{value_word};
ghost use Rattle.jup_text.specs.Commands.{IsId};
ghost use Rattle.jup_text.specs.Boards.{AreValues, IsHeld, IsValueText, AreNumbered, IsLineOf, IsNumbered, IsWidgetLine};
ghost use Rattle.jup_text.specs.Words.{quoted, IsWord};

use super::UnreadLine;
use super::numbered::Numbered;
use crate::quoted::{behind_quote, is_end, next_char, next_quoted_label};
use crate::words::{id_of, next_id, split_word};
use jup_value::Label;
use jup_window::Widget;
use jup_wire::read_value;
use std::alloc::Global;

/// A widget as its line has it, with its id, and the number of its last item.
#[derive(Drop)]
pub(crate) struct WidgetLine {
    pub(crate) wid: u16,
    pub(crate) widget: Widget,
    pub(crate) last: u32,
}

/// Reads the line of a widget: its first word, and what comes after that. Its items are numbered after the last.
pub(crate) fn read_widget(
    alloc: Global,
    last: u32,
    kind: &[u8],
    rest: &[u8],
) -> Result<WidgetLine, UnreadLine>
    ensures line { IfOk result (λ r. IsWidgetLine last (kind.now ++ 32 ∷ rest.now) r.wid r.widget r.last) }
    ensures id { IfOk result (λ r. IsId r.wid) }
    ensures every { IsWord kind.now → (wid : ℕ) (widget : Widget) → IsId wid → IsHeld last widget
        → IsLineOf (kind.now ++ 32 ∷ rest.now) wid widget → IsOkUnless result untaken.NoMemory }
{
    if kind == b"text".as_slice() {
        return read_text(alloc, last, rest);
    }
    if kind == b"list".as_slice() {
        return read_list(alloc, last, rest);
    }
    let Some((wid, widget)) = read_value_line(kind, rest) else {
        return Err(UnreadLine::BadLine);
    };
    Ok(WidgetLine { wid, widget, last })
}

// What follows the word `text`.
fn read_text(alloc: Global, last: u32, rest: &[u8]) -> Result<WidgetLine, UnreadLine>
    ensures line { IfOk result (λ r. IsWidgetLine last (codes "text " ++ rest.now) r.wid r.widget r.last) }
    ensures id { IfOk result (λ r. IsId r.wid) }
    ensures every { (wid : ℕ) (chars : List ℕ) → IsId wid → AreValues IsScalar last chars
        → rest.now ≡ decimal wid ++ 32 ∷ quoted chars → IsOkUnless result untaken.NoMemory }
{
    let Some((wid, text)) = next_id(rest) else {
        return Err(UnreadLine::BadLine);
    };
    let chars = read_chars(alloc, last, text)?;
    Ok(WidgetLine {
        wid,
        last: chars.last(),
        widget: Widget::Text(chars.into_items()),
    })
}

// What follows the word `list`.
#[tactic(auto, using(crate::proofs::BoardLines::list_line))]
fn read_list(alloc: Global, last: u32, rest: &[u8]) -> Result<WidgetLine, UnreadLine>
    ensures line { IfOk result (λ r. IsWidgetLine last (codes "list " ++ rest.now) r.wid r.widget r.last) }
    ensures id { IfOk result (λ r. IsId r.wid) }
    ensures every { (wid : ℕ) (labels : List (List ℕ)) → IsId wid → AreValues IsLabelText last labels
        → rest.now ≡ decimal wid ++ flat_map (λ label. 32 ∷ quoted label) labels → IsOkUnless result untaken.NoMemory }
{
    let (id, labels) = split_word(rest);
    let Some(wid) = id_of(id) else {
        return Err(UnreadLine::BadLine);
    };
    let labels = read_labels(alloc, last, labels)?;
    Ok(WidgetLine {
        wid,
        last: labels.last(),
        widget: Widget::List(labels.into_items()),
    })
}

// The items of a quoted text, numbered after the last.
fn read_chars(alloc: Global, last: u32, text: &[u8]) -> Result<Numbered<char>, UnreadLine>
    ensures text { IfOk result (λ r. text.now ≡ quoted (map (λ item. item.value) r.items.items)) }
    ensures numbered { IfOk result (λ r. AreNumbered last r.items.items r.last) }
    ensures every { (chars : List ℕ) → AreValues IsScalar last chars → text.now ≡ quoted chars
        → IsOkUnless result untaken.NoMemory }
{
    let mut items = Numbered::new(alloc, last);
    let Some(inner) = behind_quote(text) else {
        return Err(UnreadLine::BadLine);
    };
    let mut rest = inner;
    while let Some((value, later)) = next_char(rest) {
        items.push(value)?;
        rest = later;
    }
    if is_end(rest) {
        Ok(items)
    } else {
        Err(UnreadLine::BadLine)
    }
}

// The items of a list, each a label after a space, numbered after the last.
fn read_labels(alloc: Global, last: u32, labels: &[u8]) -> Result<Numbered<Label>, UnreadLine>
    ensures labels { IfOk result (λ r. labels.now ≡ flat_map (λ item. 32 ∷ quoted item.value) r.items.items) }
    ensures numbered { IfOk result (λ r. AreNumbered last r.items.items r.last) }
    ensures every { (texts : List (List ℕ)) → AreValues IsLabelText last texts
        → labels.now ≡ flat_map (λ label. 32 ∷ quoted label) texts → IsOkUnless result untaken.NoMemory }
{
    let mut items = Numbered::new(alloc, last);
    let mut rest = labels;
    while let Some(label) = behind_space(rest) {
        let Some((value, later)) = next_quoted_label(label) else {
            return Err(UnreadLine::BadLine);
        };
        items.push(value)?;
        rest = later;
    }
    if rest.is_empty() {
        Ok(items)
    } else {
        Err(UnreadLine::BadLine)
    }
}

// What follows a space.
fn behind_space(text: &[u8]) -> Option<&[u8]>
    ensures { MatchOption result ((rest : List ℕ) → text.now ≢ 32 ∷ rest) (λ rest. text.now ≡ 32 ∷ rest.now) }
{
    let (first, rest) = text.split_first()?;
    if *first == b' ' { Some(rest) } else { None }
}

// A widget without items with its id.
fn read_value_line(kind: &[u8], rest: &[u8]) -> Option<(u16, Widget)>
    ensures line { IfSome result (λ r. IsLineOf (kind.now ++ 32 ∷ rest.now) r.0 r.1) }
    ensures no_items { IfSome result (λ r. (last : ℕ) → IsNumbered last r.1 last) }
    ensures id { IfSome result (λ r. IsId r.0) }
    ensures every { (wid : ℕ) (value : WidgetValue) (widget : Widget) → kind.now ≡ value_word value
        → IsValueText rest.now wid value widget → IsSome result }
{
    let (wid, value) = read_value(kind, rest)?;
    match value.widget() {
        Some(widget) => Some((wid, widget)),
        None => None,
    }
}
