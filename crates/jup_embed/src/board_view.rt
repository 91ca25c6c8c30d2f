//! A board as it is read from outside: numbers, and texts that are copied.
ghost use Rattle.std.specs.Prelude.{◌≡◌, ◌≤◌, ◌-◌, length, get_or, min, take, drop, None, IsNone, IfSome, IsSomeAnd};
ghost use Rattle.jup_embed.specs.Views.{window_shown, kind_of, widget_shown, values_of, characters_at, label_at};

use jup_value::{Label, Seq};
use jup_window::{Board, Widget};
use jup_wire::WidgetValue;

/// What a widget is.
#[derive(Clone, Copy, Debug, PartialEq, Eq)]
pub enum WidgetKind {
    /// A text, with the count of its characters.
    Text(u32),
    /// A list, with the count of its items.
    List(u32),
    /// A widget without items, with what it shows.
    Value(WidgetValue),
    /// No other widget than these is on a board.
    Unknown,
}

/// A widget, without its items.
#[derive(Clone, Copy, Debug, PartialEq, Eq)]
pub struct WidgetView {
    pub win: u16,
    pub wid: u16,
    pub kind: WidgetKind,
}

/// The id of the window at an index, and how many widgets it has.
pub fn window_view(board: &Board, index: usize) -> Option<(u16, usize)>
    ensures { result ≡ window_shown index board.now }
{
    let (win, window) = board.windows().get(index)?;
    Some((*win, window.widgets().len()))
}

/// The widget at an index of the window at an index.
pub fn widget_view(board: &Board, window: usize, index: usize) -> Option<WidgetView>
    ensures { result ≡ widget_shown window index board.now }
{
    let (win, window) = board.windows().get(window)?;
    let (wid, widget) = window.widgets().get(index)?;
    Some(WidgetView {
        win: *win,
        wid: *wid,
        kind: kind_of(widget),
    })
}

fn kind_of(widget: &Widget) -> WidgetKind
    ensures { result ≡ kind_of widget.now }
{
    match widget {
        Widget::Text(text) => WidgetKind::Text(text.len()),
        Widget::List(list) => WidgetKind::List(list.len()),
        other => WidgetValue::of(other).map_or(WidgetKind::Unknown, WidgetKind::Value),
    }
}

/// Copies characters of a text from a place on, as far as there is room, and returns how many. None if there is no such text.
pub fn copy_text(board: &Board, win: u16, wid: u16, place: u32, to: &mut [u32]) -> Option<usize>
    ensures none { IsNone result → characters_at (win, wid) board.now ≡ None }
    ensures same { IsNone result → to.new ≡ to.old }
    ensures count { IfSome result (λ count. IsSomeAnd (characters_at (win, wid) board.now) (λ text. count ≡ min (length to.old) (length text - place))) }
    ensures copied { IfSome result (λ count. IfSome (characters_at (win, wid) board.now) (λ text. take count to.new ≡ take count (drop place text))) }
    ensures long { length to.new ≡ length to.old }
{
    match board.widget(win, wid)? {
        Widget::Text(text) => Some(copy_chars(text, place, to)),
        _ => None,
    }
}

// Copies characters from a place on, as far as there is room.
#[tactic(auto, using(crate::proofs::Sessions::copied_value))]
fn copy_chars(text: &Seq<char>, place: u32, to: &mut [u32]) -> usize
    ensures count { result ≡ min (length to.old) (length text.now.items - place) }
    ensures copied { take result to.new ≡ take result (drop place (values_of text.now.items)) }
    ensures long { length to.new ≡ length to.old }
{
    let left = text.len().saturating_sub(place) as usize;
    let count = to.len().min(left);
    for k in 0..count {
        to[k] = scalar_at(text, place + k as u32);
    }
    count
}

// The character at a place, or 0 if there is none.
#[tactic(auto, using(crate::proofs::Sessions::value_within, crate::proofs::Sessions::value_past))]
fn scalar_at(text: &Seq<char>, place: u32) -> u32
    ensures { result ≡ get_or (values_of text.now.items) place 0 }
{
    match text.get(place) {
        Some(item) => u32::from(item.value),
        None => 0,
    }
}

/// The label at a place of a list. None if there is no such list, or no item there.
pub fn copy_label(board: &Board, win: u16, wid: u16, place: u32) -> Option<Label>
    ensures { result ≡ label_at (win, wid) place board.now }
{
    match board.widget(win, wid)? {
        Widget::List(list) => list.get(place).map(|item| item.value),
        _ => None,
    }
}
