//! The board that lines describe, line by line.
ghost use Rattle.std.specs.Prelude.{◌≡◌, ◌<◌, List, length, not, Ok, Some, IsNone, None, IfOk, OnOk, OnErr};
ghost use Rattle.jup_window.specs.Entries.{widget_fault, change_at, with_entry};
ghost use Rattle.jup_window.specs.Boards as boards;
ghost use Rattle.jup_window.specs.Widgets as widgets;
ghost use Rattle.jup_wire.specs.Kinds.{said_widget};
ghost use Rattle.jup_value.specs.declared.names.Item.{Item};
ghost use Rattle.jup_value.specs.Items.{has_name};
ghost use Rattle.jup_layout.specs.Drafts.{AreKept, AddsName, blank, whole, with_window, with_widget, with_said, with_added, taken, items_in_last, Follows, Appended};

use crate::names::Names;
use crate::naming::Naming;
use crate::refusals::Refusal;
use jup_value::{Item, Label, Name, Seq};
use jup_window::{Board, Widget};
use jup_wire::{Line, WidgetValue};
use jup_xform::NoMemory;
use std::alloc::Global;
use std::marker::Model;

/// What the lines so far describe. Contracts see it without the room of its sequences.
#[derive(Drop)]
pub(crate) struct Draft {
    // Each widget but the last.
    board: Board,
    // The last window line's.
    window: Option<u16>,
    // The last widget line's widget, which still takes items, and before it the window that it belongs to.
    home: Option<u16>,
    last: Option<(u16, Widget)>,
    // The names of its items, if these are not numbered.
    names: Names,
    naming: Naming,
}

impl Model for Draft {
    ghost use Rattle.std.specs.Prelude.{IsTrue};
    ghost use Rattle.jup_window.specs.Boards as boards;
    ghost use Rattle.jup_layout.specs.Drafts.{Drafted, bare_last, is_free, AreKeptIn};

    ghost Value = { Drafted };

    ghost view = { λ d. record {
      board = boards.bare d.board;
      window = d.window;
      home = d.home;
      last = bare_last d.last;
      naming = d.naming;
    } };

    ghost invariant = { λ d. record {
      free : IsTrue (is_free d.home d.last d.board);
      kept : AreKeptIn d.naming d.last d.names;
    } };
}

// The board with one more widget, under an id that is free.
fn put(mut board: Board, win: u16, wid: u16, widget: Widget) -> Result<Board, Refusal>
    requires { IsNone (widget_fault win wid board) }
    ensures { Follows boards.bare result
        (Ok (boards.bare (change_at win (with_entry wid widget) board))) }
{
    match board.add_widget(win, wid, widget) {
        Ok(()) => Ok(board),
        Err(fault) => Err(Refusal::of_board(fault)),
    }
}

// Whether no item of a sequence has the name, which is then among the names, if these are kept. A number of a
// layout is above all before it, so that nothing is searched.
fn is_new<V: Copy>(
    items: &Seq<V>,
    names: &mut Names,
    naming: Naming,
    name: Name,
) -> Result<bool, NoMemory>
    requires { AreKept naming items.now.items names.old }
    ensures new { IfOk result (λ new. new ≡ not (has_name name items.now.items)) }
    ensures memory { OnErr result (naming ≡ Naming.Distinct) }
    ensures kept { OnOk result ((after : List (Item V)) → AddsName name items.now.items after → AreKept naming after names.new) }
{
    match naming {
        Naming::Distinct => names.add(name),
        Naming::Numbered(_) => Ok(items.place_of(name).is_none()),
    }
}

// The sequence with one more item at its end, and what is asked of the next item.
fn append<V: Copy>(
    mut items: Seq<V>,
    names: &mut Names,
    naming: Naming,
    item: Item<V>,
) -> Result<(Seq<V>, Naming), Refusal>
    requires short { length items.items < 4294967295 }
    requires kept { AreKept naming items.items names.old }
    ensures appended { Appended naming items item result }
    ensures kept { IfOk result (λ after. AreKept naming after.0.items names.new) }
{
    if let Some(refusal) = naming.refusal(item.name, items.len()) {
        return Err(refusal);
    }
    let Ok(new) = is_new(&items, names, naming, item.name) else {
        return Err(Refusal::NoMemory);
    };
    if !new {
        return Err(Refusal::BadItemName);
    }
    if items.reserve_one().is_err() {
        return Err(Refusal::NoMemory);
    }
    let place = items.len();
    items.insert(place, item);
    Ok((items, naming.after(item.name, place)))
}

/// An item that a line puts after those of the last widget.
#[derive(Clone, Copy)]
pub(crate) enum Added {
    Char(Item<char>),
    Label(Item<Label>),
}

impl Draft {
    /// No line was read yet. It takes no memory.
    pub(crate) fn new(alloc: Global, naming: Naming) -> Draft
        ensures { result ≡ blank naming }
    {
        Draft {
            board: Board::new(alloc),
            window: None,
            home: None,
            last: None,
            names: Names::new(alloc),
            naming,
        }
    }

    /// The board that the lines describe.
    pub(crate) fn whole(self) -> Result<Board, Refusal>
        ensures { Follows boards.bare result (Ok (whole self)) }
    {
        let Draft {
            board,
            home,
            last,
            ..
        } = self;
        let Some(win) = home else {
            return Ok(board);
        };
        let Some((wid, widget)) = last else {
            return Ok(board);
        };
        put(board, win, wid, widget)
    }

    fn with_window(self, alloc: Global, win: u16) -> Result<Draft, Refusal>
        ensures { Follows (λ d. d) result (with_window win self) }
    {
        let Draft {
            mut board,
            home,
            last,
            names,
            naming,
            ..
        } = self;
        if let Err(fault) = board.add_window(alloc, win) {
            return Err(Refusal::of_board(fault));
        }
        Ok(Draft {
            board,
            window: Some(win),
            home,
            last,
            names,
            naming,
        })
    }

    // Its items would not be among the names.
    fn with_widget(self, alloc: Global, wid: u16, widget: Widget) -> Result<Draft, Refusal>
        requires { items_in_last (Some (wid, widget)) ≡ 0 }
        ensures { Follows (λ d. d) result (with_widget wid (widgets.bare widget) self) }
    {
        let Some(win) = self.window else {
            return Err(Refusal::Misplaced);
        };
        let naming = self.naming;
        let board = self.whole()?;
        if let Some(fault) = board.refusal_of_widget(win, wid) {
            return Err(Refusal::of_board(fault));
        }
        Ok(Draft {
            board,
            window: Some(win),
            home: Some(win),
            last: Some((wid, widget)),
            names: Names::new(alloc),
            naming,
        })
    }

    fn with_item(self, added: Added) -> Result<Draft, Refusal>
        requires { items_in_last self.last < 4294967295 }
        ensures { Follows (λ d. d) result (with_added self.last added self) }
    {
        let Draft {
            board,
            window,
            home,
            last,
            mut names,
            naming,
        } = self;
        let (last, naming) = match (last, added) {
            (Some((wid, Widget::Text(items))), Added::Char(item)) => {
                let (items, naming) = append(items, &mut names, naming, item)?;
                ((wid, Widget::Text(items)), naming)
            }
            (Some((wid, Widget::List(items))), Added::Label(item)) => {
                let (items, naming) = append(items, &mut names, naming, item)?;
                ((wid, Widget::List(items)), naming)
            }
            _ => return Err(Refusal::Misplaced),
        };
        Ok(Draft {
            board,
            window,
            home,
            last: Some(last),
            names,
            naming,
        })
    }

    fn with_value(self, alloc: Global, wid: u16, value: WidgetValue) -> Result<Draft, Refusal>
        ensures { Follows (λ d. d) result (with_said self.window (said_widget value) wid self) }
    {
        if self.window.is_none() {
            return Err(Refusal::Misplaced);
        }
        match value.widget() {
            Some(widget) => self.with_widget(alloc, wid, widget),
            None => Err(Refusal::BadBounds),
        }
    }

    /// What the lines describe together with one more line.
    pub(crate) fn take(self, alloc: Global, line: &Line) -> Result<Draft, Refusal>
        requires { items_in_last self.last < 4294967295 }
        ensures { Follows (λ d. d) result (taken self line.now) }
    {
        match line {
            Line::Window(win) => self.with_window(alloc, *win),
            Line::Text(wid) => self.with_widget(alloc, *wid, Widget::Text(Seq::new(alloc))),
            Line::List(wid) => self.with_widget(alloc, *wid, Widget::List(Seq::new(alloc))),
            Line::Value(wid, value) => self.with_value(alloc, *wid, *value),
            Line::Char(name, value) => self.with_item(Added::Char(Item {
                name: *name,
                value: *value,
            })),
            Line::Item(name, label) => self.with_item(Added::Label(Item {
                name: *name,
                value: *label,
            })),
            _ => Err(Refusal::Misplaced),
        }
    }
}
