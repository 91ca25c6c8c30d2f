//! Commands of a user, and the operations that they become.
ghost use Rattle.std.specs.Prelude.{◌≡◌, IfOk};
ghost use Rattle.jup_window.specs.Commands.{insertion, deletion, relabel, insertion_on, deletion_on, relabel_on, told_on, command_place, item_place, named_widget, named, map_ok, IsFresh, shown};
ghost use Rattle.jup_window.specs.Boards.{bare, after, IsValid};

use crate::board_operations::BoardOp;
use crate::boards::Board;
use crate::entries::get;
use crate::faults::EditFault;
use crate::kinds::{Setting, Widget, WidgetOp, setting_of};
use jup_limits::LONGEST_SEQUENCE;
use jup_seq::SeqOp;
use jup_value::{Item, Label, Name};

/// The value of an item that a command inserts.
#[derive(Clone, Copy, Debug, PartialEq, Eq)]
pub enum Value {
    Char(char),
    Label(Label),
}

/// What a user asks for, of the widget that the ids of a window and of a widget name. Places count
/// from 0.
#[derive(Clone, Copy, Debug, PartialEq, Eq)]
pub enum Command {
    Insert {
        win: u16,
        wid: u16,
        place: u32,
        value: Value,
    },
    Delete {
        win: u16,
        wid: u16,
        place: u32,
    },
    /// Gives the item at the place of a list another label.
    Relabel {
        win: u16,
        wid: u16,
        place: u32,
        label: Label,
    },
    Set {
        win: u16,
        wid: u16,
        setting: Setting,
    },
}

// An insertion into a sequence of so many items.
fn insert_at<V: Copy>(place: u32, item: Item<V>, count: u32) -> Result<SeqOp<V>, EditFault>
    ensures { result ≡ insertion place item count }
{
    if place > count {
        return Err(EditFault::BadPlace);
    }
    if count >= LONGEST_SEQUENCE {
        return Err(EditFault::LongText);
    }
    Ok(SeqOp::Insert { place, item })
}

fn insertion_into(
    widget: &Widget,
    place: u32,
    value: Value,
    name: Name,
    count: u32,
) -> Result<WidgetOp, EditFault>
    ensures { result ≡ insertion_on place value name count widget.now }
{
    match (widget, value) {
        (Widget::Text(_), Value::Char(value)) => {
            let op = insert_at(place, Item { name, value }, count)?;
            Ok(WidgetOp::Text(op))
        }
        (Widget::List(_), Value::Label(value)) => {
            let op = insert_at(place, Item { name, value }, count)?;
            Ok(WidgetOp::List(op))
        }
        _ => Err(EditFault::WrongKind),
    }
}

// The deletion of an item that has this name, if there is one.
fn deletion_from(widget: &Widget, place: u32, held: Option<Name>) -> Result<WidgetOp, EditFault>
    ensures { result ≡ deletion_on place held widget.now }
{
    match (widget, held) {
        (Widget::Text(_), Some(name)) => Ok(WidgetOp::Text(SeqOp::Delete { place, name })),
        (Widget::List(_), Some(name)) => Ok(WidgetOp::List(SeqOp::Delete { place, name })),
        (Widget::Text(_) | Widget::List(_), None) => Err(EditFault::BadPlace),
        _ => Err(EditFault::WrongKind),
    }
}

// The relabel of an item that has this name, if there is one.
fn relabel_in(
    widget: &Widget,
    place: u32,
    value: Label,
    held: Option<Name>,
) -> Result<WidgetOp, EditFault>
    ensures { result ≡ relabel_on place value held widget.now }
{
    match (widget, held) {
        (Widget::List(_), Some(name)) => Ok(WidgetOp::List(SeqOp::Relabel { place, name, value })),
        (Widget::List(_), None) => Err(EditFault::BadPlace),
        _ => Err(EditFault::WrongKind),
    }
}

impl Command {
    /// The ids of its window and of its widget.
    pub fn ids(&self) -> (u16, u16)
        ensures { result ≡ command_place self.now }
    {
        match *self {
            Command::Insert { win, wid, .. }
            | Command::Delete { win, wid, .. }
            | Command::Relabel { win, wid, .. }
            | Command::Set { win, wid, .. } => (win, wid),
        }
    }

    /// The place that it names in a text or a list. It is 0 if a value is set.
    pub fn place(&self) -> u32
        ensures { result ≡ item_place self.now }
    {
        match *self {
            Command::Insert { place, .. }
            | Command::Delete { place, .. }
            | Command::Relabel { place, .. } => place,
            Command::Set { .. } => 0,
        }
    }

    /// The operation on a widget, with a name for an insertion. Of the widget's items it uses only what is
    /// given here: their count, and the name of the one at the command's place, if there is one. So they may
    /// be those of the widget as it is after other operations.
    pub fn on_widget(
        &self,
        widget: &Widget,
        name: Name,
        count: u32,
        held: Option<Name>,
    ) -> Result<WidgetOp, EditFault>
        ensures { result ≡ told_on self.now name count held widget.now }
    {
        match *self {
            Command::Insert { place, value, .. } => {
                insertion_into(widget, place, value, name, count)
            }
            Command::Delete { place, .. } => deletion_from(widget, place, held),
            Command::Relabel { place, label, .. } => relabel_in(widget, place, label, held),
            Command::Set { setting, .. } => setting_of(widget, setting),
        }
    }

    // The operation on a board, with a name for an insertion.
    fn on_board(&self, board: &Board, name: Name) -> Result<BoardOp, EditFault>
        ensures { result ≡ named self.now name board.now }
    {
        let (win, wid) = self.ids();
        let widget = board.named_widget(win, wid)?;
        let held = widget.name_at(self.place());
        let op = self.on_widget(widget, name, widget.item_count(), held)?;
        Ok(BoardOp { win, wid, op })
    }
}

impl Board {
    /// The widget that the ids of a window and of a widget name. Refused, in this order: no such window,
    /// no such widget.
    pub fn named_widget(&self, win: u16, wid: u16) -> Result<&Widget, EditFault>
        ensures { map_ok (λ widget. widget.now) result ≡ named_widget (win, wid) self.now }
    {
        let window = get(self.windows(), win).ok_or(EditFault::NoWindow)?;
        get(window.widgets(), wid).ok_or(EditFault::NoWidget)
    }

    /// The operation of a command: an insertion under the given name, or a deletion or a relabel of the item
    /// at the place under its own. It takes no memory. Refused, in this order, are:
    ///
    /// - a window or a widget that is not there;
    /// - a command or a value that does not fit the widget;
    /// - a place past the end, or a value outside the slider's bounds;
    /// - an insertion into a sequence of 65,536 items or more.
    pub fn name_it(&self, command: &Command, name: Name) -> Result<BoardOp, EditFault>
        requires fresh { IsFresh command.now name (bare self.now) }
        ensures named { result ≡ named command.now name (bare self.now) }
        ensures valid { IfOk result (λ op. IsValid op (bare self.now)) }
        ensures shown { IfOk result
            (λ op. after op (bare self.now) ≡ shown command.now name (bare self.now)) }
    {
        command.on_board(self, name)
    }
}
