//! What operations do to the content of a board.
ghost use Rattle.std.specs.Prelude.{◌≡◌};
ghost use Rattle.jup_window.specs.Kinds.{inserted_name, insertions, bears_next, bears_site, is_nothing, shown_edit};

use crate::kinds::{Effect, WidgetEdit, effect_of};
use jup_seq::SeqEdit;
use jup_value::Name;
use jup_xform::OneOf;

/// What an operation does to the content of a board: an edit of the widget with some ids.
#[derive(Clone, Copy, Debug, PartialEq, Eq)]
pub struct BoardEdit {
    pub win: u16,
    pub wid: u16,
    pub what: WidgetEdit,
}

/// An edit as it is shown: an effect on the widget with some ids.
#[derive(Clone, Copy, Debug, PartialEq, Eq)]
pub struct Edit {
    pub win: u16,
    pub wid: u16,
    pub what: Effect,
}

// The name that an edit inserts.
fn inserted_by(edit: &WidgetEdit) -> Option<Name>
    ensures { result ≡ inserted_name edit.now }
{
    match *edit {
        OneOf::First(SeqEdit::Put(name, _)) => Some(name),
        OneOf::Second(OneOf::First(SeqEdit::Put(name, _))) => Some(name),
        _ => None,
    }
}

impl BoardEdit {
    /// The edit as it is shown.
    pub fn shown(&self) -> Edit
        ensures { result ≡ shown_edit self.now }
    {
        Edit {
            win: self.win,
            wid: self.wid,
            what: effect_of(&self.what),
        }
    }

    /// Whether it changes nothing.
    pub fn is_nothing(&self) -> bool
        ensures { result ≡ is_nothing self.now }
    {
        matches!(&effect_of(&self.what), Effect::Nothing)
    }

    /// How many items it inserts.
    pub fn insertions(&self) -> u32
        ensures { result ≡ insertions self.now }
    {
        match inserted_by(&self.what) {
            Some(_) => 1,
            None => 0,
        }
    }

    /// Whether what it inserts, if anything, is named by this site and counted next after `count`
    /// insertions of that site.
    pub fn bears_next(&self, site: u32, count: u32) -> bool
        ensures { result ≡ bears_next site count self.now }
    {
        match inserted_by(&self.what) {
            Some(name) => name.site == site && name.number as u64 == count as u64 + 1,
            None => true,
        }
    }

    /// Whether it inserts an item that is named by this site.
    pub fn bears_site(&self, site: u32) -> bool
        ensures { result ≡ bears_site site self.now }
    {
        match inserted_by(&self.what) {
            Some(name) => name.site == site,
            None => false,
        }
    }
}
