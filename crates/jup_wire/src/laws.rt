//! What holds of all lines and streams.

ghost use Rattle.std.specs.Prelude.{◌≡◌, ◌↔◌, ℕ, List, ◌++◌, None, IsTrue};
ghost use Rattle.std.specs.List.{flat_map, AllByRecursion};
ghost use Rattle.jup_wire.specs.declared.line.Line.{Line};
ghost use Rattle.jup_wire.specs.declared.line.Line.TheVariants.{Batch, Do};
ghost use Rattle.jup_window.specs.Widgets.{relabels_no_text};
ghost use Rattle.jup_wire.specs.Fields.{IsName, is_count};
ghost use Rattle.jup_wire.specs.Lines.{HasSpelling, IsLine, is_spelled, spelling};
ghost use Rattle.jup_wire.specs.Streams.{HasRead, Progress};

use crate::fields::is_count;
use crate::kinds::has_ranges;
use crate::line::Line;
use jup_seq::SeqOp;
use jup_value::Name;
use jup_window::{BoardOp, WidgetOp};

// The values of a line are in the ranges of their types. The checker knows that of a value that is passed by value.
fn is_name(name: Name)
    ensures { IsName name }
{
    let _name = name;
}

fn has_count(mine: u32, heard: u32, count: u32) -> bool
    ensures test { result ≡ is_count count }
    ensures spelling { IsTrue result ↔ HasSpelling (Batch mine heard count) }
{
    let _numbers = (mine, heard);
    is_count(count)
}

fn has_body(op: BoardOp) -> bool
    ensures test { result ≡ relabels_no_text op.op }
    ensures spelling { IsTrue result ↔ HasSpelling (Do op) }
{
    let _op = op;
    !matches!(op.op, WidgetOp::Text(SeqOp::Relabel { .. }))
}

/// Whether a line has a spelling. Each line that a program holds has one, except a batch of no operation or
/// of more than 32, and a relabel of a text.
pub fn has_spelling(line: &Line) -> bool
    ensures test { result ≡ is_spelled line.now }
    ensures spelling { IsTrue result ↔ HasSpelling line.now }
{
    match line {
        Line::Welcome { site, limit } => {
            let _numbers = (*site, *limit);
        }
        Line::Window(id) | Line::Text(id) | Line::List(id) => {
            let _id = *id;
        }
        Line::Value(wid, value) => {
            let _id = *wid;
            has_ranges(*value);
        }
        Line::Char(name, value) => {
            is_name(*name);
            let _value = *value;
        }
        Line::Item(name, label) => {
            is_name(*name);
            let _text = label.bytes();
        }
        Line::Batch { mine, heard, count } => return has_count(*mine, *heard, *count),
        Line::Do(op) => return has_body(*op),
        Line::Ack(number) | Line::Ping(number) | Line::Pong(number) | Line::Error(number) => {
            let _number = *number;
        }
        Line::Hello | Line::Ready | Line::Bye => {}
    }
    true
}

/// No spelling of a line begins another, and none is that of two lines.
pub fn one_spelling()
    ensures { (a b x y : List ℕ) (l m : Line) → IsLine a l → IsLine b m → a ++ x ≡ b ++ y
        → (l ≡ m) × (a ≡ b) × (x ≡ y) }
{}

/// Bytes are read in one way, however they are cut into pieces.
pub fn one_reading()
    ensures { (bytes : List ℕ) (ls ms : List Line) (p q : Progress) → HasRead bytes ls p → HasRead bytes ms q
        → (ls ≡ ms) × (p.fault ≡ q.fault) }
{}

/// While the bytes of lines are on their way, what has come are the first of these lines, with no fault, and
/// what is left completes the others.
pub fn on_the_way()
    ensures { (moved left : List ℕ) (given sent : List Line) (p : Progress)
        → AllByRecursion HasSpelling sent → HasRead moved given p → moved ++ left ≡ flat_map spelling sent
        → (p.fault ≡ None)
        × ((rest : List Line) × (sent ≡ given ++ rest) × (p.part ++ left ≡ flat_map spelling rest)) }
{}
