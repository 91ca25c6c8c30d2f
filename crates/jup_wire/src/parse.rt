//! Reading one line, without its line feed.

ghost use Rattle.std.specs.Prelude.{◌≡◌, Ok, IfOk, IfErr};
ghost use Rattle.jup_wire.specs.declared.line.Line.{Line};
ghost use Rattle.jup_wire.specs.Fields.{insert_of, delete_of, relabel_of, seq_of, set_of};
ghost use Rattle.jup_wire.specs.Kinds.{text_of};
ghost use Rattle.jup_wire.specs.Lines.{HasSpelling, line_text, IsBad, welcome_of, hello_of, char_of, item_of, batch_of, do_of, headed_of, line_of, version_of, refusal_of};

use crate::faults::WireFault;
use crate::fields::{FieldValue, behind, count, field, id_before, number, number_before, split};
use crate::kinds::{body, read_value};
use crate::line::Line;
use jup_seq::{SeqOp, TextOp};
use jup_setting::SetOp;
use jup_value::{Item, Label, Name};
use jup_window::BoardOp;

/// The version of the protocol, as a greeting names it.
const THIS_VERSION: u32 = 3;

/// The line that the bytes are, which have no line feed after them, or what is wrong with them: `BadLine`, or
/// `BadVersion`.
pub fn read_line(bytes: &[u8]) -> Result<Line, WireFault>
    ensures line { IfOk result (λ line. HasSpelling line × (bytes.now ≡ line_text line)) }
    ensures every { (line : Line) → HasSpelling line → bytes.now ≡ line_text line → result ≡ Ok line }
    ensures fault { IfErr result (λ fault. IsBad fault bytes.now) }
{
    match line(bytes) {
        Some(line) => Ok(line),
        None => Err(refusal(version(bytes))),
    }
}

/// What is wrong with bytes that are no line, by the version that they name.
fn refusal(version: Option<u32>) -> WireFault
    ensures { result ≡ refusal_of version }
{
    match version {
        Some(version) if version != THIS_VERSION => WireFault::BadVersion,
        _ => WireFault::BadLine,
    }
}

/// The version that a greeting names.
#[tactic(auto, unfolding(crate::specs::Lines::version_of))]
fn version(bytes: &[u8]) -> Option<u32>
    ensures { result ≡ version_of bytes.now }
{
    let (word, rest) = split(bytes, b' ')?;
    if word == b"hello".as_slice() {
        number(rest)
    } else {
        None
    }
}

fn line(bytes: &[u8]) -> Option<Line>
    ensures { result ≡ line_of bytes.now }
{
    // Most lines are operations or begin batches.
    if let Some(rest) = behind(bytes, b"do ".as_slice()) {
        return operation(rest);
    }
    if let Some(rest) = behind(bytes, b"batch ".as_slice()) {
        return batch(rest);
    }
    any_line(bytes)
}

#[inline(never)]
#[tactic(auto, unfolding(crate::specs::Lines::line_of))]
fn any_line(bytes: &[u8]) -> Option<Line>
    ensures { result ≡ line_of bytes.now }
{
    if bytes == b"ready".as_slice() {
        return Some(Line::Ready);
    }
    if bytes == b"bye".as_slice() {
        return Some(Line::Bye);
    }
    let (word, rest) = split(bytes, b' ')?;
    line_by_word(word, rest)
}

/// A line of several fields, by the first of them.
#[tactic(auto, unfolding(crate::specs::Lines::headed_of))]
fn line_by_word(word: &[u8], rest: &[u8]) -> Option<Line>
    ensures { result ≡ headed_of word.now rest.now }
{
    if word == b"do".as_slice() {
        return operation(rest);
    }
    if word == b"batch".as_slice() {
        return batch(rest);
    }
    if word == b"hello".as_slice() {
        return hello(rest);
    }
    if word == b"welcome".as_slice() {
        return welcome(rest);
    }
    if word == b"window".as_slice() {
        return Some(Line::Window(u16::read(rest)?));
    }
    if word == b"text".as_slice() {
        return Some(Line::Text(u16::read(rest)?));
    }
    if word == b"list".as_slice() {
        return Some(Line::List(u16::read(rest)?));
    }
    if word == b"char".as_slice() {
        return char_line(rest);
    }
    if word == b"item".as_slice() {
        return item(rest);
    }
    if word == b"ack".as_slice() {
        return Some(Line::Ack(number(rest)?));
    }
    if word == b"ping".as_slice() {
        return Some(Line::Ping(number(rest)?));
    }
    if word == b"pong".as_slice() {
        return Some(Line::Pong(number(rest)?));
    }
    if word == b"error".as_slice() {
        return Some(Line::Error(number(rest)?));
    }
    let (wid, value) = read_value(word, rest)?;
    Some(Line::Value(wid, value))
}

#[tactic(auto, unfolding(crate::specs::Lines::hello_of))]
fn hello(rest: &[u8]) -> Option<Line>
    ensures { result ≡ hello_of rest.now }
{
    if number(rest)? == THIS_VERSION {
        Some(Line::Hello)
    } else {
        None
    }
}

#[tactic(auto, unfolding(crate::specs::Lines::welcome_of))]
fn welcome(rest: &[u8]) -> Option<Line>
    ensures { result ≡ welcome_of rest.now }
{
    let (site, rest) = number_before(rest, b' ')?;
    let limit = number(rest)?;
    Some(Line::Welcome { site, limit })
}

#[tactic(auto, unfolding(crate::specs::Lines::char_of))]
fn char_line(rest: &[u8]) -> Option<Line>
    ensures { result ≡ char_of rest.now }
{
    let (name, rest) = field::<Name>(rest)?;
    let value = char::read(rest)?;
    Some(Line::Char(name, value))
}

#[tactic(auto, unfolding(crate::specs::Lines::item_of))]
fn item(rest: &[u8]) -> Option<Line>
    ensures { result ≡ item_of rest.now }
{
    let (name, rest) = field::<Name>(rest)?;
    let label = <Label as FieldValue>::read(rest)?;
    Some(Line::Item(name, label))
}

#[tactic(auto, unfolding(crate::specs::Lines::batch_of))]
fn batch(rest: &[u8]) -> Option<Line>
    ensures { result ≡ batch_of rest.now }
{
    let (mine, rest) = number_before(rest, b' ')?;
    let (heard, rest) = number_before(rest, b' ')?;
    let count = count(rest)?;
    Some(Line::Batch { mine, heard, count })
}

#[tactic(auto, unfolding(crate::specs::Lines::do_of))]
fn operation(rest: &[u8]) -> Option<Line>
    ensures { result ≡ do_of rest.now }
{
    let (win, rest) = id_before(rest)?;
    let (wid, rest) = id_before(rest)?;
    let op = body(rest)?;
    Some(Line::Do(BoardOp { win, wid, op }))
}

#[tactic(auto, unfolding(crate::specs::Fields::seq_of))]
pub(crate) fn seq_op<V: FieldValue>(bytes: &[u8]) -> Option<SeqOp<V>>
    ensures { result ≡ seq_of V.read_of bytes.now }
{
    if bytes == b"no".as_slice() {
        return Some(SeqOp::Nothing);
    }
    let (act, rest) = split(bytes, b' ')?;
    if act == b"ins".as_slice() {
        return insertion(rest);
    }
    if act == b"del".as_slice() {
        return deletion(rest);
    }
    if act == b"rel".as_slice() {
        return relabel(rest);
    }
    None
}

/// An operation on a text, which has no relabels.
pub(crate) fn text_op(bytes: &[u8]) -> Option<TextOp>
    ensures { result ≡ text_of bytes.now }
{
    // Most are insertions or deletions.
    if let Some(rest) = behind(bytes, b"ins ".as_slice()) {
        return insertion(rest);
    }
    if let Some(rest) = behind(bytes, b"del ".as_slice()) {
        return deletion(rest);
    }
    any_text_op(bytes)
}

#[inline(never)]
#[tactic(auto, unfolding(crate::specs::Kinds::text_of))]
fn any_text_op(bytes: &[u8]) -> Option<TextOp>
    ensures { result ≡ text_of bytes.now }
{
    match seq_op(bytes)? {
        SeqOp::Relabel { .. } => None,
        op => Some(op),
    }
}

#[tactic(auto, unfolding(crate::specs::Fields::insert_of))]
fn insertion<V: FieldValue>(bytes: &[u8]) -> Option<SeqOp<V>>
    ensures { result ≡ insert_of V.read_of bytes.now }
{
    let (place, rest) = number_before(bytes, b' ')?;
    let (name, rest) = field::<Name>(rest)?;
    let value = V::read(rest)?;
    Some(SeqOp::Insert {
        place,
        item: Item { name, value },
    })
}

#[tactic(auto, unfolding(crate::specs::Fields::delete_of))]
fn deletion<V>(bytes: &[u8]) -> Option<SeqOp<V>>
    ensures { result ≡ delete_of bytes.now }
{
    let (place, rest) = number_before(bytes, b' ')?;
    let name = Name::read(rest)?;
    Some(SeqOp::Delete { place, name })
}

#[tactic(auto, unfolding(crate::specs::Fields::relabel_of))]
fn relabel<V: FieldValue>(bytes: &[u8]) -> Option<SeqOp<V>>
    ensures { result ≡ relabel_of V.read_of bytes.now }
{
    let (place, rest) = number_before(bytes, b' ')?;
    let (name, rest) = field::<Name>(rest)?;
    let value = V::read(rest)?;
    Some(SeqOp::Relabel { place, name, value })
}

#[tactic(auto, unfolding(crate::specs::Fields::set_of))]
pub(crate) fn set_op<V: FieldValue>(bytes: &[u8]) -> Option<SetOp<V>>
    ensures { result ≡ set_of V.read_of bytes.now }
{
    if bytes == b"no".as_slice() {
        return Some(SetOp::Nothing);
    }
    let (act, rest) = split(bytes, b' ')?;
    if act == b"set".as_slice() {
        return Some(SetOp::Set(V::read(rest)?));
    }
    None
}
