//! Reading a message of one operation, as most messages are, in place.

ghost use Rattle.std.specs.Prelude.{◌≡◌, ◌∷◌, ◌++◌, IfSome, codes};
ghost use Rattle.jup_wire.specs.declared.line.Line.TheVariants.{Batch, Do};
ghost use Rattle.jup_wire.specs.Fields.{IsName, name_text};
ghost use Rattle.jup_wire.specs.Lines.{BeginsWith, BeginsWithOp, BeginsLines, single_lines};

use crate::fields::{behind, id_before, number_before, split_line};
use crate::line::Line;
use crate::parse::read_line;
use jup_seq::{SeqOp, TextOp};
use jup_value::{Item, Name};
use jup_window::{BoardOp, WidgetOp};

/// A message of one operation at the start of some bytes.
#[derive(Clone, Copy, Debug, PartialEq, Eq)]
pub struct LoneEdit {
    pub mine: u32,
    pub heard: u32,
    pub op: BoardOp,
    /// How many bytes its lines are, with their line feeds.
    pub len: usize,
}

/// The message that the bytes begin with, if it is a batch of one operation and all its bytes are there. Any other
/// message has to be read line by line. Inlined, so that its parts go straight into a message.
#[inline(always)]
pub fn read_single(bytes: &[u8]) -> Option<LoneEdit>
    ensures { IfSome result (λ single. BeginsLines (single_lines single) single.len bytes.now) }
{
    let (mine, heard, rest) = batch_of_one(bytes)?;
    // Most are insertions into a text or deletions from one.
    match operation_on_text(rest) {
        Some((op, behind)) => Some(LoneEdit {
            mine,
            heard,
            op,
            len: bytes.len() - behind.len(),
        }),
        None => single_of_any(bytes, mine, heard, rest),
    }
}

/// The same of any operation, whose line is cut off and then read.
#[inline(never)]
fn single_of_any(bytes: &[u8], mine: u32, heard: u32, rest: &[u8]) -> Option<LoneEdit>
    requires { BeginsWith (Batch mine heard 1) rest.now bytes.now }
    ensures { IfSome result (λ single. BeginsLines (single_lines single) single.len bytes.now) }
{
    let (text, behind) = split_line(rest)?;
    match read_line(text) {
        Ok(Line::Do(op)) => Some(LoneEdit {
            mine,
            heard,
            op,
            len: bytes.len() - behind.len(),
        }),
        _ => None,
    }
}

/// The two counts of the line of a batch of one, and the bytes after it.
fn batch_of_one(bytes: &[u8]) -> Option<(u32, u32, &[u8])>
    ensures { IfSome result (λ x. BeginsWith (Batch x.0 x.1 1) x.2.now bytes.now) }
{
    let rest = behind(bytes, b"batch ".as_slice())?;
    let (mine, rest) = number_before(rest, b' ')?;
    let (heard, rest) = number_before(rest, b' ')?;
    let rest = behind(rest, b"1\n".as_slice())?;
    Some((mine, heard, rest))
}

/// The insertion or deletion of a line, read in one pass, and the bytes after it.
fn operation_on_text(bytes: &[u8]) -> Option<(BoardOp, &[u8])>
    ensures { IfSome result (λ x. BeginsWith (Do x.0) x.1.now bytes.now) }
{
    let rest = behind(bytes, b"do ".as_slice())?;
    let (win, rest) = id_before(rest)?;
    let (wid, rest) = id_before(rest)?;
    let rest = behind(rest, b"text ".as_slice())?;
    let (op, rest) = text_op_here(rest)?;
    let op = WidgetOp::Text(op);
    Some((BoardOp { win, wid, op }, rest))
}

/// An insertion or a deletion up to its line feed, and the bytes after that.
fn text_op_here(bytes: &[u8]) -> Option<(TextOp, &[u8])>
    ensures { IfSome result (λ x. BeginsWithOp x.0 x.1.now bytes.now) }
{
    match behind(bytes, b"ins ".as_slice()) {
        Some(rest) => insertion_here(rest),
        None => deletion_here(behind(bytes, b"del ".as_slice())?),
    }
}

/// The insertion after its word, up to its line feed, and the bytes after that.
#[inline(never)]
fn insertion_here(bytes: &[u8]) -> Option<(TextOp, &[u8])>
    ensures { IfSome result (λ x. BeginsWithOp x.0 x.1.now (codes "ins " ++ bytes.now)) }
{
    let (place, rest) = number_before(bytes, b' ')?;
    let (name, rest) = name_before(rest, b' ')?;
    let (scalar, rest) = number_before(rest, b'\n')?;
    let value = char::from_u32(scalar)?;
    let item = Item { name, value };
    Some((SeqOp::Insert { place, item }, rest))
}

/// The deletion after its word, up to its line feed, and the bytes after that.
#[inline(never)]
fn deletion_here(bytes: &[u8]) -> Option<(TextOp, &[u8])>
    ensures { IfSome result (λ x. BeginsWithOp x.0 x.1.now (codes "del " ++ bytes.now)) }
{
    let (place, rest) = number_before(bytes, b' ')?;
    let (name, rest) = name_before(rest, b'\n')?;
    Some((SeqOp::Delete { place, name }, rest))
}

/// The name before the first separator after its dot, and the bytes after that.
fn name_before(bytes: &[u8], separator: u8) -> Option<(Name, &[u8])>
    ensures { IfSome result (λ x. IsName x.0 × (bytes.now ≡ name_text x.0 ++ separator ∷ x.1.now)) }
{
    let (site, rest) = number_before(bytes, b'.')?;
    let (number, rest) = number_before(rest, separator)?;
    Some((Name { site, number }, rest))
}
