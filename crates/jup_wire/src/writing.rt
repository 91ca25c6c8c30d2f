//! Writing lines.

ghost use Rattle.std.specs.Prelude.{◌≡◌, ◌↔◌, ◌+◌, ◌≤◌, ◌∷◌, ◌++◌, length, IsTrue, IsOk, OnOk, OnErr, vec_capacity};
ghost use Rattle.jup_wire.specs.Fields.{seq_fields, set_fields, after_spaces};
ghost use Rattle.jup_wire.specs.Lines.{HasSpelling, is_spelled, line_bytes, line_text};
ghost use Rattle.jup_wire.specs.Streams.{HasRoom, Appends};

use crate::kinds::{push_body, push_value};
use crate::laws::has_spelling;
use crate::line::Line;
use crate::spell::{Spelled, push, push_field};
use jup_seq::SeqOp;
use jup_setting::SetOp;
use jup_xform::NoMemory;
use std::alloc::Global;

/// The room that `write` makes, which is enough for any line.
pub const MOST: usize = 128;

/// No line has a longer spelling.
pub const LONGEST: usize = 106;

/// Appends the one spelling of a line, or nothing for a line that has none. An `Err` appends nothing.
pub fn write(_alloc: Global, line: &Line, out: &mut Vec<u8>) -> Result<(), NoMemory>
    ensures line { OnOk result (IsTrue (is_spelled line.now) ↔ HasSpelling line.now) }
    ensures ok { OnOk result (out.new.items ≡ out.old.items ++ line_bytes line.now) }
    ensures err { OnErr result (out.new.items ≡ out.old.items) }
    ensures room { HasRoom out.old MOST → IsOk result }
{
    if out.reserve(MOST).is_err() {
        return Err(NoMemory);
    }
    write_reserved(line, out);
    Ok(())
}

/// The same, and takes no memory.
pub fn write_reserved(line: &Line, out: &mut Vec<u8>)
    requires { HasRoom out.old LONGEST }
    ensures line { IsTrue (is_spelled line.now) ↔ HasSpelling line.now }
    ensures items { out.new.items ≡ out.old.items ++ line_bytes line.now }
    ensures short { length (line_bytes line.now) ≤ LONGEST }
    ensures capacity { vec_capacity out.old ≤ vec_capacity out.new }
{
    if has_spelling(line) {
        push_line(out, line);
        push(out, b"\n");
    }
}

/// Appends a line without its line feed.
#[tactic(auto, using(crate::proofs::Readings::joined))]
fn push_line(out: &mut Vec<u8>, line: &Line)
    requires { HasRoom out.old 105 }
    ensures { Appends out.old out.new (line_text line.now) 105 }
{
    match line {
        Line::Hello => push(out, b"hello 3"),
        Line::Welcome { site, limit } => {
            push(out, b"welcome");
            push_field(out, site);
            push_field(out, limit);
        }
        Line::Window(win) => push_word(out, b"window", win),
        Line::Text(wid) => push_word(out, b"text", wid),
        Line::List(wid) => push_word(out, b"list", wid),
        Line::Value(wid, value) => push_value(out, *wid, value),
        Line::Char(name, value) => {
            push_word(out, b"char", name);
            push_field(out, value);
        }
        Line::Item(name, label) => {
            push_word(out, b"item", name);
            push_field(out, label);
        }
        Line::Ready => push(out, b"ready"),
        Line::Batch { mine, heard, count } => {
            push_word(out, b"batch", mine);
            push_field(out, heard);
            push_field(out, count);
        }
        Line::Do(op) => {
            push_word(out, b"do", &op.win);
            push_field(out, &op.wid);
            push_body(out, &op.op);
        }
        Line::Ack(count) => push_word(out, b"ack", count),
        Line::Ping(k) => push_word(out, b"ping", k),
        Line::Pong(k) => push_word(out, b"pong", k),
        Line::Bye => push(out, b"bye"),
        Line::Error(number) => push_word(out, b"error", number),
    }
}

/// Appends a line's first word, and the field after it.
pub(crate) fn push_word<T: Spelled>(out: &mut Vec<u8>, word: &[u8], value: &T)
    requires { HasRoom out.old (length word.now + (T.most + 1)) }
    ensures { Appends out.old out.new (word.now ++ 32 ∷ T.text value.now) (length word.now + (T.most + 1)) }
{
    push(out, word);
    push_field(out, value);
}

/// Appends an operation's fields, a space before each.
pub(crate) fn push_seq<V: Spelled>(out: &mut Vec<u8>, op: &SeqOp<V>)
    requires { HasRoom out.old (38 + V.most) }
    ensures { Appends out.old out.new (after_spaces (seq_fields V.text op.now)) (38 + V.most) }
{
    match op {
        SeqOp::Insert { place, item } => {
            push(out, b" ins");
            push_field(out, place);
            push_field(out, &item.name);
            push_field(out, &item.value);
        }
        SeqOp::Delete { place, name } => {
            push(out, b" del");
            push_field(out, place);
            push_field(out, name);
        }
        SeqOp::Relabel { place, name, value } => {
            push(out, b" rel");
            push_field(out, place);
            push_field(out, name);
            push_field(out, value);
        }
        SeqOp::Nothing => push(out, b" no"),
    }
}

pub(crate) fn push_set<V: Spelled>(out: &mut Vec<u8>, op: &SetOp<V>)
    requires { HasRoom out.old (5 + V.most) }
    ensures { Appends out.old out.new (after_spaces (set_fields V.text op.now)) (5 + V.most) }
{
    match op {
        SetOp::Set(value) => {
            push(out, b" set");
            push_field(out, value);
        }
        SetOp::Nothing => push(out, b" no"),
    }
}
