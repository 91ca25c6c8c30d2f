//! Commands: `ins W I PLACE char Q`, `ins W I PLACE item Q`, `del W I PLACE`, `rel W I PLACE Q`, `set W I on`,
//! `set W I off` and `set W I NUMBER`; and `batch K`, which K lines of commands follow.
ghost use Rattle.std.specs.Prelude.{◌≡◌, ◌≢◌, ◌<◌, ◌^◌, ◌∷◌, ◌++◌, ℕ, List, decimal, Some, IfSome, IfNone};
ghost use Rattle.jup_number.specs.Numbers.{IsU32, IsReadingOf};
ghost use Rattle.jup_value.specs.Labels.{IsLabelText};
ghost use Rattle.jup_window.specs.declared.commands.Command.{Command};
ghost use Rattle.jup_text.specs.Commands.{command_text, batch_text, value_text, IsCommand, IsBatchCount, IsId, IsValue};
ghost use Rattle.jup_text.specs.Words.{quoted};

use super::quoted::{char_of, label_of};
use super::words::{next_id, next_word};
use jup_number::read_number;
use jup_value::Label;
use jup_window::{Command, Value};
use jup_wire::read_setting;

/// Lines of commands that a batch may have. A site makes an edit of 32 at most.
const MOST_LINES: u32 = 64;

/// Reads a command. It takes no memory.
pub fn read_command(line: &[u8]) -> Option<Command>
    ensures spelling { IsReadingOf command_text IsCommand line.now result }
    ensures every { (command : Command) → IsCommand command → line.now ≡ command_text command
        → result ≡ Some command }
{
    command_of(line)
}

/// Reads the line that begins a batch: how many lines of commands follow, up to 64. It takes no memory.
pub fn read_batch(line: &[u8]) -> Option<u32>
    ensures { IsReadingOf batch_text IsBatchCount line.now result }
{
    let count = read_number(line.strip_prefix(b"batch ")?)?;
    if count > MOST_LINES {
        return None;
    }
    Some(count)
}

// The command that the words of a line spell.
fn command_of(line: &[u8]) -> Option<Command>
    ensures { IsReadingOf command_text IsCommand line.now result }
{
    let (verb, rest) = next_word(line)?;
    let (win, rest) = next_id(rest)?;
    let (wid, rest) = next_id(rest)?;
    if verb == b"ins".as_slice() {
        let (place, value) = read_insertion(rest)?;
        return Some(Command::Insert {
            win,
            wid,
            place,
            value,
        });
    }
    if verb == b"del".as_slice() {
        let place = read_number(rest)?;
        return Some(Command::Delete { win, wid, place });
    }
    if verb == b"rel".as_slice() {
        let (place, label) = read_relabel(rest)?;
        return Some(Command::Relabel {
            win,
            wid,
            place,
            label,
        });
    }
    if verb == b"set".as_slice() {
        let setting = read_setting(rest)?;
        return Some(Command::Set { win, wid, setting });
    }
    None
}

// The place before the first space, and what follows that space.
fn next_place(text: &[u8]) -> Option<(u32, &[u8])>
    ensures read { IfSome result (λ read. IsU32 read.0 × (text.now ≡ decimal read.0 ++ 32 ∷ read.1.now)) }
    ensures none { IfNone result ((place : ℕ) (rest : List ℕ) → IsU32 place → text.now ≢ decimal place ++ 32 ∷ rest) }
{
    let (word, rest) = next_word(text)?;
    Some((read_number(word)?, rest))
}

// A place, and the value of an item that is put there.
fn read_insertion(text: &[u8]) -> Option<(u32, Value)>
    ensures { IsReadingOf (λ read. decimal read.0 ++ 32 ∷ value_text read.1) (λ read. IsU32 read.0 × IsValue read.1) text.now result }
{
    let (place, rest) = next_place(text)?;
    Some((place, read_value(rest)?))
}

// A place, and the label that its item is given.
fn read_relabel(text: &[u8]) -> Option<(u32, Label)>
    ensures { IsReadingOf (λ read. decimal read.0 ++ 32 ∷ quoted read.1) (λ read. IsU32 read.0 × IsLabelText read.1) text.now result }
{
    let (place, rest) = next_place(text)?;
    Some((place, label_of(rest)?))
}

fn read_value(text: &[u8]) -> Option<Value>
    ensures { IsReadingOf value_text IsValue text.now result }
{
    let (kind, rest) = next_word(text)?;
    if kind == b"char".as_slice() {
        return Some(Value::Char(char_of(rest)?));
    }
    if kind == b"item".as_slice() {
        return Some(Value::Label(label_of(rest)?));
    }
    None
}
