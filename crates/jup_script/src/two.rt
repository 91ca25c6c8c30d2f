//! Scripts of the mode `two`: two ends of a link over one text.
ghost use Rattle.std.specs.Prelude.{◌≤◌, vec_len, IfOk, IfErr};
ghost use Rattle.jup_limits.specs.Limits.{longest_input};
ghost use Rattle.jup_script.specs.ScriptEnds.{ComesInPlay};

use crate::lines::{Script, number_of};
use crate::{ScriptEnd, ScriptFault};
use jup_text::{Quoted, read_quoted, read_quoted_char};
use jup_world::{Two, TwoEdit, TwoEvent};
use std::alloc::Global;
use std::io;
use std::io::Write;

/// Plays the lines that follow: a start, and then events.
pub(crate) fn play<W: Write>(
    alloc: Global,
    script: &mut Script<'_>,
    replies: &mut W,
) -> Result<(), ScriptEnd>
    ensures { IfErr result ComesInPlay }
{
    let start = read_start(alloc, script)?;
    let Ok(mut two) = Two::open(alloc, start.as_slice()) else {
        return Err(ScriptEnd::NoMemory);
    };
    play_lines(alloc, &mut two, script, replies)
}

// Plays the lines of events, up to the last.
fn play_lines<W: Write>(
    alloc: Global,
    two: &mut Two,
    script: &mut Script<'_>,
    replies: &mut W,
) -> Result<(), ScriptEnd>
    ensures { IfErr result ComesInPlay }
{
    while let Some(line) = script.next_line()? {
        play_line(alloc, two, line, script, replies)?;
    }
    Ok(())
}

// Plays one line, and prints what it answers.
fn play_line<W: Write>(
    alloc: Global,
    two: &mut Two,
    line: &str,
    script: &Script<'_>,
    replies: &mut W,
) -> Result<(), ScriptEnd>
    ensures { IfErr result ComesInPlay }
{
    if line == "show" {
        return show(two, replies).map_err(|_| ScriptEnd::WriteFailed);
    }
    let event = script.judge(read_event(line))?;
    step(alloc, two, &event, replies)
}

// The text that both ends open with.
fn read_start(alloc: Global, script: &mut Script<'_>) -> Result<Vec<char>, ScriptEnd>
    ensures short { IfOk result (λ start. vec_len start ≤ longest_input) }
    ensures end { IfErr result ComesInPlay }
{
    match script.required_line()?.split_once(' ') {
        Some(("start", text)) => match read_quoted(alloc, text) {
            Ok(Some(start)) => Ok(start),
            Ok(None) => Err(script.bad(ScriptFault::BadText)),
            Err(_) => Err(ScriptEnd::NoMemory),
        },
        _ => Err(script.bad(ScriptFault::NoStart)),
    }
}

// Plays one event, and prints its reply.
fn step<W: Write>(
    alloc: Global,
    two: &mut Two,
    event: &TwoEvent,
    replies: &mut W,
) -> Result<(), ScriptEnd>
    ensures { IfErr result ComesInPlay }
{
    let Ok(reply) = two.step(alloc, event) else {
        return Err(ScriptEnd::NoMemory);
    };
    writeln!(replies, "{reply}").map_err(|_| ScriptEnd::WriteFailed)
}

fn read_event(line: &str) -> Result<TwoEvent, ScriptFault> {
    match line {
        "up" => Ok(TwoEvent::Up),
        "down" => Ok(TwoEvent::Down),
        _ => match line.split_once(' ') {
            Some(("client", edit)) => Ok(TwoEvent::Client(read_edit(edit)?)),
            Some(("server", edit)) => Ok(TwoEvent::Server(read_edit(edit)?)),
            _ => Err(ScriptFault::NoEvent),
        },
    }
}

fn read_edit(text: &str) -> Result<TwoEdit, ScriptFault> {
    match text.split_once(' ') {
        Some(("ins", insertion)) => {
            let (place, value) = insertion.split_once(' ').ok_or(ScriptFault::NoTextEdit)?;
            let value = read_quoted_char(value).ok_or(ScriptFault::BadChar)?;
            Ok(TwoEdit::Insert(number_of(place)?, value))
        }
        Some(("del", place)) => Ok(TwoEdit::Delete(number_of(place)?)),
        _ => Err(ScriptFault::NoTextEdit),
    }
}

// Prints what both ends show, and whether nothing is on its way.
fn show<W: Write>(two: &Two, replies: &mut W) -> io::Result<()> {
    let client = Quoted(two.client());
    let server = Quoted(two.server());
    let quiet = if two.quiet() { "yes" } else { "no" };
    writeln!(replies, "client {client}\nserver {server}\nquiet {quiet}")
}
