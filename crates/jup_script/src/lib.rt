//! Scripts: text that plays runs, a line an event, and prints a reply to each.
#![tactic(auto)]

ghost use Rattle.std.specs.Prelude.{◌≡◌, ◌≤◌, IfOk, IfErr, vec_len};
ghost use Rattle.jup_limits.specs.Limits.{longest_input};
ghost use Rattle.jup_script.specs.ScriptEnds.{ComesInPlay};

use crate::lines::Script;
use crate::pair::Pair;
use jup_limits::LONGEST_INPUT;
use std::alloc::Global;
use std::io::{BufWriter, ErrorKind, Read, Write};

mod ending;
mod faults;
mod lines;
mod pair;
mod star;
mod two;

pub use ending::ScriptEnd;
pub use faults::ScriptFault;

/// Plays a script, and writes its replies. It reads the script to its end before the first reply, so it
/// writes nothing if the script is too long or can't be read. If a line is bad, it writes the replies of the
/// lines before it.
pub fn run_script<R: Read + Drop, W: Write>(
    alloc: Global,
    reader: R,
    writer: &mut W,
) -> Result<(), ScriptEnd>
    ensures long { result ≡ Err ScriptEnd.LongInput → writer.new ≡ writer.old }
    ensures unread { result ≡ Err ScriptEnd.ReadFailed → writer.new ≡ writer.old }
{
    let bytes = read_script(alloc, reader)?;
    let Ok(mut replies) = BufWriter::new(alloc, writer) else {
        return Err(ScriptEnd::NoMemory);
    };
    let end = play(alloc, &mut Script::new(bytes.as_slice()), &mut replies);
    match replies.flush() {
        Ok(()) => end,
        Err(_) => Err(ScriptEnd::WriteFailed),
    }
}

fn read_script<R: Read + Drop>(alloc: Global, reader: R) -> Result<Vec<u8>, ScriptEnd>
    ensures { IfOk result (λ bytes. vec_len bytes ≤ longest_input) }
{
    let mut bytes = Vec::new(alloc);
    match reader.take(LONGEST_INPUT + 1).read_to_end(&mut bytes) {
        Ok(_) if bytes.len() as u64 > LONGEST_INPUT => Err(ScriptEnd::LongInput),
        Ok(_) => Ok(bytes),
        Err(error) if error.kind() == ErrorKind::OutOfMemory => Err(ScriptEnd::NoMemory),
        Err(_) => Err(ScriptEnd::ReadFailed),
    }
}

// The first line chooses the mode, and each mode has a module of its own.
fn play<W: Write>(alloc: Global, script: &mut Script<'_>, replies: &mut W) -> Result<(), ScriptEnd>
    ensures { IfErr result ComesInPlay }
{
    let first = script.required_line()?;
    match first.split_once(' ') {
        Some(("pair", widget)) => match Pair::read(widget) {
            Ok(pair) => pair.play(script, replies),
            Err(fault) => Err(script.bad(fault)),
        },
        Some(("star", limit)) => {
            let limit = script.judge(star::read_limit(limit))?;
            star::play(alloc, limit, script, replies)
        }
        None if first == "two" => two::play(alloc, script, replies),
        _ => Err(script.bad(ScriptFault::NoMode)),
    }
}
