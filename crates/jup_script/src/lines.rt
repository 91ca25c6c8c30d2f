//! The lines of a script.
ghost use Rattle.std.specs.Prelude.{◌+◌, ◌≤◌, length};
ghost use Rattle.jup_limits.specs.Limits.{longest_input};

use crate::{ScriptEnd, ScriptFault};
use jup_text::read_number;
use std::str;

/// What is left of a script, and the number of the line that was read last (0 before the first).
#[derive(Drop)]
pub(crate) struct Script<'a> {
    rest: &'a [u8],
    line: u32,
    ghost in_limit: { line + length rest.now ≤ longest_input },
}

impl<'a> Script<'a> {
    ghost use Rattle.std.specs.Prelude.{◌≡◌, ◌<◌, Ok, IsSome, IfSome, IfOk, IfErr};
    ghost use Rattle.jup_script.specs.ScriptEnds.{ComesInPlay};

    pub(crate) fn new(bytes: &'a [u8]) -> Script<'a>
        requires { length bytes.now ≤ longest_input }
    {
        Script {
            rest: bytes,
            line: 0,
        }
    }

    /// The next line without its line feed; `None` at the end of the script. A line that is no text, or
    /// a last line that has no line feed, is bad.
    pub(crate) fn next_line(&mut self) -> Result<Option<&'a str>, ScriptEnd>
        ensures shorter { IfOk result (λ line. IsSome line → length self.new.rest.now < length self.old.rest.now) }
        ensures rest { length self.new.rest.now ≤ length self.old.rest.now }
        ensures short { IfOk result (λ line. IfSome line (λ text. length text.now ≤ longest_input)) }
        ensures end { IfErr result ComesInPlay }
    {
        if self.rest.is_empty() {
            return Ok(None);
        }
        let Some(end) = self.rest.iter().position(|byte| *byte == b'\n') else {
            return Err(ScriptEnd::Bad(self.line + 1, ScriptFault::Unended));
        };
        let bytes = &self.rest[..end];
        self.rest = &self.rest[end + 1..];
        self.line += 1;
        match str::from_utf8(bytes) {
            Ok(text) => Ok(Some(text)),
            Err(_) => Err(self.bad(ScriptFault::NotText)),
        }
    }

    /// The next line, which is bad if there is none.
    pub(crate) fn required_line(&mut self) -> Result<&'a str, ScriptEnd>
        ensures rest { length self.new.rest.now ≤ length self.old.rest.now }
        ensures short { IfOk result (λ text. length text.now ≤ longest_input) }
        ensures end { IfErr result ComesInPlay }
    {
        match self.next_line()? {
            Some(text) => Ok(text),
            None => Err(ScriptEnd::Bad(self.line + 1, ScriptFault::Missing)),
        }
    }

    /// The end of the script: a further line is bad.
    pub(crate) fn end(&mut self) -> Result<(), ScriptEnd>
        ensures { IfErr result ComesInPlay }
    {
        match self.next_line()? {
            None => Ok(()),
            Some(_) => Err(self.bad(ScriptFault::Surplus)),
        }
    }

    /// The line that was read last is bad.
    pub(crate) fn bad(&self, fault: ScriptFault) -> ScriptEnd
        ensures { ComesInPlay result }
    {
        ScriptEnd::Bad(self.line, fault)
    }

    /// What was read of that line, which is bad if a fault was met.
    pub(crate) fn judge<T>(&self, read: Result<T, ScriptFault>) -> Result<T, ScriptEnd>
        ensures ok { IfOk result (λ value. read ≡ Ok value) }
        ensures end { IfErr result ComesInPlay }
    {
        match read {
            Ok(value) => Ok(value),
            Err(fault) => Err(self.bad(fault)),
        }
    }
}

/// Reads a number in a line.
pub(crate) fn number_of(word: &str) -> Result<u32, ScriptFault> {
    read_number(word).ok_or(ScriptFault::BadNumber)
}
