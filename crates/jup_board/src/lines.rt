//! The lines of a printed board.
use crate::cut::cut_at;
use crate::{BoardEnd, LineFault};
use std::str;

/// What is left of a printed board, and the number of the line that was read last.
#[derive(Drop)]
pub(crate) struct BoardLines<'a> {
    rest: &'a [u8],
    line: u32,
}

impl<'a> BoardLines<'a> {
    ghost use Rattle.std.specs.Prelude.{◌≡◌, ◌<◌, ◌∷◌, ◌++◌, ℕ, List, [], length, IsOk, IsSome, IsUtf8, MatchOption, IfOk, IfSome};
    ghost use Rattle.jup_board.specs.Boards.{Lacks};

    /// The lines of a text, of which so many came before.
    pub(crate) fn new(rest: &'a [u8], line: u32) -> BoardLines<'a>
        ensures { result.rest.now ≡ rest.now }
    {
        BoardLines { rest, line }
    }

    /// The next line without its line feed; `None` at the end. A line that is no text, or a last line without a line feed, is bad.
    pub(crate) fn next_line(&mut self) -> Result<Option<&'a str>, BoardEnd>
        ensures read { IfOk result (λ line. MatchOption line ((self.old.rest.now ≡ []) × (self.new.rest.now ≡ []))
            (λ text. self.old.rest.now ≡ (text.now ++ 10 ∷ []) ++ self.new.rest.now)) }
        ensures shorter { IfOk result (λ line. IsSome line → length self.new.rest.now < length self.old.rest.now) }
        ensures one { IfOk result (λ line. IfSome line (λ text. Lacks 10 text.now)) }
        ensures every { (line rest : List ℕ) → Lacks 10 line → IsUtf8 line → self.old.rest.now ≡ line ++ 10 ∷ rest → IsOk result }
        ensures end { self.old.rest.now ≡ [] → IsOk result }
    {
        if self.rest.is_empty() {
            return Ok(None);
        }
        let Some((line, rest)) = cut_at(self.rest, b'\n') else {
            let line = self.line.saturating_add(1);
            return Err(BoardEnd::Line(line, LineFault::Unended));
        };
        self.rest = rest;
        self.line = self.line.saturating_add(1);
        match str::from_utf8(line) {
            Ok(text) => Ok(Some(text)),
            Err(_) => Err(self.bad(LineFault::NotText)),
        }
    }

    /// The line that was read last is bad.
    pub(crate) fn bad(&self, fault: LineFault) -> BoardEnd {
        BoardEnd::Line(self.line, fault)
    }
}
