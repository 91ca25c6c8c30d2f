//! Where messages end among the lines of a site.
ghost use Rattle.std.specs.Prelude.{◌≡◌, ◌==◌, codes};
ghost use Rattle.jup_resume.specs.Texts.{IsCut};
ghost use Rattle.jup_links.specs.Messages.{IsLeftAfter, StandsAs, BeginsAs};

use jup_number::read_number;
use jup_resume::split;
use std::marker::Model;

/// Which place a line has in its message.
#[derive(Clone, Copy, Debug, PartialEq, Eq)]
pub enum Standing {
    /// Further lines of its edit are to come.
    Within,
    /// It is the last line of an edit.
    EndsEdit,
    /// It is a whole message, or a line that no session takes.
    Alone,
}

/// How many lines of an edit are still to come. Contracts see that number.
#[derive(Clone, Copy)]
pub struct Framing {
    left: u32,
}

impl Model for Framing {
    ghost use Rattle.std.specs.Prelude.{ℕ};

    ghost Value = { ℕ };

    ghost view = { λ f. f.left };

    ghost inverse = { λ left. record { left = left } };
}

impl Framing {
    /// Between two messages.
    pub fn new() -> Framing
        ensures { result ≡ 0 }
    {
        Framing { left: 0 }
    }

    /// Whether the next line begins a message.
    pub fn is_between(&self) -> bool
        ensures { result ≡ (self.now == 0) }
    {
        self.left == 0
    }

    /// Takes the next line, given without its line feed, and answers which place that has.
    pub fn pass(&mut self, text: &[u8]) -> Standing
        ensures left { IsLeftAfter self.old text.now self.new }
        ensures stands { StandsAs self.old self.new result }
    {
        if self.left > 0 {
            self.left -= 1;
            return if self.left == 0 {
                Standing::EndsEdit
            } else {
                Standing::Within
            };
        }
        self.left = announced(text);
        if self.left == 0 {
            Standing::Alone
        } else {
            Standing::Within
        }
    }
}

/// How many lines of an edit a line announces. No session takes one that announces none.
fn announced(text: &[u8]) -> u32
    ensures { BeginsAs text.now result }
{
    let Some((word, fields)) = split(text, b' ') else {
        return 0;
    };
    if word != b"batch".as_slice() {
        return 0;
    }
    announced_by(text, word, fields)
}

// The same of a line with this first word and these fields.
fn announced_by(_text: &[u8], _word: &[u8], fields: &[u8]) -> u32
    requires cut { IsCut 32 _text.now _word.now fields.now }
    requires word { _word.now ≡ codes "batch" }
    ensures { BeginsAs _text.now result }
{
    let Some((_, others)) = split(fields, b' ') else {
        return 0;
    };
    let Some((_, digits)) = split(others, b' ') else {
        return 0;
    };
    match read_number(digits) {
        Some(count) => count,
        None => 0,
    }
}
