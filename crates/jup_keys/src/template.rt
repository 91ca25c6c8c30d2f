//! The name of a template.
ghost use Rattle.std.specs.Prelude.{◌≡◌, ◌↔◌, IsTrue, MatchOption};
ghost use Rattle.jup_keys.specs.Makings.{IsNameLetter, IsTemplateText};

use jup_value::Label;
use std::fmt;
use std::marker::Model;

/// How many letters a template's name has at most.
const LONGEST_NAME: usize = 32;

/// What names a printed board from which others are made.
///
/// Contracts see it as its text: 1 to 32 letters from `a` to `z`, digits and `-`, the first a letter.
#[derive(Clone, Copy, Debug, PartialEq, Eq)]
pub struct TemplateName {
    text: Label,
}

impl Model for TemplateName {
    ghost use Rattle.std.specs.Prelude.{List, ℕ};
    ghost use Rattle.jup_keys.specs.Makings.{IsTemplateText};

    ghost Value = { List ℕ };

    ghost view = { λ name. name.text };

    ghost inverse = { λ text. record { text = text } };

    ghost invariant = { λ name. IsTemplateText name.text };
}

impl TemplateName {
    /// The name of which this is the text.
    pub fn read(text: &[u8]) -> Option<TemplateName>
        ensures { MatchOption result (IsTemplateText text.now → ⊥) (λ name. (name ≡ text.now) × IsTemplateText text.now) }
    {
        if text.is_empty() || text.len() > LONGEST_NAME || !text[0].is_ascii_lowercase() {
            return None;
        }
        if !text.iter().all(|letter| is_letter(*letter)) {
            return None;
        }
        Some(TemplateName {
            text: Label::read(text).ok()?,
        })
    }

    /// The text.
    pub fn text(&self) -> &[u8]
        ensures text { result.now ≡ self.now }
        ensures name { IsTemplateText self.now }
    {
        self.text.bytes()
    }
}

impl fmt::Display for TemplateName {
    ghost use Rattle.std.specs.Prelude.{Some};

    ghost output = { λ name. Some name };

    fn fmt<W: fmt::Write>(&self, f: &mut fmt::Formatter<W>) -> fmt::Result {
        // A letter is ASCII, so there is no other case.
        let Ok(text) = str::from_utf8(self.text.bytes()) else {
            return Err(fmt::Error);
        };
        f.write_str(text)
    }
}

/// Whether a byte is a letter of a template's name.
fn is_letter(byte: u8) -> bool
    ensures { IsTrue result ↔ IsNameLetter byte }
{
    matches!(byte, b'a'..=b'z' | b'0'..=b'9' | b'-')
}
