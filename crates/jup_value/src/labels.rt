//! Labels, the values of the items of a list.
ghost use Rattle.std.specs.Prelude.{◌≡◌, ◌↔◌, IsOk, IfOk};
ghost use Rattle.jup_value.specs.Labels.{IsLabelText};

use jup_limits::LONGEST_LABEL;
use std::marker::Model;
use thiserror::Error;

/// The bytes are not those of a label.
#[derive(Clone, Copy, Debug, PartialEq, Eq, Error)]
#[error("a label has 1 to 48 bytes, each from a space to `~`")]
pub struct BadLabel;

impl BadLabel {
    /// The number of this fault in messages and printed texts.
    pub fn number(self) -> u32
        ensures { result ≡ 14 }
    {
        14
    }
}

/// A text of 1 to 48 bytes, each from a space to `~`. Contracts see it as its bytes.
#[derive(Clone, Copy, Debug, PartialEq, Eq)]
pub struct Label {
    len: u8,
    // Past the text they are 0, so that equal labels have equal fields.
    bytes: [u8; LONGEST_LABEL],
}

impl Model for Label {
    ghost use Rattle.std.specs.Prelude.{List, ℕ, length, take};
    ghost use Rattle.jup_value.specs.Labels.{AreLabelFields, padded};

    ghost Value = { List ℕ };

    ghost view = { λ a. take a.len a.bytes };

    ghost inverse = { λ text. record { len = length text; bytes = padded text } };

    ghost invariant = { λ a. AreLabelFields a.len a.bytes };

    ghost inverse_ok = { λ a h. λ i. record { len = h.long i; bytes = h.zeros i } };
}

impl Label {
    /// The label with these bytes, if there is one.
    pub fn read(text: &[u8]) -> Result<Label, BadLabel>
        ensures accepts { IsOk result ↔ IsLabelText text.now }
        ensures label { IfOk result (λ label. label ≡ text.now) }
    {
        let is_plain = text.iter().all(|byte| matches!(byte, b' '..=b'~'));
        if text.is_empty() || text.len() > LONGEST_LABEL || !is_plain {
            return Err(BadLabel);
        }
        let mut bytes = [0; LONGEST_LABEL];
        bytes[..text.len()].copy_from_slice(text);
        Ok(Label {
            len: text.len() as u8,
            bytes,
        })
    }

    /// The text.
    pub fn bytes(&self) -> &[u8]
        ensures text { result.now ≡ self.now }
        ensures label { IsLabelText self.now }
    {
        &self.bytes[..self.len as usize]
    }
}
