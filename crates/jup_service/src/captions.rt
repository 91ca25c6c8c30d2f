//! The captions of windows and widgets, a line each.
ghost use Rattle.std.specs.Prelude.{OnOk, IsTrue};
ghost use Rattle.jup_service.specs.Servers.{AreCaptions, IsCaption, IsTarget, IsSpelledId};

use jup_board::cut_at;
use jup_number::read_number;
use jup_text::read_quoted;
use jup_xform::NoMemory;
use std::alloc::Global;
use std::str;
use thiserror::Error;

/// What is wrong with a line of captions.
#[derive(Clone, Copy, Debug, PartialEq, Eq, Error)]
pub enum CaptionFault {
    #[error("{}", NoMemory)]
    NoMemory,
    #[error("the line has no line feed")]
    Unended,
    #[error("`W Q` is due for window W, or `W.I Q` for its widget I")]
    NoCaption,
    #[error("an id from 1 to 65535 is due")]
    BadId,
    #[error("a text in quotes is due, in its one spelling")]
    BadText,
}

/// Reads captions: lines `W Q` and `W.I Q`, with the ids W of a window and I of a widget and a quoted text Q. Refused with the number
/// of the first bad line, from 1.
#[tactic(auto, using(crate::proofs::CaptionLemmas::read_none))]
pub fn check_captions(alloc: Global, text: &[u8]) -> Result<(), (u32, CaptionFault)>
    ensures { OnOk result (AreCaptions text.now) }
{
    let mut rest = text;
    let mut number = 0u32;
    while !rest.is_empty() {
        number = number.saturating_add(1);
        let Some((line, later)) = cut_at(rest, b'\n') else {
            return Err((number, CaptionFault::Unended));
        };
        if let Err(fault) = check_caption(alloc, line) {
            return Err((number, fault));
        }
        rest = later;
    }
    Ok(())
}

fn check_caption(alloc: Global, line: &[u8]) -> Result<(), CaptionFault>
    ensures { OnOk result (IsCaption line.now) }
{
    let Some((target, text)) = cut_at(line, b' ') else {
        return Err(CaptionFault::NoCaption);
    };
    if !is_target(target) {
        return Err(CaptionFault::BadId);
    }
    let Ok(text) = str::from_utf8(text) else {
        return Err(CaptionFault::BadText);
    };
    match read_quoted(alloc, text) {
        Ok(Some(_)) => Ok(()),
        Ok(None) => Err(CaptionFault::BadText),
        Err(NoMemory) => Err(CaptionFault::NoMemory),
    }
}

// Whether a word names a window, or a widget of a window.
fn is_target(word: &[u8]) -> bool
    ensures { IsTrue result → IsTarget word.now }
{
    match cut_at(word, b'.') {
        Some((win, wid)) => is_id(win) && is_id(wid),
        None => is_id(word),
    }
}

fn is_id(word: &[u8]) -> bool
    ensures { IsTrue result → IsSpelledId word.now }
{
    match read_number(word) {
        Some(1..=0xFFFF) => true,
        _ => false,
    }
}
