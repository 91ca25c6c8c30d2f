//! What a server offers those that want to make a board.
ghost use Rattle.std.specs.Prelude.{◌≡◌, ◌++◌, IfOk};
ghost use Rattle.jup_keys.specs.Notes.{offer_text};

use crate::answer::Answer;
use crate::makers::Makers;
use crate::template::TemplateName;
use jup_limits::NoMemory;
use std::alloc::Global;

/// The whole answer to `templates`: who makes boards, the templates in the order that they are given in, and the end.
pub fn offer_text(
    alloc: Global,
    makers: Makers,
    names: &[TemplateName],
) -> Result<Vec<u8>, NoMemory>
    ensures { IfOk result (λ text. text.items ≡ offer_text makers names.now) }
{
    let mut text = Vec::new(alloc);
    Answer::Create { makers }.write(alloc, &mut text)?;
    for name in names {
        Answer::Template { name: *name }.write(alloc, &mut text)?;
    }
    text.extend_from_slice(b"end\n").map_err(|_| NoMemory)?;
    Ok(text)
}
