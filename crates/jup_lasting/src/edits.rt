//! How many edits lines of the client have.
ghost use Rattle.std.specs.Prelude.{◌≡◌, true, min};
ghost use Rattle.jup_resume.specs.Texts.{Text, spelled};
ghost use Rattle.jup_resume.specs.Keepers.{unsent, after_cut};
ghost use Rattle.jup_lasting.specs.Edits.{begins_edit, goes_on, edits_begun, edits_among};

use jup_resume::Keeper;

/// Whether a line is the first of an edit. It is given without its line feed.
pub(crate) fn begins_edit(text: &[u8]) -> bool
    ensures { result ≡ begins_edit text.now }
{
    text.starts_with(b"batch ")
}

// Whether it is another line of an edit.
fn goes_on(text: &[u8]) -> bool
    ensures { result ≡ goes_on text.now }
{
    text.starts_with(b"do ")
}

// A line without its line feed.
fn text_of(line: &[u8]) -> &[u8]
    ensures { (text : Text) → line.now ≡ spelled text → result.now ≡ text }
{
    match line.split_last() {
        Some((_, text)) => text,
        None => line,
    }
}

/// How many edits have lines among those that are to be written. The lines count as written then.
pub(crate) fn count_unsent(up: &mut Keeper) -> u32
    requires { up.old.is_open ≡ true }
    ensures count { result ≡ min (edits_among (unsent up.old)) 4294967295 }
    ensures kept { after_cut up.new ≡ after_cut up.old }
{
    let middle = match up.next() {
        Some(line) => goes_on(text_of(line)),
        None => false,
    };
    count_begun(up).saturating_add(u32::from(middle))
}

// How many edits begin among those lines.
fn count_begun(up: &mut Keeper) -> u32
    requires { up.old.is_open ≡ true }
    ensures count { result ≡ min (edits_begun (unsent up.old)) 4294967295 }
    ensures kept { after_cut up.new ≡ after_cut up.old }
{
    let mut count: u32 = 0;
    while let Some(line) = up.next() {
        let begins = begins_edit(text_of(line));
        count = count.saturating_add(u32::from(begins));
        up.wrote();
    }
    count
}
