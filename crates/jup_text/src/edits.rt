//! Edits: `ins W I NAME Q`, `del W I NAME`, `rel W I NAME Q` and `set W I VALUE`.
ghost use Rattle.std.specs.Prelude.{◌≡◌, ◌++◌, Some, OnOk, OnErr};
ghost use Rattle.std.specs.Fmt.{DisplaysOnOk};
ghost use Rattle.std.specs.List.{flat_map, join_with_byte};
ghost use Rattle.jup_window.specs.Kinds.{effect_setting};
ghost use Rattle.jup_text.specs.Commands.{edit_text, other_text, edits_text, setting_words};
ghost use Rattle.jup_text.specs.Words.{name_text};

use super::boards::append;
use super::quoted::{QuotedChar, QuotedLabel};
use jup_value::Name;
use jup_window::{BoardEdit, Edit, Effect};
use jup_wire::PrintedSetting;
use jup_xform::{Few, NoMemory};
use std::alloc::Global;
use std::fmt;

/// Appends the edits of a batch as they are printed, with `; ` between them. An edit that changes nothing has no
/// spelling; nothing is appended if an allocation fails.
pub fn write_edit(alloc: Global, edits: &Few<BoardEdit>, into: &mut Vec<u8>) -> Result<(), NoMemory>
    ensures appended { OnOk result (into.new.items ≡ into.old.items ++ edits_text edits.now) }
    ensures same { OnErr result (into.new.items ≡ into.old.items) }
{
    append(alloc, &PrintedEdits(edits.as_slice()), into)
}

/// Edits as they are printed.
#[derive(Drop)]
pub struct PrintedEdits<'a>(pub &'a [BoardEdit]);

impl fmt::Display for PrintedEdits<'_> {
    ghost output = { λ edits. Some (edits_text edits.0.now) };

    fn fmt<W: fmt::Write>(&self, f: &mut fmt::Formatter<W>) -> fmt::Result {
        let Some((first, others)) = self.0.split_first() else {
            return Ok(());
        };
        let first = PrintedEdit(first.shown());
        write!(f, "{first}")?;
        write_others(f, others)
    }
}

// Writes each edit after `; `.
fn write_others<W: fmt::Write>(f: &mut fmt::Formatter<W>, edits: &[BoardEdit]) -> fmt::Result
    ensures { DisplaysOnOk W.Write.write_str_gives f.old result (Some (flat_map other_text edits.now)) f.new }
{
    for edit in edits {
        let edit = PrintedEdit(edit.shown());
        write!(f, "; {edit}")?;
    }
    Ok(())
}

/// An edit as it is printed.
#[derive(Drop)]
struct PrintedEdit(Edit);

impl fmt::Display for PrintedEdit {
    ghost output = { λ edit. Some (edit_text edit.0) };

    fn fmt<W: fmt::Write>(&self, f: &mut fmt::Formatter<W>) -> fmt::Result {
        let win = self.0.win;
        let wid = self.0.wid;
        match &self.0.what {
            Effect::PutChar(name, value) => {
                let name = PrintedName(*name);
                let value = QuotedChar(*value);
                write!(f, "ins {win} {wid} {name} {value}")
            }
            Effect::PutLabel(name, value) => {
                let name = PrintedName(*name);
                let value = QuotedLabel(value);
                write!(f, "ins {win} {wid} {name} {value}")
            }
            Effect::Deleted(name) => {
                let name = PrintedName(*name);
                write!(f, "del {win} {wid} {name}")
            }
            Effect::Relabelled(name, value) => {
                let name = PrintedName(*name);
                let value = QuotedLabel(value);
                write!(f, "rel {win} {wid} {name} {value}")
            }
            other => write_setting(f, win, wid, other),
        }
    }
}

// Writes an effect that sets a value, and nothing of any other.
fn write_setting<W: fmt::Write>(
    f: &mut fmt::Formatter<W>,
    win: u16,
    wid: u16,
    effect: &Effect,
) -> fmt::Result
    ensures { DisplaysOnOk W.Write.write_str_gives f.old result (Some (join_with_byte 32 (setting_words win wid (effect_setting effect.now)))) f.new }
{
    let Some(setting) = effect.setting() else {
        return Ok(());
    };
    let setting = PrintedSetting(setting);
    write!(f, "set {win} {wid} {setting}")
}

/// A name as it is printed.
#[derive(Drop)]
struct PrintedName(Name);

impl fmt::Display for PrintedName {
    ghost output = { λ name. Some (name_text name.0) };

    fn fmt<W: fmt::Write>(&self, f: &mut fmt::Formatter<W>) -> fmt::Result {
        let Name { site, number } = self.0;
        write!(f, "{site}.{number}")
    }
}
