//! Scripts of the mode `pair`: one widget, and a setting of it at each end.
ghost use Rattle.std.specs.Prelude.{IfOk, IfErr};
ghost use Rattle.jup_script.specs.ScriptEnds.{ComesInPlay};

use crate::lines::Script;
use crate::{ScriptEnd, ScriptFault};
use jup_setting::{SettingValue, Slider, Toggle};
use jup_text::{read_integer, read_switch, switch_word};
use jup_world::{pair_slider, pair_toggle};
use std::fmt::Display;
use std::io::Write;

/// The widget that a script opens with.
#[derive(Clone, Copy)]
pub(crate) enum Pair {
    Toggle(Toggle),
    Slider(Slider),
}

impl Pair {
    /// Reads the widget: `toggle START` or `slider LO HI START`.
    pub(crate) fn read(text: &str) -> Result<Pair, ScriptFault> {
        match text.split_once(' ') {
            Some(("toggle", start)) => Ok(Pair::Toggle(Toggle {
                on: read_on(start)?,
            })),
            Some(("slider", values)) => match read_slider(values) {
                Ok(start) => Ok(Pair::Slider(start)),
                Err(fault) => Err(fault),
            },
            _ => Err(ScriptFault::NoPair),
        }
    }

    /// Plays the two lines that follow, and ends the script.
    pub(crate) fn play<W: Write>(
        self,
        script: &mut Script<'_>,
        replies: &mut W,
    ) -> Result<(), ScriptEnd>
        ensures { IfErr result ComesInPlay }
    {
        match self {
            Pair::Toggle(start) => play_toggle(&start, script, replies)?,
            Pair::Slider(start) => play_slider(&start, script, replies)?,
        }
        script.end()
    }
}

// Plays the settings of a toggle.
fn play_toggle<W: Write>(
    start: &Toggle,
    script: &mut Script<'_>,
    replies: &mut W,
) -> Result<(), ScriptEnd>
    ensures { IfErr result ComesInPlay }
{
    let c = setting(read_on(value_of(script, "client")?), start, script)?;
    let s = setting(read_on(value_of(script, "server")?), start, script)?;
    let (client, server) = pair_toggle(start.on, c, s);
    write_ends(replies, switch_word(client), switch_word(server))
}

// Plays the settings of a slider.
fn play_slider<W: Write>(
    start: &Slider,
    script: &mut Script<'_>,
    replies: &mut W,
) -> Result<(), ScriptEnd>
    ensures { IfErr result ComesInPlay }
{
    let c = setting(read_signed(value_of(script, "client")?), start, script)?;
    let s = setting(read_signed(value_of(script, "server")?), start, script)?;
    let (client, server) = pair_slider(start, c, s).unwrap();
    write_ends(replies, client, server)
}

/// Reads a slider: `LO HI VALUE`.
pub(crate) fn read_slider(text: &str) -> Result<Slider, ScriptFault> {
    let (lo, rest) = text.split_once(' ').ok_or(ScriptFault::NoBounds)?;
    let (hi, value) = rest.split_once(' ').ok_or(ScriptFault::NoBounds)?;
    let (lo, hi, value) = (read_signed(lo)?, read_signed(hi)?, read_signed(value)?);
    Slider::new(lo, hi, value).map_err(|_| ScriptFault::OutOfBounds)
}

fn read_on(word: &str) -> Result<bool, ScriptFault> {
    read_switch(word).ok_or(ScriptFault::BadSwitch)
}

fn read_signed(word: &str) -> Result<i32, ScriptFault> {
    read_integer(word).ok_or(ScriptFault::BadInteger)
}

// What comes after the word for an end of the link.
fn value_of<'a>(script: &mut Script<'a>, end: &str) -> Result<&'a str, ScriptEnd>
    ensures { IfErr result ComesInPlay }
{
    match script.required_line()?.split_once(' ') {
        Some((word, value)) if word == end => Ok(value),
        _ => Err(script.bad(ScriptFault::NoSetting)),
    }
}

// A value that was read and that the widget takes; else the line is bad.
fn setting<V: SettingValue>(
    value: Result<V, ScriptFault>,
    widget: &V::Widget,
    script: &Script<'_>,
) -> Result<V, ScriptEnd>
    ensures allowed { IfOk result (λ value. V.is_allowed value widget.now) }
    ensures end { IfErr result ComesInPlay }
{
    match value {
        Ok(value) if value.allowed_by(widget) => Ok(value),
        Ok(_) => Err(script.bad(ScriptFault::OutOfBounds)),
        Err(fault) => Err(script.bad(fault)),
    }
}

// What both ends show: the client's after its own setting and then the server's, and the other way round.
fn write_ends<W: Write, D: Display + Drop>(
    replies: &mut W,
    client: D,
    server: D,
) -> Result<(), ScriptEnd>
    ensures { IfErr result ComesInPlay }
{
    match writeln!(replies, "c s' {client}\ns c' {server}") {
        Ok(()) => Ok(()),
        Err(_) => Err(ScriptEnd::WriteFailed),
    }
}
