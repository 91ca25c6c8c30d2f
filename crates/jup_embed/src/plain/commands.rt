//! Commands in plain numbers.
ghost use Rattle.std.specs.Prelude.{◌≡◌, ◌≢◌, pos, ℕ, List, length, IsErr, IfOk, IfErr};
ghost use Rattle.std.specs.Char.{IsScalar};
ghost use Rattle.jup_window.specs.declared.commands.Command.{Command as AnyCommand};
ghost use Rattle.jup_embed.specs.Numbers.{bad_label, bad_command, stage_fault, HasLabel, Spells, SpellAll, IsFirstWrong, wrong_part, MakesSpelled};
ghost use Rattle.jup_embed.specs.Sessions.{MakesEdit, stage_of};

use super::kinds::{DELETE, INSERT_CHAR, INSERT_LABEL, RELABEL};
use super::numbers::{BAD_COMMAND, BAD_LABEL, outcome_number};
use crate::client::Client;
use jup_batch::MOST_COMMANDS;
use jup_value::Label;
use jup_window::{Command, EditFault, Setting, Value};
use std::alloc::Global;

/// A command in numbers. `kind` says which of the other fields count.
#[repr(C)]
#[derive(Clone, Copy)]
pub struct PlainCommand {
    pub kind: u32,
    pub win: u16,
    pub wid: u16,
    pub place: u32,
    /// A Unicode scalar value, 0 or 1 of a toggle, or the value of a slider.
    pub value: i32,
    pub label_len: u32,
    pub label: [u8; 48],
}

impl PlainCommand {
    /// The command that these numbers are, or the number of what is wrong with them.
    pub fn command(&self) -> Result<Command, u32>
        ensures spelled { IfOk result (λ command. Spells self.now command) }
        ensures none { IsErr result → (command : AnyCommand) → Spells self.now command → ⊥ }
        ensures fault { IfErr result (λ fault. fault ≡ wrong_part self.now) }
    {
        let PlainCommand {
            win,
            wid,
            place,
            ..
        } = *self;
        match self.kind {
            INSERT_CHAR => Ok(Command::Insert {
                win,
                wid,
                place,
                value: Value::Char(char_of(self.value)?),
            }),
            INSERT_LABEL => Ok(Command::Insert {
                win,
                wid,
                place,
                value: Value::Label(label_of(self)?),
            }),
            DELETE => Ok(Command::Delete { win, wid, place }),
            RELABEL => Ok(Command::Relabel {
                win,
                wid,
                place,
                label: label_of(self)?,
            }),
            kind => match Setting::told(kind, self.value) {
                Some(setting) => Ok(Command::Set { win, wid, setting }),
                None => Err(BAD_COMMAND),
            },
        }
    }
}

impl Client {
    /// Makes one edit of the 1 to 32 commands that these numbers spell, as [`Client::edit`] does. Returns 0, or the number of the refusal: of the end
    /// of a session that is over, then of the first command that is none. A refusal changes nothing.
    #[tactic(auto, using(crate::proofs::Numbers::spelled_edit))]
    pub fn edit_plain(&mut self, alloc: Global, commands: &[PlainCommand]) -> u32
        ensures made { result ≡ 0 → MakesSpelled commands.now self.old self.new }
        ensures refused { result ≢ 0 → self.new ≡ self.old }
        ensures over { stage_fault (stage_of self.old.phase) ≢ 0 → result ≡ stage_fault (stage_of self.old.phase) }
    {
        let ended = self.stage().fault_number();
        if ended != 0 {
            return ended;
        }
        match commands {
            [one] => match one.command() {
                Ok(command) => self.edit_numbered(alloc, &[command]),
                Err(fault) => fault,
            },
            commands => self.edit_many(alloc, commands),
        }
    }

    #[tactic(auto, using(crate::proofs::Numbers::spelled_edit))]
    fn edit_many(&mut self, alloc: Global, commands: &[PlainCommand]) -> u32
        ensures made { result ≡ 0 → MakesSpelled commands.now self.old self.new }
        ensures refused { result ≢ 0 → self.new ≡ self.old }
    {
        if commands.len() > MOST_COMMANDS {
            return EditFault::BadBatch.number();
        }
        let mut all = [NO_COMMAND; MOST_COMMANDS];
        let read = &mut all[..commands.len()];
        let fault = read_commands(commands, read);
        if fault != 0 {
            return fault;
        }
        self.edit_numbered(alloc, read)
    }

    fn edit_numbered(&mut self, alloc: Global, commands: &[Command]) -> u32
        ensures made { result ≡ 0 → MakesEdit commands.now self.old self.new }
        ensures refused { result ≢ 0 → self.new ≡ self.old }
    {
        outcome_number(self.edit(alloc, commands))
    }
}

// A command in the place of one that was not read yet.
const NO_COMMAND: Command = Command::Delete {
    win: 0,
    wid: 0,
    place: 0,
};

// Reads commands in order, and returns 0 or the number of the first fault.
fn read_commands(from: &[PlainCommand], to: &mut [Command]) -> u32
    requires { length to.old ≡ length from.now }
    ensures length { length to.new ≡ length to.old }
    ensures spelled { result ≡ 0 → SpellAll from.now to.new }
    ensures refused { result ≢ 0 → IsFirstWrong result from.now }
{
    for k in 0..from.len() {
        match from[k].command() {
            Ok(command) => to[k] = command,
            Err(fault) => return fault,
        }
    }
    0
}

fn char_of(value: i32) -> Result<char, u32>
    ensures char { IfOk result (λ c. (value ≡ pos c) × IsScalar c) }
    ensures none { IsErr result → (c : ℕ) → IsScalar c → value ≢ pos c }
    ensures fault { IfErr result (λ fault. fault ≡ bad_command) }
{
    let Ok(scalar) = u32::try_from(value) else {
        return Err(BAD_COMMAND);
    };
    char::from_u32(scalar).ok_or(BAD_COMMAND)
}

fn label_of(told: &PlainCommand) -> Result<Label, u32>
    ensures label { IfOk result (λ label. HasLabel told.now label) }
    ensures none { IsErr result → (label : List ℕ) → HasLabel told.now label → ⊥ }
    ensures fault { IfErr result (λ fault. fault ≡ bad_label) }
{
    match told.label.get(..told.label_len as usize) {
        Some(text) => Label::read(text).map_err(|_| BAD_LABEL),
        None => Err(BAD_LABEL),
    }
}
