//! What a program takes, and how its arguments are read by that.

use crate::given::Value;
use crate::{Given, Unread};
use clap::error::ErrorKind;
use clap::{Arg, ArgAction, ArgMatches, Command, value_parser};
use std::alloc::{AllocError, Global};

/// What an option takes after its name.
#[derive(Clone, Copy)]
pub enum Takes {
    /// Nothing: the option is given or not.
    Nothing,
    /// A text, under this name in the help.
    Text(&'static str),
    /// A number from 1 to this.
    Count(u32),
    /// A number from 0 to this.
    Number(u32),
}

/// An option of a command line, which begins with `--` and its name.
#[derive(Clone, Copy)]
pub struct OptionRow {
    pub name: &'static str,
    pub takes: Takes,
    /// Whether a command line without it is refused.
    pub is_required: bool,
    /// What the help says of it.
    pub help: &'static str,
}

/// The command line of a program. Besides its options it takes `--help`.
#[derive(Clone, Copy)]
pub struct CommandLine<'t> {
    pub program: &'static str,
    /// What the help says first.
    pub about: &'static str,
    /// What the help says last.
    pub example: &'static str,
    /// The options, in the order in which the help shows them.
    pub options: &'t [OptionRow],
}

impl<'t> CommandLine<'t> {
    /// Reads the arguments after the program's name.
    pub fn read<'a>(&self, alloc: Global, words: &'a [String]) -> Result<Given<'a>, Unread> {
        let mut command = self.command(alloc)?;
        match command.try_get_matches_from_mut(words) {
            Ok(matches) => Ok(self.given_in(alloc, &matches)?),
            Err(error) => Err(Unread::of(alloc, &error)),
        }
    }

    /// A refusal of arguments that were read, for a reason of the program's own.
    pub fn refusal(&self, alloc: Global, reason: &str) -> Unread {
        match self.command(alloc) {
            Ok(mut command) => match command.error(ErrorKind::ValueValidation, reason) {
                Ok(error) => Unread::of(alloc, &error),
                Err(_) => Unread::NoMemory,
            },
            Err(_) => Unread::NoMemory,
        }
    }

    // What `clap` reads the arguments by.
    fn command<'a>(&self, alloc: Global) -> Result<Command<'a>, AllocError> {
        let mut options = Vec::new(alloc);
        for it in self.options {
            options.push(option(alloc, it))?;
        }
        Command::new(alloc, self.program)
            .no_binary_name(true)
            .about(self.about)
            .after_help(self.example)
            .args(options)
    }

    // The values that were given, in the order of the options.
    fn given_in<'a>(
        &self,
        alloc: Global,
        matches: &ArgMatches<'a>,
    ) -> Result<Given<'a>, AllocError> {
        let mut given = Given::none(alloc);
        for it in self.options {
            if let Some(value) = value_of(it, matches) {
                given.add(it.name, value)?;
            }
        }
        Ok(given)
    }
}

// What `clap` has to know of an option.
fn option<'a>(alloc: Global, row: &OptionRow) -> Arg<'a> {
    let option = Arg::new(alloc, row.name)
        .long(row.name)
        .required(row.is_required)
        .help(row.help);
    match row.takes {
        Takes::Nothing => option.action(ArgAction::SetTrue),
        Takes::Text(name) => option.action(ArgAction::Set).value_name(name),
        Takes::Count(most) => numbers(option, 1, most),
        Takes::Number(most) => numbers(option, 0, most),
    }
}

// The option takes a number from the least to the most.
fn numbers<'a>(option: Arg<'a>, least: u32, most: u32) -> Arg<'a> {
    option.action(ArgAction::Set).value_name("N").value_parser(value_parser!(u32).range(
        i64::from(least)..=i64::from(most),
    ))
}

// The value that was given to an option, if it was given.
fn value_of<'a>(row: &OptionRow, matches: &ArgMatches<'a>) -> Option<Value<'a>> {
    match row.takes {
        Takes::Nothing if matches.get_flag(row.name) => Some(Value::Nothing),
        Takes::Nothing => None,
        Takes::Text(_) => Some(Value::Text(matches.get_str(row.name)?)),
        Takes::Count(_) | Takes::Number(_) => Some(Value::Number(matches.get_one(row.name)?)),
    }
}
