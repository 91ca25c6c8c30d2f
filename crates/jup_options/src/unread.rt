//! Why a program has no arguments to work by, and what it says of that.
ghost use Rattle.std.specs.Prelude.{◌≡◌, ◌≢◌, ◌≤◌};
ghost use Rattle.std.specs.IoError.{error_kind};
ghost use Rattle.clap.specs.Values.{kind_of};
ghost use Rattle.clap.specs.declared.error.kind.ErrorKind.TheVariants.{DisplayHelp, DisplayVersion, OutOfMemory as ClapOutOfMemory};
ghost use Rattle.jup_options.specs.Unread.{unread_status};

use clap::error::ErrorKind as WordsKind;
use jup_faults::Fault;
use std::alloc::{AllocError, Global};
use std::io;
use std::io::{ErrorKind, Write};
use thiserror::Error;

/// Why a program has no arguments to work by.
#[derive(Debug, Drop, Error)]
pub enum Unread {
    /// They ask for help, which is this text.
    #[error("{0}")]
    Help(String),
    /// They are refused. The text says why, and how they are given.
    #[error("{0}")]
    Refused(String),
    /// One is not UTF-8.
    #[error("a word is no text")]
    NotText,
    #[error("{}", Fault::NoMemory)]
    NoMemory,
}

impl Unread {
    /// What an error of `clap` comes to.
    pub fn of(alloc: Global, error: &clap::Error) -> Unread
        ensures memory { kind_of error.now ≡ ClapOutOfMemory → result ≡ Unread.NoMemory }
        ensures refused { (kind_of error.now ≢ DisplayHelp) × (kind_of error.now ≢ DisplayVersion) → unread_status result ≢ 0 }
        ensures help { kind_of error.now ≡ DisplayHelp → unread_status result ≢ 2 }
    {
        if error.kind() == WordsKind::OutOfMemory {
            return Unread::NoMemory;
        }
        match format!(in alloc; "{error}") {
            Ok(text) if error.use_stderr() => Unread::Refused(text),
            Ok(text) => Unread::Help(text),
            Err(_) => Unread::NoMemory,
        }
    }

    /// What it comes to that the system gives no arguments.
    pub fn of_failure(error: &io::Error) -> Unread
        ensures memory { error_kind error.now ≡ ErrorKind.OutOfMemory → result ≡ Unread.NoMemory }
        ensures other { error_kind error.now ≢ ErrorKind.OutOfMemory → result ≡ Unread.NotText }
    {
        if error.kind() == ErrorKind::OutOfMemory {
            Unread::NoMemory
        } else {
            Unread::NotText
        }
    }

    /// The exit status of the program: 0 after help, 3 if an allocation failed, and otherwise 2.
    pub fn status(&self) -> u8
        ensures status { result ≡ unread_status self.now }
        ensures most { result ≤ 3 }
    {
        match self {
            Unread::Help(_) => 0,
            Unread::Refused(_) | Unread::NotText => 2,
            Unread::NoMemory => 3,
        }
    }

    /// Prints help on standard output, and all else on standard error. Returns the exit status, which is 1 if the help can't be printed.
    pub fn tell<O: Write, E: Write>(&self, out: &mut O, errors: &mut E) -> u8
        ensures help { unread_status self.now ≡ 0 → result ≤ 1 }
        ensures other { unread_status self.now ≢ 0 → result ≡ unread_status self.now }
        ensures most { result ≤ 3 }
    {
        match self {
            Unread::Help(text) => {
                if write!(out, "{text}").is_err() || out.flush().is_err() {
                    let _ = writeln!(errors, "io fault\ncannot print");
                    return 1;
                }
            }
            Unread::Refused(text) => {
                let _ = write!(errors, "{text}");
            }
            Unread::NotText | Unread::NoMemory => {
                let _ = writeln!(errors, "{self}");
            }
        }
        self.status()
    }
}

impl From<AllocError> for Unread {
    ghost use Rattle.jup_options.specs.declared.unread.Unread.TheVariants.{NoMemory};

    ghost from_gives = { λ _ made. made ≡ NoMemory };

    fn from(_error: AllocError) -> Unread {
        Unread::NoMemory
    }
}
