//! What an operator types.
ghost use Rattle.std.specs.IoError.{error_kind};
ghost use Rattle.std.specs.Prelude.{◌≡◌, ◌≢◌, ◌≤◌, ◌↔◌, codes, Some, IfOk, IfErr};

use std::io;
use std::io::ErrorKind;

/// A command of the operator.
#[derive(Clone, Copy, Debug, PartialEq, Eq)]
pub enum Command {
    /// Ends the server.
    Stop,
    /// Prints the board.
    Show,
}

/// The command of a line, without its line feed.
pub fn command_of(line: &[u8]) -> Option<Command>
    ensures stop { (result ≡ Some Command.Stop) ↔ (line.now ≡ codes "stop") }
    ensures show { (result ≡ Some Command.Show) ↔ (line.now ≡ codes "show") }
{
    if line == b"stop".as_slice() {
        Some(Command::Stop)
    } else if line == b"show".as_slice() {
        Some(Command::Show)
    } else {
        None
    }
}

/// What an operator typed.
#[derive(Clone, Copy, Debug, PartialEq, Eq)]
pub enum Typed {
    Command(Command),
    /// A line that is no command, or no text.
    BadCommand,
    /// A line for which there was no memory.
    NoMemory,
    /// The input has ended, or can't be read any more. The server goes on.
    End,
}

/// What an operator typed, if a read of a line came to this and brought this line, without its line feed.
pub fn typed_by(read: io::Result<usize>, line: &[u8]) -> Typed
    ensures stop { IfOk read (λ len. 1 ≤ len → (result ≡ Typed.Command Command.Stop) ↔ (line.now ≡ codes "stop")) }
    ensures show { IfOk read (λ len. 1 ≤ len → (result ≡ Typed.Command Command.Show) ↔ (line.now ≡ codes "show")) }
    ensures line { IfOk read (λ len. 1 ≤ len → (result ≢ Typed.End) × (result ≢ Typed.NoMemory)) }
    ensures end { IfOk read (λ len. len ≡ 0 → result ≡ Typed.End) }
    ensures no_text { IfErr read (λ error. error_kind error ≡ ErrorKind.InvalidData → result ≡ Typed.BadCommand) }
    ensures memory { IfErr read (λ error. error_kind error ≡ ErrorKind.OutOfMemory → result ≡ Typed.NoMemory) }
    ensures failed { IfErr read (λ error. error_kind error ≢ ErrorKind.InvalidData → error_kind error ≢ ErrorKind.OutOfMemory → result ≡ Typed.End) }
{
    match read {
        Ok(0) => Typed::End,
        Ok(_) => match command_of(line) {
            Some(command) => Typed::Command(command),
            None => Typed::BadCommand,
        },
        Err(error) => match error.kind() {
            ErrorKind::InvalidData => Typed::BadCommand,
            ErrorKind::OutOfMemory => Typed::NoMemory,
            _ => Typed::End,
        },
    }
}
