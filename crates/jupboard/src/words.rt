//! The command line.

use jup_options::{CommandLine, OptionRow, Takes, Unread, arguments};

/// What `--help` says first.
const ABOUT: &str =
    "Makes a layout for jupd of a board as the programs print it, from standard input";

const OPTIONS: [OptionRow; 1] = [OptionRow {
    name: "print",
    takes: Takes::Nothing,
    is_required: false,
    help: "The other way: prints the board of a layout",
}];

/// What `--help` says last.
const EXAMPLE: &str = "\
Example:
  $ printf 'window 1\\ntext 1 \"Hi\"\\n' | jupboard
  window 1
  text 1
  char 0.1 72
  char 0.2 105";

/// What is made.
#[derive(Clone, Copy)]
pub(crate) enum Direction {
    /// A layout, of a printed board.
    LayOut,
    /// A printed board, of a layout.
    Print,
}

/// Reads the words after the program's name.
pub(crate) fn read_words(rt: &HostRuntime) -> Result<Direction, Unread> {
    let line = CommandLine {
        program: "jupboard",
        about: ABOUT,
        example: EXAMPLE,
        options: &OPTIONS,
    };
    let words = arguments(rt)?;
    let given = line.read(rt.alloc(), &words)?;
    if given.has("print") {
        Ok(Direction::Print)
    } else {
        Ok(Direction::LayOut)
    }
}
