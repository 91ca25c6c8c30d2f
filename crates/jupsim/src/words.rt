//! The command line.

use jup_options::{CommandLine, Unread, arguments};

/// What `--help` says first.
const ABOUT: &str = "Plays a script of sites from standard input, without any network";

/// What `--help` says last.
const EXAMPLE: &str = "\
Example:
  $ printf 'pair toggle off\\nclient on\\nserver off\\n' | jupsim
  c s' on
  s c' on";

/// Reads the words after the program's name, of which it takes none but `--help`.
pub(crate) fn read_words(rt: &HostRuntime) -> Result<(), Unread> {
    let line = CommandLine {
        program: "jupsim",
        about: ABOUT,
        example: EXAMPLE,
        options: &[],
    };
    let words = arguments(rt)?;
    let _none = line.read(rt.alloc(), &words)?;
    Ok(())
}
