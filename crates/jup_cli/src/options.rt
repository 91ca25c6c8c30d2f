//! The command line of the client.
ghost use Rattle.std.specs.Prelude.{◌≤◌, IfOk, IfSome};

use jup_options::{CommandLine, OptionRow, Takes, Unread};
use std::alloc::Global;

/// What `jup --help` says first, and last.
const CLIENT_ABOUT: &str = "Edits the board of a server, by commands from standard input";

const CLIENT_EXAMPLE: &str = "\
Example:
  $ jup --connect 127.0.0.1:4711
  site 1
  ins 1 1 2 char \"!\"
  made ins 1 1 1.1 \"!\"
  quit
  bye";

/// The protocols that a client speaks: it says which, and a server may have the older one alone.
const OLDER_PROTOCOL: u32 = 3;

const NEWER_PROTOCOL: u32 = 4;

/// The most seconds for which a user can have a link tried again: a day.
const MOST_WAIT: u32 = 86_400;

const CLIENT_OPTIONS: [OptionRow; 3] = [
    OptionRow {
        name: "connect",
        takes: Takes::Text("ADDR"),
        is_required: true,
        help: "Where the server listens, as 127.0.0.1:4711",
    },
    OptionRow {
        name: "protocol",
        takes: Takes::Count(NEWER_PROTOCOL),
        is_required: false,
        help: "3 or 4: the protocol to begin with, 4 if not given",
    },
    OptionRow {
        name: "wait",
        takes: Takes::Number(MOST_WAIT),
        is_required: false,
        help: "For how many seconds it tries again after the connection broke",
    },
];

/// The refusal of a command line without an option that it has to have.
const LACKS: &str = "an option is missing";

/// The refusal of a protocol that it does not speak.
const SPEAKS_OTHERS: &str = "the protocol is neither 3 nor 4";

/// What the command line of a client says.
#[derive(Debug, Drop)]
pub struct ClientWords {
    /// Where the server listens.
    pub connect: String,
    /// Whether its link ends with its connection, as in protocol 3.
    pub is_plain: bool,
    /// For how many seconds a link is tried again after its connection broke, if the user has said that.
    pub wait: Option<u32>,
}

/// Reads the words after the client's name, and returns the address to connect to.
pub fn client_words(alloc: Global, words: &[String]) -> Result<String, Unread> {
    let told = lasting_client_words(alloc, words)?;
    Ok(told.connect)
}

/// Reads the same words, and returns all that they say.
pub fn lasting_client_words(alloc: Global, words: &[String]) -> Result<ClientWords, Unread>
    ensures { IfOk result (λ told. IfSome told.wait (λ seconds. seconds ≤ 86400)) }
{
    let line = CommandLine {
        program: "jup",
        about: CLIENT_ABOUT,
        example: CLIENT_EXAMPLE,
        options: &CLIENT_OPTIONS,
    };
    let given = line.read(alloc, words)?;
    let Some(address) = given.text("connect") else {
        return Err(line.refusal(alloc, LACKS));
    };
    let is_plain = match given.count("protocol", NEWER_PROTOCOL) {
        None | Some(NEWER_PROTOCOL) => false,
        Some(OLDER_PROTOCOL) => true,
        Some(_) => return Err(line.refusal(alloc, SPEAKS_OTHERS)),
    };
    Ok(ClientWords {
        connect: String::from_str(alloc, address)?,
        is_plain,
        wait: given.number("wait", MOST_WAIT),
    })
}
