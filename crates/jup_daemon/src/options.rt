//! The command line of the daemon.
ghost use Rattle.std.specs.Prelude.{◌≤◌, IfOk};
ghost use Rattle.jup_limits.specs.Limits.{highest_limit};
ghost use Rattle.jup_daemon.specs.Daemons.{most_sessions, most_grace};

use jup_limits::HIGHEST_LIMIT;
use jup_options::{CommandLine, OptionRow, Takes, Unread};
use std::alloc::Global;

/// Sessions that a daemon may be asked to serve.
const MOST_SESSIONS: u32 = 1_024;

/// Seconds that a link may be asked to wait for its client to connect again: a day.
const MOST_GRACE: u32 = 86_400;

/// Seconds that a link waits if no other time is asked for.
const USUAL_GRACE: u32 = 300;

/// What `jupd --help` says first, and last.
const DAEMON_ABOUT: &str =
    "Serves one board, whose layout it reads from standard input, to many clients";

const DAEMON_EXAMPLE: &str = "\
Example:
  $ jupd --listen 127.0.0.1:4711 --limit 1000 --sessions 2 < examples/desk.layout
  listening 127.0.0.1:4711";

const DAEMON_OPTIONS: [OptionRow; 4] = [
    OptionRow {
        name: "listen",
        takes: Takes::Text("ADDR"),
        is_required: true,
        help: "Where to listen, as 127.0.0.1:4711",
    },
    OptionRow {
        name: "limit",
        takes: Takes::Count(HIGHEST_LIMIT),
        is_required: true,
        help: "How many edits are taken in total, 1 to 16777216",
    },
    OptionRow {
        name: "sessions",
        takes: Takes::Count(MOST_SESSIONS),
        is_required: true,
        help: "How many sessions are served in total, 1 to 1024",
    },
    OptionRow {
        name: "grace",
        takes: Takes::Number(MOST_GRACE),
        is_required: false,
        help: "For how many seconds a link waits for its client to connect again, 0 to 86400; without it 300",
    },
];

/// The refusal of a command line without an option that it has to have.
const LACKS: &str = "an option is missing";

/// What the words ask of the daemon.
#[derive(Drop)]
pub struct DaemonWords {
    /// Where to listen, as given.
    pub listen: String,
    /// Edits that the star takes over its lifetime.
    pub limit: u32,
    /// Sessions that are served in total.
    pub sessions: u32,
}

/// What the words ask of the links of protocol 4.
#[derive(Clone, Copy, Debug, PartialEq, Eq)]
pub struct LinkWords {
    /// For how many seconds a link waits for its client to connect again.
    pub grace: u32,
}

/// Reads the words after the daemon's name.
pub fn daemon_words(alloc: Global, words: &[String]) -> Result<DaemonWords, Unread>
    ensures limit { IfOk result (λ w. (1 ≤ w.limit) × (w.limit ≤ highest_limit)) }
    ensures sessions { IfOk result (λ w. (1 ≤ w.sessions) × (w.sessions ≤ most_sessions)) }
{
    let (told, _) = lasting_daemon_words(alloc, words)?;
    Ok(told)
}

/// Reads the same words, and answers also what they ask of links.
pub fn lasting_daemon_words(
    alloc: Global,
    words: &[String],
) -> Result<(DaemonWords, LinkWords), Unread>
    ensures limit { IfOk result (λ told. (1 ≤ told.0.limit) × (told.0.limit ≤ highest_limit)) }
    ensures sessions { IfOk result (λ told. (1 ≤ told.0.sessions) × (told.0.sessions ≤ most_sessions)) }
    ensures grace { IfOk result (λ told. told.1.grace ≤ most_grace) }
{
    let line = CommandLine {
        program: "jupd",
        about: DAEMON_ABOUT,
        example: DAEMON_EXAMPLE,
        options: &DAEMON_OPTIONS,
    };
    let given = line.read(alloc, words)?;
    let listen = given.text("listen");
    let limit = given.count("limit", HIGHEST_LIMIT);
    let sessions = given.count("sessions", MOST_SESSIONS);
    let (Some(listen), Some(limit), Some(sessions)) = (listen, limit, sessions) else {
        return Err(line.refusal(alloc, LACKS));
    };
    let told = DaemonWords {
        listen: String::from_str(alloc, listen)?,
        limit,
        sessions,
    };
    let grace = given.number("grace", MOST_GRACE).unwrap_or(USUAL_GRACE);
    Ok((told, LinkWords { grace }))
}
