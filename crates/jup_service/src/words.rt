//! The command line.
ghost use Rattle.std.specs.Prelude.{◌≡◌, ◌≤◌, true, IfOk, IfSome};
ghost use Rattle.jup_limits.specs.Limits.{highest_limit};
ghost use Rattle.jup_http.specs.Heads.{is_origin};
ghost use Rattle.jup_service.specs.Servers.{most_grace};

use jup_http::is_origin;
use jup_limits::HIGHEST_LIMIT;
use jup_options::{CommandLine, Given, OptionRow, Takes, Unread};
use std::alloc::Global;

const ABOUT: &str = "Serves one board, which a file keeps, to browsers and to clients";

const EXAMPLE: &str = "\
Example:
  $ printf 'window 1\\ntext 1 \"Hi\"\\n' > hi.board
  $ jupweb --listen 127.0.0.1:4711 --board hi.board
  listening 127.0.0.1:4711

Open http://127.0.0.1:4711/ in a browser. A line `stop` on standard input ends
the server, and a line `show` prints the board.";

/// The refusal of a command line without an option that it has to have.
const LACKS: &str = "an option is missing";

const BAD_ORIGIN: &str =
    "an origin is http:// or https:// and a host, with a port or without one, and no path";

/// Seconds that a link may be asked to wait for its client to connect again: a day.
const MOST_GRACE: u32 = 86_400;

/// Seconds that a link waits if no other time is asked for.
const USUAL_GRACE: u32 = 300;

const OPTIONS: [OptionRow; 7] = [
    OptionRow {
        name: "listen",
        takes: Takes::Text("ADDR"),
        is_required: true,
        help: "Where to listen, as 127.0.0.1:4711",
    },
    OptionRow {
        name: "board",
        takes: Takes::Text("FILE"),
        is_required: true,
        help: "The printed board, which is read and written",
    },
    OptionRow {
        name: "limit",
        takes: Takes::Count(HIGHEST_LIMIT),
        is_required: false,
        help: "How many edits are taken in all, 1 to 16777216, which is also the default",
    },
    OptionRow {
        name: "page",
        takes: Takes::Text("FILE"),
        is_required: false,
        help: "Another page than the program's own",
    },
    OptionRow {
        name: "captions",
        takes: Takes::Text("FILE"),
        is_required: false,
        help: "Captions of windows and widgets",
    },
    OptionRow {
        name: "origin",
        takes: Takes::Text("ORIGIN"),
        is_required: false,
        help: "Where browsers find the server, as https://board.example",
    },
    OptionRow {
        name: "grace",
        takes: Takes::Number(MOST_GRACE),
        is_required: false,
        help: "For how many seconds a link waits for its client to connect again, 0 to 86400; without it 300",
    },
];

/// What the command line asks of the server.
#[derive(Clone, Copy)]
pub struct ServiceWords<'a> {
    /// Where to listen, as given.
    pub listen: &'a str,
    /// The file of the board.
    pub board: &'a str,
    /// Edits that the star takes in its life.
    pub limit: u32,
    /// The file of the page, if not the program's own page is served.
    pub page: Option<&'a str>,
    /// The file of the captions.
    pub captions: Option<&'a str>,
    /// A further origin under which browsers reach the server, besides its own address.
    pub origin: Option<&'a str>,
}

/// What the command line asks of the links of protocol 4.
#[derive(Clone, Copy, Debug, PartialEq, Eq)]
pub struct LinkWords {
    /// For how many seconds a link waits for its client to connect again.
    pub grace: u32,
}

/// Reads the arguments after the program's name.
pub fn service_words<'a>(alloc: Global, words: &'a [String]) -> Result<ServiceWords<'a>, Unread>
    ensures limit { IfOk result (λ w. (1 ≤ w.limit) × (w.limit ≤ highest_limit)) }
    ensures origin { IfOk result (λ w. IfSome w.origin (λ o. is_origin o.now ≡ true)) }
{
    let (told, _) = lasting_service_words(alloc, words)?;
    Ok(told)
}

/// Reads the same arguments, and answers also what they ask of links.
pub fn lasting_service_words<'a>(
    alloc: Global,
    words: &'a [String],
) -> Result<(ServiceWords<'a>, LinkWords), Unread>
    ensures limit { IfOk result (λ told. (1 ≤ told.0.limit) × (told.0.limit ≤ highest_limit)) }
    ensures origin { IfOk result (λ told. IfSome told.0.origin (λ o. is_origin o.now ≡ true)) }
    ensures grace { IfOk result (λ told. told.1.grace ≤ most_grace) }
{
    let line = CommandLine {
        program: "jupweb",
        about: ABOUT,
        example: EXAMPLE,
        options: &OPTIONS,
    };
    let given = line.read(alloc, words)?;
    told_by(&given).map_err(|reason| line.refusal(alloc, reason))
}

// What the options ask of the server and of its links, or why they ask for nothing.
fn told_by<'a>(given: &Given<'a>) -> Result<(ServiceWords<'a>, LinkWords), &'static str>
    ensures limit { IfOk result (λ told. (1 ≤ told.0.limit) × (told.0.limit ≤ highest_limit)) }
    ensures origin { IfOk result (λ told. IfSome told.0.origin (λ o. is_origin o.now ≡ true)) }
    ensures grace { IfOk result (λ told. told.1.grace ≤ most_grace) }
{
    let (Some(listen), Some(board)) = (given.text("listen"), given.text("board")) else {
        return Err(LACKS);
    };
    let limit = given.count("limit", HIGHEST_LIMIT);
    let told = ServiceWords {
        listen,
        board,
        limit: limit.unwrap_or(HIGHEST_LIMIT),
        page: given.text("page"),
        captions: given.text("captions"),
        origin: origin_of(given.text("origin"))?,
    };
    let grace = given.number("grace", MOST_GRACE).unwrap_or(USUAL_GRACE);
    Ok((told, LinkWords { grace }))
}

fn origin_of(origin: Option<&str>) -> Result<Option<&str>, &'static str>
    ensures { IfOk result (λ origin. IfSome origin (λ o. is_origin o.now ≡ true)) }
{
    match origin {
        Some(origin) if !is_origin(origin.as_bytes()) => Err(BAD_ORIGIN),
        origin => Ok(origin),
    }
}
