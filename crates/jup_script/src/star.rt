//! Scripts of the mode `star`: a star and its sites over a board.
ghost use Rattle.std.specs.Prelude.{◌≤◌, length, IfErr};
ghost use Rattle.jup_script.specs.ScriptEnds.{ComesInPlay};

use crate::lines::{Script, number_of};
use crate::{ScriptEnd, ScriptFault};
use jup_batch::Commands;
use jup_limits::HIGHEST_LIMIT;
use jup_star::{OpenFault, is_short};
use jup_text::{
    BoardReader, PrintedBoard, PrintedEdits, UnreadLine, is_board_line, read_batch, read_command,
    read_number,
};
use jup_window::{Board, Command, Within};
use jup_world::{Event, Reply, World};
use jup_xform::{Few, NoMemory};
use std::alloc::Global;
use std::io::Write;
use std::marker::PhantomData;
use std::{fmt, io};

/// Reads the limit of a star.
pub(crate) fn read_limit(text: &str) -> Result<u32, ScriptFault> {
    match read_number(text) {
        Some(limit @ 1..=HIGHEST_LIMIT) => Ok(limit),
        _ => Err(ScriptFault::BadLimit),
    }
}

/// Plays the lines that follow: a board, and then events.
pub(crate) fn play<W: Write>(
    alloc: Global,
    limit: u32,
    script: &mut Script<'_>,
    replies: &mut W,
) -> Result<(), ScriptEnd>
    ensures { IfErr result ComesInPlay }
{
    let (board, first) = read_board(alloc, script)?;
    let mut world = open(alloc, board, limit)?;
    play_lines(alloc, &mut world, first, script, replies)
}

// Plays a line that was read already, if there is one, and those that follow.
fn play_lines<W: Write>(
    alloc: Global,
    world: &mut World,
    first: Option<&str>,
    script: &mut Script<'_>,
    replies: &mut W,
) -> Result<(), ScriptEnd>
    ensures { IfErr result ComesInPlay }
{
    if let Some(line) = first {
        play_line(alloc, world, line, script, replies)?;
    }
    while let Some(line) = script.next_line()? {
        play_line(alloc, world, line, script, replies)?;
    }
    Ok(())
}

// The board, and the line that ends it.
fn read_board<'a>(
    alloc: Global,
    script: &mut Script<'a>,
) -> Result<(Board, Option<&'a str>), ScriptEnd>
    ensures { IfErr result ComesInPlay }
{
    let mut reader = BoardReader::new(alloc);
    while let Some(line) = script.next_line()? {
        if !is_board_line(line) {
            return Ok((reader.whole(), Some(line)));
        }
        match reader.take(alloc, line) {
            Ok(()) => {}
            Err(UnreadLine::BadLine) => {
                return match reader.fault(alloc, line) {
                    Ok(fault) => Err(script.bad(ScriptFault::Board(fault))),
                    Err(NoMemory) => Err(ScriptEnd::NoMemory),
                };
            }
            Err(UnreadLine::NoMemory) => return Err(ScriptEnd::NoMemory),
        }
    }
    Ok((reader.whole(), None))
}

// A world over a board. A board that was read so is not refused, so a refusal is of the line of the limit.
fn open(alloc: Global, board: Board, limit: u32) -> Result<World, ScriptEnd>
    ensures { IfErr result ComesInPlay }
{
    if !is_short(&board) {
        return Err(ScriptEnd::Bad(1, ScriptFault::LongText));
    }
    match World::open(alloc, board, limit) {
        Ok(world) => Ok(world),
        Err(OpenFault::NoMemory) => Err(ScriptEnd::NoMemory),
        Err(OpenFault::BadLimit | OpenFault::BadSite) => {
            Err(ScriptEnd::Bad(1, ScriptFault::BadLimit))
        }
    }
}

// Plays one line, with those that follow it if it begins a batch, and prints what it answers.
fn play_line<W: Write>(
    alloc: Global,
    world: &mut World,
    line: &str,
    script: &mut Script<'_>,
    replies: &mut W,
) -> Result<(), ScriptEnd>
    ensures rest { length script.new.rest.now ≤ length script.old.rest.now }
    ensures end { IfErr result ComesInPlay }
{
    match line {
        "show" => show(world, replies).map_err(|_| ScriptEnd::WriteFailed),
        "drain" => {
            world.drain(alloc).map_err(|_| ScriptEnd::NoMemory)?;
            writeln!(replies, "drained").map_err(|_| ScriptEnd::WriteFailed)
        }
        _ => {
            let event = read_event(alloc, line, script)?;
            step(alloc, world, &event, replies)
        }
    }
}

// The event of a line, and of those that follow it if it begins a batch.
fn read_event(alloc: Global, line: &str, script: &mut Script<'_>) -> Result<Event, ScriptEnd>
    ensures rest { length script.new.rest.now ≤ length script.old.rest.now }
    ensures end { IfErr result ComesInPlay }
{
    if let Some((site, count)) = batch_of(line) {
        let commands = read_commands(alloc, count, script)?;
        return Ok(Event::Batch(site, commands));
    }
    script.judge(event_of(line))
}

// The site of a batch, and how many lines of commands follow: `edit S batch K`.
fn batch_of(line: &str) -> Option<(u32, u32)> {
    let (site, batch) = line.strip_prefix("edit ")?.split_once(' ')?;
    Some((read_number(site)?, read_batch(batch.as_bytes())?))
}

// The commands of a batch. Whether a site makes an edit of so many is for the site to say.
fn read_commands(alloc: Global, count: u32, script: &mut Script<'_>) -> Result<Commands, ScriptEnd>
    ensures rest { length script.new.rest.now ≤ length script.old.rest.now }
    ensures end { IfErr result ComesInPlay }
{
    let commands = next_commands(alloc, count, script)?;
    match Few::from_slice(alloc, commands.as_slice()) {
        Ok(commands) => Ok(commands),
        Err(NoMemory) => Err(ScriptEnd::NoMemory),
    }
}

// So many lines, each a command.
fn next_commands(
    alloc: Global,
    count: u32,
    script: &mut Script<'_>,
) -> Result<Vec<Command>, ScriptEnd>
    ensures rest { length script.new.rest.now ≤ length script.old.rest.now }
    ensures end { IfErr result ComesInPlay }
{
    let _within: Within = PhantomData;
    let mut commands = Vec::new(alloc);
    for _ in 0..count {
        let command = match next_command(script) {
            Ok(command) => command,
            Err(end) => return Err(end),
        };
        if commands.push(command).is_err() {
            return Err(ScriptEnd::NoMemory);
        }
    }
    Ok(commands)
}

// The next line, which is bad if it is no command.
fn next_command(script: &mut Script<'_>) -> Result<Command, ScriptEnd>
    ensures rest { length script.new.rest.now ≤ length script.old.rest.now }
    ensures end { IfErr result ComesInPlay }
{
    match read_command(script.required_line()?.as_bytes()) {
        Some(command) => Ok(command),
        None => Err(script.bad(ScriptFault::NoCommand)),
    }
}

// The event of a line that begins no batch.
fn event_of(line: &str) -> Result<Event, ScriptFault> {
    if line == "join" {
        return Ok(Event::Join);
    }
    let (word, rest) = line.split_once(' ').ok_or(ScriptFault::NoEvent)?;
    match word {
        "leave" => Ok(Event::Leave(number_of(rest)?)),
        "edit" => edit_of(rest),
        "up" => Ok(Event::Up(number_of(rest)?)),
        "down" => Ok(Event::Down(number_of(rest)?)),
        "ping" | "pushup" | "pushdown" => Ok(counted_event(word, read_pair(rest)?)),
        _ => Err(ScriptFault::NoEvent),
    }
}

// A ping, or a push of either kind: an event with a count.
fn counted_event(word: &str, (site, count): (u32, u32)) -> Event {
    match word {
        "ping" => Event::Ping(site, count),
        "pushup" => Event::PushUp(site, count),
        _ => Event::PushDown(site, count),
    }
}

// The edit of a site by one command.
fn edit_of(text: &str) -> Result<Event, ScriptFault> {
    let (site, command) = text.split_once(' ').ok_or(ScriptFault::NoCommand)?;
    let site = number_of(site)?;
    match read_command(command.as_bytes()) {
        Some(command) => Ok(Event::Edit(site, command)),
        None if command.starts_with("batch") => Err(ScriptFault::NoBatch),
        None => Err(ScriptFault::NoCommand),
    }
}

// Two numbers with a space between them.
fn read_pair(text: &str) -> Result<(u32, u32), ScriptFault> {
    let (first, second) = text.split_once(' ').ok_or(ScriptFault::BadNumber)?;
    Ok((number_of(first)?, number_of(second)?))
}

// Plays one event, and prints its reply.
fn step<W: Write>(
    alloc: Global,
    world: &mut World,
    event: &Event,
    replies: &mut W,
) -> Result<(), ScriptEnd>
    ensures { IfErr result ComesInPlay }
{
    let Ok(reply) = world.step(alloc, event) else {
        return Err(ScriptEnd::NoMemory);
    };
    let printed = PrintedReply {
        site: site_of(event),
        reply,
    };
    writeln!(replies, "{printed}").map_err(|_| ScriptEnd::WriteFailed)
}

// The site that an event is of; a join's is not known before.
fn site_of(event: &Event) -> u32 {
    match event {
        Event::Join => 0,
        Event::Leave(site)
        | Event::Edit(site, _)
        | Event::Batch(site, _)
        | Event::Up(site)
        | Event::Down(site)
        | Event::Ping(site, _)
        | Event::PushUp(site, _)
        | Event::PushDown(site, _) => *site,
    }
}

// A reply as it is printed, to an event of this site.
#[derive(Drop)]
struct PrintedReply {
    site: u32,
    reply: Reply,
}

impl fmt::Display for PrintedReply {
    fn fmt<W: fmt::Write>(&self, f: &mut fmt::Formatter<W>) -> fmt::Result {
        match &self.reply {
            Reply::Joined(site) => write_numbered(f, "joined", *site),
            Reply::NoJoin(fault) => write_numbered(f, "refused", fault.number()),
            Reply::Left => write_numbered(f, "left", self.site),
            Reply::Made(edits) => {
                let edits = PrintedEdits(edits.as_slice());
                write!(f, "made {edits}")
            }
            Reply::Refused(fault) => write_numbered(f, "refused", fault.number()),
            Reply::Taken(place) => write_numbered(f, "taken", *place),
            Reply::Heard => write!(f, "heard"),
            Reply::Detached(fault) => write_numbered(f, "detached", fault.number()),
            Reply::Shown => write!(f, "shown"),
            Reply::Asked => write!(f, "asked"),
            Reply::Moved(count) => write_numbered(f, "moved", *count),
            Reply::Nothing => write!(f, "nothing"),
        }
    }
}

fn write_numbered<W: fmt::Write>(
    f: &mut fmt::Formatter<W>,
    word: &str,
    number: u32,
) -> fmt::Result {
    write!(f, "{word} {number}")
}

// Prints what the star and each attached site show, and whether nothing is on its way.
fn show<W: Write>(world: &World, replies: &mut W) -> io::Result<()> {
    let board = PrintedBoard(world.star().board());
    write!(replies, "star\n{board}")?;
    for attached in world.sites() {
        let number = attached.site.number();
        let board = PrintedBoard(attached.site.board());
        write!(replies, "site {number}\n{board}")?;
    }
    let quiet = if world.quiet() { "yes" } else { "no" };
    writeln!(replies, "quiet {quiet}")
}
