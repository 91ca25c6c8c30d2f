//! Worlds over boards that are given as they are printed, and the events that are played in them.
use jup_batch::BoardEdits;
use jup_window::{Board, BoardEdit, Command, Value, WidgetEdit};
use jup_world::{Event, Reply, World};
use jup_xform::Few;
use std::alloc::Global;
use std::process::Abort;
use test_boards::board_of;

pub(crate) const LIMIT: u32 = 100_000;

// A world over a window 1 with this widget, and with so many sites.
pub(crate) fn world_of(
    rt: &impl Abort,
    alloc: Global,
    limit: u32,
    widget: &str,
    sites: u32,
) -> World {
    let board = board_of(alloc, &["window 1", widget]).expect(rt, "a board");
    let mut world = World::open(alloc, board, limit).expect(rt, "a layout and a limit");
    for _ in 0..sites {
        world.step(alloc, &Event::Join).expect(rt, "memory");
    }
    world
}

// An insertion into text 1.
pub(crate) fn insert(place: u32, value: char) -> Command {
    let value = Value::Char(value);
    Command::Insert {
        win: 1,
        wid: 1,
        place,
        value,
    }
}

// The site types into text 1.
pub(crate) fn types(site: u32, place: u32, value: char) -> Event {
    Event::Edit(site, insert(place, value))
}

// The site deletes from text 1.
pub(crate) fn deletes(site: u32, place: u32) -> Event {
    Event::Edit(
        site,
        Command::Delete {
            win: 1,
            wid: 1,
            place,
        },
    )
}

// The site makes one edit of these commands.
pub(crate) fn batch(rt: &impl Abort, alloc: Global, site: u32, commands: &[Command]) -> Event {
    let commands = Few::from_slice(alloc, commands).expect(rt, "memory");
    Event::Batch(site, commands)
}

// These edits of widget 1.
pub(crate) fn edits(rt: &impl Abort, alloc: Global, all: &[WidgetEdit]) -> BoardEdits {
    let mut list = Vec::new(alloc);
    for what in all {
        let edit = BoardEdit {
            win: 1,
            wid: 1,
            what: *what,
        };
        list.push(edit).expect(rt, "memory");
    }
    Few::from_slice(alloc, list.as_slice()).expect(rt, "memory")
}

// The site made this edit of widget 1.
pub(crate) fn reply_of(rt: &impl Abort, alloc: Global, what: WidgetEdit) -> Reply {
    Reply::Made(edits(rt, alloc, &[what]))
}

// Delivers all that is on its way.
pub(crate) fn drain(rt: &impl Abort, alloc: Global, world: &mut World) {
    world.drain(alloc).expect(rt, "memory");
}

// What the star, as number 0, or an attached site shows.
fn shown(world: &World, number: u32) -> Option<&Board> {
    match world.site(number) {
        Some(site) => Some(site.board()),
        None if number == 0 => Some(world.star().board()),
        None => None,
    }
}

// Whether no message is on its way.
pub(crate) fn is_quiet(world: &World) -> bool {
    world.quiet()
}

// Whether the text 1 of the star, as number 0, or of a site reads so. It takes no memory.
pub(crate) fn reads(world: &World, number: u32, letters: &str) -> bool {
    match shown(world, number) {
        Some(board) => test_boards::reads(board, letters),
        None => false,
    }
}
