//! Runs of few and of many sites, which end with all agreed.
ghost use Rattle.jup_window.specs.Entries.{EachWidget};
ghost use Rattle.jup_star.specs.Stars.{IsShort};

use crate::expect::{expect_eq, expect_that};
use jup_app::{Gate, Open, RunEnd, SiteEnd, run_many, run_two};
use jup_star::Entry;
use jup_window::{Board, Command, EditFault, Setting, Value, Widget, Within};
use std::alloc::Global;
use std::marker::PhantomData;
use std::process::Abort;
use std::sync::Wait;
use std::thread::Threads;
use test_boards::board_of;

pub(crate) const LIMIT: u32 = 100_000;

// Window 1 has an empty text 1 and a toggle 2.
pub(crate) fn blank(rt: &impl Abort, alloc: Global) -> Board
    ensures { EachWidget IsShort result }
{
    let lines = ["window 1", "text 1 \"\"", "toggle 2 off"];
    board_of(alloc, &lines).expect(rt, "a board")
}

/// An insertion at the head of the text.
const INSERTION: Command = Command::Insert {
    win: 1,
    wid: 1,
    place: 0,
    value: Value::Char('a'),
};

/// The deletion of the text's first item.
const DELETION: Command = Command::Delete {
    win: 1,
    wid: 1,
    place: 0,
};

/// The deletion of an item where there is none.
const FAR_DELETION: Command = Command::Delete {
    win: 1,
    wid: 1,
    place: 1_000,
};

// So many insertions.
pub(crate) fn insertions(rt: &impl Abort, alloc: Global, count: usize) -> Vec<Command> {
    let _within: Within = PhantomData;
    let mut script = Vec::new(alloc);
    for _ in 0..count {
        script.push(INSERTION).expect(rt, "memory");
    }
    script
}

// A script of so many insertions for each of so many sites.
pub(crate) fn scripts(
    rt: &impl Abort,
    alloc: Global,
    sites: usize,
    count: usize,
) -> Vec<Vec<Command>> {
    let mut all = Vec::new(alloc);
    for _ in 0..sites {
        let script = insertions(rt, alloc, count);
        all.push(script).expect(rt, "memory");
    }
    all
}

// A deletion where nothing is, and then 200 insertions among 2,000 settings of the toggle, on and off in turn.
fn mixed_script(rt: &impl Abort, alloc: Global) -> Vec<Command> {
    let _within: Within = PhantomData;
    let mut script = Vec::new(alloc);
    script.push(FAR_DELETION).expect(rt, "memory");
    for k in 0..2_200u32 {
        let setting = Setting::Toggle(k % 2 == 0);
        let (win, wid) = (1, 2);
        let next = match k % 11 {
            0 => INSERTION,
            _ => Command::Set { win, wid, setting },
        };
        script.push(next).expect(rt, "memory");
    }
    script
}

// The outcome of a run of two sites on the blank board.
pub(crate) fn ran_two<R: Threads + Wait + Sync + Abort, G: Gate + Sync>(
    rt: &R,
    alloc: Global,
    first: &[Command],
    second: &[Command],
    gate: &G,
) -> RunEnd {
    let run = run_two(rt, alloc, blank(rt, alloc), LIMIT, first, second, gate);
    run.expect(rt, "a run that ends")
}

// The outcome of a run of so many sites with so many insertions each on the blank board.
pub(crate) fn ran_many<R: Threads + Wait + Sync + Abort, G: Gate + Sync>(
    rt: &R,
    alloc: Global,
    sites: usize,
    count: usize,
    gate: &G,
) -> RunEnd {
    let all = scripts(rt, alloc, sites, count);
    let run = run_many(rt, alloc, blank(rt, alloc), LIMIT, &all, gate);
    run.expect(rt, "a run that ends")
}

// How many items the text has.
fn items(board: &Board) -> usize {
    match board.widget(1, 1) {
        Some(Widget::Text(text)) => text.len() as usize,
        _ => 0,
    }
}

// Whether all sites show the star's board.
pub(crate) fn agree(end: &RunEnd) -> bool {
    end.sites
        .iter()
        .all(|site| site.site.board().same(end.star.board()))
}

// So many sites agree with the star, whose order has so many edits, and whose text has so many letters.
pub(crate) fn has(rt: &impl Abort, end: &RunEnd, sites: usize, edits: usize, letters: usize) {
    let order = end.star.order().len();
    let found = (end.sites.len(), order, items(end.star.board()));
    expect_eq(rt, found, (sites, edits, letters));
    expect_that(rt, agree(end));
}

// Whether a site's first command was refused for its place, and the replies to the others are its edits in the order, in turn.
fn tells_the_order(end: &SiteEnd, order: &[Entry]) -> bool {
    let mut replies = end.replies.iter();
    if !matches!(replies.next(), Some(Err(EditFault::BadPlace))) {
        return false;
    }
    for entry in order {
        if entry.site == end.site.number()
            && !matches!(replies.next(), Some(Ok(edit)) if edit == &entry.edit)
        {
            return false;
        }
    }
    replies.next().is_none()
}

#[test]
fn two_sites_agree(rt: HostRuntime) {
    let alloc = rt.alloc();
    let script = mixed_script(&rt, alloc);
    let end = ran_two(&rt, alloc, &script, &script, &Open);
    has(&rt, &end, 2, 4_400, 400);
    for site in &end.sites {
        expect_eq(&rt, site.replies.len(), 2_201);
        expect_that(&rt, tells_the_order(site, end.star.order()));
    }
}

// How many replies each of the first two sites got.
fn replies(end: &RunEnd) -> (Option<usize>, Option<usize>) {
    let mut counts = end.sites.iter().map(|site| site.replies.len());
    (counts.next(), counts.next())
}

// The first deletion finds an empty text, and the second the inserted letter.
#[test]
fn a_site_without_commands_agrees(rt: HostRuntime) {
    let script = [DELETION, INSERTION, DELETION];
    let end = ran_two(&rt, rt.alloc(), &script, &[], &Open);
    has(&rt, &end, 2, 2, 0);
    expect_eq(&rt, replies(&end), (Some(3), Some(0)));
    for site in end.sites.iter().take(1) {
        expect_that(&rt, tells_the_order(site, end.star.order()));
    }
}

#[test]
fn many_sites_agree(rt: HostRuntime) {
    for &(sites, count, edits) in &[(8, 50, 400), (64, 1, 64)] {
        let end = ran_many(&rt, rt.alloc(), sites, count, &Open);
        has(&rt, &end, sites, edits, edits);
    }
}
