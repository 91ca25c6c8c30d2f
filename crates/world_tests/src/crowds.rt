//! Ten thousand messages of four strangers, valid, half valid and senseless, beside one site that edits.
use crate::expect::{expect_eq, expect_that};
use jup_mixed::{MixEvent, Mixed};
use jup_window::Board;
use jup_world::Reply;
use jup_xform::Few;
use std::alloc::Global;
use std::process::Abort;
use test_boards::{Dice, Stranger, any_command, board_of};

/// How many edits the star takes.
const LIMIT: u32 = 100_000;

/// How many messages the strangers send.
const MESSAGES: u32 = 10_000;

/// More turns than they need for that.
const TURNS: u32 = 20_000;

/// Once in so many times a stranger says the next number in place of the right one.
const SLIPS: u32 = 40;

/// How many messages of strangers were sent, taken into the order, and refused.
#[derive(Drop)]
struct Tally {
    sent: u32,
    taken: u32,
    refused: u32,
}

fn step(rt: &impl Abort, alloc: Global, mixed: &mut Mixed, event: &MixEvent) -> Reply {
    mixed.step(alloc, event).expect(rt, "memory")
}

// A stranger joins. There are never more links than those of the four and the site's.
fn joins(rt: &impl Abort, alloc: Global, mixed: &mut Mixed, stranger: &mut Stranger) {
    let Reply::Joined(link) = step(rt, alloc, mixed, &MixEvent::JoinStray) else {
        panic!(rt; "a join is taken");
    };
    stranger.joins(link, mixed.star());
}

// It sends a message by its link, or once in fifty times by the site's, where nothing happens.
fn sends(
    rt: &impl Abort,
    alloc: Global,
    dice: &mut Dice,
    stranger: &mut Stranger,
    mixed: &mut Mixed,
) -> Reply {
    let up = stranger
        .message(alloc, dice, mixed.star())
        .expect(rt, "memory");
    if dice.once_in(50) {
        return step(rt, alloc, mixed, &MixEvent::Stray(1, up));
    }
    // If it is refused, the link is gone, and with it what is counted.
    stranger.counts(&up);
    let reply = step(rt, alloc, mixed, &MixEvent::Stray(stranger.link, up));
    if matches!(&reply, Reply::Detached(_)) {
        stranger.link = 0;
    }
    reply
}

// A stranger joins, or once in a hundred times leaves, or sends a message.
fn stranger_goes_on(
    rt: &impl Abort,
    alloc: Global,
    dice: &mut Dice,
    stranger: &mut Stranger,
    mixed: &mut Mixed,
    tally: &mut Tally,
) {
    if stranger.link == 0 {
        joins(rt, alloc, mixed, stranger);
    } else if dice.once_in(100) {
        let left = step(rt, alloc, mixed, &MixEvent::LeaveStray(stranger.link));
        expect_eq(rt, left, Reply::Left);
        stranger.link = 0;
    } else {
        tally.sent = tally.sent.saturating_add(1);
        match sends(rt, alloc, dice, stranger, mixed) {
            Reply::Taken(_) => tally.taken = tally.taken.saturating_add(1),
            Reply::Detached(_) => tally.refused = tally.refused.saturating_add(1),
            _ => {}
        }
    }
}

// What the site makes next: an edit of one or two commands, both of the board as it is.
fn edit(rt: &impl Abort, alloc: Global, dice: &mut Dice, board: &Board) -> MixEvent {
    let commands = if dice.once_in(2) {
        Few::from_slice(alloc, &[any_command(dice, board)])
    } else {
        Few::from_slice(alloc, &[any_command(dice, board), any_command(dice, board)])
    };
    MixEvent::Edit(commands.expect(rt, "memory"))
}

// The site edits, or one of its messages moves; it is never detached.
fn site_goes_on(rt: &impl Abort, alloc: Global, dice: &mut Dice, mixed: &mut Mixed) {
    let event = match dice.roll(4) {
        0 => {
            let site = mixed.site().expect(rt, "the site is attached");
            edit(rt, alloc, dice, site.board())
        }
        1 => MixEvent::Up,
        _ => MixEvent::Down,
    };
    let reply = step(rt, alloc, mixed, &event);
    expect_that(rt, !matches!(reply, Reply::Detached(_)));
}

// All messages of the strangers, and what became of them.
fn crowd(rt: &impl Abort, alloc: Global, mixed: &mut Mixed) -> Tally {
    let mut dice = Dice::of(1995);
    let mut strangers = [
        Stranger::new(SLIPS),
        Stranger::new(SLIPS),
        Stranger::new(SLIPS),
        Stranger::new(SLIPS),
    ];
    let mut tally = Tally {
        sent: 0,
        taken: 0,
        refused: 0,
    };
    for _ in 0..TURNS {
        if tally.sent == MESSAGES {
            return tally;
        }
        let at = dice.roll(4) as usize;
        if let Some(stranger) = strangers.get_mut(at) {
            stranger_goes_on(rt, alloc, &mut dice, stranger, mixed, &mut tally);
        }
        site_goes_on(rt, alloc, &mut dice, mixed);
        site_goes_on(rt, alloc, &mut dice, mixed);
    }
    tally
}

// Delivers all that is on its way to the site and from it.
fn drains(rt: &impl Abort, alloc: Global, mixed: &mut Mixed) {
    for _ in 0..TURNS {
        if mixed.quiet() {
            return;
        }
        let _taken = step(rt, alloc, mixed, &MixEvent::Up);
        let _shown = step(rt, alloc, mixed, &MixEvent::Down);
    }
}

// Nothing is on its way to the site or from it, and it shows the star's board.
fn is_level(rt: &impl Abort, mixed: &Mixed) {
    expect_that(rt, mixed.quiet());
    let site = mixed.site().expect(rt, "the site is attached");
    expect_that(rt, site.board().same(mixed.star().board()));
}

// At least a fifth of the messages is taken and a twentieth refused, so that neither kind is missing.
#[test]
fn a_site_in_a_crowd_of_strangers(rt: HostRuntime) {
    let alloc = rt.alloc();
    let lines = ["window 1", "text 1 \"Jupiter\"", "toggle 2 off"];
    let board = board_of(alloc, &lines).expect(&rt, "a board");
    let mut mixed = Mixed::open(alloc, board, LIMIT).expect(&rt, "a limit and memory");
    let Tally {
        sent,
        taken,
        refused,
    } = crowd(&rt, alloc, &mut mixed);
    expect_eq(&rt, sent, MESSAGES);
    expect_eq(&rt, (taken, taken >= MESSAGES / 5), (taken, true));
    expect_eq(&rt, (refused, refused >= MESSAGES / 20), (refused, true));
    drains(&rt, alloc, &mut mixed);
    is_level(&rt, &mixed);
}
