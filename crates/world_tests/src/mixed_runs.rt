//! Runs beside strangers that were worked out by hand, each event with its reply.
use jup_link::Msg;
use jup_mixed::{MixEvent, MixHappened};
use jup_seq::{SeqEdit, SeqOp};
use jup_star::{StarFault, Up};
use jup_value::{Item, Name};
use jup_window::{BoardEdit, BoardOp, Command, Value, WidgetOp};
use jup_world::Reply;
use jup_xform::{Few, OneOf};
use std::alloc::Global;
use std::process::Abort;
use test_boards::alone;

/// What happens, one after the other.
pub(crate) type Run = Vec<MixHappened>;

// One more event with its reply.
fn add(rt: &impl Abort, run: &mut Run, event: MixEvent, reply: Reply) {
    run.push(MixHappened { event, reply }).expect(rt, "memory");
}

// An insertion into text 1.
fn insert(place: u32, value: char) -> Command {
    let value = Value::Char(value);
    Command::Insert {
        win: 1,
        wid: 1,
        place,
        value,
    }
}

// The site's insertion of its item of this number into text 1, as an edit.
fn put(number: u32, value: char) -> BoardEdit {
    BoardEdit {
        win: 1,
        wid: 1,
        what: OneOf::First(SeqEdit::Put(Name { site: 1, number }, value)),
    }
}

// The site types a letter at a place, as its item of this number.
fn add_typed(rt: &impl Abort, alloc: Global, run: &mut Run, place: u32, number: u32, value: char) {
    let typed = Few::from_slice(alloc, &[insert(place, value)]).unwrap();
    let made = Few::from_slice(alloc, &[put(number, value)]).unwrap();
    add(rt, run, MixEvent::Edit(typed), Reply::Made(made));
}

// A stranger sends its `mine`-th edit of text 1, without having heard of any other.
fn stray(alloc: Global, link: u32, mine: u32, op: SeqOp<char>) -> MixEvent {
    let op = BoardOp {
        win: 1,
        wid: 1,
        op: WidgetOp::Text(op),
    };
    let msg = Msg {
        mine,
        heard: 0,
        op: alone(alloc, op),
    };
    MixEvent::Stray(link, Up::Op(msg))
}

// The insertion of an item of a site at the front.
fn insertion(site: u32, number: u32) -> SeqOp<char> {
    let name = Name { site, number };
    SeqOp::Insert {
        place: 0,
        item: Item { name, value: 's' },
    }
}

/// The first item of the layout.
const OLDEST: Name = Name { site: 0, number: 1 };

const DELETION: SeqOp<char> = SeqOp::Delete {
    place: 0,
    name: OLDEST,
};

/// Over no letter: the site types "xy" as one edit while a stranger joins, edits, pings and leaves. All then show "xys".
pub(crate) fn typing(rt: &impl Abort, alloc: Global) -> Run {
    let mut run = Vec::new(alloc);
    add(rt, &mut run, MixEvent::JoinStray, Reply::Joined(2));
    let typed = Few::from_slice(alloc, &[insert(0, 'x'), insert(1, 'y')]).expect(rt, "memory");
    let made = Few::from_slice(alloc, &[put(1, 'x'), put(2, 'y')]).expect(rt, "memory");
    add(rt, &mut run, MixEvent::Edit(typed), Reply::Made(made));
    let inserted = stray(alloc, 2, 0, insertion(2, 1));
    add(rt, &mut run, inserted, Reply::Taken(0));
    add(rt, &mut run, MixEvent::Stray(2, Up::Ping(7)), Reply::Heard);
    add(rt, &mut run, MixEvent::Up, Reply::Taken(1));
    add(rt, &mut run, MixEvent::Down, Reply::Shown);
    add(rt, &mut run, MixEvent::LeaveStray(2), Reply::Left);
    add(rt, &mut run, MixEvent::Down, Reply::Nothing);
    // The trace has room for 8 events.
    add(rt, &mut run, MixEvent::LeaveStray(2), Reply::Nothing);
    run
}

/// Over "ab": a stranger's deletion is taken between an edit of the site and its taking. The same again detaches the stranger, and the site edits
/// on. All then show "dbc".
pub(crate) fn deleting_twice(rt: &impl Abort, alloc: Global) -> Run {
    let mut run = Vec::new(alloc);
    add_typed(rt, alloc, &mut run, 2, 1, 'c');
    add(rt, &mut run, MixEvent::JoinStray, Reply::Joined(2));
    let deleted = stray(alloc, 2, 0, DELETION);
    add(rt, &mut run, deleted, Reply::Taken(0));
    add(rt, &mut run, MixEvent::Up, Reply::Taken(1));
    add(rt, &mut run, MixEvent::Down, Reply::Shown);
    let again = stray(alloc, 2, 0, DELETION);
    let detached = Reply::Detached(StarFault::BadCount);
    add(rt, &mut run, again, detached);
    let once_more = stray(alloc, 2, 0, DELETION);
    add(rt, &mut run, once_more, Reply::Nothing);
    add_typed(rt, alloc, &mut run, 0, 2, 'd');
    add(rt, &mut run, MixEvent::Up, Reply::Taken(2));
    run
}

// A stranger joins, sends this, and is refused for it. By its link nothing more happens.
fn add_refused(
    rt: &impl Abort,
    alloc: Global,
    run: &mut Run,
    link: u32,
    sent: MixEvent,
    fault: StarFault,
) {
    add(rt, run, MixEvent::JoinStray, Reply::Joined(link));
    add(rt, run, sent, Reply::Detached(fault));
    let next = stray(alloc, link, 0, insertion(link, 1));
    add(rt, run, next, Reply::Nothing);
}

/// Over "ab": strangers speak for the site, and for a link that is left. Others are refused, each for another fault, while the site types. All then
/// show "abc".
pub(crate) fn refusals(rt: &impl Abort, alloc: Global) -> Run {
    let mut run = Vec::new(alloc);
    let for_the_site = stray(alloc, 1, 0, insertion(1, 1));
    add(rt, &mut run, for_the_site, Reply::Nothing);
    add(rt, &mut run, MixEvent::LeaveStray(1), Reply::Nothing);
    add(rt, &mut run, MixEvent::JoinStray, Reply::Joined(2));
    add(rt, &mut run, MixEvent::Stray(2, Up::Ping(7)), Reply::Heard);
    add(rt, &mut run, MixEvent::LeaveStray(2), Reply::Left);
    add(rt, &mut run, MixEvent::LeaveStray(2), Reply::Nothing);
    add(
        rt,
        &mut run,
        MixEvent::Stray(2, Up::Ping(7)),
        Reply::Nothing,
    );
    add_typed(rt, alloc, &mut run, 2, 1, 'c');
    // No line spells a relabel of a text.
    let (place, name, value) = (0, OLDEST, 's');
    let relabel = SeqOp::Relabel { place, name, value };
    for &(link, mine, op, fault) in &[
        (3, 1, insertion(3, 1), StarFault::BadCount),
        (4, 0, insertion(1, 1), StarFault::BadName),
        (5, 0, insertion(5, 2), StarFault::BadName),
        (6, 0, SeqOp::Nothing, StarFault::NotAnEdit),
        (7, 0, relabel, StarFault::NotAnEdit),
    ] {
        let sent = stray(alloc, link, mine, op);
        add_refused(rt, alloc, &mut run, link, sent, fault);
    }
    let heard = MixEvent::Stray(8, Up::Ack(1));
    add_refused(rt, alloc, &mut run, 8, heard, StarFault::BadAck);
    add(rt, &mut run, MixEvent::Up, Reply::Taken(0));
    run
}

/// Over "ab", where the order has room for one edit: a stranger's is taken, and the site is detached. The star then shows "b".
pub(crate) fn filling(rt: &impl Abort, alloc: Global) -> Run {
    let mut run = Vec::new(alloc);
    add_typed(rt, alloc, &mut run, 2, 1, 'c');
    add(rt, &mut run, MixEvent::JoinStray, Reply::Joined(2));
    let deleted = stray(alloc, 2, 0, DELETION);
    add(rt, &mut run, deleted, Reply::Taken(0));
    let full = Reply::Detached(StarFault::LogFull);
    add(rt, &mut run, MixEvent::Up, full);
    add(rt, &mut run, MixEvent::Up, Reply::Nothing);
    run
}
