//! One way of a link, by bytes, as no script moves them. `examples/` has the pushes of scripts.
ghost use Rattle.jup_star.specs.Messages.{RelabelNoText};

use crate::expect::{expect_eq, expect_that};
use jup_batch::BoardBatch;
use jup_gather::Message;
use jup_lane::Lane;
use jup_link::Msg;
use jup_seq::SeqOp;
use jup_star::{Down, Up};
use jup_value::{Item, Name};
use jup_window::{BoardOp, WidgetOp};
use std::alloc::Global;
use std::process::Abort;
use test_boards::alone;

// Site 1 puts an 'a' first into text 1 of window 1, which is spelled "batch 0 0 1" and "do 1 1 text ins 0 1.1 97".
pub(crate) fn first_edit(alloc: Global) -> Msg<BoardBatch>
    ensures { RelabelNoText result.op }
{
    let op = BoardOp {
        win: 1,
        wid: 1,
        op: WidgetOp::Text(SeqOp::Insert {
            place: 0,
            item: Item {
                name: Name { site: 1, number: 1 },
                value: 'a',
            },
        }),
    };
    Msg {
        mine: 0,
        heard: 0,
        op: alone(alloc, op),
    }
}

pub(crate) fn send<M: Message>(rt: &impl Abort, lane: &mut Lane<M>, message: &M)
    requires { M.may_go message.now }
{
    lane.reserve().expect(rt, "memory");
    lane.send(message);
}

fn push<M: Message>(rt: &impl Abort, alloc: Global, lane: &mut Lane<M>, most: u32) -> usize {
    lane.push(alloc, most).expect(rt, "memory")
}

// The oldest message, which is then dropped.
fn hand_over<M: Message>(rt: &impl Abort, alloc: Global, lane: &mut Lane<M>) -> Option<M> {
    let first = lane.first(alloc).expect(rt, "memory")?;
    lane.drop_first(&first);
    Some(first)
}

#[test]
fn messages_come_in_order_however_they_are_pushed(rt: HostRuntime) {
    let alloc = rt.alloc();
    let mut lane: Lane<Down> = Lane::new(alloc);
    send(&rt, &mut lane, &Down::Ack(64));
    send(&rt, &mut lane, &Down::Op(first_edit(alloc)));
    send(&rt, &mut lane, &Down::Pong(7));
    // "ack 64" and its line feed, and the first two letters of the next.
    expect_eq(&rt, push(&rt, alloc, &mut lane, 9), 9);
    expect_eq(&rt, hand_over(&rt, alloc, &mut lane), Some(Down::Ack(64)));
    let second = Some(Down::Op(first_edit(alloc)));
    expect_eq(&rt, hand_over(&rt, alloc, &mut lane), second);
    expect_eq(&rt, hand_over(&rt, alloc, &mut lane), Some(Down::Pong(7)));
    expect_that(&rt, lane.is_idle());
}

#[test]
fn a_message_that_was_looked_at_stays_first(rt: HostRuntime) {
    let alloc = rt.alloc();
    let mut lane: Lane<Up> = Lane::new(alloc);
    send(&rt, &mut lane, &Up::Op(first_edit(alloc)));
    let first = Some(Up::Op(first_edit(alloc)));
    expect_eq(&rt, lane.first(alloc).expect(&rt, "memory"), first);
    // All its bytes count as moved, so nothing is left to push.
    expect_that(&rt, !lane.is_idle() && lane.is_stream_empty());
    send(&rt, &mut lane, &Up::Ack(3));
    expect_eq(&rt, push(&rt, alloc, &mut lane, 9), 6);
    let first = Some(Up::Op(first_edit(alloc)));
    expect_eq(&rt, hand_over(&rt, alloc, &mut lane), first);
    expect_eq(&rt, hand_over(&rt, alloc, &mut lane), Some(Up::Ack(3)));
    expect_that(&rt, lane.is_idle());
}
