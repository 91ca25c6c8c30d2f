//! A setting beside none, a setting past a queue, and each call once. `conformance/transforms` has two concurrent settings.
use crate::expect::{expect_eq, expect_that};
use jup_setting::{SetOp, SettingEdit, Slider, Toggle};
use jup_xform::{Side, Transform, across, meet};

const ON: SetOp<bool> = SetOp::Set(true);

const OFF: SetOp<bool> = SetOp::Set(false);

const NOTHING: SetOp<bool> = SetOp::Nothing;

#[test]
fn a_setting_beside_none_applies_at_both_ends(rt: HostRuntime) {
    let mut client = Slider::new(0, 10, 5).expect(&rt, "5 is from 0 to 10");
    let mut server = client;
    meet(&mut client, &mut server, SetOp::Nothing, SetOp::Set(3));
    expect_eq(&rt, [client.value(), server.value()], [3, 3]);
}

// What a setting and a queue become as they pass.
fn both_past(
    mut op: SetOp<bool>,
    mut queue: [SetOp<bool>; 3],
    side: Side,
) -> (SetOp<bool>, [SetOp<bool>; 3]) {
    across(&mut op, &mut queue, side);
    (op, queue)
}

#[test]
fn a_setting_passes_a_queue(rt: HostRuntime) {
    for &(queue, side, op, after) in &[
        ([OFF, NOTHING, OFF], Side::Server, ON, [NOTHING; 3]),
        (
            [NOTHING, NOTHING, OFF],
            Side::Client,
            NOTHING,
            [NOTHING, NOTHING, OFF],
        ),
    ] {
        let (moved, past) = both_past(ON, queue, side);
        expect_that(&rt, moved == op && past == after);
    }
}

#[test]
fn copies_and_edits_take_no_memory(rt: HostRuntime) {
    expect_that(&rt, ON.copy(rt.alloc()) == Ok(ON));
    expect_that(&rt, ON.edit(rt.alloc()) == Ok(SettingEdit::Set(true)));
    let nothing = SetOp::<i32>::Nothing.edit(rt.alloc());
    expect_that(&rt, nothing == Ok(SettingEdit::Nothing));
    let mut into = OFF;
    ON.write_to(&mut into);
    expect_that(&rt, into == ON);
    let mut toggle = Toggle { on: false };
    expect_that(&rt, ON.reserve(rt.alloc(), 7, &mut toggle).is_ok());
    expect_that(&rt, ON.apart(&OFF) && ON.fresh_after(&OFF));
}
