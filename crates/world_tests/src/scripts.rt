//! What scripts and pairs answer that no program prints. `tools/scripts` has the built `jupsim` play and refuse scripts by their texts.
use crate::expect::{expect_eq, expect_that};
use jup_script::{ScriptEnd, ScriptFault, run_script};
use jup_setting::Slider;
use jup_text::BoardLineFault;
use jup_window::EditFault;
use jup_world::pair_slider;
use std::alloc::Global;
use std::process::Abort;

// A script with such a setting is refused before its pair is asked for.
#[test]
fn a_pair_takes_no_setting_out_of_bounds(rt: HostRuntime) {
    let slider = Slider::new(0, 10, 5).expect(&rt, "5 is from 0 to 10");
    for &(client, server) in &[(11, 3), (7, -1)] {
        let refused = pair_slider(&slider, client, server);
        expect_eq(&rt, refused, Err(EditFault::BadValue));
    }
}

// How a script ends that is to print nothing.
fn end_of(rt: &impl Abort, alloc: Global, script: &str) -> Result<(), ScriptEnd> {
    let mut replies = Vec::new(alloc);
    let end = run_script(alloc, script.as_bytes(), &mut replies);
    expect_that(rt, replies.is_empty());
    end
}

// Two faults that have one text, which `tools/scripts` can't tell apart.
#[test]
fn a_fault_of_a_board_is_not_that_of_a_pair_or_of_a_start(rt: HostRuntime) {
    for &(script, line, fault) in &[
        ("pair toggle maybe\n", 1, ScriptFault::BadSwitch),
        (
            "star 1\nwindow 1\ntoggle 1 maybe\n",
            3,
            ScriptFault::Board(BoardLineFault::BadValue("`on` or `off` is due")),
        ),
        ("pair slider 0 10 11\n", 1, ScriptFault::OutOfBounds),
        (
            "star 1\nwindow 1\nslider 1 0 10 11\n",
            3,
            ScriptFault::Board(BoardLineFault::OutOfBounds),
        ),
        ("two\nstart \"a\n", 2, ScriptFault::BadText),
        (
            "star 1\nwindow 1\ntext 1 \"a\n",
            3,
            ScriptFault::Board(BoardLineFault::BadText),
        ),
    ] {
        let end = end_of(&rt, rt.alloc(), script);
        expect_eq(
            &rt,
            (script, end),
            (script, Err(ScriptEnd::Bad(line, fault))),
        );
    }
}

#[test]
fn the_ends_of_scripts_have_texts_numbers_and_statuses(rt: HostRuntime) {
    for &(end, text, number, status) in &[
        (
            ScriptEnd::Bad(7, ScriptFault::NoEvent),
            "line 7: bad script",
            40,
            2,
        ),
        (ScriptEnd::LongInput, "script too long", 47, 2),
        (ScriptEnd::NoMemory, "no memory", 8, 3),
        (ScriptEnd::ReadFailed, "io fault", 70, 1),
        (ScriptEnd::WriteFailed, "io fault", 71, 1),
    ] {
        let told = format!(in rt.alloc(); "{end}").expect(&rt, "memory");
        expect_eq(&rt, told.as_str(), text);
        expect_eq(
            &rt,
            (text, (end.number(), end.status())),
            (text, (number, status)),
        );
    }
    // No line of a script has this fault: a reader of boards names a list or a text that is too long.
    let fault = ScriptFault::LongText;
    let told = format!(in rt.alloc(); "{fault}").expect(&rt, "memory");
    let due = "a text or a list has more than 65536 items";
    expect_eq(&rt, told.as_str(), due);
    expect_eq(&rt, ScriptEnd::NoMemory.fault(), None);
}
