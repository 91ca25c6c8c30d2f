//! The texts that people read of each fault, and the numbers that no program prints.
use crate::expect::expect_eq;
use jup_setting::BadBounds;
use jup_value::{BadLabel, NoMemory};
use jup_window::{BoardFault, EditFault};
use std::alloc::Global;
use std::fmt::Display;
use std::process::Abort;

// The text of a fault is this.
fn tells<R: Abort, F: Display>(rt: &R, alloc: Global, fault: &F, due: &str) {
    let told = format!(in alloc; "{fault}").expect(rt, "memory");
    expect_eq(rt, told.as_str(), due);
}

#[test]
fn each_fault_of_an_edit_has_its_text(rt: HostRuntime) {
    for &(fault, due) in &[
        (EditFault::NoWindow, "no such window"),
        (EditFault::NoWidget, "no such widget in the window"),
        (EditFault::WrongKind, "the command does not fit the widget"),
        (EditFault::BadPlace, "the place is past the end"),
        (EditFault::BadValue, "the value is not within the bounds"),
        (
            EditFault::LongText,
            "the sequence is too long to insert into",
        ),
        (EditFault::Backlog, "too many edits are not acknowledged"),
        (EditFault::NoMemory, "no memory"),
        (EditFault::Spent, "the site has made all of its edits"),
        (EditFault::BadBatch, "not 1 to 32 commands"),
        (EditFault::Stopped, "the site has stopped"),
    ] {
        tells(&rt, rt.alloc(), &fault, due);
    }
}

#[test]
fn each_fault_of_a_board_and_of_a_value_has_its_text(rt: HostRuntime) {
    for &(fault, number, due) in &[
        (BoardFault::NoWindow, 1, "no such window"),
        (BoardFault::NoMemory, 8, "no memory"),
        (BoardFault::DoubleId, 10, "the id is taken"),
        (BoardFault::TooMany, 11, "there are 64 already"),
        (BoardFault::BadId, 12, "0 is no id"),
    ] {
        tells(&rt, rt.alloc(), &fault, due);
        expect_eq(&rt, (due, fault.number()), (due, number));
    }
    let due = "a label has 1 to 48 bytes, each from a space to `~`";
    tells(&rt, rt.alloc(), &BadLabel, due);
    tells(
        &rt,
        rt.alloc(),
        &BadBounds,
        "the value is not within the bounds",
    );
    tells(&rt, rt.alloc(), &NoMemory, "no memory");
    expect_eq(&rt, [BadLabel.number(), BadBounds.number()], [14, 13]);
}
