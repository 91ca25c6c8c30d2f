//! What a server knows of links that are over.
use crate::expect::expect_eq;
use jup_links::{Count, Counts};
use jup_resume::Token;
use std::process::Abort;

const DAY: u64 = 24 * 60 * 60 * 1_000;

/// Of how many links a server knows the count.
const MOST: u32 = 4_096;

// The token of this number.
fn token(number: u32) -> Token {
    let mut bytes = [7; 16];
    bytes[12..].copy_from_slice(&number.to_be_bytes());
    Token::new(&bytes)
}

// Keeps the count of a link that took so many lines as its number says.
fn keep(rt: &impl Abort, counts: &mut Counts, number: u32, has_edits: bool, since: u64) {
    let kept = counts.keep(Count {
        token: token(number),
        taken: number,
        has_edits,
        since,
    });
    expect_eq(rt, kept, Ok(()));
}

#[test]
fn a_count_is_found_by_its_token(rt: HostRuntime) {
    let mut counts = Counts::new(rt.alloc());
    for number in 1..=3 {
        keep(&rt, &mut counts, number, true, 0);
    }
    expect_eq(&rt, counts.find(&token(2)), Some(2));
    expect_eq(&rt, counts.find(&token(4)), None);
}

#[test]
fn a_count_is_kept_for_a_day(rt: HostRuntime) {
    let mut counts = Counts::new(rt.alloc());
    keep(&rt, &mut counts, 1, true, 5);
    keep(&rt, &mut counts, 2, true, 6);
    counts.forget_old(DAY + 4);
    expect_eq(&rt, counts.find(&token(1)), Some(1));
    counts.forget_old(DAY + 5);
    expect_eq(&rt, counts.find(&token(1)), None);
    expect_eq(&rt, counts.find(&token(2)), Some(2));
}

// One too many takes the place of the first link without an edit, and else of the first.
#[test]
fn the_oldest_count_makes_room(rt: HostRuntime) {
    let mut counts = Counts::new(rt.alloc());
    for number in 1..=MOST {
        keep(&rt, &mut counts, number, number != 9, 0);
    }
    keep(&rt, &mut counts, MOST + 1, true, 0);
    expect_eq(&rt, counts.find(&token(9)), None);
    expect_eq(&rt, counts.find(&token(1)), Some(1));
    keep(&rt, &mut counts, MOST + 2, true, 0);
    expect_eq(&rt, counts.find(&token(1)), None);
    expect_eq(&rt, counts.find(&token(2)), Some(2));
    expect_eq(&rt, counts.find(&token(MOST + 2)), Some(MOST + 2));
}

// A link without an edit takes no place from links with edits.
#[test]
fn a_count_without_edits_makes_no_room(rt: HostRuntime) {
    let mut counts = Counts::new(rt.alloc());
    for number in 1..=MOST {
        keep(&rt, &mut counts, number, true, 0);
    }
    keep(&rt, &mut counts, MOST + 1, false, 0);
    expect_eq(&rt, counts.find(&token(1)), Some(1));
    expect_eq(&rt, counts.find(&token(MOST + 1)), None);
}
