//! A link at its server, as the threads of its session and of its carriers use it.
use crate::expect::expect_eq;
use jup_links::{Carried, Change, Piece, Unput};
use std::alloc::Global;
use std::process::Abort;
use std::sync::Condvar;

/// What the tokens of these tests are made of.
pub(crate) const TOKEN: [u8; 16] = [7; 16];

/// Nobody waits for this change.
pub(crate) fn pass_over(change: Change) {
    change.tell(&Condvar::new(), &Condvar::new());
}

/// The session puts lines.
pub(crate) fn put(carried: &mut Carried, lines: &[u8]) -> Result<usize, Unput> {
    let (put, change) = carried.put(lines);
    pass_over(change);
    put
}

/// What a carrier writes next.
pub(crate) fn written(
    rt: &impl Abort,
    alloc: Global,
    carried: &mut Carried,
    carrier: u64,
) -> (Vec<u8>, Piece) {
    let mut out = Vec::new(alloc);
    let piece = carried.next_piece(carrier, &mut out).expect(rt, "memory");
    (out, piece)
}

/// Another carrier takes the link, whose client has taken so many lines. It has this number.
pub(crate) fn resume(rt: &impl Abort, carried: &mut Carried, taken: u32, due: u64) {
    let (resumed, change) = carried.resume(taken, 0);
    pass_over(change);
    expect_eq(rt, resumed.ok(), Some(due));
}
