//! Marks, by which a test tells `./growths` which allocations have to fail. A mark asks for a number of bytes that nothing else asks for, and
//! gives them back. In a test that runs by itself it has no effect.
#![tactic(auto)]

use std::alloc::Global;

/// The number of bytes of the mark after which allocations fail. `reliability/refuse.c` has the same.
const BEGIN: usize = 7_340_033;

/// The number of bytes of the mark after which none is.
const END: usize = 7_340_035;

// Asks for so many bytes, and gives them back.
fn ask(alloc: Global, bytes: usize) {
    let mut list: Vec<u8> = Vec::new(alloc);
    let _ = list.try_reserve(bytes);
}

/// From here on allocations fail, if `./growths` runs the test.
pub fn begin(alloc: Global) {
    ask(alloc, BEGIN);
}

/// From here on no allocation is made to fail.
pub fn end(alloc: Global) {
    ask(alloc, END);
}
