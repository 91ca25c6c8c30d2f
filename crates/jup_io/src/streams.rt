//! Standard streams that were closed when the program began.

ghost use Rattle.std.specs.Prelude.{◌≤ℤ◌, ◌↔◌, pos, IsTrue};

use std::fs::{File, Files};
use std::os::fd::AsRawFd;

/// The number of standard error, the last of the three streams.
const LAST_STREAM: i32 = 2;

/// Puts an empty file, which takes no writes, in the place of each standard stream that is closed, as long as the result
/// is held. Otherwise the next socket would take that place. The program would print to the peer, and read commands from
/// the peer.
pub fn hold_streams<R: Files<File = File>>(rt: &R) -> [Option<File>; 3] {
    [hold(rt), hold(rt), hold(rt)]
}

// Whether a number is that of a standard stream.
fn is_standard(number: i32) -> bool
    ensures { IsTrue result ↔ (number ≤ℤ pos 2) }
{
    number <= LAST_STREAM
}

// A file in the lowest place that is free, if that is a standard stream's.
fn hold<R: Files<File = File>>(rt: &R) -> Option<File> {
    let file = File::open(rt, "/dev/null").ok()?;
    if is_standard(file.as_raw_fd()) {
        Some(file)
    } else {
        None
    }
}
