//! The arguments that the system gives a program.

use crate::Unread;
use std::env;
use std::env::Env;

/// The arguments after the program's name.
pub fn arguments<R: Env + AllocGlobal>(rt: &R) -> Result<Vec<String>, Unread> {
    match env::args(rt) {
        Ok(words) => Ok(words.skip(1).collect(rt.alloc())?),
        Err(error) => Err(Unread::of_failure(&error)),
    }
}
