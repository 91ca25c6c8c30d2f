//! The reader of what another thread reads.

use crate::Intake;
use std::io;
use std::io::Read;
use std::sync::Wait;

/// Reads what an intake has, and waits if it has nothing. It gives what came before the end of the link, or before a failed read,
/// and then the end or the failure.
#[derive(Drop)]
pub struct Drained<'a, R: Wait> {
    rt: &'a R,
    intake: &'a Intake,
}

impl<'a, R: Wait> Drained<'a, R> {
    pub fn new(rt: &'a R, intake: &'a Intake) -> Drained<'a, R> {
        Drained { rt, intake }
    }
}

impl<'a, R: Wait> Read for Drained<'a, R> {
    fn read(&mut self, buf: &mut [u8]) -> io::Result<usize> {
        if buf.is_empty() {
            return Ok(0);
        }
        self.intake.take(self.rt, buf).into_read()
    }
}
