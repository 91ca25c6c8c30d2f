//! The thread that reads a link.
ghost use Rattle.std.specs.Prelude.{◌≤◌, length, IfOk};
ghost use Rattle.jup_net.specs.Reads.{IsCame, HasCome};

use crate::{Inbox, Intake, LinkEnd};
use jup_io::{has_waited, is_interrupted};
use std::io;
use std::io::Read;
use std::sync::Wait;

/// What one read of a link came to.
#[derive(Drop)]
pub enum Came<'a> {
    /// These bytes.
    Bytes(&'a [u8]),
    /// None, and the link is to be read again.
    Nothing,
    End(LinkEnd),
}

impl<'a> Came<'a> {
    /// What a read into a piece came to. It is made again if it was interrupted, or waited for as long as its link lets it.
    pub fn of(read: io::Result<usize>, piece: &'a [u8]) -> Came<'a>
        requires { IfOk read (λ len. len ≤ length piece.now) }
        ensures { IsCame read piece.now result }
    {
        match read {
            Ok(0) => Came::End(LinkEnd::Over),
            Ok(len) => Came::Bytes(&piece[..len]),
            Err(error) if is_interrupted(&error) || has_waited(&error) => Came::Nothing,
            Err(_) => Came::End(LinkEnd::Failed),
        }
    }
}

/// Reads a link into an intake, up to its end, or until nobody takes any more. It checks that before each read, so a read of the
/// link has to end after some time, with an error for which [`has_waited`] is true.
pub fn drain<R: Wait, I: Read + Drop>(rt: &R, mut from: I, intake: &Intake) {
    let mut piece = [0u8; Inbox::PIECE];
    for _ in rt.forever() {
        let Some(room) = intake.wait_for_room(rt) else {
            return;
        };
        let came = read_piece(&mut from, &mut piece[..room.min(Inbox::PIECE)]);
        if !intake.hear(rt, came) {
            return;
        }
    }
}

// One read.
fn read_piece<'a, I: Read>(from: &mut I, piece: &'a mut [u8]) -> Came<'a>
    requires { 1 ≤ length piece.old }
    ensures { HasCome (I.remaining from.old) (I.remaining from.new) result }
{
    let read = from.read(piece);
    Came::of(read, piece)
}
