//! Failures after which a read or a write is tried again.
ghost use Rattle.std.specs.IoError.{error_kind};
ghost use Rattle.std.specs.Prelude.{◌≡◌, ◌↔◌, IsTrue};
ghost use Rattle.jup_io.specs.Patience.{IsWait};

use std::io;
use std::io::ErrorKind;

/// Whether a read or a write was interrupted.
pub fn is_interrupted(error: &io::Error) -> bool
    ensures { IsTrue result ↔ (error_kind error.now ≡ ErrorKind.Interrupted) }
{
    error.kind() == ErrorKind::Interrupted
}

/// Whether a read or a write has waited for as long as its socket lets it.
pub fn has_waited(error: &io::Error) -> bool
    ensures { IsTrue result ↔ IsWait (error_kind error.now) }
{
    matches!(error.kind(), ErrorKind::WouldBlock | ErrorKind::TimedOut)
}
