//! Bytes that are written whole.
ghost use Rattle.std.specs.IoError.{error_kind};
ghost use Rattle.std.specs.Prelude.{◌≡◌, ◌≢◌, ◌++◌, ℕ, List, IfErr, OnOk, OnErr, IsTrue};
ghost use Rattle.std.specs.Io.KnownBytes.{Appends};

use crate::Peer;
use crate::again::is_interrupted;
use std::io;
use std::io::ErrorKind;

/// Sends all the bytes. If that fails, the first of them are sent, and the peer has failed. A write that was interrupted is made again.
pub fn write_whole<O: Peer + Drop>(to: &mut O, bytes: &[u8]) -> io::Result<()>
    ensures ok { OnOk result (Appends (O.contents to.old) (O.contents to.new) bytes.now) }
    ensures err { OnErr result ((sent unsent : List ℕ) × (bytes.now ≡ sent ++ unsent) × Appends (O.contents to.old) (O.contents to.new) sent) }
    ensures failed { OnErr result (IsTrue (O.has_failed to.new)) }
    ensures well { OnOk result (IsTrue (O.is_well to.old) → IsTrue (O.is_well to.new)) }
    ensures kind { IfErr result (λ error. error_kind error ≢ ErrorKind.Interrupted) }
{
    let mut rest = bytes;
    for _ in 0..u64::MAX {
        if rest.is_empty() {
            return Ok(());
        }
        // The contract of `write` says which bytes were taken. That of `write_all` says nothing after a failure.
        match to.send(rest) {
            Ok(0) => return Err(io::Error::from(ErrorKind::WriteZero)),
            Ok(len) => rest = &rest[len..],
            Err(error) => {
                if !is_interrupted(&error) {
                    return Err(error);
                }
            }
        }
    }
    to.give_up();
    Err(io::Error::from(ErrorKind::TimedOut))
}
