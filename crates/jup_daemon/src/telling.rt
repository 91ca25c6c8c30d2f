//! What a daemon says that ends early.
ghost use Rattle.std.specs.Prelude.{◌≡◌, ◌≤◌};
ghost use Rattle.jup_daemon.specs.Ends.{daemon_end_status};

use crate::DaemonEnd;
use std::io::Write;

/// Prints why on standard error, and answers the exit status.
pub(crate) fn tell<E: Write>(end: &DaemonEnd, errors: &mut E) -> u8
    ensures status { result ≡ daemon_end_status end.now }
    ensures most { result ≤ 6 }
{
    let _ = writeln!(errors, "{end}");
    if let Some(cause) = end.cause() {
        let _ = writeln!(errors, "{cause}");
    }
    end.status()
}
