//! Closing a link so that its last line arrives.
ghost use Rattle.std.specs.Duration.{as_nanos};
ghost use Rattle.std.specs.IoError.{error_kind};
ghost use Rattle.std.specs.Prelude.{◌≡◌, ◌≤◌, ◌↔◌, ◌+◌, ◌-◌, ◌*◌, ◌/◌, ◌⊎◌, min, IsNone, IsTrue, IfOk, IfErr, IfSome, OnErr};

use jup_io::is_interrupted;
use std::io;
use std::io::{ErrorKind, Read};
use std::marker::Model;
use std::net::{Shutdown, TcpStream};
use std::time::{Clock, Duration, Instant};

/// Shuts the writing side of the socket down, and reads what the peer still sends. A socket that is closed
/// with bytes unread is reset, and the peer may then lose what it has not read. It ends with the peer's bytes,
/// or once it waited for long enough.
pub fn hang_up(clock: &impl Clock, stream: &TcpStream) {
    if stream.shutdown(Shutdown::Write).is_err() {
        return;
    }
    let Ok(start) = Instant::now(clock) else {
        return;
    };
    let mut rest = stream;
    let mut piece = [0u8; 1_024];
    let mut last = LastBytes::new();
    for _ in 0..u64::MAX {
        let Some(wait) = last.next_wait(start.elapsed(clock)) else {
            return;
        };
        if stream.set_read_timeout(Some(wait)).is_err() || !last.hear(rest.read(&mut piece)) {
            return;
        }
    }
}

/// The last bytes of a peer, which are read and dropped. Contracts see how many came.
#[derive(Drop)]
pub struct LastBytes {
    came: u64,
}

impl Model for LastBytes {
    ghost use Rattle.std.specs.Prelude.{ℕ};

    ghost Value = { ℕ };

    ghost view = { λ l. l.came };
}

impl LastBytes {
    /// None came yet.
    pub fn new() -> LastBytes
        ensures { result ≡ 0 }
    {
        LastBytes { came: 0 }
    }

    /// How long the next read may wait, by the time since the end of what was sent to the peer, in whole milliseconds. `None` if the peer was given
    /// long enough, as [`next_wait`] says, or if the clock can't be read.
    pub fn next_wait(&self, elapsed: io::Result<Duration>) -> Option<Duration>
        ensures over { IfOk elapsed (λ time. IsNone result ↔ ((10000 ≤ as_nanos time / 1000000) ⊎ (4194304 ≤ self.now))) }
        ensures wait { IfOk elapsed (λ time. IfSome result (λ wait. as_nanos wait ≡ min 1000 (10000 - as_nanos time / 1000000) * 1000000)) }
        ensures clock { OnErr elapsed (IsNone result) }
    {
        let millis = u64::try_from(elapsed.ok()?.as_millis()).unwrap_or(u64::MAX);
        Some(Duration::from_millis(next_wait(millis, self.came)?))
    }

    /// Counts what a read brought. Whether the peer is read on: it sent some bytes, or the read was interrupted.
    pub fn hear(&mut self, read: io::Result<usize>) -> bool
        ensures bytes { IfOk read (λ len. self.new ≡ min 18446744073709551615 (self.old + len)) }
        ensures same { OnErr read (self.new ≡ self.old) }
        ensures more { IfOk read (λ len. IsTrue result ↔ (1 ≤ len)) }
        ensures again { IfErr read (λ error. IsTrue result ↔ (error_kind error ≡ ErrorKind.Interrupted)) }
    {
        match read {
            Ok(len) => {
                self.came = self.came.saturating_add(len as u64);
                len > 0
            }
            Err(error) => is_interrupted(&error),
        }
    }
}

/// Milliseconds that a peer may be silent.
const LONGEST_SILENCE: u64 = 1_000;

/// Milliseconds that its last bytes may take in total.
const LONGEST_ENDING: u64 = 10_000;

/// Bytes that may come.
const MOST_LAST_BYTES: u64 = 4_194_304;

/// How many milliseconds the next read of a peer's last bytes may wait, once `bytes` came in the `elapsed` milliseconds since the end of what was
/// sent to it. `None` if the peer was given long enough: after 10 seconds or 4 MiB in total. Without these bounds a peer that sends
/// a byte now and then would keep the daemon.
pub fn next_wait(elapsed: u64, bytes: u64) -> Option<u64>
    ensures over { IsNone result ↔ ((10000 ≤ elapsed) ⊎ (4194304 ≤ bytes)) }
    ensures wait { IfSome result (λ wait. wait ≡ min 1000 (10000 - elapsed)) }
{
    if elapsed >= LONGEST_ENDING || bytes >= MOST_LAST_BYTES {
        return None;
    }
    Some(LONGEST_SILENCE.min(LONGEST_ENDING - elapsed))
}
