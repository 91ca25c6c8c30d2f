//! The client over a socket.
ghost use Rattle.std.specs.Prelude.{◌≡◌, ◌≤◌, ◌⊎◌};
ghost use Rattle.jup_client.specs.Ends.{client_end_status};

use crate::{client_words, run_client};
use jup_client::ClientEnd;
use jup_net::{Drained, Inbox, Intake, drain, hang_up};
use std::alloc::Global;
use std::io::{Read, Write};
use std::net::{Net, TcpListener, TcpStream};
use std::sync::Wait;
use std::thread;
use std::thread::Threads;
use std::time::{Clock, Duration};

/// Milliseconds that a read of the link waits before its thread looks whether the client has ended.
const LOOK: u64 = 100;

/// Connects as the words say, does what the input asks for, and answers the exit status:
///
/// - 0 after `quit` or the end of the input
/// - 1 for a failed read, write or connect
/// - 2 for the words
/// - 3 for memory
/// - 4 for a fault
///
/// The link is read while the user thinks, by a thread of its own: a client that did not read would lose its link.
pub fn client_main<
    R: Net<Listener = TcpListener, Stream = TcpStream> + Threads + Wait + Clock + Sync,
    C: Read + Drop,
    O: Write,
    E: Write,
>(rt: &R, alloc: Global, words: &[String], input: C, out: &mut O, errors: &mut E) -> u8
    ensures { result ≤ 4 }
{
    let addr = match client_words(alloc, words) {
        Ok(addr) => addr,
        Err(unread) => return unread.tell(out, errors),
    };
    let end = run_over_socket(rt, alloc, addr.as_str(), input, out);
    status_of(end, addr.as_str(), out, errors)
}

/// Tells the user how the client ended, and answers the exit status.
pub(crate) fn status_of<O: Write, E: Write>(
    end: Result<(), ClientEnd>,
    addr: &str,
    out: &mut O,
    errors: &mut E,
) -> u8
    ensures { result ≤ 4 }
{
    match end {
        Ok(()) => 0,
        Err(end @ ClientEnd::Fault(_)) => tell_fault(out, errors, end),
        Err(ClientEnd::Unconnected) => {
            let status = tell(errors, ClientEnd::Unconnected);
            let _ = writeln!(errors, "cannot connect to {addr}");
            status
        }
        Err(end) => tell(errors, end),
    }
}

/// Runs the client over a connection of its own.
pub(crate) fn run_over_socket<
    R: Net<Listener = TcpListener, Stream = TcpStream> + Threads + Wait + Clock + Sync,
    C: Read + Drop,
    O: Write,
>(rt: &R, alloc: Global, addr: &str, input: C, out: &mut O) -> Result<(), ClientEnd> {
    let stream = match TcpStream::connect(rt, addr) {
        Ok(stream) => stream,
        Err(error) => return Err(ClientEnd::of_connecting(&error)),
    };
    let _ = stream.set_nodelay(true);
    let end = run_beside_drain(rt, alloc, &stream, input, out);
    hang_up(rt, &stream);
    end
}

// Runs the client beside a thread that reads the link, which has ended when this returns.
fn run_beside_drain<R: Threads + Wait + Sync, C: Read + Drop, O: Write>(
    rt: &R,
    alloc: Global,
    stream: &TcpStream,
    input: C,
    out: &mut O,
) -> Result<(), ClientEnd> {
    let intake = Intake::new(Inbox::new(alloc)?);
    let intake = &intake;
    let look = Duration::from_millis(LOOK);
    if stream.set_read_timeout(Some(look)).is_err() {
        return Err(ClientEnd::ReadFailed);
    }
    thread::scope(thread::scope_env(), rt, |scope| {
        if scope.spawn(move || drain(rt, stream, intake)).is_err() {
            return Err(ClientEnd::NoMemory);
        }
        let end = run_client(alloc, input, out, Drained::new(rt, intake), stream);
        intake.leave(rt);
        end
    })
}

// Prints a fault on standard output, and on standard error what it is; answers the exit status.
fn tell_fault<O: Write, E: Write>(out: &mut O, errors: &mut E, end: ClientEnd) -> u8
    ensures status { (result ≡ client_end_status end) ⊎ (result ≡ client_end_status ClientEnd.WriteFailed) }
    ensures most { result ≤ 4 }
{
    if writeln!(out, "{end}").is_err() || out.flush().is_err() {
        return tell(errors, ClientEnd::WriteFailed);
    }
    explain(errors, end);
    end.status()
}

// Prints why on standard error, and answers the exit status.
fn tell<E: Write>(errors: &mut E, end: ClientEnd) -> u8
    ensures status { result ≡ client_end_status end }
    ensures most { result ≤ 4 }
{
    let _ = writeln!(errors, "{end}");
    explain(errors, end);
    end.status()
}

fn explain<E: Write>(errors: &mut E, end: ClientEnd) {
    if let Some(cause) = end.cause() {
        let _ = writeln!(errors, "{cause}");
    }
}
