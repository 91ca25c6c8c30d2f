//! The client over a link that outlives its connections.
ghost use Rattle.std.specs.Prelude.{◌≡◌, ◌≤◌, ◌↔◌, IsTrue};

use crate::connecting::{run_over_socket, status_of};
use crate::endings::{ending_of, leaves_more};
use crate::{lasting_client_words, run_client};
use jup_client::ClientEnd;
use jup_redial::{Fate, Link, LinkReader, LinkWriter, dial};
use jup_wire::WireFault;
use std::alloc::Global;
use std::io::{Read, Write};
use std::net::{Net, TcpListener, TcpStream};
use std::sync::Wait;
use std::thread;
use std::thread::Threads;
use std::time::Clock;

/// Does what [`client_main`](crate::client_main) does, over a link that outlives its connections. A server that has no such links is asked for one of protocol 3, on
/// another connection. Another thread writes to `notices` when the link is lost, and when it goes on.
pub fn lasting_client_main<
    R: Net<Listener = TcpListener, Stream = TcpStream> + Threads + Wait + Clock + Sync,
    C: Read + Drop,
    O: Write,
    E: Write,
    N: Write + Send + Drop,
>(rt: &R, alloc: Global, words: &[String], input: C, out: &mut O, errors: &mut E, notices: N) -> u8
    ensures { result ≤ 4 }
{
    let told = match lasting_client_words(alloc, words) {
        Ok(told) => told,
        Err(unread) => return unread.tell(out, errors),
    };
    let addr = told.connect.as_str();
    if told.is_plain {
        let end = run_over_socket(rt, alloc, addr, input, out);
        return status_of(end, addr, out, errors);
    }
    let (end, fate, input) = run_over_link(rt, alloc, addr, told.wait, input, out, notices);
    if is_older(fate) {
        let end = run_over_socket(rt, alloc, addr, input, out);
        return status_of(end, addr, out, errors);
    }
    let status = status_of(end, addr, out, errors);
    if leaves_more(end, fate) {
        let _ = writeln!(errors, "{fate}");
    }
    status
}

// Whether the server has only protocol 3.
fn is_older(fate: Fate) -> bool
    ensures { IsTrue result ↔ (fate ≡ Fate.Refused 42) }
{
    matches!(fate, Fate::Refused(number) if number == WireFault::BadVersion.number())
}

// Runs the client over a link of its own, which other threads connect and carry. It gives the input back.
fn run_over_link<
    R: Net<Listener = TcpListener, Stream = TcpStream> + Threads + Wait + Clock + Sync,
    C: Read + Drop,
    O: Write,
    N: Write + Send + Drop,
>(
    rt: &R,
    alloc: Global,
    addr: &str,
    wait: Option<u32>,
    input: C,
    out: &mut O,
    mut notices: N,
) -> (Result<(), ClientEnd>, Fate, C) {
    let Ok(link) = Link::new(alloc, wait) else {
        return (Err(ClientEnd::NoMemory), Fate::NoMemory, input);
    };
    let link = &link;
    let (run, input) = thread::scope(thread::scope_env(), rt, |scope| {
        let child = scope.spawn(move || dial(rt, alloc, link, addr, &mut notices));
        if child.is_err() {
            return (Err(ClientEnd::NoMemory), input);
        }
        run_on_link(rt, alloc, link, input, out)
    });
    let fate = link.fate(rt);
    (ending_of(run, fate), fate, input)
}

// Runs the client, and once more whenever its link begins again, before which it has read no command. It gives the input back.
fn run_on_link<R: Wait, C: Read + Drop, O: Write>(
    rt: &R,
    alloc: Global,
    link: &Link,
    mut input: C,
    out: &mut O,
) -> (Result<(), ClientEnd>, C) {
    for _ in rt.forever() {
        let reader = LinkReader::new(rt, link);
        let writer = LinkWriter::new(rt, link);
        let run = run_client(alloc, &mut input, out, reader, writer);
        if link.begin(rt) {
            continue;
        }
        match run {
            Ok(()) => link.leave(rt),
            Err(_) => link.abandon(rt),
        }
        return (run, input);
    }
    unreachable!()
}
