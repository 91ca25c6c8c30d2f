//! `jup_session` and `jup_programs`, by `jup_app`: sessions over a hub, and the insides of the server and the client.
ghost use Rattle.jup_hub.specs.Passes.{IsPassOf};

use jup_app::{
    Bell, ClientEnd, DaemonWords, Ending, Gate, Open, client_main, daemon_main, daemon_words,
    run_client, serve_link,
};
use jup_hub::{Hub, Pass};
use jup_options::Unread;
use std::alloc::Global;
use std::io::{Read, Write};
use std::net::{Net, TcpListener, TcpStream};
use std::sync::Wait;
use std::thread::Threads;
use std::time::Clock;

/// The command line of the server, and a bell.
pub fn calls() {
    let _: fn(Global, &[String]) -> Result<DaemonWords, Unread> = daemon_words;
    let _: fn() -> Bell = Bell::new;
}

/// The fields of the server's command line.
pub fn words(words: DaemonWords) -> (String, u32, u32) {
    (words.listen, words.limit, words.sessions)
}

/// `Gate::ready` and `Gate::answered`, by the bound.
pub fn gate<G: Gate>(gate: &G, site: u32, nth: u32) -> bool {
    let ready: bool = gate.ready(site, nth);
    gate.answered(site, nth);
    ready
}

/// The gate that lets all through.
pub fn open_gate(site: u32, nth: u32) -> bool {
    gate(&Open, site, nth)
}

/// `Bell::count`, `Bell::ring`, `Bell::ring_for` and `Bell::wait`.
pub fn bell<R: Wait>(bell: &Bell, rt: &R, site: u32, seen: u64) -> u64 {
    bell.count(1);
    bell.ring(rt);
    bell.ring_for(rt, site);
    bell.wait(rt, site, seen)
}

/// `serve_link`.
pub fn session<R: Threads + Wait + Clock + Sync, I: Read + Drop, O: Write + Send + Drop, G: Gate>(
    rt: &R,
    alloc: Global,
    reader: I,
    writer: O,
    hub: &Hub,
    pass: Pass,
    bell: &Bell,
    gate: &G,
) -> (Pass, Ending)
    requires { IsPassOf hub.now pass }
{
    serve_link(rt, alloc, reader, writer, hub, pass, bell, gate)
}

/// `run_client`.
pub fn client<C: Read + Drop, O: Write, F: Read + Drop, T: Write + Drop>(
    alloc: Global,
    commands: C,
    out: &mut O,
    from: F,
    to: T,
) -> Result<(), ClientEnd> {
    run_client(alloc, commands, out, from, to)
}

/// `daemon_main`.
pub fn serve<
    R: Net<Listener = TcpListener, Stream = TcpStream> + Threads + Wait + Clock + Sync,
    I: Read + Drop,
    O: Write,
    E: Write,
>(rt: &R, alloc: Global, words: &[String], input: I, out: &mut O, errors: &mut E) -> u8 {
    daemon_main(rt, alloc, words, input, out, errors)
}

/// `client_main`.
pub fn connect<
    R: Net<Listener = TcpListener, Stream = TcpStream> + Threads + Wait + Clock + Sync,
    C: Read + Drop,
    O: Write,
    E: Write,
>(rt: &R, alloc: Global, words: &[String], input: C, out: &mut O, errors: &mut E) -> u8 {
    client_main(rt, alloc, words, input, out, errors)
}
