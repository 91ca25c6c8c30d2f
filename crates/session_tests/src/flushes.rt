//! What a client, a session and a daemon write to a writer that loses what is not flushed, and how they end if it can't be.

use crate::expect::{expect_eq, expect_text};
use crate::programs::{client_of, client_status, daemon_at};
use crate::sessions::{TYPED, TYPED_ANSWER, ran};
use jup_cli::run_client;
use jup_client::ClientEnd;
use jup_daemon::daemon_main;
use jup_session::{Bell, Ending, Open};
use std::alloc::Global;
use std::io;
use std::io::{ErrorKind, Write};
use std::net::{Net, TcpListener, TcpStream};
use std::sync::Wait;
use std::thread::{Threads, join};
use std::time::Clock;

const TOGGLE: &[u8] = b"window 1\ntoggle 3 off\n";

const GREETED: &str = "welcome 1 100\nwindow 1\ntoggle 3 off\nready\n";

/// Hands on what it was given once it is flushed, and loses the rest.
#[derive(Drop)]
struct Holding<'a> {
    held: Vec<u8>,
    to: &'a mut Vec<u8>,
}

impl<'a> Holding<'a> {
    fn new(held: Vec<u8>, to: &'a mut Vec<u8>) -> Holding<'a> {
        Holding { held, to }
    }
}

impl<'a> Write for Holding<'a> {
    fn write(&mut self, buf: &[u8]) -> io::Result<usize> {
        self.held.write(buf)
    }

    fn flush(&mut self) -> io::Result<()> {
        self.to.write_all(self.held.as_slice())?;
        self.held.clear();
        Ok(())
    }
}

// How a client ends that sets the toggle and quits, and loses what it does not flush.
fn end_flushed(alloc: Global, sent: &mut Vec<u8>, out: &mut Vec<u8>) -> Result<(), ClientEnd> {
    let link = Holding::new(Vec::new(alloc), sent);
    let mut shown = Holding::new(Vec::new(alloc), out);
    let commands: &[u8] = b"set 1 3 on\nquit\n";
    run_client(alloc, commands, &mut shown, GREETED.as_bytes(), link)
}

#[test]
fn a_client_flushes_what_it_sends_and_prints(rt: HostRuntime) {
    let alloc = rt.alloc();
    let (mut sent, mut out) = (Vec::new(alloc), Vec::new(alloc));
    expect_eq(&rt, end_flushed(alloc, &mut sent, &mut out), Ok(()));
    expect_text(
        &rt,
        sent.as_slice(),
        "hello 3\nbatch 0 0 1\ndo 1 3 toggle set on\nbye\n",
    );
    expect_text(&rt, out.as_slice(), "site 1\nmade set 1 3 on\nbye\n");
}

#[test]
fn a_session_flushes_its_lines(rt: HostRuntime) {
    let alloc = rt.alloc();
    let mut written = Vec::new(alloc);
    let to = Holding::new(Vec::new(alloc), &mut written);
    let left = ran(&rt, alloc, TYPED, to, &Bell::new(), &Open);
    expect_eq(&rt, left.ending, Ending::Bye);
    expect_text(&rt, written.as_slice(), TYPED_ANSWER);
}

// A daemon whose report is handed on once it is flushed. Its status.
fn serve_held<R: Net<Listener = TcpListener, Stream = TcpStream> + Threads + Wait + Clock + Sync>(
    rt: &R,
    alloc: Global,
    words: &[String],
    text: &mut Vec<u8>,
) -> u8 {
    let mut out = Holding::new(Vec::new(alloc), text);
    let mut errors = Vec::new(alloc);
    daemon_main(rt, alloc, words, TOGGLE, &mut out, &mut errors)
}

#[test]
fn a_daemon_flushes_its_report(rt: HostRuntime) {
    let alloc = rt.alloc();
    let daemon = daemon_at(&rt, alloc, "127.0.0.1:47023", "1000", "1");
    let client = client_of(&rt, alloc, "127.0.0.1:47023");
    let mut text = Vec::new(alloc);
    let (status, other) = join(
        &rt,
        || serve_held(&rt, alloc, &daemon, &mut text),
        || client_status(&rt, alloc, &client, b"quit\n"),
    );
    expect_eq(&rt, (status, other), (0, 0));
    expect_text(
        &rt,
        text.as_slice(),
        "listening 127.0.0.1:47023\norder 0\nwindow 1\ntoggle 3 off\n",
    );
}

/// Takes what it is given, and can't pass it on.
#[derive(Drop)]
struct Unflushed;

impl Write for Unflushed {
    fn write(&mut self, buf: &[u8]) -> io::Result<usize> {
        Ok(buf.len())
    }

    fn flush(&mut self) -> io::Result<()> {
        Err(io::Error::from(ErrorKind::BrokenPipe))
    }
}

#[test]
fn a_client_whose_flush_fails_ends(rt: HostRuntime) {
    let alloc = rt.alloc();
    let (mut sent, mut out) = (Vec::new(alloc), Vec::new(alloc));
    let (commands, from): (&[u8], &[u8]) = (b"quit\n", GREETED.as_bytes());
    let ended = run_client(alloc, commands, &mut out, from, Unflushed);
    expect_eq(&rt, ended, Err(ClientEnd::WriteFailed));
    expect_eq(&rt, out.len(), 0);
    let ended = run_client(alloc, commands, &mut Unflushed, from, &mut sent);
    expect_eq(&rt, ended, Err(ClientEnd::WriteFailed));
    expect_text(&rt, sent.as_slice(), "hello 3\n");
}

#[test]
fn a_session_whose_flush_fails_ends(rt: HostRuntime) {
    let left = ran(&rt, rt.alloc(), TYPED, Unflushed, &Bell::new(), &Open);
    expect_eq(&rt, left.ending, Ending::Fault(71));
}

#[test]
fn a_daemon_whose_flush_fails_ends(rt: HostRuntime) {
    let alloc = rt.alloc();
    let words = daemon_at(&rt, alloc, "127.0.0.1:47024", "1000", "1");
    let mut errors = Vec::new(alloc);
    let status = daemon_main(&rt, alloc, &words, TOGGLE, &mut Unflushed, &mut errors);
    expect_eq(&rt, status, 1);
    expect_text(&rt, errors.as_slice(), "io fault\ncannot print\n");
}
