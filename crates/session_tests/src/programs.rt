//! The words of the programs. `tools/programs` tries the built ones.

use crate::expect::{expect_eq, expect_text};
use jup_cli::client_main;
use jup_options::Unread;
use std::alloc::Global;
use std::io::ErrorKind;
use std::net::{Net, TcpListener, TcpStream};
use std::process::Abort;
use std::sync::Wait;
use std::thread::Threads;
use std::time::{Clock, Duration};
use std::{io, thread};

/// How often a client is started again.
const TRIES: u32 = 1_000;

fn words_of(rt: &impl Abort, alloc: Global, texts: &[&str]) -> Vec<String> {
    let mut words = Vec::new(alloc);
    for text in texts {
        let word = String::from_str(alloc, text).expect(rt, "there is memory");
        words.push(word).expect(rt, "there is memory");
    }
    words
}

// The words of a daemon.
pub(crate) fn daemon_at(
    rt: &impl Abort,
    alloc: Global,
    addr: &str,
    limit: &str,
    sessions: &str,
) -> Vec<String> {
    let words = ["--listen", addr, "--limit", limit, "--sessions", sessions];
    words_of(rt, alloc, &words)
}

// The words of a client.
pub(crate) fn client_of(rt: &impl Abort, alloc: Global, addr: &str) -> Vec<String> {
    words_of(rt, alloc, &["--connect", addr])
}

// Runs the client, and again while it answers 1. Its status.
pub(crate) fn client_status<
    R: Net<Listener = TcpListener, Stream = TcpStream> + Threads + Wait + Clock + Sync,
>(rt: &R, alloc: Global, words: &[String], commands: &[u8]) -> u8 {
    for _ in 0..TRIES {
        let (mut out, mut errors) = (Vec::new(alloc), Vec::new(alloc));
        let status = client_main(rt, alloc, words, commands, &mut out, &mut errors);
        if status != 1 {
            return status;
        }
        thread::sleep(rt, Duration::from_millis(2));
    }
    1
}

// The table of statuses in `docs/PROGRAMS.md` has these: 3 if an allocation fails, and 2 if a word is not UTF-8.
#[test]
fn a_program_that_cannot_have_its_words_says_why(rt: HostRuntime) {
    for &(kind, status, text) in &[
        (ErrorKind::OutOfMemory, 3, "no memory\n"),
        (ErrorKind::InvalidData, 2, "a word is no text\n"),
    ] {
        let (mut out, mut errors) = (Vec::new(rt.alloc()), Vec::new(rt.alloc()));
        let unread = Unread::of_failure(&io::Error::from(kind));
        expect_eq(&rt, unread.tell(&mut out, &mut errors), status);
        expect_eq(&rt, out.len(), 0);
        expect_text(&rt, errors.as_slice(), text);
    }
}
