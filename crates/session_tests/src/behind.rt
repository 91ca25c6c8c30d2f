//! Sites that lag: which messages are taken, where a session rests, and when a session gives its link up.

use crate::expect::{expect_eq, expect_text};
use crate::sessions::{EMPTY_TEXT, GREETING, close, lines, open_hub, ran, ran_over};
use jup_session::{Bell, Ending, Open, Peer, serve_link};
use std::alloc::Global;
use std::io;
use std::io::{ErrorKind, Read, Write};
use std::process::Abort;
use std::sync::Wait;
use std::sync::atomic::{AtomicU64, Ordering};
use std::thread::Threads;
use std::time::{Clock, Duration};

/// Operations that a site may be behind, and that it may not.
pub(crate) const MOST: u32 = 262_144;

pub(crate) const EDIT: &[u8] = b"batch 0 0 1\ndo 1 1 text ins 0 1.1 97\nbye\n";

const PING: &[u8] = b"ping 1\nbye\n";

const BYE: &[u8] = b"bye\n";

/// Operations that a site may be behind whose message of one operation is not long yet.
const NOT_LONG: u32 = 131_072;

const ONE: &[u8] = b"batch 0 0 1\ndo 1 1 text ins 0 1.1 97\nping 1\nbye\n";

// A message of four operations is long if its site is MOST behind, and one of five is costly.
const FOUR: &[u8] =
    b"batch 0 0 4\ndo 1 1 text ins 0 1.1 97\ndo 1 1 text ins 0 1.2 98\ndo 1 1 text ins 0 1.3 99\ndo 1 1 text ins 0 1.4 97\nping 1\nbye\n";

const FIVE: &[u8] =
    b"batch 0 0 5\ndo 1 1 text ins 0 1.1 97\ndo 1 1 text ins 0 1.2 98\ndo 1 1 text ins 0 1.3 99\ndo 1 1 text ins 0 1.4 97\ndo 1 1 text ins 0 1.5 98\nping 1\nbye\n";

/// Gives a greeting. Then others make operations, and it gives a text.
#[derive(Drop)]
struct Overtaken<'a> {
    greeting: &'a [u8],
    bell: &'a Bell,
    others: u32,
    text: &'a [u8],
}

impl<'a> Read for Overtaken<'a> {
    fn read(&mut self, buf: &mut [u8]) -> io::Result<usize> {
        if !self.greeting.is_empty() {
            return self.greeting.read(buf);
        }
        self.bell.count(self.others);
        self.others = 0;
        self.text.read(buf)
    }
}

/// A runtime on whose clock ten milliseconds go by between two looks, and which notes how long it was to sleep.
#[derive(Drop)]
pub(crate) struct Ticking<'a, R> {
    rt: &'a R,
    looks: AtomicU64,
    slept: AtomicU64,
}

impl<'a, R> Ticking<'a, R> {
    pub(crate) fn new(rt: &'a R) -> Ticking<'a, R> {
        Ticking {
            rt,
            looks: AtomicU64::new(0),
            slept: AtomicU64::new(0),
        }
    }

    // A second goes by.
    pub(crate) fn pass(&self) {
        self.looks.fetch_add(100, Ordering::SeqCst);
    }

    // Microseconds that it was to sleep in total.
    pub(crate) fn slept(&self) -> u64 {
        self.slept.load(Ordering::SeqCst)
    }
}

impl<'a, R: Threads> Threads for Ticking<'a, R> {}

impl<'a, R: Wait> Wait for Ticking<'a, R> {}

impl<'a, R: Clock> Clock for Ticking<'a, R> {
    fn monotonic(&self) -> io::Result<Duration> {
        let looks = self.looks.fetch_add(1, Ordering::SeqCst) % 1_000;
        Ok(Duration::from_millis(looks * 10))
    }

    fn since_1970(&self) -> io::Result<Duration> {
        self.rt.since_1970()
    }

    fn sleep(&self, duration: Duration) {
        let micros = u64::try_from(duration.as_micros()).unwrap_or(u64::MAX);
        self.slept.fetch_add(micros, Ordering::SeqCst);
    }
}

/// What a session came to whose site was so many operations behind.
#[derive(Drop)]
struct Came {
    ending: Ending,
    written: Vec<u8>,
    taken: usize,
    slept: u64,
}

// The session of a site that others overtake before it sends a text.
fn session_of<R: Threads + Wait + Clock + Sync + Abort>(
    rt: &R,
    alloc: Global,
    others: u32,
    text: &[u8],
) -> Came {
    overtaken_after(rt, alloc, b"hello 3\n", others, text)
}

// The session of a site that others overtake after one text and before another.
fn overtaken_after<R: Threads + Wait + Clock + Sync + Abort>(
    rt: &R,
    alloc: Global,
    greeting: &[u8],
    others: u32,
    text: &[u8],
) -> Came {
    let (hub, pass) = open_hub(rt, alloc, EMPTY_TEXT, 100);
    let (bell, ticking) = (Bell::new(), Ticking::new(rt));
    let from = Overtaken {
        greeting,
        bell: &bell,
        others,
        text,
    };
    let mut written = Vec::new(alloc);
    let (pass, ending) = serve_link(
        &ticking,
        alloc,
        from,
        &mut written,
        &hub,
        pass,
        &bell,
        &Open,
    );
    Came {
        ending,
        written,
        taken: close(rt, hub, pass).order().len(),
        slept: ticking.slept(),
    }
}

// It wrote this after the greeting.
fn expect_answer(rt: &impl Abort, alloc: Global, came: &Came, answer: &str) {
    let written = format!(in alloc; "{GREETING}{answer}").expect(rt, "there is memory");
    expect_text(rt, came.written.as_slice(), written.as_str());
}

// It is left if it is too far behind. If not, the session rests after a take that was long, and seven times as long after a costly one. By its clock
// each take is of ten milliseconds.
#[test]
fn a_site_that_lags_is_left_or_its_session_rests(rt: HostRuntime) {
    let left = (Ending::Fault(71), 0, 0);
    for &(behind, text, came, answer) in &[
        (MOST + 1, EDIT, left, "error 71\n"),
        (MOST + 1, PING, left, "error 71\n"),
        (MOST + 1, BYE, (Ending::Bye, 0, 0), "bye\n"),
        (MOST, EDIT, (Ending::Bye, 1, 500), "bye\n"),
        (NOT_LONG, ONE, (Ending::Bye, 1, 0), "pong 1\nbye\n"),
        (NOT_LONG + 1, ONE, (Ending::Bye, 1, 500), "pong 1\nbye\n"),
        (MOST, FOUR, (Ending::Bye, 1, 500), "pong 1\nbye\n"),
        (MOST, FIVE, (Ending::Bye, 1, 70_000), "pong 1\nbye\n"),
    ] {
        let found = session_of(&rt, rt.alloc(), behind, text);
        expect_eq(&rt, (found.ending, found.taken, found.slept), came);
        expect_answer(&rt, rt.alloc(), &found, answer);
    }
}

// What others made before a site joined is nothing to it.
#[test]
fn a_site_is_not_behind_by_what_came_before_it_joined(rt: HostRuntime) {
    let text = b"hello 3\nbatch 0 0 1\ndo 1 1 text ins 0 1.1 97\nbye\n";
    let found = overtaken_after(&rt, rt.alloc(), b"", MOST + 1, text);
    expect_eq(
        &rt,
        (found.ending, found.taken, found.slept),
        (Ending::Bye, 1, 0),
    );
    expect_answer(&rt, rt.alloc(), &found, "bye\n");
}

/// Takes a byte of each write.
#[derive(Drop)]
struct ByteByByte<'a> {
    text: &'a mut Vec<u8>,
}

impl<'a> Write for ByteByByte<'a> {
    fn write(&mut self, buf: &[u8]) -> io::Result<usize> {
        let len = buf.len().min(1);
        self.text.write(&buf[..len])
    }

    fn flush(&mut self) -> io::Result<()> {
        Ok(())
    }
}

// A site that does not join is behind by nothing, and reads why it is turned away.
#[test]
fn what_was_taken_before_a_session_is_nothing_to_it(rt: HostRuntime) {
    let (bell, mut text) = (Bell::new(), Vec::new(rt.alloc()));
    bell.count(MOST + 1);
    let to = ByteByByte { text: &mut text };
    let from: &[u8] = b"bye\n";
    let left = ran(&rt, rt.alloc(), from, to, &bell, &Open);
    expect_eq(&rt, left.ending, Ending::Fault(44));
    expect_text(&rt, text.as_slice(), "error 44\n");
}

/// Gives a greeting and a ping, and then nothing until the half that writes has ended.
#[derive(Drop)]
struct Silent<'a, R> {
    rt: &'a R,
    bell: &'a Bell,
    text: &'a [u8],
}

impl<'a, R: Wait> Read for Silent<'a, R> {
    fn read(&mut self, buf: &mut [u8]) -> io::Result<usize> {
        if self.text.is_empty() {
            // The first ring is that of the ping, which comes before this read, and the second is that of the end.
            self.bell.wait(self.rt, 1, 1);
        }
        self.text.read(buf)
    }
}

/// Takes a greeting, and then a byte of each write or nothing at all. Each such write takes long: meanwhile others make operations. Notes how often it
/// was given up.
#[derive(Drop)]
struct Stuck<'a> {
    bell: &'a Bell,
    text: &'a mut Vec<u8>,
    takes_a_byte: bool,
    given_up: &'a AtomicU64,
}

impl<'a> Write for Stuck<'a> {
    fn write(&mut self, buf: &[u8]) -> io::Result<usize> {
        if self.text.is_empty() || buf.is_empty() {
            return self.text.write(buf);
        }
        self.bell.count(MOST / 2);
        if self.takes_a_byte {
            return self.text.write(&buf[..1]);
        }
        Err(io::Error::from(ErrorKind::Interrupted))
    }

    fn flush(&mut self) -> io::Result<()> {
        Ok(())
    }
}

impl<'a> Peer for Stuck<'a> {
    fn send(&mut self, bytes: &[u8]) -> io::Result<usize> {
        self.write(bytes)
    }

    fn pass_on(&mut self) -> io::Result<()> {
        self.flush()
    }

    fn give_up(&mut self) {
        self.given_up.fetch_add(1, Ordering::SeqCst);
    }
}

// What is written by a session that owes a pong, at such a writer, and how often the writer is given up. The third write that takes long is the last.
// A session over any writer never gives it up.
fn expect_left<R: Threads + Wait + Clock + Sync + Abort>(
    rt: &R,
    alloc: Global,
    takes_a_byte: bool,
    over_any: bool,
    answer: &str,
) {
    let (bell, given_up) = (Bell::new(), AtomicU64::new(0));
    let from = Silent {
        rt,
        bell: &bell,
        text: b"hello 3\nping 1\n",
    };
    let mut text = Vec::new(alloc);
    let to = Stuck {
        bell: &bell,
        text: &mut text,
        takes_a_byte,
        given_up: &given_up,
    };
    let left = if over_any {
        ran(rt, alloc, from, to, &bell, &Open)
    } else {
        ran_over(rt, alloc, from, to, &bell)
    };
    expect_eq(rt, left.ending, Ending::Fault(71));
    let written = format!(in alloc; "{GREETING}{answer}").expect(rt, "there is memory");
    expect_text(rt, text.as_slice(), written.as_str());
    expect_eq(rt, given_up.load(Ordering::SeqCst), u64::from(!over_any));
}

// The link takes nothing, or a byte at a time. No last line is written, since the line before it may be cut.
#[test]
fn a_link_that_takes_little_is_given_up_once_its_site_is_too_far_behind(rt: HostRuntime) {
    for &(takes_a_byte, answer) in &[(false, ""), (true, "pon")] {
        expect_left(&rt, rt.alloc(), takes_a_byte, false, answer);
    }
}

// The session ends in the same way, and gives nothing up.
#[test]
fn any_other_writer_is_left_and_not_given_up(rt: HostRuntime) {
    for &(takes_a_byte, answer) in &[(false, ""), (true, "pon")] {
        expect_left(&rt, rt.alloc(), takes_a_byte, true, answer);
    }
}

/// Takes all that it is given. As it takes the first pong, others make operations by which its site is too far behind.
#[derive(Drop)]
struct Passed<'a> {
    bell: &'a Bell,
    text: &'a mut Vec<u8>,
    others: u32,
}

impl<'a> Write for Passed<'a> {
    fn write(&mut self, buf: &[u8]) -> io::Result<usize> {
        if buf.starts_with(b"pong") {
            self.bell.count(self.others);
            self.others = 0;
        }
        self.text.write(buf)
    }

    fn flush(&mut self) -> io::Result<()> {
        Ok(())
    }
}

// A fetch has 64 messages, and one more waits when the site is looked at again.
#[test]
fn a_site_is_left_between_two_fetches_once_it_is_too_far_behind(rt: HostRuntime) {
    let (bell, mut text) = (Bell::new(), Vec::new(rt.alloc()));
    let pings = lines(&rt, rt.alloc(), "hello 3\n", "ping #", 0..65, "");
    let from = Silent {
        rt: &rt,
        bell: &bell,
        text: pings.as_bytes(),
    };
    let to = Passed {
        bell: &bell,
        text: &mut text,
        others: MOST + 1,
    };
    let left = ran(&rt, rt.alloc(), from, to, &bell, &Open);
    expect_eq(&rt, left.ending, Ending::Fault(71));
    let due = lines(&rt, rt.alloc(), GREETING, "pong #", 0..64, "error 71\n");
    expect_text(&rt, text.as_slice(), due.as_str());
}
