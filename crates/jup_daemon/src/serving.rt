//! The daemon's run.
ghost use Rattle.std.specs.Io.KnownBytes.{Appends};
ghost use Rattle.std.specs.Prelude.{◌≡◌, ◌≤◌, ◌<◌, Err, IfOk, IfSome, OnOk, length, vec_len};
ghost use Rattle.jup_limits.specs.Limits.{longest_input};
ghost use Rattle.jup_hub.specs.Passes.{IsPassOf};
ghost use Rattle.jup_daemon.specs.Daemons as texts;

use crate::connection::Server;
use crate::doorway::Doorway;
use crate::late::Late;
use crate::telling::tell;
use crate::{
    Admission, Attempt, DaemonEnd, DaemonWords, LinkWords, lasting_daemon_words, report_text,
    star_of_layout,
};
use jup_carrier::{Links, NoTokens, RandomTokens, Tokens, Uptime};
use jup_hub::{Hub, Pass};
use jup_limits::LONGEST_INPUT;
use jup_session::Bell;
use jup_star::Star;
use std::alloc::Global;
use std::io::{Read, Write};
use std::net::{Net, TcpListener, TcpStream};
use std::random::RandomSource;
use std::sync::Wait;
use std::thread::Threads;
use std::time::Clock;
use std::{io, thread};

/// Serves as the words say a board whose layout is the input, and answers the exit status:
///
/// - 0 after the last session
/// - 1 for a failed read, write, bind or accept
/// - 2 for the words
/// - 3 for memory
/// - 5 for the layout
/// - 6 if the hub can't be closed
///
/// It speaks protocol 3 alone, since it has no random bytes for tokens.
pub fn daemon_main<
    R: Net<Listener = TcpListener, Stream = TcpStream> + Threads + Wait + Clock + Sync,
    I: Read + Drop,
    O: Write,
    E: Write,
>(rt: &R, alloc: Global, words: &[String], input: I, out: &mut O, errors: &mut E) -> u8
    ensures { result ≤ 6 }
{
    run(rt, alloc, &NoTokens, words, input, out, errors)
}

/// The same, and speaks protocol 4 too: its links outlive their connections.
pub fn lasting_daemon_main<
    R: Net<Listener = TcpListener, Stream = TcpStream>
        + Threads
        + Wait
        + Clock
        + RandomSource
        + Sync,
    I: Read + Drop,
    O: Write,
    E: Write,
>(rt: &R, alloc: Global, words: &[String], input: I, out: &mut O, errors: &mut E) -> u8
    ensures { result ≤ 6 }
{
    run(rt, alloc, &RandomTokens::new(rt), words, input, out, errors)
}

// Reads the words, serves, and says how that ended.
fn run<
    R: Net<Listener = TcpListener, Stream = TcpStream> + Threads + Wait + Clock + Sync,
    T: Tokens + Sync,
    I: Read + Drop,
    O: Write,
    E: Write,
>(rt: &R, alloc: Global, tokens: &T, words: &[String], input: I, out: &mut O, errors: &mut E) -> u8
    ensures { result ≤ 6 }
{
    let (told, links) = match lasting_daemon_words(alloc, words) {
        Ok(told) => told,
        Err(unread) => return unread.tell(out, errors),
    };
    let Err(end) = serve(rt, alloc, tokens, &told, &links, input, out, errors) else {
        return 0;
    };
    let status = tell(&end, errors);
    if matches!(end, DaemonEnd::Io(Attempt::Listen)) {
        let listen = &told.listen;
        let _ = writeln!(errors, "cannot listen at {listen}");
    }
    status
}

// Serves all sessions, and prints the order's length and the board.
fn serve<
    R: Net<Listener = TcpListener, Stream = TcpStream> + Threads + Wait + Clock + Sync,
    T: Tokens + Sync,
    I: Read + Drop,
    O: Write,
    E: Write,
>(
    rt: &R,
    alloc: Global,
    tokens: &T,
    told: &DaemonWords,
    links: &LinkWords,
    input: I,
    out: &mut O,
    errors: &mut E,
) -> Result<(), DaemonEnd> {
    let star = read_star(alloc, told.limit, input)?;
    let listener = match TcpListener::bind(rt, told.listen.as_str()) {
        Ok(listener) => listener,
        Err(error) => return Err(DaemonEnd::of_failure(Attempt::Listen, &error)),
    };
    tell_port(&told.listen, &listener, errors);
    serve_star(rt, alloc, tokens, told, links, star, listener, out)
}

// Prints the address on standard error, if the system was left to choose the port.
fn tell_port<E: Write>(listen: &str, listener: &TcpListener, errors: &mut E) {
    if !listen.ends_with(":0") {
        return;
    }
    if let Ok(addr) = listener.local_addr() {
        let _ = writeln!(errors, "bound {addr}");
    }
}

// The star whose board has this layout.
fn read_star<I: Read + Drop>(alloc: Global, limit: u32, input: I) -> Result<Star, DaemonEnd> {
    let text = read_layout(alloc, input)?;
    star_of_layout(alloc, text.as_slice(), limit)
}

// Serves all sessions of a star.
fn serve_star<R: Threads + Wait + Clock + Sync, T: Tokens + Sync, O: Write>(
    rt: &R,
    alloc: Global,
    tokens: &T,
    told: &DaemonWords,
    links: &LinkWords,
    star: Star,
    listener: TcpListener,
    out: &mut O,
) -> Result<(), DaemonEnd> {
    let Ok((hub, pass)) = Hub::open(alloc, star) else {
        return Err(DaemonEnd::NoMemory);
    };
    announce(&told.listen, out).map_err(|error| DaemonEnd::of_failure(Attempt::Print, &error))?;
    let doorway = match Doorway::new(&listener, told.sessions) {
        Ok(doorway) => doorway,
        Err(error) => return Err(DaemonEnd::of_failure(Attempt::Accept, &error)),
    };
    let server = Server {
        alloc,
        hub: &hub,
        bell: &Bell::new(),
        links: &links_of(rt, alloc, links),
        doorway: &doorway,
        late: &Late::new(),
    };
    let pass = serve_all(rt, tokens, &server, listener, pass)?;
    match hub.close(pass) {
        Ok(closed) => report(alloc, &closed.star, out),
        Err(_) => Err(DaemonEnd::Held),
    }
}

// No link yet. Each will wait for as long as the command line says.
fn links_of(clock: &impl Clock, alloc: Global, words: &LinkWords) -> Links
    ensures { result ≡ words.now.grace }
{
    Links::new(alloc, words.grace, Uptime::new(clock))
}

// The text of the layout.
fn read_layout<I: Read + Drop>(alloc: Global, input: I) -> Result<Vec<u8>, DaemonEnd>
    ensures most { IfOk result (λ text. vec_len text ≤ longest_input) }
    ensures whole { IfOk result (λ text. IfSome (I.remaining input) (λ bytes. text.items ≡ bytes)) }
    ensures long { result ≡ Err DaemonEnd.LongLayout → IfSome (I.remaining input) (λ bytes. longest_input < length bytes) }
{
    let mut text = Vec::new(alloc);
    if let Err(error) = input.take(LONGEST_INPUT + 1).read_to_end(&mut text) {
        return Err(DaemonEnd::of_failure(Attempt::ReadLayout, &error));
    }
    if text.len() as u64 > LONGEST_INPUT {
        return Err(DaemonEnd::LongLayout);
    }
    Ok(text)
}

// Prints that sessions may come.
fn announce<O: Write>(listen: &str, out: &mut O) -> io::Result<()>
    ensures { OnOk result (Appends (O.contents out.old) (O.contents out.new) (texts.listening_text listen.now)) }
{
    writeln!(out, "listening {listen}")?;
    out.flush()
}

// Prints how many edits were taken, and the board.
fn report<O: Write>(alloc: Global, star: &Star, out: &mut O) -> Result<(), DaemonEnd>
    ensures { OnOk result (Appends (O.contents out.old) (O.contents out.new) (texts.report_text star.now)) }
{
    let text = report_text(alloc, star)?;
    print(text.as_slice(), out).map_err(|error| DaemonEnd::of_failure(Attempt::Print, &error))
}

fn print<O: Write>(text: &[u8], out: &mut O) -> io::Result<()>
    ensures { OnOk result (Appends (O.contents out.old) (O.contents out.new) text.now) }
{
    out.write_all(text)?;
    out.flush()
}

// Serves until nobody may come any more and each connection has ended. The scope waits for all that run, on each way out.
fn serve_all<R: Threads + Wait + Clock + Sync, T: Tokens + Sync>(
    rt: &R,
    tokens: &T,
    server: &Server<'_>,
    listener: TcpListener,
    mut pass: Pass,
) -> Result<Pass, DaemonEnd>
    requires { IsPassOf server.now.hub.now pass }
    ensures { IfOk result (λ p. IsPassOf server.now.hub.now p) }
{
    let theirs = server.hub.split(&mut pass);
    let ended = thread::scope(
        thread::scope_env(),
        rt,
        |scope| -> Result<(), DaemonEnd>
            requires { IsPassOf server.now.hub.now theirs }
        {
            let watch = scope.spawn(move || server.doorway.watch(rt, server.links));
            // Without the thread that looks at links there are none.
            let accepted = if watch.is_ok() {
                accept_all(rt, tokens, server, &listener, theirs)
            } else {
                accept_all(rt, &NoTokens, server, &listener, theirs)
            };
            server.doorway.leave(rt);
            drop(listener);
            accepted
        },
    );
    match ended {
        Ok(()) => Ok(pass),
        Err(end) => Err(end),
    }
}

// Accepts connections, each in a thread of its own, until nobody may come any more or no connection can be served. Nobody listens then, and it returns once all have ended.
fn accept_all<R: Threads + Wait + Clock + Sync, T: Tokens + Sync>(
    rt: &R,
    tokens: &T,
    server: &Server<'_>,
    listener: &TcpListener,
    mut pass: Pass,
) -> Result<(), DaemonEnd>
    requires { IsPassOf server.now.hub.now pass }
{
    thread::scope(
        thread::scope_env(),
        rt,
        |scope| -> Result<(), DaemonEnd>
            requires { IsPassOf server.now.hub.now pass }
        {
            let mut accepted = Ok(());
            for _ in rt.forever() {
                let (stream, admission) = match next_connection(rt, server, listener) {
                    Ok(Some(next)) => next,
                    Ok(None) => break,
                    Err(end) => {
                        accepted = Err(end);
                        break;
                    }
                };
                let Some(entry) = server.enter(rt, &stream, admission) else {
                    continue;
                };
                let theirs = server.hub.split(&mut pass);
                let child = scope.spawn(
                    move ||
                        requires { IsPassOf server.now.hub.now theirs }
                    { server.serve(rt, tokens, &stream, entry, theirs) },
                );
                if child.is_err() {
                    accepted = server.abandon(rt, entry);
                }
                if accepted.is_err() {
                    break;
                }
            }
            server.stop_listening(rt);
            accepted
        },
    )
}

// The next connection. `None` if nobody may come any more.
fn next_connection<R: Wait + Clock>(
    rt: &R,
    server: &Server<'_>,
    listener: &TcpListener,
) -> Result<Option<(TcpStream, Admission)>, DaemonEnd> {
    for _ in rt.forever() {
        if server.doorway.is_shut(rt, server.links) {
            return Ok(None);
        }
        let accepted = listener.accept();
        if server.doorway.is_shut(rt, server.links) {
            return Ok(None);
        }
        if let Some(((stream, _), admission)) = server.doorway.meet(rt, accepted)? {
            return Ok(Some((stream, admission)));
        }
    }
    unreachable!()
}
