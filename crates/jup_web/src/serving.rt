//! The server's run.
ghost use Rattle.std.specs.Prelude.{◌≡◌, ◌≤◌, IfOk};
ghost use Rattle.jup_hub.specs.Passes.{IsPassOf};

use crate::connection::{serve_connection, turn_away};
use crate::connections::{Connections, Visit};
use crate::keeping::{board_text, keep};
use crate::notices::Notices;
use crate::operating::operate;
use crate::session::Service;
use crate::setup::{Door, OpenedBoard, Setup, prepare, slices};
use crate::stop::Stop;
use crate::telling::{tell, tell_unread};
use jup_carrier::{Links, Uptime};
use jup_hub::{Hub, Pass};
use jup_service::{
    Attempt, Farewell, KeptBoard, LinkWords, Notice, Parting, ServiceEnd, lasting_service_words,
    notice_of_accept,
};
use jup_session::Bell;
use jup_xform::NoMemory;
use std::alloc::Global;
use std::fs::{File, Files};
use std::io::{BufReader, Read};
use std::net::{Net, TcpListener, TcpStream};
use std::random::RandomSource;
use std::sync::Wait;
use std::thread::Threads;
use std::time::{Clock, Duration};
use std::{io, thread};

/// Milliseconds after which the server tries again to accept a connection.
const ACCEPT_PAUSE: u64 = 100;

/// Seconds between two looks at the links.
const LOOK: u64 = 1;

/// Serves as the arguments say, with this page if they name no other, until a line `stop` comes on the input. It answers the exit status:
///
/// - 0: nothing failed.
/// - 1: a read, a write or a bind failed, or another program has the board.
/// - 2: the arguments are refused.
/// - 3: the server is out of memory.
/// - 5: the board or the captions are refused.
pub fn web_main<
    R: Net<Listener = TcpListener, Stream = TcpStream>
        + Files<File = File>
        + Threads
        + Wait
        + Clock
        + RandomSource
        + Print
        + Eprint
        + Sync,
    I: Read + Send + Drop,
>(rt: &R, alloc: Global, words: &[String], page: &[u8], input: I) -> u8
    ensures { result ≤ 5 }
{
    let (told, links) = match lasting_service_words(alloc, words) {
        Ok(told) => told,
        Err(unread) => return tell_unread(rt, &unread),
    };
    let served = match prepare(rt, alloc, &told, links) {
        Ok(setup) => serve(rt, alloc, setup, page, input),
        Err(end) => Err(end),
    };
    match served {
        Ok(()) => 0,
        Err(end) => tell(rt, end),
    }
}

// Serves until a stop, and keeps the board.
fn serve<
    R: Files<File = File> + Threads + Wait + Clock + RandomSource + Print + Eprint + Sync,
    I: Read + Send + Drop,
>(rt: &R, alloc: Global, setup: Setup, page: &[u8], input: I) -> Result<(), ServiceEnd> {
    let Setup {
        board,
        bodies,
        door,
    } = setup;
    let OpenedBoard { file, text, star } = board;
    let Ok((hub, pass)) = Hub::open(alloc, star) else {
        return Err(ServiceEnd::NoMemory);
    };
    let page = page_of(&bodies.page, page);
    serve_hub(
        rt,
        alloc,
        &hub,
        pass,
        KeptBoard::new(&file, text),
        page,
        bodies.captions.as_slice(),
        door,
        input,
    )
}

// Serves the hub of a board until a stop, and keeps the board.
fn serve_hub<
    R: Files<File = File> + Threads + Wait + Clock + RandomSource + Print + Eprint + Sync,
    I: Read + Send + Drop,
>(
    rt: &R,
    alloc: Global,
    hub: &Hub,
    pass: Pass,
    mut board: KeptBoard<'_>,
    page: &[u8],
    captions: &[u8],
    door: Door,
    input: I,
) -> Result<(), ServiceEnd>
    requires { IsPassOf hub.now pass }
{
    let Door {
        listener,
        origins,
        links,
    } = door;
    let origins = slices(alloc, origins.as_slice())?;
    let Ok(input) = BufReader::new(alloc, input) else {
        return Err(ServiceEnd::NoMemory);
    };
    let stop = match Stop::new(&listener) {
        Ok(stop) => stop,
        Err(error) => return Err(ServiceEnd::of_failure(Attempt::Listen, &error)),
    };
    announce(rt, &listener)?;
    let service = Service {
        alloc,
        hub,
        bell: &Bell::new(),
        stop: &stop,
        connections: &Connections::new(),
        links: &links_of(rt, alloc, links),
        notices: &Notices::new(),
        origins: &origins,
        page,
        captions,
    };
    serve_and_save(rt, &service, listener, input, &mut board, pass)
}

// No link yet. Each will wait for as long as the command line says.
fn links_of(clock: &impl Clock, alloc: Global, words: LinkWords) -> Links
    ensures { result ≡ words.grace }
{
    Links::new(alloc, words.grace, Uptime::new(clock))
}

// Serves until a stop, and writes the board at last.
fn serve_and_save<
    R: Files<File = File> + Threads + Wait + Clock + RandomSource + Print + Eprint + Sync,
    I: Read + Send + Drop,
>(
    rt: &R,
    service: &Service<'_>,
    listener: TcpListener,
    input: BufReader<I>,
    board: &mut KeptBoard<'_>,
    pass: Pass,
) -> Result<(), ServiceEnd>
    requires { IsPassOf service.now.hub.now pass }
{
    let (pass, served) = serve_all(rt, rt, service, listener, input, board, pass);
    let saved = save_last(rt, rt, service, board, pass);
    served?;
    saved
}

// The page that the server serves.
fn page_of<'a>(told: &'a Option<Vec<u8>>, own: &'a [u8]) -> &'a [u8] {
    match told {
        Some(told) => told.as_slice(),
        None => own,
    }
}

// Prints where the server listens.
fn announce<R: Print>(rt: &R, listener: &TcpListener) -> Result<(), ServiceEnd> {
    let at = match listener.local_addr() {
        Ok(at) => at,
        Err(error) => return Err(ServiceEnd::of_failure(Attempt::Listen, &error)),
    };
    match println!(rt; "listening {at}") {
        Ok(()) => Ok(()),
        Err(error) => Err(ServiceEnd::of_failure(Attempt::Print, &error)),
    }
}

// Writes the board after all sessions have ended.
fn save_last<R: Wait, F: Files<File = File>>(
    rt: &R,
    files: &F,
    service: &Service<'_>,
    board: &mut KeptBoard<'_>,
    mut pass: Pass,
) -> Result<(), ServiceEnd>
    requires { IsPassOf service.now.hub.now pass }
{
    let text = match board_text(rt, service.alloc, service.hub, &mut pass) {
        Ok(text) => text,
        Err(NoMemory) => return Err(ServiceEnd::NoMemory),
    };
    match board.save(files, text) {
        Ok(()) => Ok(()),
        Err(error) => Err(ServiceEnd::of_failure(Attempt::WriteBoard, &error)),
    }
}

// Runs a thread that accepts connections, one for the operator and one that looks at links, and keeps the board in this one. It returns once all have ended,
// after a stop, or because a thread could not be started. The board may have changed in both cases.
fn serve_all<
    R: Threads + Wait + Clock + RandomSource + Print + Eprint + Sync,
    F: Files<File = File>,
    I: Read + Send + Drop,
>(
    rt: &R,
    files: &F,
    service: &Service<'_>,
    listener: TcpListener,
    input: BufReader<I>,
    board: &mut KeptBoard<'_>,
    mut pass: Pass,
) -> (Pass, Result<(), ServiceEnd>)
    requires { IsPassOf service.now.hub.now pass }
    ensures { IsPassOf service.now.hub.now result.0 }
{
    let acceptors = service.hub.split(&mut pass);
    let operators = service.hub.split(&mut pass);
    thread::scope(
        thread::scope_env(),
        rt,
        |scope| -> (Pass, Result<(), ServiceEnd>)
            requires { IsPassOf service.now.hub.now pass × IsPassOf service.now.hub.now acceptors × IsPassOf service.now.hub.now operators }
            ensures { IsPassOf service.entry.now.hub.now result.0 }
        {
            let acceptor = scope.spawn(
                move ||
                    requires { IsPassOf service.now.hub.now acceptors }
                { accept_all(rt, service, listener, acceptors) },
            );
            if acceptor.is_err() {
                return (pass, Err(ServiceEnd::NoMemory));
            }
            let operator = scope.spawn(
                move ||
                    requires { IsPassOf service.now.hub.now operators }
                { operate(rt, service, input, operators) },
            );
            if operator.is_err() {
                service.stop.tell(rt);
                return (pass, Err(ServiceEnd::NoMemory));
            }
            if scope.spawn(move || tend_links(rt, service)).is_err() {
                service.stop.tell(rt);
                return (pass, Err(ServiceEnd::NoMemory));
            }
            keep(rt, files, service, board, &mut pass);
            (pass, Ok(()))
        },
    )
}

// Accepts connections, each in a thread of its own, until a stop. It returns once all have ended.
fn accept_all<R: Threads + Wait + Clock + RandomSource + Eprint + Sync>(
    rt: &R,
    service: &Service<'_>,
    listener: TcpListener,
    mut pass: Pass,
)
    requires { IsPassOf service.now.hub.now pass }
{
    thread::scope(
        thread::scope_env(),
        rt,
        |scope|
            requires { IsPassOf service.now.hub.now pass }
        {
            for _ in rt.forever() {
                let Some((visit, stream)) = next_connection(rt, service, &listener) else {
                    break;
                };
                let theirs = service.hub.split(&mut pass);
                let child = scope.spawn(
                    move ||
                        requires { IsPassOf service.now.hub.now theirs }
                    { serve_connection(rt, service, &stream, visit, theirs) },
                );
                if child.is_err() {
                    service.notices.tell(rt, Notice::CannotAccept);
                }
            }
            drop(listener);
            end_connections(rt, service);
        },
    )
}

// The next connection that can be served, with its place among those that are open. Those too many are turned away. `None` after a stop.
fn next_connection<'a, R: Wait + Clock + Eprint>(
    rt: &'a R,
    service: &Service<'a>,
    listener: &TcpListener,
) -> Option<(Visit<'a, R>, TcpStream)> {
    for _ in rt.forever() {
        let accepted = listener.accept();
        if service.stop.is_told(rt) {
            return None;
        }
        match accepted {
            Ok((stream, _)) => {
                if let Some(visit) = service.connections.enter(rt, &stream) {
                    return Some((visit, stream));
                }
                let _ = turn_away(service.alloc, &stream);
            }
            Err(error) => {
                if let Some(notice) = notice_of_accept(&error) {
                    service.notices.tell(rt, notice);
                    service.stop.wait(rt, Duration::from_millis(ACCEPT_PAUSE));
                }
            }
        }
    }
    unreachable!()
}

// Looks at the links each second, until a stop.
fn tend_links<R: Wait + Clock>(rt: &R, service: &Service<'_>) {
    for _ in rt.forever() {
        if service.stop.wait(rt, Duration::from_secs(LOOK)) {
            return;
        }
        service.links.tend(rt);
    }
}

// Ends the links and the connections that are open: first as if their clients were gone. After two seconds it cuts those that carry links, and after five seconds all,
// regardless of what they do.
fn end_connections<R: Wait + Clock>(rt: &R, service: &Service<'_>) {
    service.links.stop(rt);
    service.connections.end_bytes(rt);
    let mut farewell = Farewell::new();
    for _ in rt.forever() {
        match farewell.after_look(service.connections.are_none(rt)) {
            Parting::Over => return,
            Parting::Pause(pause) => thread::sleep(rt, Duration::from_millis(pause)),
            Parting::CutCarriers(pause) => {
                service.links.lose_all(rt);
                service.connections.cut_carriers(rt);
                thread::sleep(rt, Duration::from_millis(pause));
            }
            Parting::Cut => {
                service.connections.cut(rt);
                return;
            }
        }
    }
}
