//! What a connection carries: a session of protocol 3, a new link, or a link that goes on.
ghost use Rattle.jup_hub.specs.Passes.{IsPassOf};

use crate::caller::{Call, Caller, Ends};
use crate::session::{Service, run_session, run_site};
use jup_carrier::{
    Carrier, CarrierEnd, First, Found, Greeted, Link, LinkReader, LinkWriter, Patience,
    RandomTokens, Resumption, Tokens, carry, greet_by,
};
use jup_faults::Fault;
use jup_hub::Pass;
use jup_io::Peer;
use jup_resume::{FirstLine, Token};
use jup_session::hang_up;
use std::alloc::{AllocError, Global};
use std::io::{Read, Write};
use std::net::Shutdown;
use std::random::RandomSource;
use std::sync::{Arc, Wait};
use std::thread;
use std::thread::Threads;
use std::time::Clock;

/// Serves a connection to its end. Its first line says what it carries.
pub(crate) fn serve_call<
    R: Threads + Wait + Clock + RandomSource + Eprint + Sync,
    I: Caller + Send + Drop,
    O: Peer + Send + Drop,
    C: Ends + Sync,
>(rt: &R, service: &Service<'_>, mut call: Call<'_, R, I, O, C>, pass: Pass)
    requires { IsPassOf service.now.hub.now pass }
{
    let uptime = service.links.uptime();
    let greeted = greet_by(rt, uptime, &mut call.from, Patience::Protocol);
    serve_greeted(rt, service, call, &greeted, pass);
}

// Serves a connection by what its first line says.
fn serve_greeted<
    R: Threads + Wait + Clock + RandomSource + Eprint + Sync,
    I: Caller + Send + Drop,
    O: Peer + Send + Drop,
    C: Ends + Sync,
>(rt: &R, service: &Service<'_>, call: Call<'_, R, I, O, C>, greeted: &Greeted, pass: Pass)
    requires { IsPassOf service.now.hub.now pass }
{
    match greeted.first {
        First::Session | First::Early | First::Line(FirstLine::Session) => {
            serve_session(rt, service, call, greeted, pass);
        }
        First::Nothing => part(rt, call),
        First::Line(FirstLine::Opens) => open(rt, service, call, greeted, pass),
        First::Line(FirstLine::Resumes { token, taken }) => {
            resume(rt, service, call, greeted, &token, taken);
        }
        First::Line(FirstLine::OtherVersion) => refuse(rt, service.alloc, call, Fault::BadVersion),
        First::Line(FirstLine::Misspelled) => refuse(rt, service.alloc, call, Fault::BadLine),
    }
}

// A session of protocol 3.
fn serve_session<
    R: Threads + Wait + Clock + Eprint + Sync,
    I: Caller + Drop,
    O: Peer + Send + Drop,
    C: Ends,
>(rt: &R, service: &Service<'_>, call: Call<'_, R, I, O, C>, greeted: &Greeted, pass: Pass)
    requires { IsPassOf service.now.hub.now pass }
{
    let Call {
        mut from,
        to,
        connection,
        stream,
        visit,
    } = call;
    let _ = from.wait_at_most(None);
    run_session(rt, service, greeted.rest().chain(from), to, pass);
    connection.end_session(service.stop.is_told(rt));
    hang_up(rt, stream);
    drop(visit);
}

// A new link, which this connection carries first. Its session runs in this thread.
fn open<
    R: Threads + Wait + Clock + RandomSource + Eprint + Sync,
    I: Caller + Send + Drop,
    O: Peer + Send + Drop,
    C: Ends + Sync,
>(rt: &R, service: &Service<'_>, call: Call<'_, R, I, O, C>, greeted: &Greeted, pass: Pass)
    requires { IsPassOf service.now.hub.now pass }
{
    match new_link(rt, service) {
        Some(link) => serve_link(rt, service, call, greeted, &*link, pass),
        None => refuse(rt, service.alloc, call, Fault::NoMemory),
    }
}

fn new_link<R: Wait + RandomSource>(rt: &R, service: &Service<'_>) -> Option<Arc<Link, Global>> {
    let token = RandomTokens::new(rt).draw()?;
    service.links.open(rt, token).ok()
}

fn serve_link<
    R: Threads + Wait + Clock + Eprint + Sync,
    I: Caller + Send + Drop,
    O: Peer + Send + Drop,
    C: Ends + Sync,
>(
    rt: &R,
    service: &Service<'_>,
    call: Call<'_, R, I, O, C>,
    greeted: &Greeted,
    link: &Link,
    pass: Pass,
)
    requires { IsPassOf service.now.hub.now pass }
{
    let stream = call.stream;
    thread::scope(
        thread::scope_env(),
        rt,
        |scope|
            requires { IsPassOf service.now.hub.now pass }
        {
            let child = scope.spawn(move || carry_by(rt, service, call, greeted, link, 1));
            if child.is_ok() {
                let reader = LinkReader::new(rt, link);
                run_site(rt, service, reader, LinkWriter::new(rt, link), pass);
            } else {
                hang_up(rt, stream);
            }
            link.close(rt, service.links.uptime().millis(rt));
            service.links.tend(rt);
        },
    );
}

// Carries a link on.
fn resume<
    R: Threads + Wait + Clock + Sync,
    I: Caller + Drop,
    O: Peer + Send + Drop,
    C: Ends + Sync,
>(
    rt: &R,
    service: &Service<'_>,
    call: Call<'_, R, I, O, C>,
    greeted: &Greeted,
    token: &Token,
    taken: u32,
) {
    let link = match service.links.find(rt, token) {
        Found::Link(link) => link,
        Found::Count(count) => return end(rt, service.alloc, call, count),
        Found::Nothing => return refuse(rt, service.alloc, call, Fault::NoSuchLink),
    };
    match link.resume(rt, taken, service.links.uptime().millis(rt)) {
        Resumption::GoesOn { carrier } => carry_by(rt, service, call, greeted, &*link, carrier),
        Resumption::BadTaken => refuse(rt, service.alloc, call, Fault::BadTaken),
        Resumption::Ended { taken } => end(rt, service.alloc, call, taken),
    }
}

// Carries a link over a connection until that ends.
fn carry_by<
    R: Threads + Wait + Clock + Sync,
    I: Caller + Drop,
    O: Peer + Send + Drop,
    C: Ends + Sync,
>(
    rt: &R,
    service: &Service<'_>,
    call: Call<'_, R, I, O, C>,
    greeted: &Greeted,
    link: &Link,
    number: u64,
) {
    let Call {
        mut from,
        to,
        connection,
        stream,
        visit,
    } = call;
    from.begin_carrying();
    visit.begin_carrying();
    let carrier = Carrier {
        link,
        number,
        uptime: service.links.uptime(),
    };
    let linked = service.connections.begin_link(rt);
    carry(
        rt,
        service.alloc,
        carrier,
        connection,
        greeted.rest(),
        from,
        to,
    );
    service.connections.end_link(rt, linked);
    service.links.tend(rt);
    hang_up(rt, stream);
    let _ = stream.shutdown(Shutdown::Both);
    drop(visit);
}

// Answers a first line by a fault, and nothing else.
fn refuse<R: Wait + Clock, I: Drop, O: Peer + Drop, C: Ends>(
    rt: &R,
    alloc: Global,
    call: Call<'_, R, I, O, C>,
    fault: Fault,
) {
    let number = fault.number();
    answer(rt, call, format!(in alloc; "error {number}\n"));
}

// Answers a `resume` of a link of which only the count is left.
fn end<R: Wait + Clock, I: Drop, O: Peer + Drop, C: Ends>(
    rt: &R,
    alloc: Global,
    call: Call<'_, R, I, O, C>,
    taken: u32,
) {
    answer(rt, call, format!(in alloc; "ended {taken}\n"));
}

// Answers a first line by a line, and nothing else: by nothing if there was no memory for the line.
fn answer<R: Wait + Clock, I: Drop, O: Peer + Drop, C: Ends>(
    rt: &R,
    mut call: Call<'_, R, I, O, C>,
    line: Result<String, AllocError>,
) {
    if let Ok(line) = line {
        let _ = call.to.write_all(line.as_bytes());
    }
    part(rt, call);
}

// Ends a connection that carries nothing.
fn part<R: Wait + Clock, I: Drop, O: Drop, C: Ends>(rt: &R, call: Call<'_, R, I, O, C>) {
    call.connection.finish(CarrierEnd::Nothing);
    hang_up(rt, call.stream);
}
