//! One session of a connection.
ghost use Rattle.jup_hub.specs.Passes.{IsPassOf};

use crate::connections::Connections;
use crate::notices::Notices;
use crate::stop::Stop;
use jup_carrier::Links;
use jup_hub::{Hub, Pass};
use jup_io::Peer;
use jup_service::notice_of;
use jup_session::{Bell, Ending, Open, Serving};
use std::alloc::Global;
use std::io::Read;
use std::sync::Wait;
use std::thread::Threads;
use std::time::Clock;

/// What all connections share.
#[derive(Clone, Copy)]
pub(crate) struct Service<'a> {
    pub(crate) alloc: Global,
    pub(crate) hub: &'a Hub,
    pub(crate) bell: &'a Bell,
    pub(crate) stop: &'a Stop,
    pub(crate) connections: &'a Connections,
    pub(crate) links: &'a Links,
    pub(crate) notices: &'a Notices,
    pub(crate) origins: &'a [&'a [u8]],
    pub(crate) page: &'a [u8],
    pub(crate) captions: &'a [u8],
}

/// Runs a session of protocol 3 over a reader and a writer of lines.
pub(crate) fn run_session<
    R: Threads + Wait + Clock + Eprint + Sync,
    I: Read + Drop,
    O: Peer + Send + Drop,
>(rt: &R, service: &Service<'_>, reader: I, writer: O, pass: Pass)
    requires { IsPassOf service.now.hub.now pass }
{
    let linked = service.connections.begin_link(rt);
    run_site(rt, service, reader, writer, pass);
    service.connections.end_link(rt, linked);
}

/// Runs the session of a site, which takes a place among all.
pub(crate) fn run_site<
    R: Threads + Wait + Clock + Eprint + Sync,
    I: Read + Drop,
    O: Peer + Send + Drop,
>(rt: &R, service: &Service<'_>, reader: I, writer: O, pass: Pass)
    requires { IsPassOf service.now.hub.now pass }
{
    let serving = Serving {
        alloc: service.alloc,
        hub: service.hub,
        bell: service.bell,
        gate: &Open,
    };
    service.links.take_seat(rt);
    let session = serving.serve(rt, reader, writer, pass);
    service.links.leave_seat(rt);
    if let Ending::Fault(number) = session.ending {
        if let Some(notice) = notice_of(number) {
            service.notices.tell(rt, notice);
        }
    }
}
