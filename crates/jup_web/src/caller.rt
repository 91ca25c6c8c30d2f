//! A connection before it is known what it carries, and a connection by lines.
use crate::browser::LOOK;
use crate::connections::Visit;
use crate::stop::Stop;
use crate::until_stop::UntilStop;
use jup_carrier::{Connection, Timed};
use std::io;
use std::io::Read;
use std::net::TcpStream;
use std::sync::Wait;
use std::time::Duration;

/// What reads a connection. A stop ends its bytes, even if more come, until it carries a link.
pub(crate) trait Caller: Timed {
    /// It carries a link from here on.
    fn begin_carrying(&mut self);
}

/// A connection that carries a session of protocol 3 or a link.
pub(crate) trait Ends: Connection {
    /// A session of protocol 3 has ended. Whether the server stops.
    fn end_session(&self, stops: bool);
}

impl Ends for TcpStream {
    fn end_session(&self, _stops: bool) {}
}

/// A connection of which it is not known yet what it carries: what reads it, what writes to it and what ends it.
#[derive(Drop)]
pub(crate) struct Call<'a, R: Wait, I: Drop, O: Drop, C> {
    pub(crate) from: I,
    pub(crate) to: O,
    pub(crate) connection: &'a C,
    pub(crate) stream: &'a TcpStream,
    pub(crate) visit: Visit<'a, R>,
}

/// Reads a connection by lines, first what was read of it before.
#[derive(Drop)]
pub(crate) struct LineBytes<'a, R: Wait> {
    rt: &'a R,
    stop: &'a Stop,
    first: &'a [u8],
    from: UntilStop<&'a TcpStream>,
}

impl<'a, R: Wait> LineBytes<'a, R> {
    pub(crate) fn new(
        rt: &'a R,
        stop: &'a Stop,
        first: &'a [u8],
        stream: &'a TcpStream,
    ) -> LineBytes<'a, R> {
        LineBytes {
            rt,
            stop,
            first,
            from: UntilStop::new(stream),
        }
    }
}

impl<'a, R: Wait> Read for LineBytes<'a, R> {
    fn read(&mut self, buf: &mut [u8]) -> io::Result<usize> {
        if !self.first.is_empty() {
            return self.first.read(buf);
        }
        self.from.read(self.stop.look(self.rt), buf)
    }
}

impl<'a, R: Wait> Timed for LineBytes<'a, R> {
    fn wait_at_most(&mut self, wait: Option<Duration>) -> io::Result<()> {
        self.from.wait_at_most(wait)
    }
}

impl<'a, R: Wait> Caller for LineBytes<'a, R> {
    fn begin_carrying(&mut self) {
        self.from.begin_carrying();
        let _ = self.wait_at_most(Some(Duration::from_secs(LOOK)));
    }
}
