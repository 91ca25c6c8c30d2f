//! The connections that are open, so that a stop can end them.

use jup_service::{Linked, Links, Place, Places};
use std::net::{Shutdown, TcpStream};
use std::sync::{Mutex, Wait};

/// A connection that is open.
#[derive(Drop)]
struct Socket {
    stream: TcpStream,
    /// Whether it carries a link.
    carries: Mutex<bool>,
}

/// The connections that are open.
#[derive(Drop)]
pub(crate) struct Connections {
    sockets: Mutex<Places<Socket>>,
    links: Mutex<Links>,
}

/// A connection that has its place. The place is free again once this is dropped.
pub(crate) struct Visit<'a, R: Wait> {
    rt: &'a R,
    connections: &'a Connections,
    place: Place,
}

impl<'a, R: Wait> Drop for Visit<'a, R> {
    fn drop(self) {
        let Visit {
            rt,
            connections,
            place,
        } = self;
        connections.sockets.lock(rt).leave(place);
    }
}

impl<'a, R: Wait> Visit<'a, R> {
    /// The connection carries a link from here on.
    pub(crate) fn begin_carrying(&self) {
        let sockets = self.connections.sockets.lock(self.rt);
        if let Some(socket) = sockets.held(&self.place) {
            *socket.carries.lock(self.rt) = true;
        }
    }
}

impl Connections {
    pub(crate) fn new() -> Connections {
        Connections {
            sockets: Mutex::new(Places::new()),
            links: Mutex::new(Links::new()),
        }
    }

    /// Keeps a handle of a socket as long as the visit lasts. `None` if too many are open, or no handle can be made.
    pub(crate) fn enter<'a, R: Wait>(
        &'a self,
        rt: &'a R,
        stream: &TcpStream,
    ) -> Option<Visit<'a, R>> {
        let socket = Socket {
            stream: stream.try_clone().ok()?,
            carries: Mutex::new(false),
        };
        let place = self.sockets.lock(rt).enter(socket)?;
        Some(Visit {
            rt,
            connections: self,
            place,
        })
    }

    pub(crate) fn are_none<R: Wait>(&self, rt: &R) -> bool {
        self.sockets.lock(rt).are_free()
    }

    /// Ends the bytes of each connection that carries no link.
    pub(crate) fn end_bytes<R: Wait>(&self, rt: &R) {
        let sockets = self.sockets.lock(rt);
        for socket in sockets.as_slice().iter().flatten() {
            if !*socket.carries.lock(rt) {
                let _ = socket.stream.shutdown(Shutdown::Read);
            }
        }
    }

    /// Cuts each connection that carries a link.
    pub(crate) fn cut_carriers<R: Wait>(&self, rt: &R) {
        let sockets = self.sockets.lock(rt);
        for socket in sockets.as_slice().iter().flatten() {
            if *socket.carries.lock(rt) {
                let _ = socket.stream.shutdown(Shutdown::Both);
            }
        }
    }

    /// Cuts all connections.
    pub(crate) fn cut<R: Wait>(&self, rt: &R) {
        let sockets = self.sockets.lock(rt);
        for socket in sockets.as_slice().iter().flatten() {
            let _ = socket.stream.shutdown(Shutdown::Both);
        }
    }

    /// Counts a link up to its end.
    pub(crate) fn begin_link<R: Wait>(&self, rt: &R) -> Linked {
        self.links.lock(rt).begin()
    }

    pub(crate) fn end_link<R: Wait>(&self, rt: &R, linked: Linked) {
        self.links.lock(rt).end(linked);
    }

    pub(crate) fn count_links<R: Wait>(&self, rt: &R) -> u32 {
        self.links.lock(rt).count()
    }
}
