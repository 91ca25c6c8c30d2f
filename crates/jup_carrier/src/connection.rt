//! A connection that carries a link.

use std::net::{Shutdown, TcpStream};

/// What a carrier was given last.
#[derive(Clone, Copy, Debug, PartialEq, Eq)]
pub enum CarrierEnd {
    /// The last line of its link.
    LastLine,
    /// Another line, or none: nothing of its link is left.
    Nothing,
}

/// A connection that one thread reads and another one writes. Each of them can end it.
pub trait Connection {
    /// Ends its own direction after what was written: the peer reads to the end of that.
    fn finish(&self, end: CarrierEnd);

    /// Ends both directions. A read and a write that wait return.
    fn cut(&self);
}

impl Connection for TcpStream {
    fn finish(&self, _end: CarrierEnd) {
        let _ = self.shutdown(Shutdown::Write);
    }

    fn cut(&self) {
        let _ = self.shutdown(Shutdown::Both);
    }
}
