//! How a link is carried.

/// How a link is carried.
#[derive(Clone, Copy, Debug, PartialEq, Eq)]
pub enum Carriage {
    /// No connection carries it.
    Cut,
    /// A connection is to carry it, and the server has not answered on that.
    Asking,
    /// A connection carries it.
    Carried,
    /// The server's last line has come. The client only confirms it.
    Last,
    /// It is over. Nothing is written or taken.
    Over,
}
