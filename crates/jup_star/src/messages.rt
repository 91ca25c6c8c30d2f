//! What travels between a site and the star, and what the star keeps of it.

use jup_batch::{BoardBatch, BoardEdits};
use jup_link::Msg;

/// What a site sends up to the star.
#[derive(Debug, Drop, PartialEq, Eq)]
pub enum Up<T = BoardBatch> {
    /// An edit of the site.
    Op(Msg<T>),
    /// How many operations the site received.
    Ack(u32),
    /// A question that is answered by a pong with the same number.
    Ping(u32),
}

/// What the star sends down to a site.
#[derive(Debug, Drop, PartialEq, Eq)]
pub enum Down<T = BoardBatch> {
    /// An edit of another site.
    Op(Msg<T>),
    /// How many operations the star received from the site.
    Ack(u32),
    /// The answer to a ping with the same number.
    Pong(u32),
}

/// An entry of the star's order: an edit as the message of its site bore it.
#[derive(Debug, Drop, PartialEq, Eq)]
pub struct Entry<E = BoardEdits> {
    pub site: u32,
    pub edit: E,
}
