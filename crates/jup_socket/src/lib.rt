//! What the bytes of a link say of a site and its hub.
//!
//! [`sockets_are_reliable`] is a theorem. If the bytes that either end has read are the first of those that the
//! other wrote, the link is reliable, so that all of `jup_honest` holds. [`clients_are_honest`] says that a
//! client of `jup_client` takes the steps of its site.
#![tactic(auto)]

mod promises;

pub use promises::{clients_are_honest, sockets_are_reliable};
