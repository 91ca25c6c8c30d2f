//! What a site relies on over a link that outlives its connections.
//!
//! [`carried_links_are_reliable`] is a theorem of protocol 4. Connections break as often as they like, and each brings a beginning of the bytes
//! that were written to it. Then the link is reliable, and no message comes before it was sent, so that all of `jup_honest` holds.
//! [`carried_sites_are_honest`] has the same of a site that a session serves. [`carried_runs_exist`] shows that the premises can be met, with
//! connections that break within a line.
#![tactic(auto)]

mod promises;

pub use promises::{carried_links_are_reliable, carried_runs_exist, carried_sites_are_honest};
