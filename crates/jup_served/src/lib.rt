//! What a person at a client relies on, by the contract of the session that serves their site.
//!
//! [`served_sites_are_honest`] is a theorem. The bytes that a session read and wrote, and the calls that it made, give
//! its site a reliable link, so that all of `jup_honest` holds. Where sessions alone call a hub, each site is its own
//! session's. [`served_runs_exist`] shows that the premises can be met. [`clients_show_their_sites`] says that a client
//! shows and says what the run of its site has.
#![tactic(auto)]

mod promises;

pub use promises::{clients_show_their_sites, served_runs_exist, served_sites_are_honest};
