//! Links that outlive their connections, over any connection: what waits, wakes, reads and writes. [`jup_links`] decides.
//!
//! The session of a link reads a [`LinkReader`] and writes a [`LinkWriter`], which wait while no carrier is there. [`carry`] pumps one connection in two threads, until
//! it is cut or a newer one has the link. [`Links`] knows all links of a server by their tokens.
#![tactic(auto)]

mod carrying;
mod connection;
mod greeting;
mod hearing;
mod link;
mod links;
mod reader;
mod tokens;
mod uptime;
mod writer;

pub use carrying::{Carrier, carry};
pub use connection::{CarrierEnd, Connection};
pub use greeting::{First, Greeted, Patience, Timed, greet, greet_by};
pub use hearing::Hearing;
pub use link::{Link, Resumption};
pub use links::{Found, Links};
pub use reader::LinkReader;
pub use tokens::{NoTokens, RandomTokens, Tokens};
pub use uptime::Uptime;
pub use writer::LinkWriter;
