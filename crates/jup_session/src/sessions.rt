//! Sessions: one site over one link, with a thread that reads and a thread that writes.

mod bell;
mod costly;
mod due;
mod ending;
mod greeting;
mod halves;
mod leaving;
mod link;
mod reading;
mod serving;
mod share;
mod undone;
mod watch;
mod watched;
mod writing;

pub use bell::Bell;
pub use serving::{Serving, Session, serve_link, serve_session};
pub use undone::Undone;
