//! What a link reads and writes: lines over any reader and any writer, byte for byte. Both ends of a link stand on it, the sessions of a server and the clients.
//!
//! A [`Source`] hands on the lines that a reader's bytes spell, and an [`Output`] writes lines to a writer. Contracts name the
//! bytes that were read and written if they can name those of the reader and of the writer, as of slices and vectors. They
//! can't at a socket: there the same code runs, and what the socket does with bytes is trusted.
//!
//! What a site says by its link is a [`Said`], and what is wrong with a link a [`StreamFault`].
#![tactic(auto)]

mod faults;
mod output;
mod saying;
mod source;

pub use faults::{Stop, StreamFault};
pub use jup_faults::cause_of;
pub use output::{Output, pass_bytes, write_bytes};
pub use saying::{Said, put_said};
pub use source::{Source, count_read, length_read};
