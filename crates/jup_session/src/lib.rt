//! Sessions over a shared star: [`serve_link`] serves one site over one link.
#![tactic(auto)]

mod gate;
mod laws;
mod sessions;

pub use gate::{Gate, Open, pass_gate, take_edit};
pub use jup_io::Peer;
pub use jup_net::{Outgoing, hang_up};
pub use jup_rules::{Ending, FarBehind, SessionFault, Untaken};
pub use laws::one_session;
pub use sessions::{Bell, Serving, Session, Undone, serve_link, serve_session};
