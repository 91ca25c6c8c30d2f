//! How far a session is, and what a line of the server makes of that.
ghost use Rattle.std.specs.Prelude.{◌≡◌};
ghost use Rattle.jup_embed.specs.Sessions.{PhaseHears, nothing_heard};
ghost use Rattle.jup_embed.specs.declared.phase.Phase.TheVariants.{Open};

use jup_client::{ClientEnd, ClientState, Heard, Opening};
use jup_window::Within;
use jup_wire::Line;
use std::alloc::Global;
use std::marker::PhantomData;

/// How far a session is, with what it has.
#[derive(Drop)]
pub enum Phase {
    /// The server has not greeted.
    Greeting,
    /// Lines of its board come.
    Opening(Opening),
    Open(ClientState),
    Over(ClientEnd),
}

impl Phase {
    /// Hears the next line of the server. A refused line leaves the phase for the caller to end.
    pub(crate) fn hear(&mut self, alloc: Global, line: &Line) -> Result<Heard, ClientEnd>
        ensures { PhaseHears line.now self.old result self.new }
    {
        let _of: Within = PhantomData;
        match self {
            Phase::Greeting => {
                *self = Phase::Opening(Opening::greeted(alloc, line)?);
                Ok(nothing_heard())
            }
            Phase::Opening(opening) => {
                if let Some(state) = opening.hear(alloc, line)? {
                    self.open(state);
                }
                Ok(nothing_heard())
            }
            Phase::Open(state) => state.hear(alloc, line),
            Phase::Over(end) => Err(*end),
        }
    }

    // The welcome has ended.
    fn open(&mut self, state: ClientState)
        ensures { self.new ≡ Open state }
    {
        *self = Phase::Open(state);
    }
}

// What a line does that the client does not answer, and of which its user sees nothing.
fn nothing_heard() -> Heard
    ensures { result ≡ nothing_heard }
{
    Heard {
        said: None,
        is_synced: false,
        shown: None,
    }
}
