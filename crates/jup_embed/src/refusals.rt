//! Why a call of a client is refused.
ghost use Rattle.std.specs.Prelude.{◌≡◌};
ghost use Rattle.jup_embed.specs.Numbers.{embed_fault_number};

use jup_client::ClientEnd;
use jup_window::EditFault;
use jup_xform::NoMemory;
use thiserror::Error;

/// Why a call of a client is refused.
#[derive(Clone, Copy, Debug, PartialEq, Eq, Error)]
pub enum EmbedFault {
    /// The server has not sent its whole board yet.
    #[error("the session is not open yet")]
    NotOpen,
    /// The session is over, for this reason.
    #[error(transparent)]
    Over(ClientEnd),
    /// The site refuses the edit.
    #[error(transparent)]
    Edit(EditFault),
    #[error("{}", NoMemory)]
    NoMemory,
}

impl EmbedFault {
    /// The number of this fault: its number elsewhere, and 91 where the session is not open yet.
    pub fn number(self) -> u32
        ensures { result ≡ embed_fault_number self }
    {
        match self {
            EmbedFault::NotOpen => 91,
            EmbedFault::Over(end) => end.number(),
            EmbedFault::Edit(fault) => fault.number(),
            EmbedFault::NoMemory => NoMemory.number(),
        }
    }
}

impl From<NoMemory> for EmbedFault {
    ghost use Rattle.jup_embed.specs.declared.refusals.EmbedFault.TheVariants.{NoMemory as Refused};

    ghost from_gives = { λ _ made. made ≡ Refused };

    fn from(_fault: NoMemory) -> EmbedFault {
        EmbedFault::NoMemory
    }
}
