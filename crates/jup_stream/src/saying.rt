//! What a site says by its link.
ghost use Rattle.std.specs.Prelude.{OnOk};
ghost use Rattle.jup_gather.specs.Gathering.{piece_lines};
ghost use Rattle.jup_stream.specs.Saying.{said_piece};

use jup_gather::put_message;
use jup_star::Up;
use jup_wire::{Line, LineSink};

/// What a site says by its link, after its greeting.
#[derive(Debug, Drop, PartialEq, Eq)]
pub enum Said {
    /// A message to the star.
    Up(Up),
    /// Nothing more comes.
    Bye,
}

/// Puts the lines of what a site says.
pub fn put_said<S: LineSink>(sink: &mut S, said: &Said) -> Result<(), S::Fault>
    ensures { OnOk result (S.takes sink.old (piece_lines (said_piece said.now)) sink.new) }
{
    match said {
        Said::Up(up) => put_message(sink, up),
        Said::Bye => sink.put(Line::Bye),
    }
}
