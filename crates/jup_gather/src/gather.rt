//! The lines of a link, gathered one by one.

ghost use Rattle.std.specs.Prelude.{◌≡◌, ◌≢◌, ◌↔◌, List, [], ◌∷◌, ◌++◌, Some, IfOk, OnErr, IsTrue, IsSomeAnd};
ghost use Rattle.jup_wire.specs.declared.line.Line.{Line};
ghost use Rattle.jup_gather.specs.Gathering.{Piece, HasGathered, Gathers, AsksMemory, pieces_of};

use crate::gathered::Gathered;
use crate::taken::{State, Taken, begin, go_on};
use jup_wire::Line;
use jup_xform::NoMemory;
use std::alloc::Global;
use std::marker::Model;
use std::mem;

/// Gathers the lines of a link into messages.
///
/// Contracts see the lines that are held, those of a message that has begun; or nothing once a line was misplaced.
#[derive(Drop)]
pub struct Gather {
    state: State,
}

impl Model for Gather {
    ghost use Rattle.std.specs.Prelude.{List, Option};
    ghost use Rattle.jup_wire.specs.declared.line.Line.{Line};
    ghost use Rattle.jup_gather.specs.Gathering.{held};

    ghost Value = { Option (List Line) };

    ghost view = { λ a. held a.state };
}

impl Gather {
    /// A gathering before the first line. It takes no memory.
    pub fn new() -> Gather
        ensures held { result ≡ Some [] }
        ensures gathered { HasGathered [] [] result }
    {
        Gather {
            state: State::Nothing,
        }
    }

    /// Whether a message has begun, so that the lines may not end here.
    pub fn part(&self) -> bool
        ensures { IsTrue result ↔ IsSomeAnd self.now (λ part. part ≢ []) }
    {
        matches!(&self.state, State::Begun(_))
    }

    /// Takes the next line. Once a line is misplaced, so is every later one.
    ///
    /// It takes memory for the operations of a batch of two or more, at its first line. If an allocation fails,
    /// nothing changes.
    pub fn push(&mut self, alloc: Global, line: &Line) -> Result<Gathered, NoMemory>
        ensures step { IfOk result (λ gathered. Gathers self.old line.now gathered self.new) }
        // Whatever came before: the messages and lines given so far are those of all the lines so far.
        ensures gathered { IfOk result (λ gathered. (lines : List Line) (pieces : List Piece)
            → HasGathered lines pieces self.old
            → HasGathered (lines ++ line.now ∷ []) (pieces ++ pieces_of gathered) self.new) }
        ensures err { OnErr result (self.new ≡ self.old) }
        ensures refused { OnErr result (AsksMemory line.now) }
    {
        let taken = match mem::replace(&mut self.state, State::Nothing) {
            State::Nothing => begin(alloc, *line)?,
            State::Begun(part) => go_on(part, *line),
            State::Stopped => Taken::stop(),
        };
        self.state = taken.state;
        Ok(taken.gathered)
    }
}
