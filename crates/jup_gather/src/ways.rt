//! What the two ways of a link carry.
ghost use Rattle.std.specs.Prelude.{◌≡◌, Option, OnOk};
ghost use Rattle.jup_gather.specs.Gathering.{Piece, piece_lines, up_piece, up_in, down_piece, down_in, shape_piece, message_given, IsWay};
ghost use Rattle.jup_gather.specs.Gathering as pieces;

use crate::gathered::Gathered;
use crate::lines::put_op;
use jup_batch::BoardBatch;
use jup_link::Msg;
use jup_star::{Down, Up};
use jup_wire::{Line, LineSink};

/// What a message is on a link.
#[derive(Clone, Copy)]
pub enum Shape<'a> {
    /// An edit, of several lines.
    Edit(&'a Msg<BoardBatch>),
    /// A line that stands alone.
    Alone(Line),
}

/// What one way of a link carries: edits, and lines that stand alone.
pub trait Message: Drop {
    /// What a message is on the link.
    ghost piece: { Self → Piece };

    /// The message that a piece is, if it is one of this way.
    ghost of_piece: { Piece → Option Self };

    /// The messages that may be sent: any other has a line without a spelling.
    ghost may_go: { Self → Type 0 };

    ghost way: { (m : Self) → IsWay piece of_piece may_go m };

    /// What it is on the link.
    fn shape(&self) -> Shape<'_>
        ensures { shape_piece result ≡ piece self.now };

    /// The message of an edit.
    fn edit(msg: Msg<BoardBatch>) -> Self
        ensures { piece result ≡ pieces.Message msg };

    /// The message that a line alone is, if it is one of this way.
    fn alone(line: &Line) -> Option<Self>
        ensures { result ≡ of_piece (pieces.Alone line.now) };
}

impl Message for Up {
    ghost use Rattle.jup_star.specs.Messages.{UpRelabelsNoText};
    ghost use Rattle.jup_gather.specs.Gathering.{up_way};

    ghost piece = { up_piece };

    ghost of_piece = { up_in };

    ghost may_go = { UpRelabelsNoText };

    ghost way = { up_way };

    fn shape(&self) -> Shape<'_> {
        match self {
            Up::Op(msg) => Shape::Edit(msg),
            Up::Ack(count) => Shape::Alone(Line::Ack(*count)),
            Up::Ping(number) => Shape::Alone(Line::Ping(*number)),
        }
    }

    fn edit(msg: Msg<BoardBatch>) -> Up {
        Up::Op(msg)
    }

    fn alone(line: &Line) -> Option<Up> {
        match line {
            Line::Ack(count) => Some(Up::Ack(*count)),
            Line::Ping(number) => Some(Up::Ping(*number)),
            _ => None,
        }
    }
}

impl Message for Down {
    ghost use Rattle.jup_star.specs.Messages.{DownRelabelsNoText};
    ghost use Rattle.jup_gather.specs.Gathering.{down_way};

    ghost piece = { down_piece };

    ghost of_piece = { down_in };

    ghost may_go = { DownRelabelsNoText };

    ghost way = { down_way };

    fn shape(&self) -> Shape<'_> {
        match self {
            Down::Op(msg) => Shape::Edit(msg),
            Down::Ack(count) => Shape::Alone(Line::Ack(*count)),
            Down::Pong(number) => Shape::Alone(Line::Pong(*number)),
        }
    }

    fn edit(msg: Msg<BoardBatch>) -> Down {
        Down::Op(msg)
    }

    fn alone(line: &Line) -> Option<Down> {
        match line {
            Line::Ack(count) => Some(Down::Ack(*count)),
            Line::Pong(number) => Some(Down::Pong(*number)),
            _ => None,
        }
    }
}

/// Puts the lines of a message.
pub fn put_message<M: Message, S: LineSink>(sink: &mut S, message: &M) -> Result<(), S::Fault>
    ensures { OnOk result (S.takes sink.old (piece_lines (M.piece message.now)) sink.new) }
{
    match message.shape() {
        Shape::Edit(msg) => put_op(sink, msg),
        Shape::Alone(line) => sink.put(line),
    }
}

/// The message of one way that lines give; or what they give, if that is no message of it.
pub fn message_of<M: Message>(gathered: Gathered) -> Result<M, Gathered>
    ensures { result ≡ message_given M.of_piece gathered }
{
    match gathered {
        Gathered::Whole(msg) => Ok(M::edit(msg)),
        Gathered::Plain(line) => M::alone(&line).ok_or(Gathered::Plain(line)),
        other => Err(other),
    }
}
