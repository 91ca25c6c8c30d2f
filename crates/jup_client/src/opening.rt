//! What a client makes of its server's welcome.
ghost use Rattle.std.specs.Prelude.{◌≡◌, ◌≢◌, List, [], ◌∷◌, ◌++◌, IfOk, IsTrue, IsFalse};
ghost use Rattle.jup_wire.specs.declared.line.Line.{Line};
ghost use Rattle.jup_wire.specs.declared.line.Line.TheVariants.{Ready};
ghost use Rattle.jup_client.specs.Clients.{refusal_of, IsOpened, HasTold, IsGreeted, Opens, Extends, is_of_board};

use crate::{ClientEnd, ClientState};
use jup_gather::Gather;
use jup_layout::{BoardBuilder, LayoutFault};
use jup_star::Site;
use jup_stream::StreamFault;
use jup_wire::Line;
use jup_xform::NoMemory;
use std::alloc::Global;
use std::mem;

/// What a server has told before its line `ready`: the number of the site, the limit, and lines of its board.
#[derive(Drop)]
pub struct Opening {
    pub site: u32,
    pub limit: u32,
    /// What the lines so far describe, or the fault of the first that no board has after those before it.
    pub board: Result<BoardBuilder, LayoutFault>,
}

impl Opening {
    /// A welcome begins with this line: no line of the board has come.
    pub fn greeted(alloc: Global, line: &Line) -> Result<Opening, ClientEnd>
        ensures { IsGreeted line.now result }
    {
        match line {
            Line::Welcome { site, limit } => Ok(Opening {
                site: *site,
                limit: *limit,
                board: Ok(BoardBuilder::new(alloc)),
            }),
            line => Err(refusal_of(line)),
        }
    }

    /// Hears the next line, a line of the board or `ready`, which opens the client. No line is kept, and the first fault of the board
    /// is reported at `ready`. After a refusal the lines so far are forgotten.
    pub fn hear(&mut self, alloc: Global, line: &Line) -> Result<Option<ClientState>, ClientEnd>
        // Whatever lines of the board came before.
        ensures ready { line.now ≡ Ready → (lines : List Line) → HasTold lines self.old.board → Opens lines self.old result }
        ensures part { IsTrue (is_of_board line.now) → (lines : List Line) → HasTold lines self.old.board
            → Extends line.now lines self.old result self.new }
        ensures other { line.now ≢ Ready → IsFalse (is_of_board line.now) → result ≡ Err (refusal_of line.now) }
    {
        let board = mem::replace(&mut self.board, Ok(BoardBuilder::new(alloc)));
        if let Line::Ready = line {
            return Ok(Some(opened(alloc, self.site, self.limit, board)?));
        }
        if !is_of_board(line) {
            return Err(refusal_of(line));
        }
        self.board = extended(alloc, board, line)?;
        Ok(None)
    }
}

// What a line means where it does not belong: the fault that it reports, or one of its own.
fn refusal_of(line: &Line) -> ClientEnd
    ensures { result ≡ refusal_of line.now }
{
    match line {
        Line::Error(number) => ClientEnd::Fault(*number),
        _ => StreamFault::Misplaced.into(),
    }
}

// Whether a line says a part of a board.
fn is_of_board(line: &Line) -> bool
    ensures { result ≡ is_of_board line.now }
{
    matches!(
        line,
        Line::Window(_)
            | Line::Text(_)
            | Line::List(_)
            | Line::Value(..)
            | Line::Char(..)
            | Line::Item(..)
    )
}

// The client whose site shows the board of all lines.
fn opened(
    alloc: Global,
    site: u32,
    limit: u32,
    board: Result<BoardBuilder, LayoutFault>,
) -> Result<ClientState, ClientEnd>
    ensures { (lines : List Line) → HasTold lines board → IsOpened site limit lines result }
{
    let board = board?.finish()?;
    Ok(ClientState {
        site: Site::open(alloc, site, limit, board)?,
        gather: Gather::new(),
        pings: 0,
    })
}

// What is held with one more line of the board. After a refused line the others change nothing.
fn extended(
    alloc: Global,
    board: Result<BoardBuilder, LayoutFault>,
    line: &Line,
) -> Result<Result<BoardBuilder, LayoutFault>, NoMemory>
    ensures { IfOk result (λ held. (lines : List Line) → HasTold lines board → HasTold (lines ++ line.now ∷ []) held) }
{
    match board {
        Err(fault) => Ok(Err(fault)),
        Ok(board) => match board.take(alloc, line) {
            Ok(next) => Ok(Ok(next)),
            Err(fault) if fault.line == 0 => Err(NoMemory),
            Err(fault) => Ok(Err(fault)),
        },
    }
}
