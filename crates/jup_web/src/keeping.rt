//! The board that a file keeps.
ghost use Rattle.std.specs.Prelude.{◌≡◌, ◌≤◌, List, length, false, IfOk, MatchOption};
ghost use Rattle.jup_hub.specs.declared.view.HubEvent.{HubEvent};
ghost use Rattle.jup_hub.specs.Histories.{Meets, having_seen, longest, star_through};
ghost use Rattle.jup_hub.specs.Passes.{opening_of, view_of, IsPassOf};
ghost use Rattle.jup_web.specs.Keeping.{IsTextOf};

use crate::notices::Notices;
use crate::session::Service;
use jup_hub::{Hub, Pass};
use jup_service::{KeptBoard, Notice, Unkept};
use jup_text::write_board;
use jup_xform::NoMemory;
use std::alloc::Global;
use std::fs::{File, Files};
use std::sync::Wait;
use std::time::{Clock, Duration};

/// Milliseconds between two looks for news.
const PAUSE: u64 = 500;

/// The board of a hub as it is printed, after all calls so far. The pass has then seen these.
pub fn board_text<R: Wait>(
    rt: &R,
    alloc: Global,
    hub: &Hub,
    pass: &mut Pass,
) -> Result<Vec<u8>, NoMemory>
    requires { IsPassOf hub.now pass.old }
    ensures pass { IsPassOf hub.now pass.new }
    ensures met { (log : List HubEvent) × Meets (view_of pass.old) log × (view_of pass.new ≡ having_seen log (view_of pass.old))
        × IfOk result (λ text. IsTextOf text.items (star_through (opening_of hub.now) log)) }
{
    let board = match hub.board(rt, alloc, pass) {
        Ok(board) => board,
        Err(_) => return Err(NoMemory),
    };
    let mut text = Vec::new(alloc);
    write_board(alloc, &board, &mut text)?;
    Ok(text)
}

/// The same if there were events after all that the pass had seen, or if the caller asks for it anyway. The text has all that the
/// pass has then seen.
pub fn take_news<R: Wait>(
    rt: &R,
    alloc: Global,
    hub: &Hub,
    pass: &mut Pass,
    is_due: bool,
) -> Result<Option<Vec<u8>>, NoMemory>
    requires { IsPassOf hub.now pass.old }
    ensures pass { IsPassOf hub.now pass.new }
    // It gives nothing only if no text is due, and no event came after all that the pass had seen.
    ensures met { (log : List HubEvent) × Meets (view_of pass.old) log × (view_of pass.new ≡ having_seen log (view_of pass.old))
        × IfOk result (λ news. MatchOption news ((is_due ≡ false) × (length log ≤ longest (view_of pass.old).seen))
        (λ text. IsTextOf text.items (star_through (opening_of hub.now) log))) }
{
    let has_news = hub.news(pass);
    if !has_news && !is_due {
        return Ok(None);
    }
    match board_text(rt, alloc, hub, pass) {
        Ok(text) => Ok(Some(text)),
        Err(NoMemory) => Err(NoMemory),
    }
}

/// Writes the board whenever it has changed, until the server has to stop.
pub(crate) fn keep<R: Wait + Clock + Eprint, F: Files<File = File>>(
    rt: &R,
    files: &F,
    service: &Service<'_>,
    board: &mut KeptBoard<'_>,
    pass: &mut Pass,
)
    requires { IsPassOf service.now.hub.now pass.old }
    ensures { IsPassOf service.now.hub.now pass.new }
{
    for _ in rt.forever() {
        if service.stop.wait(rt, Duration::from_millis(PAUSE)) {
            return;
        }
        let news = take_news(rt, service.alloc, service.hub, pass, board.is_due());
        tell_kept(rt, service.notices, board.keep(files, news));
    }
}

// Reports that the board could not be written, or that it is written again.
fn tell_kept<R: Wait + Eprint>(rt: &R, notices: &Notices, kept: Result<(), Unkept>) {
    match kept {
        Ok(()) => notices.clear(rt, Notice::CannotWrite),
        Err(Unkept::Unwritten | Unkept::NoMemory) => notices.tell(rt, Notice::CannotWrite),
    }
}
