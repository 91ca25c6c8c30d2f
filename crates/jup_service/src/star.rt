//! The star of a board that a file keeps.
ghost use Rattle.std.specs.Prelude.{◌≡◌, IfOk};
ghost use Rattle.jup_service.specs.Servers.{IsStarOf};

use crate::ServiceEnd;
use jup_board::read_printed;
use jup_star::{OpenFault, Star, is_short};
use std::alloc::Global;

/// A star over the board that a text prints, which takes at most so many edits and only counts them.
pub fn star_of_printed(alloc: Global, text: &[u8], limit: u32) -> Result<Star, ServiceEnd>
    ensures { IfOk result (λ star. IsStarOf text.now limit star) }
{
    let board = read_printed(alloc, text)?;
    // A printed board that is read, and the words, rule these refusals out.
    if !is_short(&board) {
        return Err(ServiceEnd::LongBoard);
    }
    match Star::open_counting(alloc, board, limit) {
        Ok(star) => Ok(star),
        Err(OpenFault::NoMemory) => Err(ServiceEnd::NoMemory),
        Err(OpenFault::BadLimit | OpenFault::BadSite) => Err(ServiceEnd::LongBoard),
    }
}
