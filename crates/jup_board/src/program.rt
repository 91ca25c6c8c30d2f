//! The inside of the program.
ghost use Rattle.std.specs.Prelude.{◌≤◌, IfOk, IfSome, vec_len};

use crate::{BoardEnd, layout_of_printed, printed_of_layout};
use jup_limits::{LONGEST_BOARD, LONGEST_INPUT};
use std::alloc::Global;
use std::io;
use std::io::{Read, Write};

/// Reads a printed board to the end of the input, and writes its layout. Nothing is written before all of it is made.
pub fn lay_out<I: Read + Drop, O: Write>(
    alloc: Global,
    input: I,
    out: &mut O,
) -> Result<(), BoardEnd> {
    let Some(text) = read_within(alloc, input, LONGEST_BOARD)? else {
        return Err(BoardEnd::LongBoard);
    };
    let layout = layout_of_printed(alloc, text.as_slice())?;
    write(layout.as_slice(), out)
}

/// Reads a layout to the end of the input, and writes its board as it is printed. Nothing is written before all of it is made.
pub fn print_layout<I: Read + Drop, O: Write>(
    alloc: Global,
    input: I,
    out: &mut O,
) -> Result<(), BoardEnd> {
    let Some(text) = read_within(alloc, input, LONGEST_INPUT)? else {
        return Err(BoardEnd::LongInput);
    };
    let board = printed_of_layout(alloc, text.as_slice())?;
    write(board.as_slice(), out)
}

// The whole input, or nothing if it has more bytes than this.
fn read_within<I: Read + Drop>(
    alloc: Global,
    input: I,
    most: u64,
) -> Result<Option<Vec<u8>>, BoardEnd>
    ensures { IfOk result (λ read. IfSome read (λ text. vec_len text ≤ most)) }
{
    let mut text = Vec::new(alloc);
    match input.take(most.saturating_add(1)).read_to_end(&mut text) {
        Ok(_) if text.len() as u64 <= most => Ok(Some(text)),
        Ok(_) => Ok(None),
        Err(error) => Err(BoardEnd::of_failure(BoardEnd::Unread, &error)),
    }
}

fn write<O: Write>(text: &[u8], out: &mut O) -> Result<(), BoardEnd> {
    let written: io::Result<()> = match out.write_all(text) {
        Ok(()) => out.flush(),
        Err(error) => Err(error),
    };
    match written {
        Ok(()) => Ok(()),
        Err(error) => Err(BoardEnd::of_failure(BoardEnd::Unprinted, &error)),
    }
}
