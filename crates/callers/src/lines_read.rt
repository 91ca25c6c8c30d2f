//! Lines as bytes, and back.
ghost use Rattle.std.specs.Prelude.{◌≡◌, ◌++◌, ℕ, List, [], true, Some, IfOk};
ghost use Rattle.jup_wire.specs.declared.line.Line.{Line};
ghost use Rattle.jup_wire.specs.Lines.{is_spelled};
ghost use Rattle.jup_wire.specs.Streams.{Progress, HasRead};

use jup_wire::{Fed, LONGEST, Line, Reader, one_reading, read_line, write_reserved};
use jup_xform::NoMemory;
use std::alloc::Global;

/// A line that has a spelling is read back from the bytes that are written for it.
pub fn spell_and_read(alloc: Global, line: &Line) -> Result<Option<Line>, NoMemory>
    ensures { is_spelled line.now ≡ true → IfOk result (λ read. read ≡ Some line.now) }
{
    let mut bytes = Vec::with_capacity(alloc, LONGEST).map_err(|_| NoMemory)?;
    write_reserved(line, &mut bytes);
    match bytes.as_slice() {
        [text @ .., _feed] => Ok(read_line(text).ok()),
        [] => Ok(None),
    }
}

/// Bytes that come in two pieces give the lines that they give as one.
pub fn read_in_two(alloc: Global, one: &[u8], other: &[u8]) -> Result<(Fed, Fed), NoMemory>
    ensures { IfOk result (λ fed. (lines : List Line) (read : Progress) → HasRead (one.now ++ other.now) lines read
        → fed.0.lines ++ fed.1.lines ≡ lines) }
{
    one_reading();
    let mut reader = Reader::new();
    let first = reader.feed(alloc, one)?;
    let second = reader.feed(alloc, other)?;
    Ok((first, second))
}
