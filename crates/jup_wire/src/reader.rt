//! Lines from bytes that come in pieces.

ghost use Rattle.std.specs.Prelude.{◌≡◌, ◌≢◌, ℕ, List, [], ◌∷◌, ◌++◌, All, IfOk, IsOk, OnOk, OnErr, IsSome};
ghost use Rattle.std.specs.List.{flat_map, AllByRecursion};
ghost use Rattle.jup_wire.specs.Lines.{spelling, HasSpelling};
ghost use Rattle.jup_wire.specs.Streams.{part_bytes, IsPart, Ends, ReadsTo, Reads, HasRead, ending_at};
ghost use Rattle.jup_wire.specs.declared.line.Line.{Line};

use crate::faults::WireFault;
use crate::fields::split_line;
use crate::line::Line;
use crate::parse::read_line;
use crate::part::{MOST_PART, Part};
use jup_window::Within;
use jup_xform::NoMemory;
use std::alloc::Global;
use std::marker::{Model, PhantomData};

/// The line that a line feed ends, or its fault.
fn finish_line(text: &[u8]) -> Result<Line, WireFault>
    requires { All (λ byte. byte ≢ 10) text.now }
    ensures { Ends text.now result }
{
    if text.len() > MOST_PART {
        return Err(WireFault::LongLine);
    }
    read_line(text)
}

/// The same if a part comes before the text. The part stays.
fn finish_line_behind(part: &mut Part, text: &[u8]) -> Result<Line, WireFault>
    requires part { IsPart (part_bytes part.old) }
    requires text { All (λ byte. byte ≢ 10) text.now }
    ensures ended { Ends (part_bytes part.old ++ text.now) result }
    ensures part { part_bytes part.new ≡ part_bytes part.old }
{
    let held = part.len();
    if held == 0 {
        return finish_line(text);
    }
    if text.len() > MOST_PART - held {
        return Err(WireFault::LongLine);
    }
    part.extend(text);
    let line = read_line(part.bytes());
    part.truncate(held);
    line
}

/// Puts bytes without a line feed after a part, if both are no more than a part.
fn hold(part: &mut Part, bytes: &[u8]) -> Option<WireFault>
    requires part { IsPart (part_bytes part.old) }
    requires bytes { All (λ byte. byte ≢ 10) bytes.now }
    ensures { Reads (part_bytes part.old ++ bytes.now) [] result (part_bytes part.new) }
{
    if bytes.len() > MOST_PART - part.len() {
        return Some(WireFault::LongLine);
    }
    part.extend(bytes);
    None
}

/// What comes after the last line feed, if no line had a fault.
#[derive(Drop)]
struct Rest<'a> {
    left: &'a [u8],
    fault: Option<WireFault>,
}

/// Reads whole lines, up to the first fault, and puts them after those that came before.
fn read_lines<'a>(lines: &mut Lines, bytes: &'a [u8]) -> Result<Rest<'a>, NoMemory>
    requires { AllByRecursion HasSpelling lines.old }
    ensures { IfOk result (λ rest. ReadsTo (flat_map spelling lines.old ++ bytes.now) lines.new rest.fault rest.left.now) }
{
    let mut left = bytes;
    while let Some((text, behind)) = split_line(left) {
        match finish_line(text) {
            Ok(line) => lines.push(line)?,
            Err(fault) => {
                return Ok(Rest {
                    left,
                    fault: Some(fault),
                });
            }
        }
        left = behind;
    }
    Ok(Rest { left, fault: None })
}

/// Takes a piece, up to the first fault. If an allocation fails, the part is as it was.
fn read_piece(alloc: Global, part: &mut Part, piece: &[u8]) -> Result<Fed, NoMemory>
    requires { IsPart (part_bytes part.old) }
    ensures read { IfOk result (λ fed.
        Reads (part_bytes part.old ++ piece.now) fed.lines fed.fault (part_bytes part.new)) }
    ensures err { OnErr result (part_bytes part.new ≡ part_bytes part.old) }
{
    let mut lines = Lines::new(alloc);
    let Some((text, behind)) = split_line(piece) else {
        let fault = hold(part, piece);
        return Ok(Fed { lines, fault });
    };
    match finish_line_behind(part, text) {
        Ok(line) => lines.push(line)?,
        Err(fault) => {
            return Ok(Fed {
                lines,
                fault: Some(fault),
            });
        }
    }
    let rest = read_lines(&mut lines, behind)?;
    if rest.fault.is_some() {
        return Ok(Fed {
            lines,
            fault: rest.fault,
        });
    }
    part.truncate(0);
    let fault = hold(part, rest.left);
    Ok(Fed { lines, fault })
}

/// Lines, in order.
#[derive(Debug, Drop)]
pub struct Lines {
    items: Vec<Line>,
}

impl Model for Lines {
    ghost use Rattle.std.specs.Prelude.{List};
    ghost use Rattle.jup_wire.specs.declared.line.Line.{Line};

    ghost Value = { List Line };

    ghost view = { λ a. a.items.items };
}

impl Lines {
    /// No lines.
    pub fn new(alloc: Global) -> Lines
        ensures { result ≡ [] }
    {
        Lines {
            items: Vec::new(alloc),
        }
    }

    pub(crate) fn push(&mut self, line: Line) -> Result<(), NoMemory>
        ensures ok { OnOk result (self.new ≡ self.old ++ line ∷ []) }
        ensures err { OnErr result (self.new ≡ self.old) }
    {
        let _of: Within = PhantomData;
        match self.items.push(line) {
            Ok(()) => Ok(()),
            Err(_) => Err(NoMemory),
        }
    }

    pub fn as_slice(&self) -> &[Line]
        ensures { result.now ≡ self.now }
    {
        self.items.as_slice()
    }

    /// The lines, given up.
    pub fn into_items(self) -> Vec<Line>
        ensures { result.items ≡ self }
    {
        let Lines { items } = self;
        items
    }
}

/// What a piece gave: the lines that it completed, up to the first fault.
#[derive(Debug, Drop)]
pub struct Fed {
    pub lines: Lines,
    pub fault: Option<WireFault>,
}

/// Reads lines from bytes that come in pieces.
#[derive(Drop)]
pub struct Reader {
    part: Part,
    fault: Option<WireFault>,
}

impl Model for Reader {
    ghost use Rattle.std.specs.Prelude.{None, ◌≡◌};
    ghost use Rattle.jup_wire.specs.Streams.{part_bytes, Progress, IsPart};

    ghost Value = { Progress };

    ghost view = { λ a. record { part = part_bytes a.part; fault = a.fault } };

    ghost invariant = { λ a. a.fault ≡ None → IsPart (part_bytes a.part) };
}

impl Reader {
    /// A reader before the first byte. It takes no memory.
    pub fn new() -> Reader
        ensures { HasRead [] [] result }
    {
        Reader {
            part: Part::new(),
            fault: None,
        }
    }

    /// Another reader in the same state.
    pub fn copy(&self) -> Reader
        ensures { result ≡ self.now }
    {
        Reader {
            part: self.part,
            fault: self.fault,
        }
    }

    /// Takes the next piece. After a fault every call gives no line and the same fault.
    pub fn feed(&mut self, alloc: Global, piece: &[u8]) -> Result<Fed, NoMemory>
        // Whatever came before: the lines given so far are those of all the bytes so far.
        ensures read { IfOk result (λ fed. (bytes : List ℕ) (lines : List Line)
            → HasRead bytes lines self.old
            → HasRead (bytes ++ piece.now) (lines ++ fed.lines) self.new) }
        ensures fault { IfOk result (λ fed. fed.fault ≡ self.new.fault) }
        ensures stopped { IsSome self.old.fault
            → IfOk result (λ fed. (fed.lines ≡ []) × (self.new ≡ self.old)) }
        ensures answered { IsSome self.old.fault → IsOk result }
        ensures err { OnErr result (self.new ≡ self.old) }
    {
        if self.fault.is_some() {
            return Ok(Fed {
                lines: Lines::new(alloc),
                fault: self.fault,
            });
        }
        let fed = read_piece(alloc, &mut self.part, piece)?;
        self.fault = fed.fault;
        Ok(fed)
    }

    /// Whether the bytes may end here: the fault that was met, or one if a part of a line is held.
    pub fn finish(&self) -> Result<(), WireFault>
        ensures { result ≡ ending_at self.now.fault self.now.part }
    {
        if let Some(fault) = self.fault {
            return Err(fault);
        }
        if self.part.bytes().is_empty() {
            Ok(())
        } else {
            Err(WireFault::EarlyEnd)
        }
    }
}
