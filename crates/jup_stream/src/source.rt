//! The lines of a reader, read piece by piece.
ghost use Rattle.std.specs.IoError.{error_kind};
ghost use Rattle.std.specs.Prelude.{◌≡◌, ◌≢◌, ◌≤◌, ◌<◌, ◌+◌, ℕ, List, [], ◌∷◌, ◌++◌, length, take, drop, Ok, Err, Some, None, IfOk, IfErr, OnOk, OnErr, IfSome, IfNone, IsSome, IsNone, IsTrue, IsFalse};
ghost use Rattle.std.specs.Io.KnownBytes.{Consumes, Keeps, IsAtEnd};
ghost use Rattle.jup_wire.specs.declared.line.Line.{Line};
ghost use Rattle.jup_wire.specs.Streams.{HasRead, ending_at};
ghost use Rattle.jup_stream.specs.Streams.{most_reads, ReadsOn, HandsOn, Stops, stop_of};

use crate::{Stop, StreamFault};
use jup_io::is_interrupted;
use jup_window::Within;
use jup_wire::{Fed, Line, Reader, WireFault};
use jup_xform::NoMemory;
use std::alloc::Global;
use std::io;
use std::io::{ErrorKind, Read};
use std::marker::{Model, PhantomData};

/// Bytes that one read asks for. They are on the reading thread's stack, of which an idle session keeps what it ever touched.
const PIECE: usize = 1_024;

/// What comes by a link, as lines.
///
/// Contracts see the bytes that the reader has left, if these are known. They see how the bytes read so far were taken, the lines of
/// them that are still to be handed on, and how many reads were made.
#[derive(Drop)]
pub struct Source<I: Read + Drop> {
    from: I,
    reader: Reader,
    /// The reads that were made, here and by others that count theirs with these.
    reads: u32,
    /// What the last piece gave, and how many of its lines were handed on.
    fed: Option<Fed>,
    given: usize,
    // The checker learns of the types within a line from a field that names them.
    within: PhantomData<(Within, Line)>,
}

impl<I: Read + Drop> Model for Source<I> {
    ghost use Rattle.std.specs.Prelude.{◌≡◌};
    ghost use Rattle.jup_stream.specs.Streams.{Sourced, sourced, waiting_of, fault_of};

    ghost Value = { Sourced };

    ghost view = { λ s. sourced (I.remaining s.from) s.reader (waiting_of s.fed s.given) s.reads };

    ghost invariant = { λ s. s.reader.fault ≡ fault_of s.fed };
}

impl<I: Read + Drop> Source<I> {
    /// A source before its first read.
    pub fn new(from: I) -> Source<I>
        ensures known { result.known ≡ I.remaining from }
        ensures read { HasRead [] [] result.progress }
        ensures waiting { result.waiting ≡ [] }
        ensures reads { result.reads ≡ 0 }
    {
        Source {
            from,
            reader: Reader::new(),
            reads: 0,
            fed: None,
            given: 0,
            within: PhantomData,
        }
    }

    /// The next line: those of the last piece, then its fault, then those of further pieces.
    #[tactic(auto, using(crate::proofs::Streams::hands_after))]
    pub fn next_line(&mut self, alloc: Global) -> Result<Line, Stop>
        ensures line { IfOk result (λ line. HandsOn self.old (line ∷ []) self.new) }
        ensures stop { IfErr result (λ stop. Stops self.old stop self.new) }
    {
        self.fill(alloc)?;
        match self.hand_on() {
            Some(line) => Ok(line),
            None => unreachable!(),
        }
    }

    /// Whether a line is there without a read.
    #[tactic(auto, using(crate::proofs::Streams::drop_some))]
    pub fn has_line(&self) -> bool
        ensures none { IsFalse result → self.now.waiting ≡ [] }
        ensures some { IsTrue result → self.now.waiting ≢ [] }
    {
        match &self.fed {
            Some(fed) => self.given < fed.lines.as_slice().len(),
            None => false,
        }
    }

    /// Counts a read that somebody else makes with those of this source. Refused if all were made.
    pub fn count_read(&mut self) -> Result<(), StreamFault>
        ensures same { self.new ≡ record self.old { reads = self.new.reads } }
        ensures counted { OnOk result (self.new.reads ≡ self.old.reads + 1) }
        ensures spent { IfErr result (λ fault. (fault ≡ StreamFault.ReadsSpent) × (self.old.reads ≡ most_reads) × (self.new.reads ≡ self.old.reads)) }
    {
        if !count(&mut self.reads) {
            return Err(StreamFault::ReadsSpent);
        }
        Ok(())
    }

    // The fault of the bytes read so far.
    fn fault(&self) -> Option<WireFault>
        ensures { result ≡ self.now.progress.fault }
    {
        match &self.fed {
            Some(fed) => fed.fault,
            None => None,
        }
    }

    // Hands on a line that waits.
    #[tactic(auto, using(crate::proofs::Streams::hands_first))]
    fn hand_on(&mut self) -> Option<Line>
        ensures some { IfSome result (λ line. HandsOn self.old (line ∷ []) self.new) }
        ensures none { IsNone result → (self.old.waiting ≡ []) × (self.new ≡ self.old) }
    {
        let line = match &self.fed {
            Some(fed) => line_at(fed.lines.as_slice(), self.given),
            None => None,
        };
        if line.is_some() {
            self.given += 1;
        }
        line
    }

    // Reads until there is a line to give.
    #[tactic(auto, using(crate::proofs::Streams::reads_both, crate::proofs::Streams::stops_after, crate::proofs::Streams::stops_spent, crate::proofs::Streams::stops_fault))]
    fn fill(&mut self, alloc: Global) -> Result<(), Stop>
        ensures on { OnOk result (ReadsOn self.old self.new) }
        ensures some { OnOk result (self.new.waiting ≢ []) }
        ensures stop { IfErr result (λ stop. Stops self.old stop self.new) }
    {
        for _ in 0..u64::MAX {
            if self.has_line() {
                return Ok(());
            }
            if let Some(fault) = self.fault() {
                return Err(Stop::Fault(StreamFault::Wire(fault)));
            }
            if let Err(stop) = self.read(alloc) {
                return Err(stop);
            }
        }
        // Each turn counted a read.
        unreachable!()
    }

    // One read, whose lines are next. One that was interrupted gives none.
    fn read(&mut self, alloc: Global) -> Result<(), Stop>
        requires { self.old.waiting ≡ [] }
        ensures on { OnOk result (ReadsOn self.old self.new) }
        ensures counted { OnOk result (self.new.reads ≡ self.old.reads + 1) }
        ensures bounded { OnOk result (self.new.reads ≤ most_reads) }
        ensures stop { IfErr result (λ stop. Stops self.old stop self.new) }
    {
        if !count(&mut self.reads) {
            return Err(Stop::Fault(StreamFault::ReadsSpent));
        }
        let mut piece = [0u8; PIECE];
        let len = match read_once(&mut self.from, &mut piece) {
            Ok(Some(len)) => len,
            Ok(None) => return Err(end_of(&self.reader)),
            Err(fault) => return Err(Stop::Fault(fault)),
        };
        match feed_front(&mut self.reader, alloc, &piece, len) {
            Ok(fed) => {
                self.fed = Some(fed);
                self.given = 0;
                Ok(())
            }
            Err(NoMemory) => Err(Stop::Fault(StreamFault::NoMemory)),
        }
    }
}

/// Counts one more read. Refused if 4,294,967,295 were made.
pub fn count_read(reads: u32) -> Result<u32, StreamFault>
    ensures counted { IfOk result (λ count. (reads < most_reads) × (count ≡ reads + 1)) }
    ensures spent { IfErr result (λ fault. (reads ≡ most_reads) × (fault ≡ StreamFault.ReadsSpent)) }
{
    reads.checked_add(1).ok_or(StreamFault::ReadsSpent)
}

// Counts one more read, if it may be made. Whether it may.
fn count(reads: &mut u32) -> bool
    ensures counted { IsTrue result → (reads.old < most_reads) × (reads.new ≡ reads.old + 1) }
    ensures spent { IsFalse result → (reads.old ≡ most_reads) × (reads.new ≡ reads.old) }
{
    match count_read(*reads) {
        Ok(more) => {
            *reads = more;
            true
        }
        Err(_) => false,
    }
}

/// How many bytes a read gave, by what it came to: none if it was interrupted, and `None` at the end of the bytes.
pub fn length_read(read: io::Result<usize>) -> Result<Option<usize>, StreamFault>
    ensures end { read ≡ Ok 0 → result ≡ Ok None }
    ensures some { IfOk read (λ len. 1 ≤ len → result ≡ Ok (Some len)) }
    ensures again { IfErr read (λ error. error_kind error ≡ ErrorKind.Interrupted → result ≡ Ok (Some 0)) }
    ensures failed { IfErr read (λ error. error_kind error ≢ ErrorKind.Interrupted → result ≡ Err StreamFault.ReadFailed) }
{
    match read {
        Ok(0) => Ok(None),
        Ok(len) => Ok(Some(len)),
        Err(error) if is_interrupted(&error) => Ok(Some(0)),
        Err(_) => Err(StreamFault::ReadFailed),
    }
}

// One read, and how many bytes it gave. One that was interrupted gave none. `None` at the end of the bytes.
fn read_once<I: Read + Drop>(from: &mut I, piece: &mut [u8]) -> Result<Option<usize>, StreamFault>
    requires { 1 ≤ length piece.old }
    ensures len { IfOk result (λ len. IfSome len (λ n. n ≤ length piece.new)) }
    ensures bytes { IfOk result (λ len. IfSome len (λ n. Consumes (I.remaining from.old) (I.remaining from.new) (take n piece.new))) }
    ensures end { IfOk result (λ len. IfNone len (Keeps (I.remaining from.old) (I.remaining from.new) × IsAtEnd (I.remaining from.new))) }
    ensures failed { IfErr result (λ fault. fault ≡ StreamFault.ReadFailed) }
    ensures none_lost { OnErr result (Keeps (I.remaining from.old) (I.remaining from.new)) }
    ensures same { length piece.new ≡ length piece.old }
{
    length_read(from.read(piece))
}

// Takes the front of a piece.
fn feed_front(reader: &mut Reader, alloc: Global, piece: &[u8], len: usize) -> Result<Fed, NoMemory>
    requires { len ≤ length piece.now }
    ensures read { IfOk result (λ fed. (bytes : List ℕ) (lines : List Line)
        → HasRead bytes lines reader.old → HasRead (bytes ++ take len piece.now) (lines ++ fed.lines) reader.new) }
    ensures fault { IfOk result (λ fed. fed.fault ≡ reader.new.fault) }
    ensures err { OnErr result (reader.new ≡ reader.old) }
{
    reader.feed(alloc, &piece[..len])
}

// The line at a place.
#[tactic(auto, using(crate::proofs::Streams::drop_get))]
fn line_at(lines: &[Line], at: usize) -> Option<Line>
    ensures some { IfSome result (λ line. drop at lines.now ≡ line ∷ drop (at + 1) lines.now) }
    ensures room { IsSome result → at + 1 ≤ 18446744073709551615 }
    ensures none { IsNone result → drop at lines.now ≡ [] }
{
    if at < lines.len() {
        lines.get(at).copied()
    } else {
        None
    }
}

// What the end of the bytes means.
fn end_of(reader: &Reader) -> Stop
    ensures { result ≡ stop_of (ending_at reader.now.fault reader.now.part) }
{
    match reader.finish() {
        Ok(()) => Stop::End,
        Err(fault) => Stop::Fault(StreamFault::Wire(fault)),
    }
}
