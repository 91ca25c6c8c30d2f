//! What a user types, line by line.
ghost use Rattle.std.specs.IoError.{error_kind};
ghost use Rattle.std.specs.Prelude.{◌≡◌, ◌≢◌, ◌≤◌, ◌==◌, ◌↔◌, ◌∷◌, [], false, true, None, Some, Ok, Err, length, take, IfOk, IfErr, IfSome, IfNone, IsTrue, OnOk};
ghost use Rattle.jup_client.specs.Clients.{text_of};
ghost use Rattle.jup_cli.specs.Typing.{typing, EndsLine, UsesUp};

use jup_client::{ClientEnd, TypedLine};
use jup_io::is_interrupted;
use jup_xform::NoMemory;
use std::alloc::Global;
use std::io;
use std::io::ErrorKind;
use std::marker::Model;

/// What a user types. Contracts see the line so far, the bytes that were read and are on no line yet, and whether the input has ended.
#[derive(Drop)]
pub struct Typed {
    line: TypedLine,
    // The bytes of the last read, and how many of them are on a line.
    piece: Vec<u8>,
    given: usize,
    // Then the input is not read again, which a terminal would wait for.
    is_over: bool,
}

impl Model for Typed {
    ghost use Rattle.std.specs.Prelude.{drop};
    ghost use Rattle.jup_cli.specs.Typing.{Typing, typing};

    ghost Value = { Typing };

    ghost view = { λ t. typing t.line (drop t.given t.piece.items) t.is_over };
}

impl Typed {
    /// Nothing was typed yet.
    pub fn new(alloc: Global) -> Typed
        ensures { result ≡ typing (Some []) [] false }
    {
        Typed {
            line: TypedLine::new(alloc),
            piece: Vec::new(alloc),
            given: 0,
            is_over: false,
        }
    }

    /// Begins a line.
    pub fn begin(&mut self)
        ensures { self.new ≡ typing (Some []) self.old.rest self.old.over }
    {
        self.line.clear();
    }

    /// Moves bytes to the line, up to a line feed. Whether the line is whole.
    pub fn fill(&mut self) -> Result<bool, NoMemory>
        ensures whole { result ≡ Ok true → EndsLine self.old self.new }
        ensures part { result ≡ Ok false → UsesUp self.old self.new }
    {
        while let Some(byte) = self.next_byte() {
            if byte == b'\n' {
                return Ok(true);
            }
            self.line.push(byte)?;
        }
        Ok(false)
    }

    // The next byte that is on no line yet.
    fn next_byte(&mut self) -> Option<u8>
        ensures some { IfSome result (λ byte. self.old ≡ typing self.new.line (byte ∷ self.new.rest) self.new.over) }
        ensures none { IfNone result ((self.old.rest ≡ []) × (self.new ≡ self.old)) }
    {
        let byte = self.piece.get(self.given).copied();
        if byte.is_some() {
            self.given += 1;
        }
        byte
    }

    /// Learns what one more read into a piece came to. One that was interrupted brought nothing.
    pub fn hear(&mut self, read: io::Result<usize>, piece: &[u8]) -> Result<(), ClientEnd>
        requires fits { IfOk read (λ len. len ≤ length piece.now) }
        requires used { self.old.rest ≡ [] }
        ensures bytes { IfOk read (λ len. OnOk result (self.new ≡ typing self.old.line (take len piece.now) (len == 0))) }
        ensures memory { IfOk read (λ len. IfErr result (λ end. end ≡ ClientEnd.NoMemory)) }
        ensures again { IfErr read (λ error. error_kind error ≡ ErrorKind.Interrupted → OnOk result (self.new ≡ self.old) × IfErr result (λ _. ⊥)) }
        ensures failed { IfErr read (λ error. error_kind error ≢ ErrorKind.Interrupted → result ≡ Err ClientEnd.ReadFailed) }
    {
        let len = match read {
            Ok(len) => len,
            Err(error) if is_interrupted(&error) => return Ok(()),
            Err(_) => return Err(ClientEnd::ReadFailed),
        };
        self.is_over = len == 0;
        self.given = 0;
        self.piece.clear();
        match self.piece.extend_from_slice(&piece[..len]) {
            Ok(()) => Ok(()),
            Err(_) => Err(ClientEnd::NoMemory),
        }
    }

    /// Whether the input has ended.
    pub fn is_over(&self) -> bool
        ensures { result ≡ self.now.over }
    {
        self.is_over
    }

    /// Whether nothing is on the line.
    pub fn is_empty(&self) -> bool
        ensures { IsTrue result ↔ (self.now.line ≡ Some []) }
    {
        self.line.is_empty()
    }

    /// What is read of the line.
    pub fn text(&self) -> &[u8]
        ensures { result.now ≡ text_of self.now.line }
    {
        self.line.text()
    }
}
