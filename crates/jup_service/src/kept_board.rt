//! What a server knows of the file that keeps its board.
ghost use Rattle.std.specs.Prelude.{◌≡◌, ◌↔◌, None, Some, Ok, Err, true, OnOk, OnErr, IfOk, IfErr, IfSome, IsOk, IsTrue};
ghost use Rattle.jup_service.specs.Servers.{keeps};

use crate::{FiledText, KeptFile};
use jup_xform::NoMemory;
use std::fs::{File, Files};
use std::io;
use std::marker::Model;

/// Why a file does not have the board.
#[derive(Clone, Copy, Debug, PartialEq, Eq)]
pub enum Unkept {
    /// A write failed.
    Unwritten,
    /// There was no memory for its text.
    NoMemory,
}

/// What a server knows of the file that keeps its board: which text it has, if that is known, and whether a text is due that was not written. Contracts see
/// both.
#[derive(Drop)]
pub struct KeptBoard<'a> {
    file: &'a KeptFile,
    text: Option<FiledText>,
    is_due: bool,
}

impl<'a> Model for KeptBoard<'a> {
    ghost use Rattle.jup_service.specs.Servers.{Keeping, keeps};

    ghost Value = { Keeping };

    ghost view = { λ board. keeps board.text board.is_due };
}

impl<'a> KeptBoard<'a> {
    ghost use Rattle.std.specs.Prelude.{false};

    /// The file has this text, and none is due.
    pub fn new(file: &'a KeptFile, text: FiledText) -> KeptBoard<'a>
        ensures { result ≡ keeps (Some text) false }
    {
        KeptBoard {
            file,
            text: Some(text),
            is_due: false,
        }
    }

    /// Whether a text is due that was not written.
    pub fn is_due(&self) -> bool
        ensures { result ≡ self.now.due }
    {
        self.is_due
    }

    /// Does what a look for news of the board asks for: it writes the text, if there is one. Without memory for the text, one is due.
    pub fn keep<R: Files<File = File>>(
        &mut self,
        rt: &R,
        news: Result<Option<Vec<u8>>, NoMemory>,
    ) -> Result<(), Unkept>
        ensures none { news ≡ Ok None → OnOk result (self.new ≡ self.old) × IsOk result }
        ensures written { IfOk news (λ news. IfSome news (λ text. OnOk result (self.new ≡ keeps (Some text.items) false))) }
        ensures failed { IfOk news (λ news. IfSome news (λ text. IfErr result (λ why. (self.new ≡ keeps None true) × (why ≡ Unkept.Unwritten)))) }
        ensures had { IfOk news (λ news. IfSome news (λ text. self.old.filed ≡ Some text.items → IsOk result)) }
        ensures memory { OnErr news ((self.new ≡ keeps self.old.filed true) × (result ≡ Err Unkept.NoMemory)) }
    {
        match news {
            Ok(None) => Ok(()),
            Ok(Some(text)) => match self.write(rt, text) {
                Ok(()) => Ok(()),
                Err(_) => Err(Unkept::Unwritten),
            },
            Err(NoMemory) => {
                self.is_due = true;
                Err(Unkept::NoMemory)
            }
        }
    }

    // Writes a text, unless the file is known to have it. A write that fails leaves the text due. It may have put the new text into the file or not, so the
    // next text is written whatever it is.
    fn write<R: Files<File = File>>(&mut self, rt: &R, text: Vec<u8>) -> io::Result<()>
        ensures ok { OnOk result (self.new ≡ keeps (Some text.items) false) }
        ensures err { OnErr result (self.new ≡ keeps None true) }
        ensures had { self.old.filed ≡ Some text.items → OnErr result ⊥ }
    {
        if self.has(text.as_slice()) {
            self.is_due = false;
            return Ok(());
        }
        self.save(rt, text)
    }

    /// Writes a text, also if the file has it.
    pub fn save<R: Files<File = File>>(&mut self, rt: &R, text: Vec<u8>) -> io::Result<()>
        ensures ok { OnOk result (self.new ≡ keeps (Some text.items) false) }
        ensures err { OnErr result (self.new ≡ keeps None true) }
    {
        self.text = None;
        self.is_due = true;
        self.text = Some(self.file.save(rt, text)?);
        self.is_due = false;
        Ok(())
    }

    // Whether the file is known to have this text.
    fn has(&self, text: &[u8]) -> bool
        ensures { IsTrue result ↔ (self.now.filed ≡ Some text.now) }
    {
        match &self.text {
            Some(filed) => filed.as_slice() == text,
            None => false,
        }
    }
}
