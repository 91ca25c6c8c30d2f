//! The commands of a user, a line each.
ghost use Rattle.std.specs.Prelude.{◌≡◌, [], IfOk, false};

use crate::Typed;
use jup_client::{Asking, ClientEnd, Request};
use jup_stream::{Source, StreamFault};
use jup_xform::NoMemory;
use std::alloc::Global;
use std::io::Read;

/// Bytes that one read asks for.
const PIECE: usize = 4_096;

/// Where requests come from: lines, of which a batch has several.
#[derive(Drop)]
pub(crate) struct Requests<C: Read + Drop> {
    from: C,
    typed: Typed,
    // The lines of a batch that has begun.
    asking: Asking,
}

impl<C: Read + Drop> Requests<C> {
    pub(crate) fn new(alloc: Global, from: C) -> Requests<C> {
        Requests {
            from,
            typed: Typed::new(alloc),
            asking: Asking::new(),
        }
    }

    /// The next one: `Quit` at the end of the input. A last line needs no line feed.
    pub(crate) fn next_request<F: Read + Drop>(
        &mut self,
        alloc: Global,
        link: &mut Source<F>,
    ) -> Result<Request, ClientEnd> {
        for _ in 0..u64::MAX {
            if !self.next_line(link)? {
                return Ok(self.asking.end());
            }
            if let Some(request) = self.request(alloc)? {
                return Ok(request);
            }
        }
        Err(StreamFault::ReadsSpent.into())
    }

    // Reads the next line. False at the end of the input.
    fn next_line<F: Read + Drop>(&mut self, link: &mut Source<F>) -> Result<bool, ClientEnd> {
        self.typed.begin();
        for _ in 0..u64::MAX {
            if self.typed.fill()? {
                return Ok(true);
            }
            if self.typed.is_over() {
                return Ok(!self.typed.is_empty());
            }
            self.read(link)?;
        }
        Err(StreamFault::ReadsSpent.into())
    }

    // One read, which is counted with those of the link.
    fn read<F: Read + Drop>(&mut self, link: &mut Source<F>) -> Result<(), ClientEnd>
        requires { self.old.typed.rest ≡ [] }
    {
        link.count_read()?;
        let mut piece = [0u8; PIECE];
        let read = self.from.read(&mut piece);
        self.typed.hear(read, &piece)
    }

    // What the lines up to this one ask for, if none is missing.
    fn request(&mut self, alloc: Global) -> Result<Option<Request>, NoMemory> {
        self.asking.push(alloc, self.typed.text())
    }
}
