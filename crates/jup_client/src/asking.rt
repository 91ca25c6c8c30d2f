//! What a user asks for, by the lines that it types.
ghost use Rattle.std.specs.Prelude.{◌≡◌, ◌≢◌, ℕ, List, [], ◌∷◌, ◌++◌, None, Some, IfOk, OnErr};
ghost use Rattle.jup_text.specs.Commands.{batch_text, IsBatchCount};
ghost use Rattle.jup_client.specs.Clients.{begun, held, IsRequestOf, IsHeld, ComesTo};

use crate::batch_part::BatchPart;
use jup_text::{read_batch, read_command};
use jup_window::Command;
use jup_xform::NoMemory;
use std::alloc::Global;
use std::marker::Model;

/// What a user asks for.
#[derive(Drop)]
pub enum Request {
    /// The edit of a command.
    Edit(Command),
    /// The edit of these commands, which were on lines of their own.
    Batch(Vec<Command>),
    Sync,
    Show,
    Quit,
    /// Lines that are none of these.
    Bad,
}

/// Reads what a user asks for, line by line: a request is one line, but a batch is a line and one more for each of
/// its commands.
///
/// Contracts see the batch that has begun: how many of its lines are missing, and its commands so far.
#[derive(Drop)]
pub struct Asking {
    part: Option<BatchPart>,
}

impl Model for Asking {
    ghost use Rattle.std.specs.Prelude.{Option};
    ghost use Rattle.jup_client.specs.Clients.{Begun, held};

    ghost Value = { Option Begun };

    ghost view = { λ a. held a.part };
}

impl Asking {
    /// No line has come yet.
    pub fn new() -> Asking
        ensures { result ≡ None }
    {
        Asking { part: None }
    }

    /// Takes the next line, and answers what the lines ask for; nothing if lines of a batch are missing. A line of a
    /// batch that is no command makes it bad once its last line is there. If an allocation fails, nothing changes.
    pub fn push(&mut self, alloc: Global, line: &[u8]) -> Result<Option<Request>, NoMemory>
        ensures asked { IfOk result (λ asked. (lines : List (List ℕ))
            → IsHeld lines self.old → ComesTo (lines ++ line.now ∷ []) asked self.new) }
        ensures err { OnErr result (self.new ≡ self.old) }
    {
        let step = match self.part.take() {
            None => begin(alloc, line)?,
            Some(part) => go_on(part, line),
        };
        self.part = step.part;
        Ok(step.request)
    }

    /// What the end of the lines asks for: to quit, if no batch has begun. One that has is bad, and is forgotten.
    pub fn end(&mut self) -> Request
        ensures quit { self.old ≡ None → result ≡ Request.Quit }
        ensures bad { self.old ≢ None → result ≡ Request.Bad }
        ensures none { self.new ≡ None }
    {
        match self.part.take() {
            None => Request::Quit,
            Some(_) => Request::Bad,
        }
    }
}

/// What is held after a line, or what the line completes.
#[derive(Drop)]
struct Asked {
    part: Option<BatchPart>,
    request: Option<Request>,
}

// The first line of a request.
fn begin(alloc: Global, line: &[u8]) -> Result<Asked, NoMemory>
    ensures { IfOk result (λ asked. ComesTo (line.now ∷ []) asked.request (held asked.part)) }
{
    match read_batch(line) {
        None => Ok(Asked {
            part: None,
            request: Some(request_of(line)),
        }),
        Some(count) => begin_batch(alloc, count),
    }
}

// The line of a batch of so many commands.
fn begin_batch(alloc: Global, count: u32) -> Result<Asked, NoMemory>
    requires { IsBatchCount count }
    ensures { IfOk result (λ asked. ComesTo (batch_text count ∷ []) asked.request (held asked.part)) }
{
    let Ok(commands) = Vec::with_capacity(alloc, count as usize) else {
        return Err(NoMemory);
    };
    if count == 0 {
        return Ok(Asked {
            part: None,
            request: Some(Request::Batch(commands)),
        });
    }
    Ok(Asked {
        part: Some(BatchPart {
            missing: count,
            commands,
            is_bad: false,
        }),
        request: None,
    })
}

// A line of a batch.
fn go_on(part: BatchPart, line: &[u8]) -> Asked
    ensures { (lines : List (List ℕ)) → IsHeld lines (Some (begun part))
        → ComesTo (lines ++ line.now ∷ []) result.request (held result.part) }
{
    let BatchPart {
        missing,
        mut commands,
        mut is_bad,
    } = part;
    match read_command(line) {
        Some(command) => commands.push_reserved(command),
        None => is_bad = true,
    }
    if missing > 1 {
        return Asked {
            part: Some(BatchPart {
                missing: missing - 1,
                commands,
                is_bad,
            }),
            request: None,
        };
    }
    let request = if is_bad {
        Request::Bad
    } else {
        Request::Batch(commands)
    };
    Asked {
        part: None,
        request: Some(request),
    }
}

// What a line asks for that begins no batch.
fn request_of(line: &[u8]) -> Request
    requires { (count : ℕ) → IsBatchCount count → line.now ≢ batch_text count }
    ensures { IsRequestOf (line.now ∷ []) result }
{
    match line {
        b"sync" => Request::Sync,
        b"show" => Request::Show,
        b"quit" => Request::Quit,
        line => match read_command(line) {
            Some(command) => Request::Edit(command),
            None => Request::Bad,
        },
    }
}
