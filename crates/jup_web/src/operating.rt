//! The commands of the operator, from standard input.
ghost use Rattle.jup_hub.specs.Passes.{IsPassOf};

use crate::keeping::board_text;
use crate::session::Service;
use jup_hub::Pass;
use jup_service::{Command, Typed, typed_by};
use jup_xform::NoMemory;
use std::alloc::Global;
use std::io;
use std::io::{BufRead, BufReader, Read, Write};
use std::sync::Wait;
use std::time::{Clock, Duration};

/// Milliseconds after which the server reads on if there was no memory for a line.
const MEMORY_PAUSE: u64 = 100;

/// Obeys the operator until a stop. The end of the input is no stop.
pub(crate) fn operate<R: Wait + Clock + Print, I: Read + Drop>(
    rt: &R,
    service: &Service<'_>,
    mut input: BufReader<I>,
    mut pass: Pass,
)
    requires { IsPassOf service.now.hub.now pass }
{
    for _ in rt.forever() {
        match next_typed(service.alloc, &mut input) {
            Typed::Command(Command::Stop) => {
                service.stop.tell(rt);
                return;
            }
            Typed::Command(Command::Show) => show(rt, service, &mut pass),
            Typed::BadCommand => {
                let _ = println!(rt; "bad command");
            }
            Typed::NoMemory => {
                let _ = println!(rt; "{NoMemory}");
                service.stop.wait(rt, Duration::from_millis(MEMORY_PAUSE));
            }
            Typed::End => return,
        }
    }
}

// What the operator types next.
fn next_typed<I: BufRead>(alloc: Global, input: &mut I) -> Typed {
    let mut line = String::new(alloc);
    let read = input.read_line(&mut line);
    typed_by(read, line.as_str().trim_end().as_bytes())
}

// Prints the board.
fn show<R: Wait + Print>(rt: &R, service: &Service<'_>, pass: &mut Pass)
    requires { IsPassOf service.now.hub.now pass.old }
    ensures { IsPassOf service.now.hub.now pass.new }
{
    match board_text(rt, service.alloc, service.hub, pass) {
        Ok(text) => {
            let _ = io::writer(rt).write_all(text.as_slice());
        }
        Err(fault) => {
            let _ = println!(rt; "{fault}");
        }
    }
}
