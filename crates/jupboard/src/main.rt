//! Makes a layout of a printed board, and prints the board of a layout.
#![tactic(auto)]

ghost use Rattle.std.specs.Prelude.{◌≡◌, ◌≤◌};

use self::words::{Direction, read_words};
use jup_board::{BoardEnd, lay_out, print_layout};
use jup_limits::LONGEST_INPUT;
use std::process::ExitCode;

mod words;

// Makes what is asked for of standard input. If it was not made, it prints why on standard error, and in a second line what is wrong.
fn make(rt: &HostRuntime, direction: Direction) -> u8
    ensures { result ≤ 5 }
{
    let made = match direction {
        Direction::LayOut => lay_out(rt.alloc(), rt.stdin(), &mut rt.stdout()),
        Direction::Print => print_layout(rt.alloc(), rt.stdin(), &mut rt.stdout()),
    };
    let Err(end) = made else {
        return 0;
    };
    let _ = eprintln!(rt; "{end}");
    explain(rt, &end);
    end.status()
}

fn explain(rt: &HostRuntime, end: &BoardEnd) {
    let _ = match end {
        BoardEnd::Line(_, fault) => eprintln!(rt; "{fault}"),
        BoardEnd::Layout(fault) => {
            let cause = fault.cause();
            eprintln!(rt; "{cause}")
        }
        BoardEnd::LongLayout(bytes) => {
            let most = LONGEST_INPUT;
            eprintln!(rt; "it has {bytes} bytes, and {most} are the most")
        }
        BoardEnd::Unread => eprintln!(rt; "cannot read the input"),
        BoardEnd::Unprinted => eprintln!(rt; "cannot print"),
        BoardEnd::LongBoard | BoardEnd::LongInput | BoardEnd::NoMemory => Ok(()),
    };
}

fn main(rt: HostRuntime) -> ExitCode {
    let status = match read_words(&rt) {
        Ok(direction) => make(&rt, direction),
        Err(unread) => unread.tell(&mut rt.stdout(), &mut rt.stderr()),
    };
    ExitCode::from(status)
}
