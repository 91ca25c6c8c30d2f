//! Plays a script from standard input, and prints its replies.
#![tactic(auto)]

use self::words::read_words;
use jup_script::run_script;
use std::process::ExitCode;

mod words;

// Plays the script. If it was not played to its end, it prints why on standard error, and in a second line what is wrong
// with a bad line.
fn play(rt: &HostRuntime) -> u8 {
    let Err(end) = run_script(rt.alloc(), rt.stdin(), &mut rt.stdout()) else {
        return 0;
    };
    let _ = eprintln!(rt; "{end}");
    if let Some(fault) = end.fault() {
        let _ = eprintln!(rt; "{fault}");
    }
    end.status()
}

fn main(rt: HostRuntime) -> ExitCode {
    let status = match read_words(&rt) {
        Ok(()) => play(&rt),
        Err(unread) => unread.tell(&mut rt.stdout(), &mut rt.stderr()),
    };
    ExitCode::from(status)
}
