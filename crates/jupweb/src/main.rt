//! Serves the board of a file to browsers and to clients.
#![tactic(auto)]

use jup_io::hold_streams;
use jup_options::arguments;
use jup_page::PAGE;
use jup_web::web_main;
use std::process::ExitCode;

fn main(rt: HostRuntime) -> ExitCode {
    let _held = hold_streams(&rt);
    let status = match arguments(&rt) {
        Ok(words) => web_main(&rt, rt.alloc(), &words, PAGE, rt.stdin()),
        Err(unread) => unread.tell(&mut rt.stdout(), &mut rt.stderr()),
    };
    ExitCode::from(status)
}
