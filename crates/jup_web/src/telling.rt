//! What a server that ends early reports.
ghost use Rattle.std.specs.Prelude.{◌≡◌, ◌≤◌};
ghost use Rattle.jup_service.specs.Servers.{service_end_status};

use jup_options::Unread;
use jup_service::{Attempt, ServiceEnd};

/// Reports why the server has no arguments to work by, and returns the exit status. Help goes to standard output.
pub(crate) fn tell_unread<R: Print + Eprint>(rt: &R, unread: &Unread) -> u8
    ensures { result ≤ 5 }
{
    match unread {
        Unread::Help(text) => match print!(rt; "{text}") {
            Ok(()) => {}
            Err(_) => return tell(rt, ServiceEnd::Io(Attempt::Print)),
        },
        Unread::Refused(text) => {
            let _ = eprint!(rt; "{text}");
        }
        Unread::NotText | Unread::NoMemory => {
            let _ = eprintln!(rt; "{unread}");
        }
    }
    unread.status()
}

/// Reports why the server ends, and answers the exit status.
pub(crate) fn tell<R: Eprint>(rt: &R, end: ServiceEnd) -> u8
    ensures status { result ≡ service_end_status end }
    ensures most { result ≤ 5 }
{
    let _ = eprintln!(rt; "{end}");
    let _ = match end {
        ServiceEnd::Io(attempt) => {
            let text = attempt.text();
            eprintln!(rt; "cannot {text}")
        }
        ServiceEnd::BadBoard(_, fault) => eprintln!(rt; "{fault}"),
        ServiceEnd::BadCaptions(_, fault) => eprintln!(rt; "{fault}"),
        ServiceEnd::BoardTaken => eprintln!(rt; "another program has the file of the board"),
        ServiceEnd::NoOrigin => eprintln!(rt;
            "all addresses of the machine are listened at: tell by --origin under which one browsers come"
        ),
        ServiceEnd::NoMemory | ServiceEnd::LongBoard => Ok(()),
    };
    end.status()
}
