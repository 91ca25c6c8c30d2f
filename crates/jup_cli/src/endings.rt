//! How a client ends whose link outlives its connections.
ghost use Rattle.std.specs.Prelude.{◌≡◌};
ghost use Rattle.jup_cli.specs.Endings.{ending_of, leaving, end_of_bytes, end_of_writes, leaves_more};

use jup_client::ClientEnd;
use jup_redial::Fate;
use jup_wire::WireFault;

/// How a client ends, by how its run ended and by what became of its link. The run sees an end of the bytes in place of each reason that the link has.
pub fn ending_of(run: Result<(), ClientEnd>, fate: Fate) -> Result<(), ClientEnd>
    ensures { result ≡ ending_of run fate }
{
    match run {
        Ok(()) => leaving(fate),
        Err(ClientEnd::Fault(number)) if number == WireFault::EarlyEnd.number() => {
            Err(end_of_bytes(fate))
        }
        Err(ClientEnd::WriteFailed) => Err(end_of_writes(fate)),
        Err(end) => Err(end),
    }
}

/// Whether there is more to say of the link than the client's end says.
pub fn leaves_more(end: Result<(), ClientEnd>, fate: Fate) -> bool
    ensures { result ≡ leaves_more end fate }
{
    match (end, fate) {
        (Ok(()), _) => false,
        (Err(ClientEnd::Fault(told)), Fate::Faulty(number)) => told != number,
        (Err(_), _) => fate.is_told(),
    }
}

// The client has said `bye`. It ends well if the server has taken all edits.
fn leaving(fate: Fate) -> Result<(), ClientEnd>
    ensures { result ≡ leaving fate }
{
    match fate {
        Fate::Finished | Fate::Ended { lost: 0 } => Ok(()),
        Fate::NoMemory => Err(ClientEnd::NoMemory),
        _ => Err(ClientEnd::WriteFailed),
    }
}

// The bytes have ended within a `sync`, or before `ready`.
fn end_of_bytes(fate: Fate) -> ClientEnd
    ensures { result ≡ end_of_bytes fate }
{
    match fate {
        Fate::Refused(number) | Fate::Faulty(number) => ClientEnd::Fault(number),
        Fate::Unconnected => ClientEnd::Unconnected,
        Fate::NoMemory => ClientEnd::NoMemory,
        _ => ClientEnd::Fault(WireFault::EarlyEnd.number()),
    }
}

// A write failed.
fn end_of_writes(fate: Fate) -> ClientEnd
    ensures { result ≡ end_of_writes fate }
{
    match fate {
        Fate::NoMemory => ClientEnd::NoMemory,
        _ => ClientEnd::WriteFailed,
    }
}
