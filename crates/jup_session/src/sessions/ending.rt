//! The last line of a session.
ghost use Rattle.std.specs.Prelude.{◌≡◌, [], ◌∷◌};
ghost use Rattle.jup_rules.specs.Ends.{last_line, standing};
ghost use Rattle.jup_stream.specs.Streams.{PutsLines, IsFlushed};
ghost use Rattle.jup_session.specs.Sessions.{untold_line};

use jup_io::Peer;
use jup_rules::Ending;
use jup_stream::Output;

/// Reports to the site how its session ended. After a failed write it writes nothing.
pub(crate) fn tell<O: Peer + Drop>(output: &mut Output<O>, ending: Ending)
    ensures put { PutsLines output.old (last_line ending ∷ []) output.new }
    ensures flushed { IsFlushed output.new }
{
    output.push(&ending.line());
    let _ = output.send();
}

/// The ending that counts: the one that the writing half reported to the site, or else the one that the reading half heard. In the
/// second case it reports that ending to the site.
pub(crate) fn tell_untold<O: Peer + Drop>(
    output: &mut Output<O>,
    told: Option<Ending>,
    heard: Ending,
) -> Ending
    ensures stands { result ≡ standing told heard }
    ensures put { PutsLines output.old (untold_line told heard) output.new }
    ensures flushed { IsFlushed output.old → IsFlushed output.new }
{
    if told.is_none() {
        tell(output, heard);
    }
    heard.after(told)
}
