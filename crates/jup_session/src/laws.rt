//! What holds of all sessions.

ghost use Rattle.std.specs.Prelude.{◌≡◌, ℕ, Bool, List, ◌++◌, Option, Some};
ghost use Rattle.jup_hub.specs.declared.view.View.{View};
ghost use Rattle.jup_wire.specs.declared.line.Line.{Line};
ghost use Rattle.jup_wire.specs.Streams.{HasRead, Progress};
ghost use Rattle.jup_rules.specs.declared.ends.Ending.{Ending};
ghost use Rattle.jup_stream.specs.declared.saying.Said.{Said};
ghost use Rattle.jup_rules.specs.Sessions.{HasHeard, Keeper};
ghost use Rattle.jup_session.specs.declared.sessions.undone.Undone.{Undone};
ghost use Rattle.jup_session.specs.ExactSessions.{IsExact, bytes_read, lines_read, bytes_written, BeginWith};

/// The bytes of a reader begin with those that a session read. The writer holds what it had, and after that the bytes that the session
/// wrote. In whatever way the bytes read are lines, these begin with the lines that the session looked at. By the lines a site says
/// just one list of messages.
pub fn one_session()
    ensures read { (from old new : Option (List ℕ)) (v x : View) (ending : Ending) (failed : Bool) (undone : Undone) (e : IsExact from old new v x ending failed undone) (given : List ℕ)
        → from ≡ Some given → BeginWith given (bytes_read e) }
    ensures written { (from old new : Option (List ℕ)) (v x : View) (ending : Ending) (failed : Bool) (undone : Undone) (e : IsExact from old new v x ending failed undone) (held wrote : List ℕ)
        → old ≡ Some held → new ≡ Some wrote → wrote ≡ held ++ bytes_written e }
    ensures lines { (from old new : Option (List ℕ)) (v x : View) (ending : Ending) (failed : Bool) (undone : Undone) (e : IsExact from old new v x ending failed undone) (lines : List Line) (progress : Progress)
        → HasRead (bytes_read e) lines progress → BeginWith lines (lines_read e) }
    ensures messages { (lines : List Line) (saids others : List Said) (keeper other : Keeper)
        → HasHeard lines saids keeper → HasHeard lines others other → (saids ≡ others) × (keeper ≡ other) }
{}
