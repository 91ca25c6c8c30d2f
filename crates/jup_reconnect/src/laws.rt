//! What the calls of a client of a link come to.
ghost use Rattle.std.specs.Prelude.{◌≡◌, Bool, false, List, [], ◌∷◌, codes};
ghost use Rattle.jup_reconnect.specs.Runs.{Call, Situation, client_of, Does, IsCall, IsFirst, AllDone, IsUnbroken, cut_calls};

/// Whatever its connections do, the session of such a client is that of a client on one unbroken link. Its user does the same there. The
/// lines that come are the first ones that the server put, and those that go out reach the server as [`jup_lasting::cuts_change_nothing`]
/// says.
///
/// The other clause is of the calls: each does what its own contract says.
///
/// It does nothing: its contract is the theorem.
pub fn cuts_are_unseen()
    ensures calls { (call : Call) (s t : Situation) → Does call s t → IsCall call (client_of s) (client_of t) }
    ensures unbroken { (watched : Bool) (calls : List Call) (s t : Situation) → IsFirst watched s → AllDone calls s t → IsUnbroken s.session calls t }
{}

/// There is such a run. The connection breaks within the line after which the client is open. The next one brings that line, and its
/// user's ping reaches the server.
///
/// It does nothing: its contract is the theorem.
pub fn cut_sessions_go_on()
    ensures { (s t : Situation) × IsFirst false s × AllDone cut_calls s t × (t.moment.told ≡ codes "welcome 1 1000" ∷ codes "ready" ∷ [])
        × (t.moment.ways.up.handed ≡ codes "ping 1" ∷ []) }
{}
