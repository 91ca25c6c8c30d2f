//! Takes that cost the others much.
ghost use Rattle.std.specs.Prelude.{◌≡◌, ◌≢◌, ◌⊎◌, ◌↔◌, ◌<◌, IfOk, IfErr, IsSome, IsNone, None, Some};
ghost use Rattle.jup_limits.specs.Limits.{most_behind};
ghost use Rattle.jup_rules.specs.declared.session.Ring.TheVariants.{All};

use super::due::Due;
use super::link::SessionLink;
use super::share::{Costly, Heavy};
use super::watch::Taken;
use jup_rules::{Admission, FarBehind, Rests};
use jup_star::Up;
use std::sync::{MutexGuard, Wait};
use std::thread;
use std::time::{Clock, Duration, Instant};

/// The turn in which a message is taken. It is not `Drop`: [`leave_turn`] gives it up after a take, and [`Turn::give_up`] without one.
pub(crate) struct Turn<'a> {
    admission: Admission,
    /// Held for a take that is not light. While a session has it no other session makes one.
    heavy: Option<MutexGuard<'a, Heavy>>,
    /// Held for a costly take, and for the rest after it.
    costly: Option<MutexGuard<'a, Costly>>,
    /// When the turn began; `None` if the clock can't be read, or if the take is light.
    start: Option<Instant>,
}

// The rest after a costly take. Meanwhile the others make takes that are not costly. It is not `Drop`: a session that owes it has to take it.
struct Rest<'a> {
    costly: MutexGuard<'a, Costly>,
    rests: Rests,
}

// How many microseconds a session has slept. `let_go` takes it, so that no session lets the others go on before its rest.
struct Slept {
    micros: u64,
}

/// Waits until a message may be taken, and answers the turn that it needs. Refused if the site is too far behind.
pub(crate) fn enter<'a, R: Wait + Clock>(
    rt: &R,
    link: &SessionLink<'a>,
    up: &Up,
    due: &mut Due,
) -> Result<Turn<'a>, FarBehind>
    ensures far { IfErr result (λ far. most_behind < far.operations) }
    ensures heavy { IfOk result (λ turn. IsSome turn.heavy ↔ (turn.admission ≢ Admission.Light)) }
    ensures costly { IfOk result (λ turn. IsSome turn.costly ↔ (turn.admission ≡ Admission.Costly)) }
{
    let admission = link.watch.admit(rt, up)?;
    let costly = wait_for_costly(rt, link, admission, due)?;
    Ok(begin(rt, link, admission, costly))
}

// Waits for the turn of a costly take, if it is one. Those who are due are woken before that. Meanwhile the others go on, so the site may be too far
// behind when the turn comes.
fn wait_for_costly<'a, R: Wait>(
    rt: &R,
    link: &SessionLink<'a>,
    admission: Admission,
    due: &mut Due,
) -> Result<Option<MutexGuard<'a, Costly>>, FarBehind>
    ensures far { IfErr result (λ far. most_behind < far.operations) }
    ensures costly { IfOk result (λ turn. IsSome turn ↔ (admission ≡ Admission.Costly)) }
    ensures quiet { admission ≡ Admission.Costly → due.new.ring ≡ None }
    ensures same { admission ≢ Admission.Costly → due.new ≡ due.old }
{
    if !admission.is_costly() {
        return Ok(None);
    }
    due.ring(rt, link);
    let costly = costly_turn(rt, link, due);
    link.watch.check(rt)?;
    Ok(Some(costly))
}

// Waits until no other session makes a costly take, or rests after one.
fn costly_turn<'a, R: Wait>(rt: &R, link: &SessionLink<'a>, _due: &Due) -> MutexGuard<'a, Costly>
    requires { _due.now.ring ≡ None }
{
    link.bell.share().wait_for_costly(rt)
}

// Waits until no other session makes a take that is not light, if this one is not.
fn begin<'a, R: Wait + Clock>(
    rt: &R,
    link: &SessionLink<'a>,
    admission: Admission,
    costly: Option<MutexGuard<'a, Costly>>,
) -> Turn<'a>
    ensures admission { result.admission ≡ admission }
    ensures heavy { IsSome result.heavy ↔ (admission ≢ Admission.Light) }
    ensures costly { IsSome result.costly ↔ IsSome costly.entry }
{
    let (heavy, start) = if admission.is_heavy() {
        let heavy = link.bell.share().wait_for_heavy(rt);
        (Some(heavy), Instant::now(rt).ok())
    } else {
        (None, None)
    };
    Turn {
        admission,
        heavy,
        costly,
        start,
    }
}

impl<'a> Turn<'a> {
    /// Gives the turn up without a take.
    pub(crate) fn give_up(self) {
        let Turn {
            admission: _,
            heavy,
            costly,
            start: _,
        } = self;
        drop(heavy);
        drop(costly);
    }

    // Gives the turn up after a take: of a long one once the session has rested. After a costly one the session owes a rest.
    fn end<R: Clock>(self, rt: &R) -> Option<Rest<'a>>
        ensures { IsSome result ↔ IsSome self.entry.costly }
    {
        let Turn {
            admission,
            heavy,
            costly,
            start,
        } = self;
        let took = start.and_then(|start| start.elapsed(rt).ok());
        let rests = admission.rests_after(took);
        let slept = sleep(rt, rests.before_others);
        let_go(heavy, rests.before_others, slept);
        match costly {
            Some(costly) => Some(Rest { costly, rests }),
            None => None,
        }
    }
}

// Lets the others have a turn, once the session has rested for so many microseconds before that.
fn let_go<T: Drop>(turn: T, micros: u64, slept: Slept)
    requires { slept.micros ≡ micros }
{
    let Slept { micros: _ } = slept;
    drop(turn);
}

impl<'a> Rest<'a> {
    // Rests, while nobody is due, and lets the others make costly takes.
    fn take<R: Clock>(self, rt: &R, _due: &Due)
        requires { _due.now.ring ≡ None }
    {
        let Rest { costly, rests } = self;
        let slept = sleep(rt, rests.beside_others);
        let_go(costly, rests.beside_others, slept);
    }
}

/// Notes that the hub has taken a message, and gives its turn up. After a long or a costly one the session rests first. Before the rest of
/// a costly one it wakes those who are due, and lets the others make takes that are not costly.
pub(crate) fn leave_turn<R: Wait + Clock>(
    rt: &R,
    link: &SessionLink<'_>,
    taken: Taken<'_>,
    turn: Turn<'_>,
    due: &mut Due,
)
    ensures due { IsNone turn.entry.costly → due.new.ring ≢ None }
    ensures all { IsNone turn.entry.costly → ((due.new.ring ≡ Some All) ↔ ((due.old.ring ≡ Some All) ⊎ (taken.entry.ring ≡ All))) }
    ensures rung { IsSome turn.entry.costly → due.new.ring ≡ None }
{
    due.add(link.watch.take(rt, taken));
    if let Some(rest) = turn.end(rt) {
        due.ring(rt, link);
        rest.take(rt, due);
    }
}

// Sleeps for so many microseconds, if any.
fn sleep<R: Clock>(rt: &R, micros: u64) -> Slept
    ensures { result.micros ≡ micros }
{
    if micros > 0 {
        thread::sleep(rt, Duration::from_micros(micros));
    }
    Slept { micros }
}
