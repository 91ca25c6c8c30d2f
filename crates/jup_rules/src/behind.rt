//! How far a site may be behind, and what one message may cost the others.
ghost use Rattle.std.specs.Prelude.{◌≡◌, ◌≢◌, ◌↔◌, ℕ, ◌+◌, ◌-◌, ◌<◌, ◌≤◌, List, [], ◌∷◌, ◌++◌, length, take, drop, sum, max, IfOk, IsTrue, OnOk, OnErr};
ghost use Rattle.std.specs.List.{flat_map};
ghost use Rattle.std.specs.VecDeque.{deque_len};
ghost use Rattle.jup_rules.specs.Lags.{IsBehind, HasFetchedSome, counted, behind_of, operations_in, heard_by, brought_by, check_of, admission_at, admission_of, micros_of, rests_of};
ghost use Rattle.jup_rules.specs.Sessions.{most_fetched};

use crate::is_last_fetch;
use jup_limits::MOST_BEHIND;
use jup_star::{Down, Up};
use jup_xform::NoMemory;
use std::alloc::Global;
use std::collections::VecDeque;
use std::marker::Model;
use std::time::Duration;

/// How many transforms a message may cost and still be light: some 0.3 ms of the hub's turn.
const LIGHT_TRANSFORMS: u64 = 8_192;

/// How many one may cost that is heavy and not yet long: some 4 ms.
const HEAVY_TRANSFORMS: u64 = 131_072;

/// How many one may cost that is long and not yet costly: some 35 ms.
const LONG_TRANSFORMS: u64 = 1_048_576;

/// Microseconds that a session rests after a long take. Meanwhile those go on who wait for the turn of the hub, which has no queue.
const REST: u64 = 500;

/// How often as long as a costly take a session rests after it.
const RESTS: u64 = 7;

/// Microseconds that it rests at most.
const LONGEST_REST: u64 = 2_000_000;

/// By how many operations a site is too far behind: more than 262,144.
#[derive(Clone, Copy, Debug, PartialEq, Eq)]
pub struct FarBehind {
    pub operations: u64,
}

/// What a message of a site that is not too far behind waits for before the star takes it, and whether its session rests after that.
#[derive(Clone, Copy, Debug, PartialEq, Eq)]
pub enum Admission {
    /// It is taken immediately.
    Light,
    /// It is taken once no other session makes a take that is not light.
    Heavy,
    /// As a heavy one. The session rests after it, and only then another session makes a take that is not light.
    Long,
    /// As a heavy one, once no other session makes a costly take or rests after one. The session rests after it.
    Costly,
}

// Refused if a site that is so many operations behind has to go.
fn check(behind: u64) -> Result<(), FarBehind>
    ensures { result ≡ check_of behind }
{
    if behind > u64::from(MOST_BEHIND) {
        return Err(FarBehind { operations: behind });
    }
    Ok(())
}

// What becomes of a message of so many operations whose site is so many behind.
fn admit(operations: u32, behind: u64) -> Result<Admission, FarBehind>
    ensures { result ≡ admission_of operations behind }
{
    check(behind)?;
    Ok(admission_at(u64::from(operations) * behind))
}

// What a message waits for that costs so many transforms.
fn admission_at(cost: u64) -> Admission
    ensures { result ≡ admission_at cost }
{
    if cost > LONG_TRANSFORMS {
        Admission::Costly
    } else if cost > HEAVY_TRANSFORMS {
        Admission::Long
    } else if cost > LIGHT_TRANSFORMS {
        Admission::Heavy
    } else {
        Admission::Light
    }
}

/// How many microseconds a session rests after a take, outside the turn of the hub.
#[derive(Clone, Copy, Debug, PartialEq, Eq)]
pub struct Rests {
    /// Before another session makes a take that is not light.
    pub before_others: u64,
    /// After that, and before another session makes a costly take.
    pub beside_others: u64,
}

impl Admission {
    /// Whether it waits until no other session makes a take that is not light.
    pub fn is_heavy(self) -> bool
        ensures { IsTrue result ↔ (self ≢ Admission.Light) }
    {
        self != Admission::Light
    }

    /// Whether it waits until no other session makes a costly take, or rests after one.
    pub fn is_costly(self) -> bool
        ensures { IsTrue result ↔ (self ≡ Admission.Costly) }
    {
        self == Admission::Costly
    }

    /// How long a session rests after such a take that took so long. `None` if the clock can't be read: then it rests for as long as it ever does.
    pub fn rests_after(self, took: Option<Duration>) -> Rests
        ensures { result ≡ rests_of self took }
    {
        let (before_others, beside_others) = match self {
            Admission::Light | Admission::Heavy => (0, 0),
            Admission::Long => (REST, 0),
            Admission::Costly => (0, micros_of(took).saturating_mul(RESTS).min(LONGEST_REST)),
        };
        Rests {
            before_others,
            beside_others,
        }
    }
}

// Microseconds of a time, up to as many as can be counted; as many if the time is not known.
fn micros_of(took: Option<Duration>) -> u64
    ensures { result ≡ micros_of took }
{
    match took {
        Some(took) => u64::try_from(took.as_micros()).unwrap_or(u64::MAX),
        None => u64::MAX,
    }
}

/// Operations of a message that the star took, which nobody has counted yet. Contracts see how many. It is not `Drop`, so a caller that has it has to count it.
#[derive(Debug)]
pub struct Uncounted {
    operations: u32,
}

impl Model for Uncounted {
    ghost use Rattle.std.specs.Prelude.{ℕ};

    ghost Value = { ℕ };

    ghost view = { λ u. u.operations };
}

impl Uncounted {
    /// So many operations, by a caller of the hub that is no session.
    pub fn new(operations: u32) -> Uncounted
        ensures { result ≡ operations }
    {
        Uncounted { operations }
    }

    /// How many operations are to be counted.
    pub fn operations(self) -> u32
        ensures { result ≡ self }
    {
        let Uncounted { operations } = self;
        operations
    }
}

/// That the messages of a fetch are noted. Contracts see how many. [`Lag::fetch_all`] alone makes it, so a caller that has to answer it can't pass over a
/// note that was refused.
#[derive(Clone, Copy, Debug, PartialEq, Eq)]
pub struct Noted {
    messages: usize,
}

impl Model for Noted {
    ghost use Rattle.std.specs.Prelude.{ℕ};

    ghost Value = { ℕ };

    ghost view = { λ n. n.messages };

    ghost inverse = { λ n. record { messages = n } };
}

impl Noted {
    /// Whether the fetch left none.
    pub fn is_last(self) -> bool
        ensures { IsTrue result ↔ (self < most_fetched) }
    {
        is_last_fetch(self.messages)
    }
}

/// How far a site is behind: how many operations of others, taken since it joined, it has not acknowledged. Those that wait to be fetched are
/// among them, so a caller tells how many operations the server has taken.
///
/// Contracts see what is kept.
#[derive(Drop)]
pub struct Lag {
    /// Operations that the site knows: those taken before it joined, its own, and those that it acknowledged.
    known: u64,
    /// The operations of each message that was fetched and not acknowledged, the oldest first.
    unheard: VecDeque<u8>,
    /// Messages that it acknowledged.
    acknowledged: u32,
    /// Messages that it acknowledged before they were fetched. No client of this code does so.
    early: u32,
}

impl Model for Lag {
    ghost use Rattle.std.specs.Prelude.{◌≤◌};
    ghost use Rattle.jup_rules.specs.Lags.{Behind};

    ghost Value = { Behind };

    ghost view = { λ l. record { known = l.known; waiting = l.unheard.items; acknowledged = l.acknowledged; early = l.early } };

    ghost invariant = { λ l. l.early ≤ l.acknowledged };
}

impl Lag {
    /// A site that has just joined, where the server had taken so many operations.
    pub fn new(alloc: Global, taken: u64) -> Lag
        ensures joined { IsBehind taken [] result }
        ensures acknowledged { result.acknowledged ≡ 0 }
    {
        Lag {
            known: taken,
            unheard: VecDeque::new(alloc),
            acknowledged: 0,
            early: 0,
        }
    }

    /// Decides what becomes of a message of the site, where the server has taken so many operations. What the message acknowledges
    /// counts first. Refused if the site is too far behind.
    pub fn admit(&mut self, up: &Up, taken: u64) -> Result<Admission, FarBehind>
        ensures kept { (besides : ℕ) (messages : List ℕ) → IsBehind besides messages self.old → IsBehind besides messages self.new }
        ensures acknowledged { self.new.acknowledged ≡ max self.old.acknowledged (heard_by up.now) }
        ensures admission { result ≡ admission_of (operations_in up.now) (behind_of taken self.new) }
    {
        self.acknowledge(heard_by(up));
        admit(operations_in(up), self.behind(taken))
    }

    /// Notes that the site has joined again, where the server had taken so many operations.
    pub fn join(&mut self, taken: u64)
        ensures joined { IsBehind taken [] self.new }
        ensures acknowledged { self.new.acknowledged ≡ 0 }
    {
        self.known = taken;
        self.unheard.clear();
        self.acknowledged = 0;
        self.early = 0;
    }

    /// Notes a message of the site that the star has taken, and answers its operations, which the caller counts.
    pub fn take(&mut self, up: &Up) -> Uncounted
        ensures own { (besides : ℕ) (messages : List ℕ) → IsBehind besides messages self.old → IsBehind (besides + operations_in up.now) messages self.new }
        ensures acknowledged { self.new.acknowledged ≡ self.old.acknowledged }
        ensures uncounted { result ≡ operations_in up.now }
    {
        let operations = operations_in(up);
        self.known = self.known.saturating_add(u64::from(operations));
        Uncounted::new(operations)
    }

    /// Notes messages that were fetched for the site. Where memory is refused, the first of them are noted.
    pub fn fetch_all(&mut self, downs: &[Down]) -> Result<Noted, NoMemory>
        ensures noted { IfOk result (λ noted. noted ≡ length downs.now) }
        ensures ok { OnOk result ((besides : ℕ) (messages : List ℕ) → IsBehind besides messages self.old
            → IsBehind besides (messages ++ flat_map brought_by downs.now) self.new) }
        ensures acknowledged { self.new.acknowledged ≡ self.old.acknowledged }
        ensures err { OnErr result ((count : ℕ) × HasFetchedSome (take count downs.now) self.old self.new) }
    {
        for down in downs {
            self.fetch(down)?;
        }
        Ok(Noted {
            messages: downs.len(),
        })
    }

    /// Notes a message that was fetched for the site. Where memory is refused nothing changes.
    pub fn fetch(&mut self, down: &Down) -> Result<(), NoMemory>
        ensures ok { OnOk result ((besides : ℕ) (messages : List ℕ) → IsBehind besides messages self.old
            → IsBehind besides (messages ++ brought_by down.now) self.new) }
        ensures acknowledged { self.new.acknowledged ≡ self.old.acknowledged }
        ensures err { OnErr result (self.new ≡ self.old) }
    {
        match down {
            Down::Op(msg) => self.bring(msg.op.as_slice().len() as u8),
            Down::Ack(_) | Down::Pong(_) => Ok(()),
        }
    }

    // Notes an edit of so many operations that was fetched.
    fn bring(&mut self, operations: u8) -> Result<(), NoMemory>
        ensures ok { OnOk result ((besides : ℕ) (messages : List ℕ) → IsBehind besides messages self.old → IsBehind besides (messages ++ operations ∷ []) self.new) }
        ensures acknowledged { self.new.acknowledged ≡ self.old.acknowledged }
        ensures err { OnErr result (self.new ≡ self.old) }
    {
        if self.early == 0 {
            return match self.unheard.push_back(operations) {
                Ok(()) => Ok(()),
                Err(_) => Err(NoMemory),
            };
        }
        self.early -= 1;
        self.known = self.known.saturating_add(u64::from(operations));
        Ok(())
    }

    // Notes that the site has acknowledged so many messages in total.
    fn acknowledge(&mut self, count: u32)
        ensures kept { (besides : ℕ) (messages : List ℕ) → IsBehind besides messages self.old → IsBehind besides messages self.new }
        ensures acknowledged { self.new.acknowledged ≡ max self.old.acknowledged count }
    {
        let more = count.saturating_sub(self.acknowledged);
        let fetched = self.unheard.len().min(more as usize);
        self.known = hear(self.known, &mut self.unheard, fetched);
        self.early += more - fetched as u32;
        self.acknowledged += more;
    }

    /// Refused if the site is too far behind, where the server has taken so many operations.
    pub fn check(&self, taken: u64) -> Result<(), FarBehind>
        ensures { result ≡ check_of (behind_of taken self.now) }
    {
        check(self.behind(taken))
    }

    /// How many operations the site is behind, where the server has taken so many.
    pub fn behind(&self, taken: u64) -> u64
        ensures behind { result ≡ behind_of taken self.now }
        // Whatever came before: all others' operations since the join, less those of the messages that it acknowledged.
        ensures others { (besides : ℕ) (messages : List ℕ) → IsBehind besides messages self.now
            → result ≡ taken - counted (besides + sum (take self.now.acknowledged messages)) }
    {
        taken.saturating_sub(self.known)
    }
}

// Takes the first messages out of a queue, and adds their operations to those that are known.
fn hear(known: u64, unheard: &mut VecDeque<u8>, count: usize) -> u64
    requires { count ≤ deque_len unheard.old }
    ensures known { result ≡ counted (known + sum (take count unheard.old.items)) }
    ensures waiting { unheard.new.items ≡ drop count unheard.old.items }
{
    let mut all = known;
    for _ in 0..count {
        if let Some(operations) = unheard.pop_front() {
            all = all.saturating_add(u64::from(operations));
        }
    }
    all
}

/// How many operations a message of a site has.
pub fn operations_in(up: &Up) -> u32
    ensures { result ≡ operations_in up.now }
{
    match up {
        Up::Op(msg) => msg.op.as_slice().len() as u32,
        Up::Ack(_) | Up::Ping(_) => 0,
    }
}

// How many messages it says that the site received.
fn heard_by(up: &Up) -> u32
    ensures { result ≡ heard_by up.now }
{
    match up {
        Up::Op(msg) => msg.heard,
        Up::Ack(count) => *count,
        Up::Ping(_) => 0,
    }
}
