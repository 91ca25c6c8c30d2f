//! The places of the connections that are open, and how many of them are links.
ghost use Rattle.std.specs.Prelude.{◌≡◌, ◌<◌, ◌-◌, ◌+◌, None, Some, true, min, length, set, is_none, position, slice_get, IfSome, IfNone, IsNone, ◌↔◌};
ghost use Rattle.std.specs.List.{list_all};

use std::array;
use std::marker::Model;

/// Connections that may be open at a time: 64 links, and as many that ask for a page or have not shown yet what they are.
const MOST_OPEN: usize = 128;

/// The place of a connection that is open. Contracts see its number. It is not `Drop`, so its owner has to give it back by [`Places::leave`].
pub struct Place {
    at: usize,
}

impl Model for Place {
    ghost use Rattle.std.specs.Prelude.{ℕ, ◌<◌};

    ghost Value = { ℕ };

    ghost view = { λ place. place.at };

    ghost invariant = { λ place. place.at < 128 };
}

/// The places of the connections that may be open, and what each holds of its connection. Contracts see what each place holds.
#[derive(Drop)]
pub struct Places<T: Drop> {
    held: [Option<T>; MOST_OPEN],
}

impl<T: Drop> Model for Places<T> {
    ghost use Rattle.std.specs.Prelude.{List, Option};
    ghost use Rattle.std.specs.Coded.{coded_list, coded_option};

    ghost Value = { List (Option T) };

    ghost coded = { coded_list (coded_option T.code) };

    ghost view = { λ places. places.held };
}

impl<T: Drop> Places<T> {
    /// All places are free.
    pub fn new() -> Places<T>
        ensures free { list_all is_none result ≡ true }
        ensures many { length result ≡ 128 }
    {
        Places {
            held: array::from_fn(
                |_|
                    ensures { result ≡ None }
                { None },
            ),
        }
    }

    /// Puts what is held of a connection into a place that was free. `None` if none was: nothing is held then.
    pub fn enter(&mut self, handle: T) -> Option<Place>
        ensures held { IfSome result (λ place. (position is_none self.old ≡ Some place) × (self.new ≡ set self.old place (Some handle))) }
        ensures full { IfNone result ((position is_none self.old ≡ None) × (self.new ≡ self.old)) }
    {
        let at = free_place(&self.held)?;
        self.held[at] = Some(handle);
        Some(Place { at })
    }

    /// A place is free from here on.
    pub fn leave(&mut self, place: Place)
        ensures { self.new ≡ set self.old place None }
    {
        let Place { at } = place;
        self.held[at] = None;
    }

    /// What a place holds.
    pub fn held(&self, place: &Place) -> Option<&T>
        ensures none { IsNone result ↔ (slice_get self.now place.now ≡ Some None) }
        ensures some { IfSome result (λ held. slice_get self.now place.now ≡ Some (Some held.now)) }
    {
        self.held[place.at].as_ref()
    }

    /// Whether all places are free.
    pub fn are_free(&self) -> bool
        ensures { result ≡ list_all is_none self.now }
    {
        self.held.iter().all(Option::is_none)
    }

    /// What each place holds.
    pub fn as_slice(&self) -> &[Option<T>]
        ensures { result.now ≡ self.now }
    {
        &self.held
    }
}

// The first place that is free.
fn free_place<T>(held: &[Option<T>]) -> Option<usize>
    ensures place { result ≡ position is_none held.now }
    ensures within { IfSome result (λ at. at < length held.now) }
{
    held.iter().position(|held| held.is_none())
}

/// A link that is counted. It is not `Drop`, so its owner has to give it back by [`Links::end`].
pub struct Linked {
    _private: (),
}

/// How many of the connections are links. Contracts see that number.
#[derive(Drop)]
pub struct Links {
    count: u32,
}

impl Model for Links {
    ghost use Rattle.std.specs.Prelude.{ℕ};

    ghost Value = { ℕ };

    ghost view = { λ links. links.count };
}

impl Links {
    /// There are none.
    pub fn new() -> Links
        ensures { result ≡ 0 }
    {
        Links { count: 0 }
    }

    /// Counts one more, up to as many as can be counted.
    pub fn begin(&mut self) -> Linked
        ensures { self.new ≡ min 4294967295 (self.old + 1) }
    {
        self.count = self.count.saturating_add(1);
        Linked { _private: () }
    }

    /// A link has ended.
    pub fn end(&mut self, linked: Linked)
        ensures { self.new ≡ self.old - 1 }
    {
        let Linked { _private: () } = linked;
        self.count = self.count.saturating_sub(1);
    }

    /// How many there are.
    pub fn count(&self) -> u32
        ensures { result ≡ self.now }
    {
        self.count
    }
}
