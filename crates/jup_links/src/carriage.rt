//! Which carrier a link has, and since when it has none.
ghost use Rattle.std.specs.Prelude.{◌≡◌, ◌↔◌, true, Some, IsTrue, IsFalse};
ghost use Rattle.jup_links.specs.Carriages.{first_carrier, IsPresent, after_taking_over, after_losing, HasWaited};

use std::marker::Model;

/// The carriers of a link, one after another. Times are milliseconds since the server began. Contracts see the number of the last one, whether it is there, whether the
/// client's bytes have ended on it, and since when the link waits.
#[derive(Drop)]
pub struct Carriage {
    /// The number of the last carrier, from 1.
    number: u64,
    is_there: bool,
    /// Whether the client's bytes have ended on it.
    has_ended: bool,
    /// From when the link waits for a carrier, or the last line was written to the one that is there.
    since: Option<u64>,
}

impl Model for Carriage {
    ghost use Rattle.jup_links.specs.Carriages.{Carrying};

    ghost Value = { Carrying };

    ghost view = { λ c. record { number = c.number; is_there = c.is_there; has_ended = c.has_ended; since = c.since } };
}

impl Carriage {
    /// The carrier that opened the link.
    pub fn new() -> Carriage
        ensures { result ≡ first_carrier }
    {
        Carriage {
            number: 1,
            is_there: true,
            has_ended: false,
            since: None,
        }
    }

    /// Whether this is the carrier that carries the link now.
    pub fn is_present(&self, number: u64) -> bool
        ensures { IsTrue result ↔ IsPresent number self.now }
    {
        self.is_there && self.number == number
    }

    /// The number of the present carrier, or of the last one.
    pub fn number(&self) -> u64
        ensures { result ≡ self.now.number }
    {
        self.number
    }

    /// Whether a carrier is there.
    pub fn is_there(&self) -> bool
        ensures { result ≡ self.now.is_there }
    {
        self.is_there
    }

    /// Another carrier takes the link.
    pub fn take_over(&mut self)
        ensures { self.new ≡ after_taking_over self.old }
    {
        self.number = self.number.wrapping_add(1);
        self.is_there = true;
        self.has_ended = false;
        self.since = None;
    }

    /// The carrier is gone. Whether it was the present one.
    pub fn cut(&mut self, number: u64, now: u64) -> bool
        ensures present { IsTrue result ↔ IsPresent number self.old }
        ensures lost { IsTrue result → self.new ≡ after_losing now self.old }
        ensures same { IsFalse result → self.new ≡ self.old }
    {
        if !self.is_present(number) {
            return false;
        }
        self.is_there = false;
        self.since = Some(now);
        true
    }

    /// The client's bytes have ended on the present carrier.
    pub fn end_bytes(&mut self)
        ensures { self.new ≡ record self.old { has_ended = true } }
    {
        self.has_ended = true;
    }

    /// Whether the client's bytes have ended on the present carrier.
    pub fn has_ended(&self) -> bool
        ensures { result ≡ self.now.has_ended }
    {
        self.has_ended
    }

    /// The last line was written to the present carrier.
    pub fn wrote_last(&mut self, now: u64)
        ensures { self.new ≡ record self.old { since = Some now } }
    {
        self.since = Some(now);
    }

    /// From when the link waits.
    pub fn since(&self) -> Option<u64>
        ensures { result ≡ self.now.since }
    {
        self.since
    }

    /// Whether the link has waited for so many milliseconds, and not for a part of one less.
    pub fn has_waited(&self, now: u64, most: u64) -> bool
        ensures { IsTrue result ↔ HasWaited now most self.now }
    {
        match self.since {
            Some(since) => now.saturating_sub(since) > most,
            None => false,
        }
    }
}
