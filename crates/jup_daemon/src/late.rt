//! The connections that came after the last session.

use std::array;
use std::net::{Shutdown, TcpStream};
use std::sync::{Mutex, Wait};

/// How many of them may wait for their first line at a time.
const MOST_LATE: usize = 64;

/// A connection that has not said yet what it is.
#[derive(Drop)]
struct Waiting {
    stream: TcpStream,
    /// How many such connections came before it.
    number: u64,
}

/// The connections that came after the last session, and have not said yet what they are.
#[derive(Drop)]
pub(crate) struct Late {
    places: Mutex<Places>,
}

#[derive(Drop)]
struct Places {
    waiting: [Option<Waiting>; MOST_LATE],
    /// How many connections came.
    came: u64,
}

impl Late {
    pub(crate) fn new() -> Late {
        Late {
            places: Mutex::new(Places {
                waiting: array::from_fn(|_| None),
                came: 0,
            }),
        }
    }

    /// Keeps a handle of a connection, and answers its number. One too many closes the one that has waited for the longest time. `None` if no handle can be made.
    pub(crate) fn enter<R: Wait>(&self, rt: &R, stream: &TcpStream) -> Option<u64> {
        let handle = stream.try_clone().ok()?;
        Some(self.places.lock(rt).enter(handle))
    }

    /// The connection of this number has said what it is.
    pub(crate) fn leave<R: Wait>(&self, rt: &R, number: u64) {
        self.places.lock(rt).leave(number);
    }

    /// Nobody may come any more: all are closed.
    pub(crate) fn close<R: Wait>(&self, rt: &R) {
        let places = self.places.lock(rt);
        for waiting in places.waiting.iter().flatten() {
            let _ = waiting.stream.shutdown(Shutdown::Both);
        }
    }
}

impl Places {
    fn enter(&mut self, stream: TcpStream) -> u64 {
        let number = self.came;
        self.came = self.came.wrapping_add(1);
        let free = self.waiting.iter().position(Option::is_none);
        let place = free.unwrap_or(first(&self.waiting));
        if let Some(place) = self.waiting.get_mut(place) {
            if let Some(waiting) = place {
                let _ = waiting.stream.shutdown(Shutdown::Both);
            }
            *place = Some(Waiting { stream, number });
        }
        number
    }

    fn leave(&mut self, number: u64) {
        for place in &mut self.waiting {
            if place.as_ref().is_some_and(|it| it.number == number) {
                *place = None;
            }
        }
    }
}

// Where the connection is that came first.
fn first(places: &[Option<Waiting>]) -> usize {
    let mut found = 0;
    let mut least = u64::MAX;
    for (place, waiting) in places.iter().enumerate() {
        if let Some(waiting) = waiting {
            if waiting.number < least {
                found = place;
                least = waiting.number;
            }
        }
    }
    found
}
