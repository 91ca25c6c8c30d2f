//! What an address of a server of many boards asks for.
ghost use Rattle.std.specs.Prelude.{◌≡◌};
ghost use Rattle.jup_reception.specs.Routes.{IsRoute, IsBoardRoute, IsAnswered};

use jup_http::{Asked, Refusal};
use jup_keys::BoardId;

/// How the address of a board begins.
const BOARD: &[u8] = b"/b/";

/// How the address of its WebSockets ends.
const SOCKET: &[u8] = b"/ws";

/// What an address is of.
#[derive(Clone, Copy, Debug, PartialEq, Eq)]
pub enum Route {
    /// The page: `/`, or `/b/ID`, whether there is such a board or not.
    Page,
    /// `/health`
    Health,
    /// `/b/ID/ws`: the WebSockets of this board.
    Socket(BoardId),
    /// Of nothing.
    Nowhere,
}

/// What a request is answered by.
#[derive(Clone, Copy, Debug, PartialEq, Eq)]
pub enum Answered {
    Page,
    Health,
    /// A WebSocket of this board, which this value of `Sec-WebSocket-Accept` accepts.
    Socket(BoardId, [u8; 28]),
    Refused(Refusal),
}

/// What an address is of.
pub fn route_of(target: &[u8]) -> Route
    ensures { IsRoute target.now result }
{
    if target == b"/".as_slice() {
        return Route::Page;
    }
    if target == b"/health".as_slice() {
        return Route::Health;
    }
    match target.strip_prefix(BOARD) {
        Some(rest) => route_of_board(rest),
        None => Route::Nowhere,
    }
}

// What an address is of that begins as one of a board. This is what comes after that.
fn route_of_board(rest: &[u8]) -> Route
    ensures { IsBoardRoute rest.now result }
{
    if BoardId::read(rest).is_some() {
        return Route::Page;
    }
    let Some(id) = rest.strip_suffix(SOCKET) else {
        return Route::Nowhere;
    };
    match BoardId::read(id) {
        Some(id) => Route::Socket(id),
        None => Route::Nowhere,
    }
}

/// What the head of a request is answered by. Anyone may ask whether the server is well, under whatever name.
pub fn answer_to(asked: &Asked<'_>) -> Answered
    ensures { IsAnswered asked.now result }
{
    let route = route_of(asked.target);
    if !asked.is_own && route != Route::Health {
        return Answered::Refused(Refusal::Foreign);
    }
    if !asked.is_get {
        return Answered::Refused(Refusal::BadMethod);
    }
    match route {
        Route::Page => Answered::Page,
        Route::Health => Answered::Health,
        Route::Nowhere => Answered::Refused(Refusal::NoPage),
        Route::Socket(id) => match asked.upgrade {
            Ok(key) => Answered::Socket(id, key),
            Err(refusal) => Answered::Refused(refusal),
        },
    }
}
