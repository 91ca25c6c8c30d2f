//! What a server of many boards decides of a connection before its link: what an address asks for, what its notes ask for, and how many boards anyone makes.
#![tactic(auto)]

mod makings;
mod routes;
mod wishes;

pub use makings::Makings;
pub use routes::{Answered, Route, answer_to, route_of};
pub use wishes::{GuestWish, guest_wish, may_make};
