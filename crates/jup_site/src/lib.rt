//! One site beside a star that anyone calls: the theory that worlds and sites of a hub share.
//!
//! A moment is a star, its end of one site's link, and that site with what is on its way. Nine moves lead from
//! one moment to the next. [`sites_agree`] says what holds at every moment, of one site and of two.
#![tactic(auto)]

mod promises;

pub use promises::sites_agree;
