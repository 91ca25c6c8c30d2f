//! Links that outlive their connections: notes, both ends of a way, and what a server keeps of a link and of those that are over.
//! The keys of boards, and the notes that open these.
//! These are tests of public calls, for what no built program shows.
//! The conformance kit and `reliability/lasting_links` cut the connections of the built `jupd`.
#![tactic(auto)]

ghost use Rattle.std.specs.Prelude.{◌≡◌};

#[cfg(test)]
mod board_keys;
#[cfg(test)]
mod carried_growths;
#[cfg(test)]
mod carrying;
#[cfg(test)]
mod counting;
#[cfg(test)]
mod expect;
#[cfg(test)]
mod first_lines;
#[cfg(test)]
mod key_growths;
#[cfg(test)]
mod openings;
#[cfg(test)]
mod redial_growths;
#[cfg(test)]
mod resume_growths;
#[cfg(test)]
mod resuming;
#[cfg(test)]
mod shared;
