//! Lines of a link and messages of them, layouts, printed texts, and what a server of browsers reads and writes.
//! These are tests of public calls, for what no built program shows.
//! `tools/requests`, `tools/frames` and `tools/serving` try on the built `jupweb` the rest of what it reads and writes.
#![tactic(auto)]

ghost use Rattle.std.specs.Prelude.{◌≡◌};

#[cfg(test)]
mod boards;
#[cfg(test)]
mod expect;
#[cfg(test)]
mod frame_growths;
#[cfg(test)]
mod frames;
#[cfg(test)]
mod growths;
#[cfg(test)]
mod heads;
#[cfg(test)]
mod lines;
#[cfg(test)]
mod messages;
#[cfg(test)]
mod service_growths;
#[cfg(test)]
mod told;
