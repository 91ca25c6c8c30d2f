//! Sites, the star, the hub that shares one among threads, and whole runs of a hub, by their public calls.
#![tactic(auto)]

ghost use Rattle.std.specs.Prelude.{◌≡◌};

#[cfg(test)]
mod contents;
#[cfg(test)]
mod expect;
#[cfg(test)]
mod first_edits;
#[cfg(test)]
mod gates;
#[cfg(test)]
mod growths;
#[cfg(test)]
mod histories;
#[cfg(test)]
mod honest_sites;
#[cfg(test)]
mod hub_growths;
#[cfg(test)]
mod hubs;
#[cfg(test)]
mod run_growths;
#[cfg(test)]
mod runs;
#[cfg(test)]
mod served;
#[cfg(test)]
mod told;
