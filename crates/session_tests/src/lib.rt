//! Sessions and programs, run from end to end.
#![tactic(auto)]

ghost use Rattle.std.specs.Prelude.{◌≡◌};

#[cfg(test)]
mod behind;
#[cfg(test)]
mod bells;
#[cfg(test)]
mod bursts;
#[cfg(test)]
mod draining;
#[cfg(test)]
mod exact;
#[cfg(test)]
mod expect;
#[cfg(test)]
mod failures;
#[cfg(test)]
mod fakes;
#[cfg(test)]
mod flushes;
#[cfg(test)]
mod gates;
#[cfg(test)]
mod growths;
#[cfg(test)]
mod overtaking;
#[cfg(test)]
mod programs;
#[cfg(test)]
mod rule_growths;
#[cfg(test)]
mod sessions;
#[cfg(test)]
mod silent;
#[cfg(test)]
mod sockets;
#[cfg(test)]
mod turns;
#[cfg(test)]
mod watched;
