//! Worlds, scripts and one site among strangers, by the public calls.
#![tactic(auto)]

ghost use Rattle.std.specs.Prelude.{◌≡◌};

#[cfg(test)]
mod boards;
#[cfg(test)]
mod crowds;
#[cfg(test)]
mod expect;
#[cfg(test)]
mod growths;
#[cfg(test)]
mod lanes;
#[cfg(test)]
mod mixed_growths;
#[cfg(test)]
mod mixed_runs;
#[cfg(test)]
mod more_growths;
#[cfg(test)]
mod scripts;
#[cfg(test)]
mod worlds;
