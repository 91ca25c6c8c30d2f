//! Values, settings, sequences and boards, by their public calls.
#![tactic(auto)]

ghost use Rattle.std.specs.Prelude.{◌≡◌};

#[cfg(test)]
mod blocks;
#[cfg(test)]
mod boards;
#[cfg(test)]
mod expect;
#[cfg(test)]
mod growths;
#[cfg(test)]
mod plain_lists;
#[cfg(test)]
mod sequences;
#[cfg(test)]
mod settings;
#[cfg(test)]
mod told;
#[cfg(test)]
mod values;
