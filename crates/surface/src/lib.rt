//! Every public call of the specification, at its path and with its signature. A call that moves away, or that takes or answers
//! something else, fails the check of this crate.
//!
//! A pointer with its type names a call, if the prover can make one. A function with its signature calls a generic call, and
//! one that answers a reference. Nothing runs, and no contract says more than a call requires.
#![tactic(auto)]

pub mod boards;
pub mod hubs;
pub mod lines;
pub mod links;
pub mod operations;
pub mod runs;
pub mod sessions;
pub mod settings;
pub mod stars;
pub mod values;
pub mod worlds;
