//! One site among strangers.
//!
//! A [`Mixed`] is a star with one site of this product, number 1, and links of strangers, who send any
//! messages. Whatever they send, the site sees what it would see among sites of this product
//! ([`Mixed::quiet`]). [`mixed_agree`] is what every list of [`MixEvent`]s keeps, as a theorem.
#![tactic(auto)]

mod events;
mod happening;
mod mixed;
mod promises;

pub use events::{MixEvent, MixHappened};
pub use mixed::Mixed;
pub use promises::mixed_agree;
