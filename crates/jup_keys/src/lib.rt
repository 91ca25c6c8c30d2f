//! The keys of a board and what each allows, and the notes by which a connection opens a board of a server of many.
#![tactic(auto)]

mod answer;
mod hash;
mod id;
mod key;
mod keys;
mod lines;
mod makers;
mod news;
mod offer;
mod opening;
mod request;
mod right;
mod template;

pub use answer::Answer;
pub use hash::KeyHash;
pub use id::BoardId;
pub use key::{KEY_BYTES, Key};
pub use keys::Keys;
pub use makers::Makers;
pub use news::BoardNews;
pub use offer::offer_text;
pub use opening::Opening;
pub use request::{Request, Source};
pub use right::Right;
pub use template::TemplateName;
