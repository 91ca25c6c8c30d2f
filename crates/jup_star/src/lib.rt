//! The sites and the star of the Jupiter collaboration system (Nichols, Curtis, Dixon and Lamping, UIST
//! 1995), as values without threads and sockets.
//!
//! A [`Site`] is a client: it applies its own edits immediately, and gives the messages that report them. The
//! [`Star`] is the server's core: it has a link to each attached site. It puts the edits that come up into
//! one order, and sends each on to all other sites. Messages between the two must come in order, none lost
//! and none twice.
#![tactic(auto, unfolding(crate::specs::Stars::reply_of, crate::specs::Stars::star_after, crate::specs::Stars::asks_memory))]

mod calls;
mod count;
mod edits;
mod ends;
mod faults;
mod link;
mod links;
mod messages;
mod noted;
mod openings;
mod order;
mod outbox;
mod site;
mod star;
mod take;
mod taken;
mod undelivered;

pub use calls::{Call, StarReply};
pub use faults::{OpenFault, SiteFault, StarFault};
pub use messages::{Down, Entry, Up};
pub use openings::is_short;
pub use outbox::Downs;
pub use site::{Delivered, Made, Site};
pub use star::{Joined, Star};
pub use undelivered::Undelivered;
