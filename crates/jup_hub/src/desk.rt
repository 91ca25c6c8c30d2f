//! What is in the slot of the table.

use jup_star::Star;

/// The star, beside a copy of the count of events: the thread that has the star knows the number to store.
#[derive(Drop)]
pub struct Desk {
    pub star: Star,
    pub count: u64,
}
