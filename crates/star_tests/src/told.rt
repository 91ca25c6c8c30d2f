//! What is printed of a fault: its text. `tools/pages` compares the texts of all faults with the table in `docs/WIRE.md`.
use crate::expect::expect_eq;
use jup_hub::HubFault;
use jup_link::LinkFault;
use jup_star::{OpenFault, SiteFault, StarFault};

const DUE: &str = "the site has no link, the order is full, the count of events is spent, \
    the insertion bears a name of this site, not a number or a board of this site, \
    not a count that may be acknowledged";

// The hub's text for a refusal of the star is the star's.
#[test]
fn a_fault_is_printed_by_its_text(rt: HostRuntime) {
    let (star, of_star) = (StarFault::NoLink, HubFault::Star(StarFault::LogFull));
    let (hub, site) = (HubFault::Spent, SiteFault::BadName);
    let (opening, link) = (OpenFault::BadSite, LinkFault::BadAck);
    let told = format!(in rt.alloc(); "{star}, {of_star}, {hub}, {site}, {opening}, {link}");
    expect_eq(&rt, told.expect(&rt, "memory").as_str(), DUE);
}
