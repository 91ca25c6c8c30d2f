//! Failed allocations in a client's link, each test for the call of its name. `./growths` makes one after another of the allocations between the two marks fail.
use crate::expect::{expect_eq, expect_that};
use jup_redial::{Fate, Link, dial};
use test_marks::{begin, end};

#[test]
fn link_new(rt: HostRuntime) {
    begin(rt.alloc());
    let mut made = Link::new(rt.alloc(), None);
    end(rt.alloc());
    if made.is_err() {
        made = Link::new(rt.alloc(), None);
    }
    let link = made.expect(&rt, "memory");
    expect_eq(&rt, link.fate(&rt), Fate::Goes);
}

// Nobody listens at this port. A link that found no memory is over, and is not tried again.
#[test]
fn dial_nobody(rt: HostRuntime) {
    let link = Link::new(rt.alloc(), None).expect(&rt, "memory");
    let mut told = Vec::new(rt.alloc());
    begin(rt.alloc());
    dial(&rt, rt.alloc(), &link, "127.0.0.1:1", &mut told);
    end(rt.alloc());
    expect_that(
        &rt,
        matches!(link.fate(&rt), Fate::Unconnected | Fate::NoMemory),
    );
}
