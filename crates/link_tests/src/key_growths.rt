//! Failed allocations in what is written of a board's keys and of the notes that open it, each test for the call of its name. `./growths` makes one after
//! another of the allocations between the two marks fail. A call that fails leaves all as it was, and gives its answer if it is made again.
use crate::board_keys::{id, key};
use crate::expect::expect_eq;
use jup_keys::{Answer, BoardNews, Keys, Makers, Request, Right, TemplateName, offer_text};
use jup_reception::Makings;
use test_marks::{begin, end};

const KEY: &str = "0f1e2d3c4b5a69788796a5b4c3d2e1f0";

#[test]
fn request_write(rt: HostRuntime) {
    let mut written = Vec::new(rt.alloc());
    let note = Request::Owner { key: key(&rt, KEY) };
    begin(rt.alloc());
    let mut wrote = note.write(rt.alloc(), &mut written);
    end(rt.alloc());
    if wrote.is_err() {
        expect_eq(&rt, written.len(), 0);
        wrote = note.write(rt.alloc(), &mut written);
    }
    expect_eq(&rt, wrote, Ok(()));
    expect_eq(&rt, written.len(), 39);
}

#[test]
fn answer_write(rt: HostRuntime) {
    let mut written = Vec::new(rt.alloc());
    let note = Answer::Key {
        right: Right::Own,
        key: key(&rt, KEY),
    };
    begin(rt.alloc());
    let mut wrote = note.write(rt.alloc(), &mut written);
    end(rt.alloc());
    if wrote.is_err() {
        expect_eq(&rt, written.len(), 0);
        wrote = note.write(rt.alloc(), &mut written);
    }
    expect_eq(&rt, wrote, Ok(()));
    expect_eq(&rt, written.len(), 41);
}

#[test]
fn keys_write(rt: HostRuntime) {
    let mut written = Vec::new(rt.alloc());
    let keys = Keys::of(&id(&rt, "k3v7q2m5xadu"), &key(&rt, KEY));
    begin(rt.alloc());
    let mut wrote = keys.write(rt.alloc(), &mut written);
    end(rt.alloc());
    if wrote.is_err() {
        expect_eq(&rt, written.len(), 0);
        wrote = keys.write(rt.alloc(), &mut written);
    }
    expect_eq(&rt, wrote, Ok(()));
    expect_eq(&rt, written.len(), 213);
}

#[test]
fn keys_given(rt: HostRuntime) {
    let keys = Keys::of(&id(&rt, "k3v7q2m5xadu"), &key(&rt, KEY));
    begin(rt.alloc());
    let mut given = keys.given(rt.alloc(), Right::Own, &key(&rt, KEY));
    end(rt.alloc());
    if given.is_err() {
        given = keys.given(rt.alloc(), Right::Own, &key(&rt, KEY));
    }
    let given = given.expect(&rt, "memory");
    expect_eq(&rt, given.len(), 3);
}

#[test]
fn news_write(rt: HostRuntime) {
    let mut written = Vec::new(rt.alloc());
    let note = BoardNews::Links { count: 12 };
    begin(rt.alloc());
    let mut wrote = note.write(rt.alloc(), &mut written);
    end(rt.alloc());
    if wrote.is_err() {
        expect_eq(&rt, written.len(), 0);
        wrote = note.write(rt.alloc(), &mut written);
    }
    expect_eq(&rt, wrote, Ok(()));
    expect_eq(&rt, written.len(), 9);
}

#[test]
fn offer_texted(rt: HostRuntime) {
    let name = TemplateName::read(b"text").expect(&rt, "a name");
    begin(rt.alloc());
    let mut offered = offer_text(rt.alloc(), Makers::Owner, &[name]);
    end(rt.alloc());
    if offered.is_err() {
        offered = offer_text(rt.alloc(), Makers::Owner, &[name]);
    }
    let offered = offered.expect(&rt, "memory");
    expect_eq(
        &rt,
        offered.as_slice(),
        b"create owner\ntemplate text\nend\n".as_slice(),
    );
}

#[test]
fn makings_note(rt: HostRuntime) {
    let mut makings = Makings::new(rt.alloc());
    begin(rt.alloc());
    let mut noted = makings.note(5, false);
    end(rt.alloc());
    if noted.is_err() {
        noted = makings.note(5, false);
    }
    expect_eq(&rt, noted, Ok(()));
    for _ in 1..10 {
        makings.note(5, false).expect(&rt, "memory");
    }
    expect_eq(&rt, makings.have_room(60_004, false), false);
    expect_eq(&rt, makings.have_room(60_005, false), true);
}
