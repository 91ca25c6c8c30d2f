//! Failed allocations in what the ends of a link keep and write, each test for the call of its name. `./growths` makes one after another of the
//! allocations between the two marks fail. A call that fails leaves all as it was, and gives its answer if it is made again.
use crate::expect::expect_eq;
use jup_resume::{KeepFault, Keeper, Note};
use test_marks::{begin, end};

#[test]
fn note_write(rt: HostRuntime) {
    let mut written = Vec::new(rt.alloc());
    let note = Note::Got { taken: 7 };
    for _ in 0..20 {
        let before = written.len();
        begin(rt.alloc());
        let mut wrote = note.write(rt.alloc(), &mut written);
        end(rt.alloc());
        if wrote.is_err() {
            expect_eq(&rt, written.len(), before);
            wrote = note.write(rt.alloc(), &mut written);
        }
        expect_eq(&rt, wrote, Ok(()));
    }
    let wanted = "got 7\n".repeat(rt.alloc(), 20).expect(&rt, "memory");
    expect_eq(&rt, written.as_slice(), wanted.as_bytes());
}

#[test]
fn keeper_put(rt: HostRuntime) {
    let mut keeper = Keeper::new(rt.alloc());
    for _ in 0..20 {
        let before = keeper.kept_bytes();
        begin(rt.alloc());
        let mut put = keeper.put(b"ping 1");
        end(rt.alloc());
        if put == Err(KeepFault::NoMemory) {
            expect_eq(&rt, keeper.kept_bytes(), before);
            put = keeper.put(b"ping 1");
        }
        expect_eq(&rt, put, Ok(()));
    }
    expect_eq(&rt, keeper.kept_bytes(), 140);
}

#[test]
fn keeper_write_next(rt: HostRuntime) {
    let mut keeper = Keeper::new(rt.alloc());
    expect_eq(&rt, keeper.put(b"bye"), Ok(()));
    expect_eq(&rt, keeper.begin(0), Ok(()));
    let mut written = Vec::new(rt.alloc());
    begin(rt.alloc());
    let mut wrote = keeper.write_next(&mut written);
    end(rt.alloc());
    if wrote.is_err() {
        expect_eq(&rt, written.len(), 0);
        wrote = keeper.write_next(&mut written);
    }
    expect_eq(&rt, wrote, Ok(true));
    expect_eq(&rt, written.as_slice(), b"bye\n".as_slice());
    expect_eq(&rt, keeper.write_next(&mut written), Ok(false));
}
