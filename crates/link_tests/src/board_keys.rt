//! The keys of a board. What is due of digests is what Python's `hashlib` says.
use crate::expect::{expect_eq, expect_that};
use jup_keys::{BoardId, Key, Keys, Right};
use std::alloc::Global;
use std::process::Abort;

const ID: &str = "k3v7q2m5xadu";

const OWN: &str = "0f1e2d3c4b5a69788796a5b4c3d2e1f0";

const EDIT: &str = "d8b6e1b0b7063243c4d9b1a13ea11803";

const READ: &str = "bd5e5fde222b1c59e19571a55248f871";

/// What the file of the board with this ID and own key has at first.
const FILE: &str = "own 44acdc3c557dbc0e692c4910f0ed45e9c7ae805270f39ca66813b52c00952399\n\
edit 1 5d68100ec6e11ca905378c39f5f2d63bc33f075ddc015fe39a87e6b1b4257094\n\
read 1 f46f05044faac1d205aa2cca9022e2ec868b8a93a82586a529e76db4889e54b4\n";

/// The same once its edit key was ended.
const EDIT_ENDED: &str = "own 44acdc3c557dbc0e692c4910f0ed45e9c7ae805270f39ca66813b52c00952399\n\
edit 2 f23b2c4a83c2259664486090acd1bac96e7a50882107ca09d90e2528d96577c6\n\
read 1 534c1501b0f2a9e5a6d4f15939da99bec43185a1e883abab3b32ad664df1d802\n";

/// The first once its read key was ended.
const READ_ENDED: &str = "own 44acdc3c557dbc0e692c4910f0ed45e9c7ae805270f39ca66813b52c00952399\n\
edit 1 5d68100ec6e11ca905378c39f5f2d63bc33f075ddc015fe39a87e6b1b4257094\n\
read 2 0224d24a71e5fb36d1ede492d2fe24dbe374def02e83adc395ba035fca453e3a\n";

/// The first once a key of 32 times `f` was made the own key.
const OWN_ENDED: &str = "own 1201871772c89318eac6bcbf2b7b9e365813b4a78988cbba1d0d3479d3c34753\n\
edit 2 cfe26f897cd070cf5e81fb2e896d91b2507addec7e94a78859412e7292335beb\n\
read 1 c343898a62605f7ec3791a30933796e3fb85588acc9ff8835fba7bf83fbd4776\n";

/// That of the first own key at the last number of both.
const LAST: &str = "own 44acdc3c557dbc0e692c4910f0ed45e9c7ae805270f39ca66813b52c00952399\n\
edit 4294967295 8df745ee21f6f22b541fe0681af5aeaffb82153f6abdf008e5ecee70e6ff6198\n\
read 4294967295 f487532ea2346ebd9780d36cd7c628492cca73da9a9602577ad1bdc78b123479\n";

pub(crate) fn id(rt: &impl Abort, text: &str) -> BoardId {
    BoardId::read(text.as_bytes()).expect(rt, "an ID")
}

pub(crate) fn key(rt: &impl Abort, text: &str) -> Key {
    Key::read(text.as_bytes()).expect(rt, "a key")
}

fn keys(rt: &impl Abort, text: &str) -> Keys {
    Keys::read(text.as_bytes()).expect(rt, "the keys of a board")
}

fn expect_file(rt: &impl Abort, alloc: Global, keys: &Keys, due: &str) {
    let mut text = Vec::new(alloc);
    keys.write(alloc, &mut text).expect(rt, "memory");
    expect_eq(rt, text.as_slice(), due.as_bytes());
}

#[test]
fn a_key_gives_those_below_it(rt: HostRuntime) {
    for (own, edits, edit, reads, read) in [
        (OWN, 1, EDIT, 1, READ),
        (
            OWN,
            2,
            "d383821e6bceed066cbbe8a2480e3cec",
            1,
            "7ad962a90585e9dc3c609ca830f64a01",
        ),
        (
            "ffffffffffffffffffffffffffffffff",
            4_294_967_295,
            "1970df7ca515d133bffd3e6806471baa",
            77,
            "e56508c8114eef0adfd2d63ea8336744",
        ),
    ] {
        let edit_key = key(&rt, own).edit_key(edits);
        expect_eq(&rt, edit_key.digits(), edit.as_bytes());
        let read_key = edit_key.read_key(reads);
        expect_eq(&rt, read_key.digits(), read.as_bytes());
    }
}

#[test]
fn a_file_has_hashes(rt: HostRuntime) {
    let made = Keys::of(&id(&rt, ID), &key(&rt, OWN));
    expect_file(&rt, rt.alloc(), &made, FILE);
    for text in [FILE, LAST] {
        expect_file(&rt, rt.alloc(), &keys(&rt, text), text);
    }
}

#[test]
fn each_digit_of_a_key_counts(rt: HostRuntime) {
    let id = id(&rt, ID);
    let keys = keys(&rt, FILE);
    for (text, right) in [(OWN, Right::Own), (EDIT, Right::Edit), (READ, Right::Read)] {
        expect_eq(&rt, keys.right_of(&id, &key(&rt, text)), Some(right));
        for place in 0..32 {
            let mut digits = [0; 32];
            digits.copy_from_slice(text.as_bytes());
            digits[place] = if digits[place] == b'7' { b'8' } else { b'7' };
            let other = Key::read(&digits).expect(&rt, "a key");
            expect_eq(&rt, keys.right_of(&id, &other), None);
        }
    }
}

#[test]
fn a_key_is_of_one_board(rt: HostRuntime) {
    let keys = keys(&rt, FILE);
    for text in [OWN, EDIT, READ] {
        let other = id(&rt, "k3v7q2m5xadv");
        expect_eq(&rt, keys.right_of(&other, &key(&rt, text)), None);
    }
}

#[test]
fn a_key_has_32_digits(rt: HostRuntime) {
    for text in [
        "",
        "0",
        &OWN[..31],
        "0f1e2d3c4b5a69788796a5b4c3d2e1f00",
        "0F1e2d3c4b5a69788796a5b4c3d2e1f0",
    ] {
        expect_that(&rt, Key::read(text.as_bytes()).is_none());
    }
}

#[test]
fn an_ended_key_makes_another_file(rt: HostRuntime) {
    let id = id(&rt, ID);
    let own = key(&rt, OWN);
    let keys = keys(&rt, FILE);
    let ended = keys.end_edit(&id, &own).expect(&rt, "a number is left");
    expect_file(&rt, rt.alloc(), &ended, EDIT_ENDED);
    let ended = keys.end_read(&id, &own).expect(&rt, "a number is left");
    expect_file(&rt, rt.alloc(), &ended, READ_ENDED);
    let other = key(&rt, "ffffffffffffffffffffffffffffffff");
    let ended = keys.end_own(&id, &other).expect(&rt, "a number is left");
    expect_file(&rt, rt.alloc(), &ended, OWN_ENDED);
}

#[test]
fn keys_that_are_not_ended(rt: HostRuntime) {
    let id = id(&rt, ID);
    let own = key(&rt, OWN);
    let first = keys(&rt, FILE);
    let same = first.end_own(&id, &own).expect(&rt, "the same");
    expect_file(&rt, rt.alloc(), &same, FILE);
    expect_that(&rt, first.end_own(&id, &key(&rt, EDIT)).is_none());
    expect_that(&rt, first.end_own(&id, &key(&rt, READ)).is_none());
    let last = keys(&rt, LAST);
    expect_that(&rt, last.end_edit(&id, &own).is_none());
    expect_that(&rt, last.end_read(&id, &own).is_none());
    expect_that(&rt, last.end_own(&id, &key(&rt, EDIT)).is_none());
}

#[test]
fn files_that_are_none(rt: HostRuntime) {
    for (part, other) in [
        ("own 4", "own 4 "),
        ("own 4", "own g"),
        ("own 4", "own A"),
        ("own 4", "Own 4"),
        ("own 4", "own "),
        ("edit 1", "edit 0"),
        ("edit 1", "edit 01"),
        ("edit 1", "edit 4294967296"),
        ("edit 1", "read 1"),
        ("read 1", "edit 1"),
        ("read 1", "\nread 1"),
        ("54b4\n", "54b4"),
        ("54b4\n", "54b4\n\n"),
        ("54b4\n", "54b4\r\n"),
    ] {
        let text = FILE.replace(rt.alloc(), part, other).expect(&rt, "memory");
        expect_that(&rt, Keys::read(text.as_bytes()).is_none());
    }
}
