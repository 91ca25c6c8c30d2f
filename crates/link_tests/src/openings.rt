//! The notes by which a board is opened, and what a first line asks for.
use crate::expect::{expect_eq, expect_that};
use jup_keys::{Answer, Opening, Request};

#[test]
fn requests_are_read(rt: HostRuntime) {
    for text in [
        "open k3v7q2m5xadu 0f1e2d3c4b5a69788796a5b4c3d2e1f0",
        "make k3v7q2m5xadu 0f1e2d3c4b5a69788796a5b4c3d2e1f0 shopping",
        "make k3v7q2m5xadu 0f1e2d3c4b5a69788796a5b4c3d2e1f0 a-to-z-0123456789-abcdefghijklmn",
        "make k3v7q2m5xadu 0f1e2d3c4b5a69788796a5b4c3d2e1f0 -",
        "owner 0f1e2d3c4b5a69788796a5b4c3d2e1f0",
        "templates",
        "news",
        "keys",
    ] {
        expect_that(&rt, Request::read(text.as_bytes()).is_some());
    }
}

#[test]
fn answers_are_read_and_written(rt: HostRuntime) {
    for text in [
        "may own",
        "may edit",
        "may read",
        "may owner",
        "run 0f1e2d3c4b5a69788796a5b4c3d2e1f0",
        "key own 0f1e2d3c4b5a69788796a5b4c3d2e1f0",
        "key edit d8b6e1b0b7063243c4d9b1a13ea11803",
        "key read bd5e5fde222b1c59e19571a55248f871",
        "create anyone",
        "create owner",
        "create nobody",
        "template shopping",
    ] {
        let answer = Answer::read(text.as_bytes()).expect(&rt, "a note");
        let mut line = Vec::new(rt.alloc());
        answer.write(rt.alloc(), &mut line).expect(&rt, "memory");
        expect_eq(&rt, line.strip_suffix(b"\n"), Some(text.as_bytes()));
    }
}

/// A word for what a first line asks for.
fn asked(text: &str) -> &'static str {
    match Opening::read(text.as_bytes()) {
        Opening::Board { .. } => "board",
        Opening::New { .. } => "new",
        Opening::Owner { .. } => "owner",
        Opening::Templates => "templates",
        Opening::NoBoard => "none",
    }
}

#[test]
fn first_lines_of_many_boards(rt: HostRuntime) {
    for (text, due) in [
        (
            "open k3v7q2m5xadu 0f1e2d3c4b5a69788796a5b4c3d2e1f0",
            "board",
        ),
        (
            "make k3v7q2m5xadu 0f1e2d3c4b5a69788796a5b4c3d2e1f0 text",
            "new",
        ),
        (
            "make k3v7q2m5xadu 0f1e2d3c4b5a69788796a5b4c3d2e1f0 -",
            "new",
        ),
        ("owner 0f1e2d3c4b5a69788796a5b4c3d2e1f0", "owner"),
        ("templates", "templates"),
        ("", "none"),
        ("news", "none"),
        ("keys", "none"),
        ("hello 4", "none"),
        ("Open k3v7q2m5xadu 0f1e2d3c4b5a69788796a5b4c3d2e1f0", "none"),
        (
            "open k3v7q2m5xadu 0f1e2d3c4b5a69788796a5b4c3d2e1f0 ",
            "none",
        ),
        ("open k3v7q2m5xadu 0f1e2d3c4b5a69788796a5b4c3d2e1f", "none"),
        ("open k3v7q2m5xadu", "none"),
        ("open k3v7q2m5xad8 0f1e2d3c4b5a69788796a5b4c3d2e1f0", "none"),
        ("open k3v7q2m5xad 0f1e2d3c4b5a69788796a5b4c3d2e1f0", "none"),
        ("make k3v7q2m5xadu 0f1e2d3c4b5a69788796a5b4c3d2e1f0", "none"),
        (
            "make k3v7q2m5xadu 0f1e2d3c4b5a69788796a5b4c3d2e1f0 ",
            "none",
        ),
        (
            "make k3v7q2m5xadu 0f1e2d3c4b5a69788796a5b4c3d2e1f0 Text",
            "none",
        ),
        (
            "make k3v7q2m5xadu 0f1e2d3c4b5a69788796a5b4c3d2e1f0 2-texts",
            "none",
        ),
        (
            "make k3v7q2m5xadu 0f1e2d3c4b5a69788796a5b4c3d2e1f0 ../text",
            "none",
        ),
        (
            "make k3v7q2m5xadu 0f1e2d3c4b5a69788796a5b4c3d2e1f0 a-to-z-0123456789-abcdefghijklmno",
            "none",
        ),
        ("owner", "none"),
        ("templates ", "none"),
    ] {
        expect_eq(&rt, asked(text), due);
    }
}

#[test]
fn answers_that_are_none(rt: HostRuntime) {
    for text in [
        "may",
        "may all",
        "may own ",
        "run 1",
        "key own",
        "key 0f1e2d3c4b5a69788796a5b4c3d2e1f0",
        "create",
        "create all",
        "template",
        "template Text",
    ] {
        expect_that(&rt, Answer::read(text.as_bytes()).is_none());
    }
}
