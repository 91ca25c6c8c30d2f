//! Calls whose allocation fails, each in the test of its name. `./growths` fails one allocation after another between the two marks.
//! A call whose allocation fails reports it, and the same call then gives its answer.
use crate::expect::{expect_eq, expect_that};
use jup_service::{
    Address, CaptionFault, ServiceEnd, check_captions, own_origins, service_words, star_of_printed,
    who_text,
};
use std::alloc::{AllocError, Global};
use std::process::Abort;
use test_marks::{begin, end};

const BOARD: &[u8] =
    b"window 1\ntext 1 \"Hi\"\nlist 2 \"buy bread\"\ntoggle 3 off\nslider 4 0 10 5\n";

#[test]
fn captions_check(rt: HostRuntime) {
    let text = b"1 \"Dinner\"\n1.2 \"Who brings what\"\n";
    begin(rt.alloc());
    let checked = check_captions(rt.alloc(), text);
    end(rt.alloc());
    expect_that(
        &rt,
        matches!(checked, Ok(()) | Err((_, CaptionFault::NoMemory))),
    );
    expect_eq(&rt, check_captions(rt.alloc(), text), Ok(()));
}

// A browser leaves out the port 80 of an origin.
#[test]
fn origins_own(rt: HostRuntime) {
    let at = Address {
        port: 80,
        is_loopback: true,
        is_wildcard: false,
    };
    begin(rt.alloc());
    let _origins = own_origins(rt.alloc(), "127.0.0.1", at, Some("http://a"));
    end(rt.alloc());
    let origins = own_origins(rt.alloc(), "127.0.0.1", at, Some("http://a"));
    let origins = origins.expect(&rt, "memory");
    expect_eq(&rt, origins.len(), 3);
    let due = ["http://a", "http://127.0.0.1", "http://localhost"];
    for (origin, due) in origins.iter().zip(due) {
        expect_eq(&rt, origin.as_str().as_bytes(), due.as_bytes());
    }
}

#[test]
fn star_printed(rt: HostRuntime) {
    begin(rt.alloc());
    let opened = star_of_printed(rt.alloc(), BOARD, 10);
    end(rt.alloc());
    expect_that(&rt, matches!(&opened, Ok(_) | Err(ServiceEnd::NoMemory)));
    expect_that(&rt, star_of_printed(rt.alloc(), BOARD, 10).is_ok());
}

// The answer, or that there is no memory.
fn expect_who(rt: &impl Abort, alloc: Global, is_full: bool, due: &str) {
    begin(alloc);
    let made = who_text(alloc, 12, is_full);
    end(alloc);
    let text = match made {
        Ok(text) => text,
        Err(AllocError) => who_text(alloc, 12, is_full).expect(rt, "memory"),
    };
    expect_eq(rt, text.as_str(), due);
}

#[test]
fn who_is_there(rt: HostRuntime) {
    expect_who(&rt, rt.alloc(), false, "12\n");
    expect_who(&rt, rt.alloc(), true, "12\nfull\n");
}

// The limit that the command line asks for, or the exit status if it is refused.
fn limit_told(alloc: Global, words: &[String]) -> Result<u32, u8> {
    begin(alloc);
    let told = service_words(alloc, words);
    end(alloc);
    match told {
        Ok(told) => Ok(told.limit),
        Err(unread) => Err(unread.status()),
    }
}

#[test]
fn words_of_a_server(rt: HostRuntime) {
    let mut words: Vec<String> = Vec::new(rt.alloc());
    for word in [
        "--listen", "a", "--board", "b", "--limit", "7", "--origin", "http://a",
    ] {
        let text = String::from_str(rt.alloc(), word).expect(&rt, "memory");
        words.push(text).expect(&rt, "memory");
    }
    let mut told = limit_told(rt.alloc(), &words);
    if told == Err(3) {
        told = limit_told(rt.alloc(), &words);
    }
    expect_eq(&rt, told, Ok(7));
}
