//! Bytes that are no head of a request.
use crate::expect::expect_eq;
use jup_http::{LONGEST_HEAD, Refusal, Request, read_request};
use std::process::Abort;

// The bytes are refused as no head.
fn expect_bad(rt: &impl Abort, bytes: &[u8]) {
    let read = read_request(bytes, &[b"http://127.0.0.1:4711".as_slice()]);
    expect_eq(rt, read, Some(Request::Refused(Refusal::BadHead)));
}

#[test]
fn what_is_no_head_is_bad(rt: HostRuntime) {
    for bytes in &[
        b"GET / HTTP/2.0\r\n".as_slice(),
        b"GET / HTTP/1.1\r\nHost : 127.0.0.1:4711\r\n\r\n".as_slice(),
        b"GET / HTTP/1.1\r\n\x00".as_slice(),
        b"GET\x00".as_slice(),
    ] {
        expect_bad(&rt, bytes);
    }
    let mut endless = [b'a'; LONGEST_HEAD];
    endless[..5].copy_from_slice(b"GET /");
    expect_bad(&rt, &endless);
}
