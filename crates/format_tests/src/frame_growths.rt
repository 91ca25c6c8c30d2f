//! Calls whose allocation fails, each in the test of its name. `./growths` fails one allocation after another between the two marks.
//! A call whose allocation fails reports it and leaves what it was given, and the same call then gives its answer.
use crate::expect::{expect_eq, expect_that};
use jup_http::{
    Media, MessageReader, MessageWriter, body_head, put_close, put_ping, put_pong, put_text,
};
use jup_io::Lasting;
use std::alloc::{AllocError, Global};
use std::io;
use std::io::{Read, Write};
use std::process::Abort;
use test_marks::{begin, end};

// More bytes than a new buffer has room for.
const PAYLOAD: [u8; 100] = [b'a'; 100];

// A frame that a server sends.
#[derive(Clone, Copy)]
enum Sent {
    Text,
    Ping,
    Pong,
    Close,
}

fn put(sent: Sent, out: &mut Vec<u8>) -> Result<(), AllocError> {
    match sent {
        Sent::Text => put_text(&PAYLOAD, out),
        Sent::Ping => put_ping(&PAYLOAD, out),
        Sent::Pong => put_pong(&PAYLOAD, out),
        Sent::Close => put_close(Some(1_000), out),
    }
}

// Puts a frame behind one byte, where there is no room for it. A call that is refused leaves the byte alone.
fn expect_put(rt: &impl Abort, alloc: Global, sent: Sent, due: usize) {
    let mut out = Vec::with_capacity(alloc, 1).expect(rt, "memory");
    out.push(b'!').expect(rt, "memory");
    begin(alloc);
    let is_put = put(sent, &mut out).is_ok();
    end(alloc);
    if !is_put {
        expect_eq(rt, out.len(), 1);
        put(sent, &mut out).expect(rt, "memory");
    }
    expect_eq(rt, out.len(), due);
}

#[test]
fn text_put(rt: HostRuntime) {
    expect_put(&rt, rt.alloc(), Sent::Text, 103);
}

#[test]
fn ping_put(rt: HostRuntime) {
    expect_put(&rt, rt.alloc(), Sent::Ping, 103);
}

#[test]
fn pong_put(rt: HostRuntime) {
    expect_put(&rt, rt.alloc(), Sent::Pong, 103);
}

#[test]
fn close_put(rt: HostRuntime) {
    expect_put(&rt, rt.alloc(), Sent::Close, 5);
}

#[test]
fn head_of_a_body(rt: HostRuntime) {
    begin(rt.alloc());
    let made = body_head(rt.alloc(), Media::Html, 7);
    end(rt.alloc());
    let head = match made {
        Ok(head) => head,
        Err(AllocError) => body_head(rt.alloc(), Media::Html, 7).expect(&rt, "memory"),
    };
    expect_that(&rt, head.as_str().contains("content-length: 7\r\n"));
}

#[test]
fn reader_new(rt: HostRuntime) {
    let frames = b"\x81\x81\0\0\0\0a".as_slice();
    begin(rt.alloc());
    let made = MessageReader::new(rt.alloc(), frames, Lasting(io::sink()));
    end(rt.alloc());
    let mut reader = match made {
        Ok(reader) => reader,
        Err(AllocError) => {
            MessageReader::new(rt.alloc(), frames, Lasting(io::sink())).expect(&rt, "memory")
        }
    };
    let mut found = [0u8; 2];
    let read = reader.read(&mut found);
    expect_eq(&rt, (read.ok(), found), (Some(1), [b'a', 0]));
}

// A ping with the longest payload is answered on the way to the data.
#[test]
fn reader_read(rt: HostRuntime) {
    let mut frames = [b'p'; 138];
    frames[..6].copy_from_slice(b"\x89\xfd\0\0\0\0");
    frames[131..].copy_from_slice(b"\x81\x81\0\0\0\0a");
    let mut reader = MessageReader::new(rt.alloc(), frames.as_slice(), Lasting(io::sink())).expect(
        &rt, "memory",
    );
    let mut found = [0u8; 2];
    begin(rt.alloc());
    let read = reader.read(&mut found);
    end(rt.alloc());
    expect_eq(&rt, (read.ok(), found), (Some(1), [b'a', 0]));
}

#[test]
fn writer_new(rt: HostRuntime) {
    begin(rt.alloc());
    let made = MessageWriter::new(rt.alloc(), Lasting(io::sink()));
    end(rt.alloc());
    let mut writer = match made {
        Ok(writer) => writer,
        Err(AllocError) => MessageWriter::new(rt.alloc(), Lasting(io::sink())).expect(
            &rt, "memory",
        ),
    };
    expect_eq(&rt, writer.write(b"bye\n").ok(), Some(4));
    expect_eq(&rt, writer.write(b"").ok(), Some(0));
}

#[test]
fn writer_write(rt: HostRuntime) {
    let mut writer = MessageWriter::new(rt.alloc(), Lasting(io::sink())).expect(&rt, "memory");
    begin(rt.alloc());
    let wrote = writer.write(&[b'a'; 3_000]);
    end(rt.alloc());
    expect_eq(&rt, wrote.ok(), Some(2_048));
}
