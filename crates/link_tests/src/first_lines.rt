//! What the first bytes of a connection say, and where the messages of a site end.
use crate::expect::expect_eq;
use jup_links::{FirstBytes, Framing, Standing};

#[test]
fn first_bytes_are_told_apart(rt: HostRuntime) {
    for (bytes, due) in [
        ("", FirstBytes::Undecided),
        ("h", FirstBytes::Undecided),
        ("hello ", FirstBytes::Undecided),
        ("resume", FirstBytes::Undecided),
        ("hello 3", FirstBytes::Session),
        ("resumed", FirstBytes::Session),
        ("hello\n", FirstBytes::Session),
        ("\n", FirstBytes::Session),
        ("hello 4", FirstBytes::Part),
        ("hello 4\r", FirstBytes::Part),
        ("resume ", FirstBytes::Part),
        ("hello 4\n", FirstBytes::Line(7)),
        ("hello 42\nping 1\n", FirstBytes::Line(8)),
        ("resume \n", FirstBytes::Line(7)),
    ] {
        expect_eq(&rt, FirstBytes::of(bytes.as_bytes()), due);
    }
}

// A first line of protocol 4 has 64 bytes at most, with its line feed.
#[test]
fn a_first_line_may_be_too_long(rt: HostRuntime) {
    let mut line = [b'0'; 65];
    line[..7].copy_from_slice(b"resume ");
    expect_eq(&rt, FirstBytes::of(&line[..63]), FirstBytes::Part);
    expect_eq(&rt, FirstBytes::of(&line[..64]), FirstBytes::TooLong);
    line[64] = b'\n';
    expect_eq(&rt, FirstBytes::of(&line), FirstBytes::TooLong);
    line[63] = b'\n';
    expect_eq(&rt, FirstBytes::of(&line), FirstBytes::Line(63));
}

#[test]
fn messages_end_so(rt: HostRuntime) {
    let mut framing = Framing::new();
    for (line, due) in [
        ("ping 1", Standing::Alone),
        ("batch 0 0 2", Standing::Within),
        ("do 1 1 text ins 0 0.1 97", Standing::Within),
        ("bye", Standing::EndsEdit),
        ("batch 1 0", Standing::Alone),
        ("batch 1 0 0", Standing::Alone),
        ("batch 1 0 01", Standing::Alone),
        ("batch  0 1", Standing::Within),
        ("", Standing::EndsEdit),
        ("bye", Standing::Alone),
    ] {
        expect_eq(&rt, framing.pass(line.as_bytes()), due);
    }
}
