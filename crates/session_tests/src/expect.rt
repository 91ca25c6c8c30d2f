//! What a test compares.
use std::fmt::Debug;
use std::process::Abort;
use std::str;

/// The value is the one that is due. A test that calls this is proved sooner than one that compares by itself.
pub(crate) fn expect_eq<T: PartialEq + Debug + Drop>(rt: &impl Abort, value: T, due: T) {
    assert_eq!(rt; value, due);
}

/// This holds. It is to `assert!` what `expect_eq` is to `assert_eq!`.
pub(crate) fn expect_that(rt: &impl Abort, holds: bool) {
    assert!(rt; holds);
}

/// The bytes are this text.
pub(crate) fn expect_text(rt: &impl Abort, bytes: &[u8], due: &str) {
    expect_eq(rt, str::from_utf8(bytes), Ok(due));
}
