//! What a test compares.
use std::fmt::Debug;
use std::process::Abort;

/// The value is the one that is due. A test that calls this is proved sooner than one that compares by itself.
pub(crate) fn expect_eq<T: PartialEq + Debug + Drop>(rt: &impl Abort, value: T, due: T) {
    assert_eq!(rt; value, due);
}

/// This holds. It is to `assert!` what `expect_eq` is to `assert_eq!`.
pub(crate) fn expect_that(rt: &impl Abort, holds: bool) {
    assert!(rt; holds);
}
