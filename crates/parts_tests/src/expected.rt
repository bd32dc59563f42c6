//! What tests expect.
use std::fmt::Debug;
use std::process::Abort;

/// What was made is what was wanted. Tests call this, since each `assert_eq!` is dear to prove
/// where it stands.
pub(crate) fn expect_same<T: Copy + Debug + PartialEq>(rt: &impl Abort, made: T, wanted: T) {
    assert_eq!(rt; made, wanted);
}

/// The texts are the same.
pub(crate) fn expect_text(rt: &impl Abort, made: &str, wanted: &str) {
    assert_eq!(rt; made, wanted);
}

/// It is so.
pub(crate) fn expect_is(rt: &impl Abort, is_so: bool) {
    assert!(rt; is_so);
}
