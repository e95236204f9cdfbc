//! Assertions as functions, which are proved once. The time of a proof grows with the square of a function's length,
//! and an `assert_eq!` or a `?` is as long as many calls. So tests call these functions, and use `expect` instead of
//! `?`.
use std::fmt::Debug;
use std::process::Abort;

/// Checks that both values are equal.
pub fn assert_same<T: PartialEq + Debug>(rt: &impl Abort, found: &T, expected: &T) {
    assert_eq!(rt; found, expected);
}

/// Checks that both texts are equal. `case` names the case if they are not.
pub fn assert_bytes(rt: &impl Abort, case: &str, found: &[u8], expected: &[u8]) {
    assert_eq!(rt; found, expected, "{case}");
}
