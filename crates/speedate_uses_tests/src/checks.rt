//! What the tests share, so it is proved once.

use std::fmt::Debug;
use std::process::Abort;
use std::str::FromStr;

/// The value that a text is, which is to be one.
pub fn value<T: FromStr, R: Abort>(rt: &R, text: &str) -> T
where
    T::Err: Drop,
{
    text.parse().ok().expect(rt, text)
}

/// What was found is to be what a row wants.
pub fn same<T: PartialEq + Debug + Copy, R: Abort>(rt: &R, found: T, want: T, row: &str) {
    assert_eq!(rt; found, want, "{row}");
}
