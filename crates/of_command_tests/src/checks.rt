//! What the tests here assert.
use std::fmt::Debug;
use std::process::Abort;

pub(crate) fn same<T: PartialEq + Debug>(rt: &impl Abort, what: &str, found: &T, wanted: &T) {
    assert_eq!(rt; *found, *wanted, "{what}");
}
