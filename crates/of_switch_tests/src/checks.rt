//! What the tests of this crate compare, at a step.
use std::fmt::{Debug, Display};
use std::process::Abort;

pub(crate) fn same<T: PartialEq + Debug>(
    rt: &impl Abort,
    place: impl Display + Drop,
    found: &T,
    wanted: &T,
) {
    assert_eq!(rt; *found, *wanted, "at {place}");
}
