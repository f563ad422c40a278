//! How a value is compared with what a row wants.
use std::fmt::Debug;
use std::process::Abort;

pub(crate) fn same<T: PartialEq + Debug>(rt: &impl Abort, value: &T, wanted: &T, note: &str) {
    assert_eq!(rt; value, wanted, "{note}");
}
