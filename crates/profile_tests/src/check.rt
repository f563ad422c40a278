//! How values are compared.
use std::fmt::Debug;
use std::process::Abort;

/// A value is the one that is wanted.
pub(crate) fn same<T: PartialEq + Debug>(rt: &impl Abort, value: &T, wanted: &T, note: &str) {
    assert_eq!(rt; value, wanted, "{note}");
}
