//! How a value is compared.
use std::fmt::Debug;
use std::process::Abort;

/// The value is the wanted one; the note names the case.
pub(crate) fn same<T: PartialEq + Debug>(rt: &impl Abort, value: &T, wanted: &T, note: &str) {
    assert_eq!(rt; value, wanted, "{note}");
}
