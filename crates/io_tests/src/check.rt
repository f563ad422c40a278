//! How the tests compare, and the bytes, the words and the objects that they hand over.
ghost use Rattle.std.specs.Prelude.{◌≡◌, string_bytes};

use qos_io::{MemShelf, MemSink};
use std::fmt::Debug;
use std::process::Abort;

/// The value is as wanted. The note names the case.
pub(crate) fn same<T: PartialEq + Debug>(rt: &impl Abort, value: &T, wanted: &T, note: &str) {
    assert_eq!(rt; value, wanted, "{note}");
}

/// These bytes, in memory of their own.
pub(crate) fn owned<R: Abort + AllocGlobal>(rt: &R, bytes: &[u8]) -> Vec<u8> {
    bytes.to_vec(rt.alloc()).expect(rt, "memory")
}

/// This word, in memory of its own.
pub(crate) fn text<R: Abort + AllocGlobal>(rt: &R, word: &str) -> String
    ensures { string_bytes result ≡ word.now }
{
    String::from_str(rt.alloc(), word).expect(rt, "memory")
}

/// A sink of which the puts of these numbers fail.
pub(crate) fn failing_sink<R: Abort + AllocGlobal>(rt: &R, fails: &[u32]) -> MemSink {
    let fails = fails.to_vec(rt.alloc()).expect(rt, "memory");
    MemSink::new(rt.alloc(), fails)
}

/// A shelf of these files.
pub(crate) fn shelf_with<R: Abort + AllocGlobal>(rt: &R, files: &[(&str, &[u8])]) -> MemShelf {
    let mut shelf = MemShelf::new(rt.alloc());
    for (name, bytes) in files {
        let put = shelf.put_file(name, owned(rt, bytes));
        put.expect(rt, "memory");
    }
    shelf
}

/// How many bytes a file has, if it is there.
pub(crate) fn length_of(shelf: &MemShelf, name: &str) -> Option<usize> {
    match shelf.file(name) {
        Some(bytes) => Some(bytes.len()),
        None => None,
    }
}
