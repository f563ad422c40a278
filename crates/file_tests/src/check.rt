//! A command, and what it ends with and reports.
use command_fixtures::{End, Seen, report_of, run, wanted, words_of};
use qos_io::{Shelf, WholeSink};
use std::fmt::Debug;
use std::process::Abort;
use std::sync::Wait;
use std::thread::Threads;

/// Runs a command, and compares what it ended with, and its report.
pub fn ends_with<R: Threads + Wait + Sync + AllocGlobal + Abort, H: Shelf>(
    rt: &R,
    line: &str,
    shelf: &mut H,
    expected: &Seen,
    report: &str,
) {
    let words = words_of(rt.alloc(), line).expect(rt, "memory");
    let mut said = WholeSink::new(rt.alloc());
    let found = run(rt, &words, shelf, &mut said);
    same(rt, &found, expected, line);
    same(rt, &str::from_utf8(said.bytes()), &Ok(report), line);
}

/// The same, where the report follows from the numbers.
pub fn ends_as<R: Threads + Wait + Sync + AllocGlobal + Abort, H: Shelf>(
    rt: &R,
    line: &str,
    shelf: &mut H,
    end: &End,
) {
    let expected = wanted(end);
    let report = report_of(rt.alloc(), &expected).expect(rt, "memory");
    ends_with(rt, line, shelf, &expected, report.as_str());
}

/// Two values are the same.
pub fn same<T: PartialEq + Debug>(rt: &impl Abort, value: &T, wanted: &T, note: &str) {
    assert_eq!(rt; value, wanted, "{note}");
}
