//! Commands over files in memory, and what they come to.
use crate::input::{Input, bytes_of};
use crate::profiles::{Edit, profile};
use command_fixtures::{EMPTY, End, HEADER, Rec, report_of, run, wanted, words_of, written};
use qos_io::{MemShelf, Shelf, WholeSink};
use std::fmt::Debug;
use std::process::Abort;
use std::sync::Wait;
use std::thread::Threads;

/// A run over one input, what it comes to, and what each port writes.
#[derive(Clone, Copy)]
pub struct Row<'a> {
    pub note: &'a str,
    pub words: &'a str,
    pub edits: &'a [Edit<'a>],
    /// The whole profile; where it is not given, it is the base with the edits.
    pub text: Option<&'a [u8]>,
    pub input: Input<'a>,
    pub end: End,
    pub outputs: [&'a [Rec]; 2],
    /// The text of the report; where it is not given, it follows from the numbers.
    pub report: Option<&'a str>,
}

/// A capture of the header alone.
pub const NONE: Row<'static> = Row {
    note: "the header alone",
    words: "run --profile p --out o a.pcap",
    edits: &[],
    text: None,
    input: Input::Raw(&HEADER, 0),
    end: EMPTY,
    outputs: [&[], &[]],
    report: None,
};

/// Two values are the same.
pub fn same<T: PartialEq + Debug>(rt: &impl Abort, value: &T, wanted: &T, note: &str) {
    assert_eq!(rt; value, wanted, "{note}");
}

/// A report has this text.
pub fn says(rt: &impl Abort, said: &[u8], text: &str, note: &str) {
    same(rt, &str::from_utf8(said), &Ok(text), note);
}

/// The words of a row.
pub fn words<R: AllocGlobal + Abort>(rt: &R, row: &Row<'_>) -> Vec<String> {
    words_of(rt.alloc(), row.words).expect(rt, "memory")
}

// The profile of a row.
fn text_of<R: AllocGlobal + Abort>(rt: &R, row: &Row<'_>) -> Vec<u8> {
    match row.text {
        Some(text) => text.to_vec(rt.alloc()).expect(rt, "memory"),
        None => profile(rt, row.edits),
    }
}

fn put_file<R: Abort>(rt: &R, shelf: &mut MemShelf, name: &str, bytes: Vec<u8>) {
    shelf.put_file(name, bytes).expect(rt, "memory");
}

/// Puts the input of a row on a shelf, if it is there.
pub fn put_input<R: AllocGlobal + Abort>(rt: &R, shelf: &mut MemShelf, row: &Row<'_>) {
    if let Some(bytes) = bytes_of(rt, row.input) {
        put_file(rt, shelf, "a.pcap", bytes);
    }
}

/// The shelf of a row.
pub fn shelf_of<R: AllocGlobal + Abort>(rt: &R, row: &Row<'_>) -> MemShelf {
    let mut shelf = MemShelf::new(rt.alloc());
    put_file(rt, &mut shelf, "p", text_of(rt, row));
    put_input(rt, &mut shelf, row);
    shelf
}

/// The report of a row.
pub fn reports<R: AllocGlobal + Abort>(rt: &R, said: &[u8], row: &Row<'_>) {
    let report = report_of(rt.alloc(), &wanted(&row.end)).expect(rt, "memory");
    let text = row.report.unwrap_or(report.as_str());
    says(rt, said, text, row.note);
}

/// Runs a command on a shelf, and compares how that ends and the report with those of a row.
pub fn ends_as<R: Threads + Wait + Sync + AllocGlobal + Abort, H: Shelf>(
    rt: &R,
    words: &[String],
    shelf: &mut H,
    row: &Row<'_>,
) {
    let mut said = WholeSink::new(rt.alloc());
    let found = run(rt, words, shelf, &mut said);
    same(rt, &found, &wanted(&row.end), row.note);
    reports(rt, said.bytes(), row);
}

// The file of this name is what the program writes of these records, if it is one of the outputs.
fn holds<R: AllocGlobal + Abort>(
    rt: &R,
    shelf: &MemShelf,
    name: &str,
    records: Option<&[Rec]>,
    note: &str,
) {
    match records {
        Some(records) => {
            let bytes = written(rt.alloc(), records).expect(rt, "memory");
            same(rt, &shelf.file(name), &Some(bytes.as_slice()), note);
        }
        None => same(rt, &shelf.file(name), &None, note),
    }
}

/// The outputs of a row: there is one of each port.
pub fn wrote<R: AllocGlobal + Abort>(rt: &R, shelf: &MemShelf, row: &Row<'_>) {
    let [first, second] = row.outputs;
    let (first, second) = match row.end.count {
        0 => (None, None),
        1 => (Some(first), None),
        _ => (Some(first), Some(second)),
    };
    holds(rt, shelf, "o.0.pcap", first, row.note);
    holds(rt, shelf, "o.1.pcap", second, row.note);
}

/// Runs the words of a row on a shelf.
pub fn check_on<R: Threads + Wait + Sync + AllocGlobal + Abort>(
    rt: &R,
    shelf: &mut MemShelf,
    row: &Row<'_>,
) {
    ends_as(rt, &words(rt, row), shelf, row);
    wrote(rt, shelf, row);
}

/// Runs a row.
pub fn check<R: Threads + Wait + Sync + AllocGlobal + Abort>(rt: &R, row: &Row<'_>) {
    let mut shelf = shelf_of(rt, row);
    check_on(rt, &mut shelf, row);
    drop(shelf);
}
