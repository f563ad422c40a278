//! Sources, sinks and shelves in memory.
ghost use Rattle.std.specs.Prelude.{IsSome};

use crate::check::{failing_sink, length_of, owned, same, shelf_with};
use qos_io::{
    Failed, MemShelf, MemSink, MemSource, PutFault, Shelf, Sink, Source, WholeShelf, WholeSink,
    WholeSource,
};
use std::process::Abort;
use std::thread;
use std::thread::Threads;

const BYTES: [u8; 7] = [1, 2, 3, 4, 5, 6, 7];

/// What a source gives to reads of three bytes, at most eight of them, and how many of them failed.
fn drain<S: Source, R: Abort + AllocGlobal>(rt: &R, mut source: S) -> (Vec<u8>, u8) {
    let mut all = Vec::new(rt.alloc());
    let mut failed = 0u8;
    for _ in 0..8 {
        let mut piece = [0; 3];
        match source.read(&mut piece) {
            Ok(n) => all.extend_from_slice(&piece[..n]).expect(rt, "memory"),
            Err(Failed) => failed = failed.saturating_add(1),
        }
    }
    (all, failed)
}

fn fails_in<R: Abort + AllocGlobal>(rt: &R, fails: [u32; 2], failed: u8) {
    let fails = fails.to_vec(rt.alloc()).expect(rt, "memory");
    let found = drain(rt, MemSource::new(owned(rt, &BYTES), fails));
    same(rt, &found, &(owned(rt, &BYTES), failed), "planned failures");
}

// Which reads fail, and how many of the eight did.
#[test]
fn sources_are_read_to_the_end(rt: HostRuntime) {
    for (fails, failed) in [([9, 9], 0), ([0, 2], 2), ([1, 8], 1)] {
        fails_in(&rt, fails, failed);
    }
    let found = drain(&rt, WholeSource::new(owned(&rt, &BYTES)));
    let wanted = (owned(&rt, &BYTES), 0);
    same(&rt, &found, &wanted, "a source that never fails");
}

// What is put, and the answer: the second and the fourth put fail.
const PUTS: &[([u8; 2], Result<(), PutFault>)] = &[
    ([1, 2], Ok(())),
    ([3, 4], Err(PutFault::Failed)),
    ([5, 6], Ok(())),
    ([7, 8], Err(PutFault::Failed)),
    ([9, 0], Ok(())),
];

fn puts<K: Sink>(rt: &impl Abort, sink: &mut K, put: &([u8; 2], Result<(), PutFault>)) {
    let (bytes, answer) = put;
    same(rt, &sink.put(bytes), answer, "a put");
}

fn puts_all<K: Sink>(rt: &impl Abort, sink: &mut K) {
    for put in PUTS {
        puts(rt, sink, put);
    }
}

fn failing_sink_holds<R: Abort + AllocGlobal>(rt: &R) {
    let mut sink = failing_sink(rt, &[1, 3]);
    puts_all(rt, &mut sink);
    same(
        rt,
        &sink.bytes(),
        &[1, 2, 5, 6, 9, 0].as_slice(),
        "planned failures",
    );
}

fn whole_sink_holds<R: Abort + AllocGlobal>(rt: &R) {
    let mut sink = WholeSink::new(rt.alloc());
    puts(rt, &mut sink, &PUTS[0]);
    same(
        rt,
        &sink.bytes(),
        &[1, 2].as_slice(),
        "a sink that never fails",
    );
}

#[test]
fn sinks_hold_what_was_put(rt: HostRuntime) {
    failing_sink_holds(&rt);
    whole_sink_holds(&rt);
}

/// Copies the first eight bytes of one file to another.
fn copy<H: Shelf>(shelf: &mut H, from: &str, to: &str) -> Result<(), PutFault> {
    let mut source = shelf.open_in(from)?;
    let mut sink = shelf.create_out(to)?;
    let mut bytes = [0; 8];
    if let Ok(n) = source.read(&mut bytes) {
        sink.put(&bytes[..n])?;
    }
    shelf.close_out(sink)
}

// From which file to which, and the answer.
type Copied = (&'static str, &'static str, Result<(), PutFault>);

fn copies<H: Shelf>(rt: &impl Abort, shelf: &mut H, row: &Copied) {
    let (from, to, answer) = row;
    same(rt, &copy(shelf, from, to), answer, from);
}

const COPIES: [Copied; 3] = [
    ("a", "b", Ok(())),
    ("c", "b", Err(PutFault::Failed)),
    ("b", "d", Ok(())),
];

fn copies_all<H: Shelf>(rt: &impl Abort, shelf: &mut H) {
    for row in &COPIES {
        copies(rt, shelf, row);
    }
}

const ONES: Option<&[u8]> = Some(&[1; 3]);

// What the files "a" to "d" hold.
fn held(shelf: &MemShelf) -> [Option<&[u8]>; 4] {
    [
        shelf.file("a"),
        shelf.file("b"),
        shelf.file("c"),
        shelf.file("d"),
    ]
}

#[test]
fn a_shelf_keeps_files_by_name(rt: HostRuntime) {
    let mut shelf = shelf_with(&rt, &[("a", &[1; 3]), ("b", &[4; 3])]);
    copies_all(&rt, &mut shelf);
    same(&rt, &held(&shelf), &[ONES, ONES, None, ONES], "a to d");
}

fn held_whole(shelf: &WholeShelf) -> [Option<&[u8]>; 4] {
    [
        shelf.file("a"),
        shelf.file("b"),
        shelf.file("c"),
        shelf.file("d"),
    ]
}

fn whole_shelf<R: Abort + AllocGlobal>(rt: &R) -> WholeShelf {
    let mut shelf = WholeShelf::new(rt.alloc());
    let put = shelf.put_file("a", owned(rt, &[1; 3]));
    put.expect(rt, "memory");
    shelf
}

const WHOLE_COPIES: [Copied; 2] = [("a", "b", Ok(())), ("c", "d", Ok(()))];

// A name of no file opens as an empty file.
#[test]
fn a_whole_shelf_keeps_files_by_name(rt: HostRuntime) {
    let mut shelf = whole_shelf(&rt);
    for row in &WHOLE_COPIES {
        copies(&rt, &mut shelf, row);
    }
    same(
        &rt,
        &held_whole(&shelf),
        &[ONES, ONES, None, Some(&[])],
        "a to d",
    );
}

/// A sink of a shelf, with these bytes.
fn sink_with<R: Abort + AllocGlobal>(rt: &R, name: &str, bytes: &[u8]) -> MemSink
    ensures { IsSome result.name }
{
    let sink = MemShelf::new(rt.alloc()).create_out(name);
    let mut sink = sink.expect(rt, "memory");
    sink.put(bytes).expect(rt, "memory");
    sink
}

#[test]
fn a_sink_of_another_shelf_is_closed(rt: HostRuntime) {
    let mut shelf = MemShelf::new(rt.alloc());
    let closed = shelf.close_out(sink_with(&rt, "a", &[1, 2]));
    let seen = (closed, length_of(&shelf, "a"));
    same(&rt, &seen, &(Ok(()), Some(2)), "a closing, and a");
}

fn go<R: Threads, A: Send + Drop, B: Send + Drop>(rt: &R, one: A, other: B) {
    thread::join(rt, move || drop(one), move || drop(other));
}

fn whole_objects_go<R: Threads + Abort + AllocGlobal>(rt: &R) {
    let mut shelf = WholeShelf::new(rt.alloc());
    let source = shelf.open_in("a").expect(rt, "memory");
    let sink = shelf.create_out("b").expect(rt, "memory");
    go(rt, source, sink);
    go(rt, shelf, ());
}

#[test]
fn objects_go_to_other_threads(rt: HostRuntime) {
    whole_objects_go(&rt);
    let source = MemSource::new(Vec::new(rt.alloc()), Vec::new(rt.alloc()));
    let sink = MemSink::new(rt.alloc(), Vec::new(rt.alloc()));
    go(&rt, source, sink);
    go(&rt, MemShelf::new(rt.alloc()), ());
}
