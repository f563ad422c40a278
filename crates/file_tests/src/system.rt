//! Files of the system, and standard output, by the calls that a run makes on them.
use crate::check::same;
use qos_io::{PutFault, Shelf, Sink, Source};
use qos_main::{FileShelf, StdoutSink};
use std::process::Abort;

// So many bytes, of which those that stand 251 apart are the same.
fn many<R: AllocGlobal + Abort>(rt: &R, count: usize) -> Vec<u8> {
    let mut bytes = Vec::with_capacity(rt.alloc(), count).expect(rt, "memory");
    for i in 0..count {
        bytes.push((i % 251) as u8).expect(rt, "memory");
    }
    bytes
}

// The first put of these bytes into a full device.
fn put<R: Abort, H: Shelf>(rt: &R, shelf: &mut H, bytes: &[u8]) -> Result<(), PutFault> {
    let mut sink = shelf.create_out("/dev/full").expect(rt, "a sink");
    sink.put(bytes)
}

// The same, and the closing behind it.
fn put_and_close<R: Abort, H: Shelf>(
    rt: &R,
    shelf: &mut H,
    bytes: &[u8],
) -> [Result<(), PutFault>; 2] {
    let mut sink = shelf.create_out("/dev/full").expect(rt, "a sink");
    let put = sink.put(bytes);
    [put, shelf.close_out(sink)]
}

// The first piece has failed before the second one can go.
#[test]
fn a_full_device(rt: HostRuntime) {
    let bytes = many(&rt, 2_500_000);
    let mut shelf = FileShelf::new(&rt).expect(&rt, "a shelf");
    let failed = put(&rt, &mut shelf, &bytes);
    same(&rt, &failed, &Err(PutFault::Failed), "a large put");
    let [put, closed] = put_and_close(&rt, &mut shelf, b"few");
    same(&rt, &put, &Ok(()), "a small put");
    same(&rt, &closed, &Err(PutFault::Failed), "the closing");
    drop(shelf);
}

fn put_large<R: Abort, H: Shelf>(rt: &R, shelf: &mut H, bytes: &[u8]) {
    let mut sink = shelf.create_out("large").expect(rt, "a sink");
    same(rt, &sink.put(bytes), &Ok(()), "a large put");
    same(rt, &sink.put(b"end"), &Ok(()), "a small put");
    same(rt, &sink.put(bytes), &Ok(()), "a large put");
    same(rt, &sink.put(b"end"), &Ok(()), "a small put");
    same(rt, &shelf.close_out(sink), &Ok(()), "the closing");
}

// Whether these are the next bytes of a source, read a few at a time.
fn begins_with<S: Source>(source: &mut S, bytes: &[u8]) -> bool {
    let mut buf = [0u8; 4096];
    let mut left = bytes;
    for _ in 0..bytes.len() {
        if left.is_empty() {
            break;
        }
        let room = left.len().min(buf.len());
        let Ok(n) = source.read(&mut buf[..room]) else {
            return false;
        };
        if n == 0 || left[..n] != buf[..n] {
            return false;
        }
        left = &left[n..];
    }
    true
}

fn is_at_end<S: Source>(source: &mut S) -> bool {
    source.read(&mut [0; 10]) == Ok(0)
}

fn compare_large<R: Abort, H: Shelf>(rt: &R, shelf: &mut H, bytes: &[u8]) {
    let mut source = shelf.open_in("large").expect(rt, "a source");
    for _ in 0..2 {
        same(rt, &begins_with(&mut source, bytes), &true, "the large put");
        same(
            rt,
            &begins_with(&mut source, b"end"),
            &true,
            "the small put",
        );
    }
    same(rt, &is_at_end(&mut source), &true, "the end");
    same(rt, &is_at_end(&mut source), &true, "the end, again");
}

// Puts that are larger than the piece of one write, and small ones between them.
#[test]
fn a_large_file_is_read_back(rt: HostRuntime) {
    let bytes = many(&rt, 1_500_000);
    let mut shelf = FileShelf::new(&rt).expect(&rt, "a shelf");
    put_large(&rt, &mut shelf, &bytes);
    compare_large(&rt, &mut shelf, &bytes);
    drop(shelf);
}

#[test]
fn standard_output_is_written(rt: HostRuntime) {
    let put = StdoutSink::new(&rt).put(b"said\n");
    same(&rt, &put, &Ok(()), "a put");
}
