//! Captures that are written, the numbers of faults, and the laws of captures.
use crate::capture_bytes::{NANOSECONDS, STAMP, three};
use crate::check::{failing_sink, same};
use qos_io::{PutFault, Sink, WholeSink};
use qos_pcap::{PcapFault, laws, put_header, put_record};
use std::process::Abort;

// A fault, its number and its offset.
const FAULTS: [(PcapFault, u32, u64); 8] = [
    (PcapFault::BadMagic, 1, 0),
    (PcapFault::BadVersion, 2, 0),
    (PcapFault::BadLink, 3, 0),
    (PcapFault::CutHeader(23), 4, 23),
    (PcapFault::CutRecord(176), 5, 176),
    (PcapFault::HugeRecord(24, 262_145), 6, 24),
    (PcapFault::Read, 7, 0),
    (PcapFault::TooMany(100), 8, 100),
];

#[test]
fn faults_have_numbers_and_offsets(rt: HostRuntime) {
    for (fault, number, offset) in FAULTS {
        let found = (fault, fault.number(), fault.offset());
        same(&rt, &found, &(fault, number, offset), "a fault");
    }
}

fn put_one<K: Sink>(out: &mut K) -> Result<(), PutFault> {
    put_header(out)?;
    put_record(out, STAMP, 60, &[7; 60])
}

fn begins_so<R: Abort + AllocGlobal>(rt: &R, held: &[u8], len: usize) {
    let mut text = three(rt, &NANOSECONDS);
    text.truncate(len);
    same(rt, &held, &text.as_slice(), "what is held");
}

fn holds<R: Abort + AllocGlobal>(rt: &R, row: &(u32, Result<(), PutFault>, usize)) {
    let (call, answer, len) = row;
    let mut out = failing_sink(rt, &[*call]);
    same(rt, &put_one(&mut out), answer, "the answer");
    begins_so(rt, out.bytes(), *len);
}

// Which put fails, the answer, and how many bytes are held. The header is one put, and the record one of its head and one
// of its body.
const PUTS: &[(u32, Result<(), PutFault>, usize)] = &[
    (0, Err(PutFault::Failed), 0),
    (1, Err(PutFault::Failed), 24),
    (2, Err(PutFault::Failed), 40),
    (3, Ok(()), 100),
];

#[test]
fn what_is_written_has_the_format(rt: HostRuntime) {
    for row in PUTS {
        holds(&rt, row);
    }
    let mut whole = WholeSink::new(rt.alloc());
    let answer = put_one(&mut whole);
    same(&rt, &answer, &Ok(()), "a sink that never fails");
}

#[test]
fn laws_are_called() {
    laws::reads_one_way();
    laws::reads_back();
    laws::first_stamps();
}
