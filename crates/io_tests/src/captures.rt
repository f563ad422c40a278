//! Captures that are read: where they stop, and what their heads say.
use crate::capture_bytes::{
    BIG_MICROSECONDS, BIG_NANOSECONDS, MAGIC, MICROSECONDS, NANOSECONDS, STAMP, three,
};
use crate::capture_seen::{Seen, expected, read, read_changed};
use crate::check::same;
use qos_io::{MemSource, WholeSource};
use qos_pcap::{PcapFault, Stop};
use std::process::Abort;

const ZERO: [u8; 4] = [0; 4];

// At which byte four are changed, to which, how many bytes are left and how many records may be read; and then how many
// heads and whole records are there, and the stop.
type Change = (u8, [u8; 4], usize, u32, u32, u32, Stop);

const CHANGES: [Change; 27] = [
    (0, MAGIC, 252, 3, 3, 3, Stop::End),
    (0, MAGIC, 24, 3, 0, 0, Stop::End),
    (0, MAGIC, 23, 3, 0, 0, Stop::Fault(PcapFault::CutHeader(23))),
    (0, ZERO, 23, 3, 0, 0, Stop::Fault(PcapFault::CutHeader(23))),
    (0, ZERO, 24, 3, 0, 0, Stop::Fault(PcapFault::BadMagic)),
    (
        4,
        [3, 0, 4, 0],
        252,
        3,
        0,
        0,
        Stop::Fault(PcapFault::BadVersion),
    ),
    (
        4,
        [2, 1, 4, 0],
        252,
        3,
        0,
        0,
        Stop::Fault(PcapFault::BadVersion),
    ),
    (4, [2, 0, 9, 9], 252, 3, 3, 3, Stop::End),
    (8, [1, 2, 3, 4], 252, 3, 3, 3, Stop::End),
    (12, [1, 2, 3, 4], 252, 3, 3, 3, Stop::End),
    (16, [1, 2, 3, 4], 252, 3, 3, 3, Stop::End),
    (
        20,
        [113, 0, 0, 0],
        252,
        3,
        0,
        0,
        Stop::Fault(PcapFault::BadLink),
    ),
    (
        20,
        [1, 1, 0, 0],
        252,
        3,
        0,
        0,
        Stop::Fault(PcapFault::BadLink),
    ),
    (20, [1, 0, 5, 9], 252, 3, 3, 3, Stop::End),
    (
        0,
        MAGIC,
        202,
        3,
        3,
        2,
        Stop::Fault(PcapFault::CutRecord(176)),
    ),
    (0, MAGIC, 252, 1, 1, 1, Stop::Fault(PcapFault::TooMany(100))),
    (0, MAGIC, 101, 1, 1, 1, Stop::Fault(PcapFault::TooMany(100))),
    (0, MAGIC, 100, 1, 1, 1, Stop::End),
    (0, MAGIC, 25, 0, 0, 0, Stop::Fault(PcapFault::TooMany(24))),
    (0, MAGIC, 24, 0, 0, 0, Stop::End),
    (
        108,
        [1, 0, 4, 0],
        252,
        1,
        1,
        1,
        Stop::Fault(PcapFault::TooMany(100)),
    ),
    (
        108,
        [1, 0, 4, 0],
        252,
        3,
        1,
        1,
        Stop::Fault(PcapFault::HugeRecord(100, 262_145)),
    ),
    (
        108,
        [1, 0, 4, 0],
        116,
        3,
        1,
        1,
        Stop::Fault(PcapFault::HugeRecord(100, 262_145)),
    ),
    (
        108,
        [1, 0, 4, 0],
        115,
        3,
        1,
        1,
        Stop::Fault(PcapFault::CutRecord(100)),
    ),
    (
        108,
        [0, 0, 4, 0],
        252,
        3,
        2,
        1,
        Stop::Fault(PcapFault::CutRecord(100)),
    ),
    (
        108,
        [0xff; 4],
        252,
        3,
        1,
        1,
        Stop::Fault(PcapFault::HugeRecord(100, 0xffff_ffff)),
    ),
    (108, ZERO, 116, 3, 2, 2, Stop::End),
];

fn stops_so<R: Abort + AllocGlobal>(rt: &R, change: &Change) {
    let (at, with, len, limit, heads, records, stop) = *change;
    let found = read_changed(rt, at, with, len, limit);
    same(
        rt,
        &found,
        &expected(heads, records, stop),
        "a changed capture",
    );
}

#[test]
fn a_capture_stops_where_its_fault_is(rt: HostRuntime) {
    for change in &CHANGES {
        stops_so(&rt, change);
    }
}

fn has_three<R: Abort + AllocGlobal>(rt: &R, text: &[u8; 40], note: &str) {
    let found = read(WholeSource::new(three(rt, text)), 3);
    same(rt, &found, &expected(3, 3, Stop::End), note);
}

#[test]
fn every_magic_number_is_read(rt: HostRuntime) {
    has_three(&rt, &NANOSECONDS, "nanoseconds");
    has_three(&rt, &MICROSECONDS, "microseconds");
    has_three(&rt, &BIG_NANOSECONDS, "nanoseconds, the highest byte first");
    has_three(
        &rt,
        &BIG_MICROSECONDS,
        "microseconds, the highest byte first",
    );
}

fn begins_with<R: Abort + AllocGlobal>(rt: &R, at: u8, with: [u8; 4], stamp: u64, wire: u32) {
    let wanted = Seen {
        stamp,
        wire,
        ..expected(3, 3, Stop::End)
    };
    let found = read_changed(rt, at, with, 252, 3);
    same(rt, &found, &wanted, "a first head");
}

// A fraction of a second or more is taken as it stands; the length on the line is the greater of the two.
#[test]
fn a_head_has_these_numbers(rt: HostRuntime) {
    for (at, with, stamp, wire) in [
        (28, [0xff; 4], 5_294_967_295, 60),
        (24, [0xff; 4], 4_294_967_295_500_000_000, 60),
        (36, [59, 0, 0, 0], STAMP, 60),
        (36, [0xf2, 5, 0, 0], STAMP, 1522),
    ] {
        begins_with(&rt, at, with, stamp, wire);
    }
}

fn cut_in_header<R: Abort + AllocGlobal>(rt: &R, len: u32) {
    let wanted = expected(0, 0, Stop::Fault(PcapFault::CutHeader(len)));
    let found = read_changed(rt, 0, MAGIC, len as usize, 3);
    same(rt, &found, &wanted, "a cut header");
}

// The records are of 76 bytes each, of which 16 are the head.
fn cut_behind_header<R: Abort + AllocGlobal>(rt: &R, len: u32) {
    let (whole, more) = (len / 76, len % 76);
    let stop = if more == 0 {
        Stop::End
    } else {
        Stop::Fault(PcapFault::CutRecord(24 + 76 * u64::from(whole)))
    };
    let wanted = expected(whole + u32::from(more >= 16), whole, stop);
    let found = read_changed(rt, 0, MAGIC, 24 + len as usize, 3);
    same(rt, &found, &wanted, "a cut record");
}

#[test]
fn a_capture_is_cut_at_each_byte(rt: HostRuntime) {
    for len in 0..24 {
        cut_in_header(&rt, len);
    }
    for len in 0..=228 {
        cut_behind_header(&rt, len);
    }
}

fn fails_at<R: Abort + AllocGlobal>(rt: &R, call: u32, wanted: &Seen) {
    let fails = vec![in rt.alloc(); call].expect(rt, "memory");
    let source = MemSource::new(three(rt, &NANOSECONDS), fails);
    same(rt, &read(source, 3), wanted, "a failed read");
}

// The reads are of the header, and then of a head and a body in turn.
#[test]
fn a_read_fails(rt: HostRuntime) {
    for (call, heads, records, stop) in [
        (0, 0, 0, Stop::Fault(PcapFault::Read)),
        (1, 0, 0, Stop::Fault(PcapFault::Read)),
        (2, 1, 0, Stop::Fault(PcapFault::Read)),
        (3, 1, 1, Stop::Fault(PcapFault::Read)),
        (4, 2, 1, Stop::Fault(PcapFault::Read)),
        (7, 3, 3, Stop::Fault(PcapFault::Read)),
        (8, 3, 3, Stop::End),
    ] {
        fails_at(&rt, call, &expected(heads, records, stop));
    }
}
