//! The bytes of captures.
use crate::check::owned;
use std::process::Abort;

// A header and the head of a record, one for each magic number. The record is one of 60 bytes, 1.5 seconds
// after the origin of the stamps.
pub(crate) const NANOSECONDS: [u8; 40] = [
    0x4d, 0x3c, 0xb2, 0xa1, 2, 0, 4, 0, 0, 0, 0, 0, 0, 0, 0, 0, 0, 0, 4, 0, 1, 0, 0, 0, //
    1, 0, 0, 0, 0x00, 0x65, 0xcd, 0x1d, 60, 0, 0, 0, 60, 0, 0, 0,
];

pub(crate) const MICROSECONDS: [u8; 40] = [
    0xd4, 0xc3, 0xb2, 0xa1, 2, 0, 4, 0, 0, 0, 0, 0, 0, 0, 0, 0, 0xff, 0xff, 0, 0, 1, 0, 0, 0, //
    1, 0, 0, 0, 0x20, 0xa1, 0x07, 0, 60, 0, 0, 0, 60, 0, 0, 0,
];

pub(crate) const BIG_NANOSECONDS: [u8; 40] = [
    0xa1, 0xb2, 0x3c, 0x4d, 0, 2, 0, 4, 0, 0, 0, 0, 0, 0, 0, 0, 0, 4, 0, 0, 0, 0, 0, 1, //
    0, 0, 0, 1, 0x1d, 0xcd, 0x65, 0x00, 0, 0, 0, 60, 0, 0, 0, 60,
];

pub(crate) const BIG_MICROSECONDS: [u8; 40] = [
    0xa1, 0xb2, 0xc3, 0xd4, 0, 2, 0, 4, 0, 0, 0, 0, 0, 0, 0, 0, 0, 0, 0xff, 0xff, 0, 0, 0, 1, //
    0, 0, 0, 1, 0, 0x07, 0xa1, 0x20, 0, 0, 0, 60, 0, 0, 0, 60,
];

/// The stamp of each record, in nanoseconds.
pub(crate) const STAMP: u64 = 1_500_000_000;

/// The magic number of a capture with nanoseconds.
pub(crate) const MAGIC: [u8; 4] = [0x4d, 0x3c, 0xb2, 0xa1];

/// A capture of three records, of 252 bytes: the header, and three times the head and a body of 60 bytes.
pub(crate) fn three<R: Abort + AllocGlobal>(rt: &R, text: &[u8; 40]) -> Vec<u8> {
    let mut bytes = owned(rt, text);
    bytes.extend_from_slice(&[7; 60]).expect(rt, "memory");
    for _ in 0..2 {
        bytes.extend_from_slice(&text[24..]).expect(rt, "memory");
        bytes.extend_from_slice(&[7; 60]).expect(rt, "memory");
    }
    bytes
}

/// The capture of three records with nanoseconds, where these four bytes were put at `at` and it was then cut to
/// `len` bytes.
pub(crate) fn changed<R: Abort + AllocGlobal>(
    rt: &R,
    at: u8,
    with: [u8; 4],
    len: usize,
) -> Vec<u8> {
    let mut bytes = three(rt, &NANOSECONDS);
    for i in 0..4 {
        if let Some(byte) = bytes.get_mut(usize::from(at) + i) {
            *byte = with[i];
        }
    }
    bytes.truncate(len);
    bytes
}
