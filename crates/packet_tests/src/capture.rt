//! The bytes of a capture.
use std::process::Abort;

/// Little-endian, with nanoseconds (pcap-savefile).
pub(crate) const HEADER: [u8; 24] = [
    0x4d, 0x3c, 0xb2, 0xa1, 2, 0, 4, 0, 0, 0, 0, 0, 0, 0, 0, 0, 0, 0, 4, 0, 1, 0, 0, 0,
];

fn put(rt: &impl Abort, bytes: &mut Vec<u8>, more: &[u8]) {
    bytes.extend_from_slice(more).expect(rt, "memory");
}

/// Puts a record: the seconds and the nanoseconds of its stamp, its captured and its whole length, and its body.
pub(crate) fn put_record(rt: &impl Abort, bytes: &mut Vec<u8>, head: [u32; 4], body: &[u8]) {
    for number in head {
        put(rt, bytes, &number.to_le_bytes());
    }
    put(rt, bytes, body);
}
