//! Captures, made of records.
use std::alloc::{AllocError, Global};

/// What a capture of the program begins with: little-endian, nanoseconds, version 2.4, Ethernet.
pub const HEADER: [u8; 24] = [
    0x4d, 0x3c, 0xb2, 0xa1, 2, 0, 4, 0, 0, 0, 0, 0, 0, 0, 0, 0, 0, 0, 4, 0, 1, 0, 0, 0,
];

/// An IPv4 frame of 60 bytes to 10.0.0.2, with code point 0.
pub const FRAME: [u8; 60] = [
    2, 0, 0, 0, 0, 1, 2, 0, 0, 0, 0, 2, 8, 0, 0x45, 0, 0, 0x2e, 0, 0, 0, 0, 0x40, 0x11, 0, 0, 10,
    0, 0, 1, 10, 0, 0, 2, 0, 0, 0, 0, 0, 0, 0, 0, 0, 0, 0, 0, 0, 0, 0, 0, 0, 0, 0, 0, 0, 0, 0, 0,
    0, 0,
];

/// How the numbers of a capture are written: the order of their bytes, and the unit of a record's fraction.
#[derive(Clone, Copy)]
pub struct Form {
    pub big: bool,
    pub micros: bool,
}

/// Little-endian, with nanoseconds.
pub const PLAIN: Form = Form {
    big: false,
    micros: false,
};

/// A record of a capture. Its body is the frame of 60 bytes with this code point, this last byte of its address and
/// this last byte of its ethertype, and a tag before that where it is tagged, cut or lengthened with zero bytes to
/// `cap`; its total length is what follows the ethertype.
#[derive(Clone, Copy)]
pub struct Rec {
    pub seconds: u32,
    pub nanos: u32,
    pub cap: u32,
    pub wire: u32,
    pub dscp: u8,
    pub host: u8,
    pub kind: u8,
    pub tagged: bool,
}

/// A frame of 60 bytes to 10.0.0.2 that was captured 100 seconds after the origin of the stamps.
pub const FIRST: Rec = Rec {
    seconds: 100,
    nanos: 0,
    cap: 60,
    wire: 60,
    dscp: 0,
    host: 2,
    kind: 0,
    tagged: false,
};

/// The same frame to 10.0.0.200.
pub const FAR: Rec = Rec { host: 200, ..FIRST };

/// The capture that the program writes of these records.
pub fn written(alloc: Global, records: &[Rec]) -> Result<Vec<u8>, AllocError> {
    let mut bytes = HEADER.to_vec(alloc)?;
    put_records(&mut bytes, PLAIN, records)?;
    Ok(bytes)
}

/// A capture of these records, in this form.
pub fn capture(alloc: Global, form: Form, records: &[Rec]) -> Result<Vec<u8>, AllocError> {
    let mut bytes = Vec::new(alloc);
    put_header(&mut bytes, form)?;
    put_records(&mut bytes, form, records)?;
    Ok(bytes)
}

fn put_number(bytes: &mut Vec<u8>, form: Form, number: u32) -> Result<(), AllocError> {
    let text = if form.big {
        number.to_be_bytes()
    } else {
        number.to_le_bytes()
    };
    bytes.extend_from_slice(&text)
}

fn put_numbers(bytes: &mut Vec<u8>, form: Form, numbers: &[u32]) -> Result<(), AllocError> {
    for number in numbers {
        put_number(bytes, form, *number)?;
    }
    Ok(())
}

// The version 2.4 is two numbers of two bytes, here put as one.
fn put_header(bytes: &mut Vec<u8>, form: Form) -> Result<(), AllocError> {
    let magic = if form.micros {
        0xa1b2_c3d4
    } else {
        0xa1b2_3c4d
    };
    let version = if form.big { 0x0002_0004 } else { 0x0004_0002 };
    put_numbers(bytes, form, &[magic, version, 0, 0, 65_535, 1])
}

// The first 60 bytes of a record's body.
fn body(record: &Rec) -> [u8; 60] {
    let mut body = FRAME;
    let header = if record.tagged { 18 } else { 14 };
    let total = record.cap.saturating_sub(header).min(65_535) as u16;
    body[13] = record.kind;
    body[15] = record.dscp << 2;
    [body[16], body[17]] = total.to_be_bytes();
    body[33] = record.host;
    if record.tagged {
        return tagged(&body);
    }
    body
}

// A frame with a tag of VLAN 5 before its ethertype, of as many bytes.
fn tagged(plain: &[u8; 60]) -> [u8; 60] {
    let mut body = *plain;
    body[12..16].copy_from_slice(&[0x81, 0, 0, 5]);
    body[16..].copy_from_slice(&plain[12..56]);
    body
}

fn put_record(bytes: &mut Vec<u8>, form: Form, record: &Rec) -> Result<(), AllocError> {
    let unit = if form.micros { 1000 } else { 1 };
    let head = [record.seconds, record.nanos / unit, record.cap, record.wire];
    put_numbers(bytes, form, &head)?;
    let cap = record.cap as usize;
    bytes.extend_from_slice(&body(record)[..cap.min(60)])?;
    let all = bytes.len().saturating_add(cap.saturating_sub(60));
    bytes.resize(all, 0)
}

fn put_records(bytes: &mut Vec<u8>, form: Form, records: &[Rec]) -> Result<(), AllocError> {
    for record in records {
        put_record(bytes, form, record)?;
    }
    Ok(())
}
