//! Writing captures: little-endian, with nanoseconds, link type Ethernet (pcap-savefile).
ghost use Rattle.std.specs.Prelude.{◌≡◌, ◌≤◌, ◌++◌, ◌/◌, ◌%◌, length, OnOk, OnErr, IsErrOf};
ghost use Rattle.byteorder.specs.Endian.{little_bytes};
ghost use Rattle.qos_io.specs.Bytes.{held_after, PutSome};
ghost use Rattle.qos_io.specs.Fault.{Counts};
ghost use Rattle.qos_pcap.specs.Written.{header_text, record_text};

use crate::MAX_CAP;
use crate::fields::{ETHERNET, MAJOR, NANOSECONDS};
use byteorder::{ByteOrder, LittleEndian};
use qos_io::{PutFault, Sink};

/// The minor version that is written.
const MINOR: u16 = 4;

/// Nanoseconds in a second.
const SECOND: u64 = 1_000_000_000;

/// The bytes of the header. The zone and the accuracy of the stamps are 0.
fn header() -> [u8; 24]
    ensures { result ≡ header_text }
{
    let mut bytes = [0u8; 24];
    LittleEndian::write_u32(&mut bytes, NANOSECONDS);
    LittleEndian::write_u16(&mut bytes[4..], MAJOR);
    LittleEndian::write_u16(&mut bytes[6..], MINOR);
    LittleEndian::write_u32(&mut bytes[16..], MAX_CAP);
    LittleEndian::write_u32(&mut bytes[20..], ETHERNET);
    bytes
}

/// The bytes of a record's head.
fn record_head(stamp: u64, wire: u32, cap: u32) -> [u8; 16]
    requires { stamp ≤ 4294967295999999999 }
    ensures { result ≡ little_bytes 4 (stamp / 1000000000) ++ little_bytes 4 (stamp % 1000000000) ++ little_bytes 4 cap ++ little_bytes 4 wire }
{
    let mut bytes = [0u8; 16];
    LittleEndian::write_u32(&mut bytes, (stamp / SECOND) as u32);
    LittleEndian::write_u32(&mut bytes[4..], (stamp % SECOND) as u32);
    LittleEndian::write_u32(&mut bytes[8..], cap);
    LittleEndian::write_u32(&mut bytes[12..], wire);
    bytes
}

/// Writes the header, in one put. After a refusal the sink has the first few of its bytes, or none.
///
/// `Failed`: the sink failed. `NoMemory`: the sink was refused memory.
pub fn put_header<K: Sink>(out: &mut K) -> Result<(), PutFault>
    ensures added { OnOk result (K.contents out.new ≡ held_after header_text (K.contents out.old)) }
    ensures refused { OnErr result (PutSome header_text (K.contents out.old) (K.contents out.new)) }
    ensures name { K.name out.new ≡ K.name out.old }
    ensures faults { Counts K.faults K.IsSure out.old out.new (IsErrOf result PutFault.Failed) }
{
    out.put(&header())
}

/// Writes a record of these captured bytes: a put of its head of 16 bytes, and a put of the body. `stamp`
/// is in nanoseconds, and `wire` is the length on the line in bytes. After a refusal the sink has the first
/// few of the record's bytes, or none.
///
/// `Failed`: the sink failed. `NoMemory`: the sink was refused memory.
pub fn put_record<K: Sink>(out: &mut K, stamp: u64, wire: u32, body: &[u8]) -> Result<(), PutFault>
    requires captured { length body.now ≤ MAX_CAP }
    requires wire { length body.now ≤ wire }
    requires stamp { stamp ≤ 4294967295999999999 }

    ensures added { OnOk result (K.contents out.new ≡ held_after (record_text stamp wire body.now) (K.contents out.old)) }
    ensures refused { OnErr result (PutSome (record_text stamp wire body.now) (K.contents out.old) (K.contents out.new)) }
    ensures name { K.name out.new ≡ K.name out.old }
    ensures faults { Counts K.faults K.IsSure out.old out.new (IsErrOf result PutFault.Failed) }
{
    out.put(&record_head(stamp, wire, body.len() as u32))?;
    out.put(body)
}
