//! What the bytes of a header and of a record's head say (pcap-savefile).
ghost use Rattle.std.specs.Prelude.{◌≡◌, ◌≢◌, ◌≤◌, length, drop, IfOk, IfErr};
ghost use Rattle.qos_pcap.specs.Faults.{IsHeaderFault};
ghost use Rattle.qos_pcap.specs.Format.{header_of, magic_form, number_in};
ghost use Rattle.qos_pcap.specs.Heads.{IsHeadIn};

use crate::form::{Form, Order};
use crate::{Head, PcapFault};
use byteorder::{BigEndian, ByteOrder, LittleEndian};

/// The magic number of a capture with microseconds.
const MICROSECONDS: u32 = 0xa1b2_c3d4;

/// The magic number of a capture with nanoseconds.
pub(crate) const NANOSECONDS: u32 = 0xa1b2_3c4d;

/// The major version that is read and written.
pub(crate) const MAJOR: u16 = 2;

/// The link type of Ethernet.
pub(crate) const ETHERNET: u32 = 1;

/// The form that the header in these bytes tells, or its first fault. They are the first 24 of a capture,
/// or all that it has.
pub(crate) fn form_in(bytes: &[u8]) -> Result<Form, PcapFault>
    requires { length bytes.now ≤ 24 }
    ensures form { result ≡ header_of bytes.now }
    ensures unit { IfOk result (λ form. form.unit ≤ 1000) }
    ensures fault { IfErr result (λ fault. IsHeaderFault fault × (fault ≢ PcapFault.Read)) }
{
    if bytes.len() < 24 {
        return Err(PcapFault::CutHeader(bytes.len() as u32));
    }
    let Some(form) = form_of_magic(bytes) else {
        return Err(PcapFault::BadMagic);
    };
    if form.order.read_u16(&bytes[4..]) != MAJOR {
        return Err(PcapFault::BadVersion);
    }
    if form.order.read_u32(&bytes[20..]) % 65536 != ETHERNET {
        return Err(PcapFault::BadLink);
    }
    Ok(form)
}

/// What the magic number in the first four bytes tells, if it is one.
fn form_of_magic(bytes: &[u8]) -> Option<Form>
    requires { 4 ≤ length bytes.now }
    ensures { result ≡ magic_form bytes.now }
{
    let little = LittleEndian::read_u32(bytes);
    let big = BigEndian::read_u32(bytes);
    let (order, unit) = if little == MICROSECONDS {
        (Order::Little, 1000)
    } else if little == NANOSECONDS {
        (Order::Little, 1)
    } else if big == MICROSECONDS {
        (Order::Big, 1000)
    } else if big == NANOSECONDS {
        (Order::Big, 1)
    } else {
        return None;
    };
    Some(Form { order, unit })
}

/// The numbers of a record's head.
struct Fields {
    seconds: u32,
    fraction: u32,
    cap: u32,
    original: u32,
}

fn fields_by<T: ByteOrder>(bytes: &[u8]) -> Fields
    requires { 16 ≤ length bytes.now }
    ensures seconds { result.seconds ≡ T.number_of 4 bytes.now }
    ensures fraction { result.fraction ≡ T.number_of 4 (drop 4 bytes.now) }
    ensures cap { result.cap ≡ T.number_of 4 (drop 8 bytes.now) }
    ensures original { result.original ≡ T.number_of 4 (drop 12 bytes.now) }
{
    Fields {
        seconds: T::read_u32(bytes),
        fraction: T::read_u32(&bytes[4..]),
        cap: T::read_u32(&bytes[8..]),
        original: T::read_u32(&bytes[12..]),
    }
}

fn fields_in(order: Order, bytes: &[u8]) -> Fields
    requires { 16 ≤ length bytes.now }
    ensures seconds { result.seconds ≡ number_in order 4 bytes.now }
    ensures fraction { result.fraction ≡ number_in order 4 (drop 4 bytes.now) }
    ensures cap { result.cap ≡ number_in order 4 (drop 8 bytes.now) }
    ensures original { result.original ≡ number_in order 4 (drop 12 bytes.now) }
{
    match order {
        Order::Little => fields_by::<LittleEndian>(bytes),
        Order::Big => fields_by::<BigEndian>(bytes),
    }
}

/// What the head in these bytes says. A fraction of a second or more is taken as it stands.
pub(crate) fn head_in(form: Form, bytes: &[u8], index: u32, offset: u64) -> Head
    requires head { 16 ≤ length bytes.now }
    requires unit { form.unit ≤ 1000 }
    ensures numbers { IsHeadIn form bytes.now result }
    ensures index { result.index ≡ index }
    ensures offset { result.offset ≡ offset }
{
    let Fields {
        seconds,
        fraction,
        cap,
        original,
    } = fields_in(form.order, bytes);
    Head {
        index,
        offset,
        stamp: u64::from(seconds) * 1_000_000_000 + u64::from(fraction) * u64::from(form.unit),
        cap,
        wire: cap.max(original),
    }
}
