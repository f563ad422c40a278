//! The header of what a frame carries.
ghost use Rattle.std.specs.Prelude.{◌≡◌};
ghost use Rattle.port_classify.specs.Frame.{bits_of, proto_of};
ghost use Rattle.port_classify.specs.Parts.{carried_in};

use crate::fields::{u16_at, u32_at};
use profile_plan::Proto;

/// The ethertype of IPv4 (RFC 894).
const IPV4: u16 = 0x0800;

/// The ethertype of IPv6 (RFC 2464, section 3).
const IPV6: u16 = 0x86dd;

/// The ethertype of MPLS (RFC 3032, section 5).
const MPLS: u16 = 0x8847;

/// What the header behind the tags says. Numbers that it does not have are 0.
#[derive(Clone, Copy)]
pub(crate) struct Carried {
    pub(crate) proto: Proto,
    pub(crate) dscp: u8,
    pub(crate) src: u32,
    pub(crate) dst: u32,
    pub(crate) mpls_tc: u8,
}

/// What is behind the tags of any other frame.
const OTHER: Carried = Carried {
    proto: Proto::Other,
    dscp: 0,
    src: 0,
    dst: 0,
    mpls_tc: 0,
};

/// The version of an IP header, by its first two bytes.
fn version(start: u16) -> u16
    ensures { result ≡ bits_of 16 0 4 start }
{
    start >> 12
}

/// The words of an IPv4 header, by its first two bytes.
fn header_words(start: u16) -> u16
    ensures { result ≡ bits_of 16 4 4 start }
{
    start >> 8 & 0x0f
}

/// RFC 791, section 3.1. Options are not read.
fn ipv4_in(packet: &[u8]) -> Option<Carried>
    ensures { result ≡ carried_in Proto.Ipv4 packet.now }
{
    if packet.len() < 20 {
        return None;
    }
    let start = u16_at(packet, 0);
    if version(start) != 4 || header_words(start) < 5 {
        return None;
    }
    Some(Carried {
        proto: Proto::Ipv4,
        dscp: (start >> 2 & 0x3f) as u8,
        src: u32_at(packet, 12),
        dst: u32_at(packet, 16),
        ..OTHER
    })
}

/// RFC 8200, section 3.
fn ipv6_in(packet: &[u8]) -> Option<Carried>
    ensures { result ≡ carried_in Proto.Ipv6 packet.now }
{
    if packet.len() < 40 {
        return None;
    }
    let start = u16_at(packet, 0);
    if version(start) != 6 {
        return None;
    }
    Some(Carried {
        proto: Proto::Ipv6,
        dscp: (start >> 6 & 0x3f) as u8,
        ..OTHER
    })
}

/// RFC 3032, section 2.1. The first label is read.
fn mpls_in(packet: &[u8]) -> Option<Carried>
    ensures { result ≡ carried_in Proto.Mpls packet.now }
{
    if packet.len() < 4 {
        return None;
    }
    Some(Carried {
        proto: Proto::Mpls,
        mpls_tc: (u32_at(packet, 0) >> 9 & 0x07) as u8,
        ..OTHER
    })
}

/// What a frame of this type carries, or none where that has no header of its protocol.
pub(crate) fn carried_in(ethertype: u16, packet: &[u8]) -> Option<Carried>
    ensures { result ≡ carried_in (proto_of ethertype) packet.now }
{
    match ethertype {
        IPV4 => ipv4_in(packet),
        IPV6 => ipv6_in(packet),
        MPLS => mpls_in(packet),
        _ => Some(OTHER),
    }
}
