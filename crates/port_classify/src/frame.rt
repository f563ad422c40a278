//! What the first bytes of a frame say.

use profile_plan::Proto;

/// What the first bytes of an Ethernet frame say (IEEE 802.3, IEEE 802.1Q, RFC 791, RFC 8200, RFC 3032).
/// Numbers that the frame does not have are 0.
#[derive(Clone, Copy, Debug, PartialEq, Eq)]
pub struct Frame {
    /// How many tags stand before what it carries, 0 to 2.
    pub tags: u8,
    /// The VLAN id of the first tag.
    pub vlan: Option<u16>,
    /// The VLAN id of the second tag.
    pub inner: Option<u16>,
    /// The priority of the first tag, 0 to 7.
    pub prio: u8,
    /// What the frame carries, by its ethertype.
    pub proto: Proto,
    /// The code point of an IP header, 0 to 63.
    pub dscp: u8,
    /// The source of an IPv4 header.
    pub src: u32,
    /// The destination of an IPv4 header.
    pub dst: u32,
    /// The traffic class of the first label of an MPLS packet, 0 to 7.
    pub mpls_tc: u8,
    /// The bytes before what it carries: 14, 18 or 22.
    pub header: u32,
}

/// These bytes are no frame that can be classified: they end too early, or what they carry has no header of
/// its protocol.
#[derive(Clone, Copy, Debug, PartialEq, Eq)]
pub struct Unparsed;
