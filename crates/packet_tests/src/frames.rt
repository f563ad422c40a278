//! Frames by hand, from the standards.
use crate::check::same;
use port_classify::{Frame, Proto, look};
use std::process::Abort;

/// A frame that says nothing.
pub(crate) const PLAIN: Frame = Frame {
    tags: 0,
    vlan: None,
    inner: None,
    prio: 0,
    proto: Proto::Other,
    dscp: 0,
    src: 0,
    dst: 0,
    mpls_tc: 0,
    header: 14,
};

// What a frame says that has these bytes behind its addresses and is cut to a length. All other bytes are 81,
// which no field may be made of.
fn seen(rt: &impl Abort, behind: &[u8], len: usize) -> Option<Frame> {
    assert!(rt; behind.len() <= 52 && len <= 64);
    let mut bytes = [0x81; 64];
    bytes[12..12 + behind.len()].copy_from_slice(behind);
    look(&bytes[..len]).ok()
}

struct Row {
    note: &'static str,
    behind: &'static [u8],
    len: usize,
    frame: Option<Frame>,
}

const IPV4: Frame = Frame {
    proto: Proto::Ipv4,
    dscp: 46,
    src: 0x0a00_0001,
    dst: 0xc0a8_0102,
    ..PLAIN
};

fn check(rt: &impl Abort, row: &Row) {
    same(rt, &seen(rt, row.behind, row.len), &row.frame, row.note);
}

// IEEE 802.3 section 3.2, IEEE 802.1Q section 9.
#[test]
fn tags_stand_before_the_type(rt: HostRuntime) {
    for row in &[
        Row {
            note: "no byte",
            behind: &[],
            len: 0,
            frame: None,
        },
        Row {
            note: "half a type",
            behind: &[0x08],
            len: 13,
            frame: None,
        },
        Row {
            note: "ARP",
            behind: &[0x08, 0x06],
            len: 14,
            frame: Some(PLAIN),
        },
        Row {
            note: "17 bytes with a tag",
            behind: &[0x81, 0x00, 0x6f, 0xfe, 0x08],
            len: 17,
            frame: None,
        },
        // Priority 3, id 4,094.
        Row {
            note: "18 bytes with a tag",
            behind: &[0x81, 0x00, 0x6f, 0xfe, 0x08, 0x06],
            len: 18,
            frame: Some(Frame {
                tags: 1,
                vlan: Some(4094),
                prio: 3,
                header: 18,
                ..PLAIN
            }),
        },
        Row {
            note: "21 bytes with two tags",
            behind: &[0x88, 0xa8, 0xf0, 0x64, 0x81, 0x00, 0x20, 0x05, 0x08],
            len: 21,
            frame: None,
        },
        // Priority 7 and the bit behind it, id 100; priority 1, id 5.
        Row {
            note: "22 bytes with two tags",
            behind: &[0x88, 0xa8, 0xf0, 0x64, 0x81, 0x00, 0x20, 0x05, 0x08, 0x06],
            len: 22,
            frame: Some(Frame {
                tags: 2,
                vlan: Some(100),
                inner: Some(5),
                prio: 7,
                header: 22,
                ..PLAIN
            }),
        },
        Row {
            note: "three tags",
            behind: &[0x88, 0xa8, 0x00, 0x01, 0x81, 0x00, 0x00, 0x02, 0x81, 0x00],
            len: 22,
            frame: Some(Frame {
                tags: 2,
                vlan: Some(1),
                inner: Some(2),
                header: 22,
                ..PLAIN
            }),
        },
    ] {
        check(&rt, row);
    }
}

// RFC 791 section 3.1.
#[test]
fn ipv4_has_a_code_point_and_addresses(rt: HostRuntime) {
    for row in &[
        Row {
            note: "34 bytes",
            behind: &[
                0x08, 0x00, 0x45, 0xb8, 0x00, 0x2e, 0x00, 0x00, 0x00, 0x00, 0x40, 0x11, 0x00, 0x00,
                0x0a, 0x00, 0x00, 0x01, 0xc0, 0xa8, 0x01, 0x02,
            ],
            len: 34,
            frame: Some(IPV4),
        },
        Row {
            note: "33 bytes",
            behind: &[
                0x08, 0x00, 0x45, 0xb8, 0x00, 0x2e, 0x00, 0x00, 0x00, 0x00, 0x40, 0x11, 0x00, 0x00,
                0x0a, 0x00, 0x00, 0x01, 0xc0, 0xa8, 0x01,
            ],
            len: 33,
            frame: None,
        },
        Row {
            note: "a header of four words",
            behind: &[
                0x08, 0x00, 0x44, 0xb8, 0x00, 0x2e, 0x00, 0x00, 0x00, 0x00, 0x40, 0x11, 0x00, 0x00,
                0x0a, 0x00, 0x00, 0x01, 0xc0, 0xa8, 0x01, 0x02,
            ],
            len: 60,
            frame: None,
        },
        // Fifteen words, of which only the first five are there; the two bits behind the code point are set.
        Row {
            note: "a header of fifteen words",
            behind: &[
                0x08, 0x00, 0x4f, 0xbb, 0x00, 0x2e, 0x00, 0x00, 0x00, 0x00, 0x40, 0x11, 0x00, 0x00,
                0x0a, 0x00, 0x00, 0x01, 0xc0, 0xa8, 0x01, 0x02,
            ],
            len: 34,
            frame: Some(IPV4),
        },
        Row {
            note: "version 6",
            behind: &[0x08, 0x00, 0x65, 0xb8],
            len: 64,
            frame: None,
        },
        Row {
            note: "behind two tags",
            behind: &[
                0x81, 0x00, 0x00, 0x00, 0x81, 0x00, 0x0f, 0xff, 0x08, 0x00, 0x45, 0xb8, 0x00, 0x2e,
                0x00, 0x00, 0x00, 0x00, 0x40, 0x11, 0x00, 0x00, 0x0a, 0x00, 0x00, 0x01, 0xc0, 0xa8,
                0x01, 0x02,
            ],
            len: 42,
            frame: Some(Frame {
                tags: 2,
                vlan: Some(0),
                inner: Some(4095),
                header: 22,
                ..IPV4
            }),
        },
    ] {
        check(&rt, row);
    }
}

// RFC 8200 section 3, RFC 3032 section 2.1.
#[test]
fn ipv6_and_mpls_have_their_codes(rt: HostRuntime) {
    for row in &[
        // Traffic class b8.
        Row {
            note: "IPv6, 54 bytes",
            behind: &[0x86, 0xdd, 0x6b, 0x80],
            len: 54,
            frame: Some(Frame {
                proto: Proto::Ipv6,
                dscp: 46,
                ..PLAIN
            }),
        },
        // Traffic class 2b, flow label fffff.
        Row {
            note: "IPv6, AF11",
            behind: &[0x86, 0xdd, 0x62, 0xbf, 0xff, 0xff],
            len: 64,
            frame: Some(Frame {
                proto: Proto::Ipv6,
                dscp: 10,
                ..PLAIN
            }),
        },
        Row {
            note: "IPv6, 53 bytes",
            behind: &[0x86, 0xdd, 0x6b, 0x80],
            len: 53,
            frame: None,
        },
        Row {
            note: "IPv6, version 4",
            behind: &[0x86, 0xdd, 0x4b, 0x80],
            len: 64,
            frame: None,
        },
        // Label 12345, traffic class 5, last label, time to live 64.
        Row {
            note: "MPLS, 18 bytes",
            behind: &[0x88, 0x47, 0x12, 0x34, 0x5b, 0x40],
            len: 18,
            frame: Some(Frame {
                proto: Proto::Mpls,
                mpls_tc: 5,
                ..PLAIN
            }),
        },
        Row {
            note: "MPLS, 17 bytes",
            behind: &[0x88, 0x47, 0x12, 0x34, 0x5b],
            len: 17,
            frame: None,
        },
        Row {
            note: "MPLS to several",
            behind: &[0x88, 0x48],
            len: 14,
            frame: Some(PLAIN),
        },
    ] {
        check(&rt, row);
    }
}
