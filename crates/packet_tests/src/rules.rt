//! The places that a profile with a rule for each condition gives.
use crate::check::same;
use crate::frames::PLAIN;
use crate::profiles::{EVERY_RULE, read};
use port_classify::{Frame, Place, Proto, place};
use profile_plan::Profile;
use qos_base::Colour;
use std::process::Abort;

// A frame of an input, and its place.
struct Row {
    note: &'static str,
    input: u32,
    frame: Frame,
    place: Option<Place>,
}

// By the default entries code point 0 has queue 12, 1 has queue 13, 14 has class 7 and is red, and 46 has class 0.
const IPV4: Frame = Frame {
    proto: Proto::Ipv4,
    ..PLAIN
};

const IPV6: Frame = Frame {
    proto: Proto::Ipv6,
    dscp: 46,
    ..PLAIN
};

const MPLS: Frame = Frame {
    proto: Proto::Mpls,
    mpls_tc: 7,
    ..PLAIN
};

const FIRST: Place = Place {
    port: 0,
    subport: 0,
    pipe: 0,
    queue: 0,
    pre: Colour::Green,
    meter: None,
};

fn check(rt: &impl Abort, p: &Profile, row: &Row) {
    let frame = &row.frame;
    assert!(rt; frame.dscp < 64 && frame.prio < 8 && frame.mpls_tc < 8);
    same(rt, &place(p, row.input, frame), &row.place, row.note);
}

fn check_each(rt: &impl Abort, p: &Profile, rows: &[Row]) {
    for row in rows {
        check(rt, p, row);
    }
}

fn check_rows<R: Abort + AllocGlobal>(rt: &R, rows: &[Row]) {
    let p = read(rt, EVERY_RULE);
    check_each(rt, &p, rows);
    drop(p);
}

#[test]
fn a_rule_asks_for_input_tag_and_protocol(rt: HostRuntime) {
    let rows = &[
        Row {
            note: "input 1",
            input: 1,
            frame: PLAIN,
            place: Some(Place {
                port: 1,
                pre: Colour::Yellow,
                meter: Some(0),
                ..FIRST
            }),
        },
        Row {
            note: "input 0, no tag",
            input: 0,
            frame: PLAIN,
            place: None,
        },
        Row {
            note: "MPLS, no tag",
            input: 0,
            frame: MPLS,
            place: Some(Place { queue: 3, ..FIRST }),
        },
        Row {
            note: "MPLS, VLAN 1",
            input: 0,
            frame: Frame {
                vlan: Some(1),
                ..MPLS
            },
            place: Some(Place {
                subport: 1,
                pipe: 1,
                queue: 12,
                ..FIRST
            }),
        },
        Row {
            note: "VLAN 0",
            input: 0,
            frame: Frame {
                vlan: Some(0),
                ..IPV6
            },
            place: Some(Place {
                subport: 1,
                pipe: 1,
                ..FIRST
            }),
        },
        Row {
            note: "VLAN 4095",
            input: 0,
            frame: Frame {
                vlan: Some(4095),
                ..PLAIN
            },
            place: Some(Place {
                queue: 15,
                pre: Colour::Red,
                ..FIRST
            }),
        },
        Row {
            note: "VLAN 4095, MPLS",
            input: 0,
            frame: Frame {
                vlan: Some(4095),
                ..MPLS
            },
            place: None,
        },
    ];
    check_rows(&rt, rows);
}

#[test]
fn a_rule_asks_for_addresses_and_a_pipe(rt: HostRuntime) {
    let rows = &[
        Row {
            note: "VLAN 2, IPv6",
            input: 0,
            frame: Frame {
                vlan: Some(2),
                ..IPV6
            },
            place: Some(Place {
                subport: 1,
                pipe: 2,
                ..FIRST
            }),
        },
        Row {
            note: "VLAN 3, IPv6: no such pipe",
            input: 0,
            frame: Frame {
                vlan: Some(3),
                ..IPV6
            },
            place: None,
        },
        Row {
            note: "IPv6, no tag",
            input: 0,
            frame: IPV6,
            place: None,
        },
        Row {
            note: "host 2",
            input: 0,
            frame: Frame {
                src: 0x0aff_0001,
                dst: 0xc0a8_1002,
                dscp: 14,
                ..IPV4
            },
            place: Some(Place {
                subport: 1,
                pipe: 2,
                queue: 7,
                pre: Colour::Red,
                ..FIRST
            }),
        },
        Row {
            note: "host 3: no such pipe",
            input: 0,
            frame: Frame {
                src: 0x0aff_0001,
                dst: 0xc0a8_1003,
                dscp: 14,
                ..IPV4
            },
            place: Some(Place {
                queue: 7,
                pre: Colour::Red,
                ..FIRST
            }),
        },
        Row {
            note: "another source",
            input: 0,
            frame: Frame {
                src: 0x0bff_0001,
                dst: 0xc0a8_1002,
                dscp: 1,
                ..IPV4
            },
            place: Some(Place { queue: 13, ..FIRST }),
        },
        Row {
            note: "another destination",
            input: 0,
            frame: Frame {
                src: 0x0aff_0001,
                dst: 0xc0a9_1002,
                ..IPV4
            },
            place: Some(Place { queue: 12, ..FIRST }),
        },
    ];
    check_rows(&rt, rows);
}
