//! Runs over a profile with meters, as rows.
use crate::check::{NONE, Row, reports, same, shelf_of, words, wrote};
use crate::input::Input;
use crate::profiles::{CODE, METERED, RULE, SECOND_PORT};
use crate::reports;
use command_fixtures::{EMPTY, End, FAR, FIRST, PLAIN, Rec, gather, wanted};
use qos_base::Colour::{self, Green, Red, Yellow};
use qos_io::{MemShelf, OpenGate, WholeSink};
use qos_main::{Ended, Entry, Mark, MeterLog, PcapFault, PortEnd, Stop, qos_top};
use std::process::Abort;
use std::sync::Wait;
use std::thread::Threads;

// A mark: the place of its record, its moment, its length, the colour before and the colour after. Its turn is its
// place in the log.
type Marked = (u32, u64, u32, Colour, Colour);

// A packet that arrived: the place of its record, and its colour.
type Arrived = (u32, Colour);

// A run, the marks of each meter, and the packets that arrived at each port.
#[derive(Clone, Copy)]
struct Metered<'a> {
    row: Row<'a>,
    marks: [&'a [Marked]; 2],
    arrived: [&'a [Arrived]; 2],
}

// Four frames: 46 bytes are green, 46 more are yellow, and the others are policed. One is sent at its arrival, after
// which port time is past the clock, and no drain follows.
const FOUR_END: End = End {
    first: [2, 1, 1, 0, 0, 1, 84],
    policed: 2,
    meters: 1,
    marked: [[1, 1, 2], [0; 3]],
    ..EMPTY
};

const FOUR_ROW: Row<'static> = Row {
    note: "green, yellow, red and red",
    edits: &[METERED],
    input: Input::Capture(PLAIN, &[FIRST; 4], 0),
    end: FOUR_END,
    outputs: [&[FIRST], &[]],
    report: Some(reports::POLICED),
    ..NONE
};

const FOUR: Metered<'static> = Metered {
    row: FOUR_ROW,
    marks: [
        &[
            (0, 0, 46, Green, Green),
            (1, 0, 46, Green, Yellow),
            (2, 0, 46, Green, Red),
            (3, 0, 46, Green, Red),
        ],
        &[],
    ],
    arrived: [&[(0, Green), (1, Yellow)], &[]],
};

static POLICED: Metered<'static> = FOUR;

static SHARED: [Metered<'static>; 2] = [
    // 92 bytes are green and 46 yellow, whichever port they go to. Being blind, the meter takes the red of port 1's
    // rule for green.
    Metered {
        row: Row {
            note: "a meter of two rules",
            edits: &[
                SECOND_PORT,
                (
                    RULE,
                    "[rule 1]
port = 1
subport = 0
pipe = 0
code = fixed 12 0 red
meter = m
[rule 0]",
                ),
                (
                    CODE,
                    "code = dscp
dst = 10.0.0.0/25
meter = m
[meter m]
kind = srtcm
mode = blind
cir bytes = 0
cir period = 1
cbs = 92
ebs = 46",
                ),
            ],
            input: Input::Capture(PLAIN, &[FIRST, FAR, FIRST, FAR], 0),
            end: End {
                count: 2,
                first: [2, 1, 1, 0, 0, 1, 84],
                second: [1, 1, 0, 0, 0, 1, 84],
                policed: 1,
                meters: 1,
                marked: [[2, 1, 1], [0; 3]],
                ..EMPTY
            },
            outputs: [&[FIRST], &[FAR]],
            ..NONE
        },
        marks: [
            &[
                (0, 0, 46, Green, Green),
                (1, 0, 46, Red, Green),
                (2, 0, 46, Green, Yellow),
                (3, 0, 46, Red, Red),
            ],
            &[],
        ],
        arrived: [&[(0, Green), (2, Yellow)], &[(1, Green)]],
    },
    // Meter m is of no rule.
    Metered {
        row: Row {
            note: "a meter of no rule",
            edits: &[(
                CODE,
                "code = dscp
meter = n
[meter m]
kind = trtcm
cir rate = 1000
pir rate = 1000
cbs = 1
pbs = 1
[meter n]
kind = srtcm
cir bytes = 0
cir period = 1
cbs = 46
ebs = 46",
            )],
            input: Input::Capture(PLAIN, &[FIRST; 3], 0),
            end: End {
                first: [2, 1, 1, 0, 0, 1, 84],
                policed: 1,
                meters: 2,
                marked: [[0; 3], [1, 1, 1]],
                ..EMPTY
            },
            outputs: [&[FIRST], &[]],
            ..NONE
        },
        marks: [
            &[],
            &[
                (0, 0, 46, Green, Green),
                (1, 0, 46, Green, Yellow),
                (2, 0, 46, Green, Red),
            ],
        ],
        arrived: [&[(0, Green), (1, Yellow)], &[]],
    },
];

// Code points AF11, AF12 and AF13.
const LOW: Rec = Rec { dscp: 10, ..FIRST };

const MEDIUM: Rec = Rec { dscp: 12, ..FIRST };

const HIGH: Rec = Rec { dscp: 14, ..FIRST };

static COLOURED: [Metered<'static>; 2] = [
    // 92 bytes of C and 92 of E: the yellow one takes 46 of E, the green ones take C, and the next takes the rest of E.
    Metered {
        row: Row {
            note: "an aware meter and code points",
            edits: &[(
                CODE,
                "code = dscp
meter = m
[meter m]
kind = srtcm
mode = aware
cir bytes = 0
cir period = 1
cbs = 92
ebs = 92",
            )],
            input: Input::Capture(PLAIN, &[MEDIUM, HIGH, LOW, FIRST, FIRST, MEDIUM], 0),
            end: End {
                first: [4, 1, 3, 0, 0, 1, 84],
                policed: 2,
                meters: 1,
                marked: [[2, 2, 2], [0; 3]],
                ..EMPTY
            },
            outputs: [&[MEDIUM], &[]],
            ..NONE
        },
        marks: [
            &[
                (0, 0, 46, Yellow, Yellow),
                (1, 0, 46, Red, Red),
                (2, 0, 46, Green, Green),
                (3, 0, 46, Green, Green),
                (4, 0, 46, Green, Yellow),
                (5, 0, 46, Yellow, Red),
            ],
            &[],
        ],
        arrived: [&[(0, Yellow), (2, Green), (3, Green), (4, Yellow)], &[]],
    },
    // The green one never arrives, so that the yellow one is sent at its arrival.
    Metered {
        row: Row {
            note: "green is dropped, and nothing else",
            edits: &[(
                CODE,
                "code = dscp
meter = m
[meter m]
kind = srtcm
cir bytes = 0
cir period = 1
cbs = 46
ebs = 46
green = drop
yellow = pass
red = pass",
            )],
            end: End {
                first: [3, 1, 2, 0, 0, 1, 84],
                policed: 1,
                ..FOUR_END
            },
            report: None,
            ..FOUR_ROW
        },
        arrived: [&[(1, Yellow), (2, Red), (3, Red)], &[]],
        ..FOUR
    },
];

// 100 bytes on the line, of which 60 are captured.
const LONG: Rec = Rec { wire: 100, ..FIRST };

const TAGGED: Rec = Rec {
    tagged: true,
    ..FIRST
};

static COUNTED: [Metered<'static>; 2] = [
    // What is counted is the length on the line without 14 bytes of header, and 4 of a tag: 42, 86 and 46.
    Metered {
        row: Row {
            note: "a tag, and more than is captured",
            edits: &[(
                CODE,
                "code = dscp
meter = m
[meter m]
kind = srtcm
cir bytes = 0
cir period = 1
cbs = 42
ebs = 86",
            )],
            input: Input::Capture(PLAIN, &[TAGGED, LONG, FIRST], 0),
            end: End {
                first: [2, 1, 1, 0, 0, 1, 84],
                policed: 1,
                meters: 1,
                marked: [[1, 1, 1], [0; 3]],
                ..EMPTY
            },
            outputs: [&[TAGGED], &[]],
            ..NONE
        },
        marks: [
            &[
                (0, 0, 42, Green, Green),
                (1, 0, 86, Green, Yellow),
                (2, 0, 46, Green, Red),
            ],
            &[],
        ],
        arrived: [&[(0, Green), (1, Yellow)], &[]],
    },
    // Only the last of five records reaches the meter.
    Metered {
        row: Row {
            note: "what is lost for another reason is not marked",
            edits: &[(
                CODE,
                "code = dscp
proto = ipv4
meter = m
[meter m]
kind = srtcm
cir bytes = 0
cir period = 1
cbs = 46
ebs = 46",
            )],
            input: Input::Capture(
                PLAIN,
                &[
                    Rec {
                        cap: 10,
                        wire: 10,
                        ..FIRST
                    },
                    Rec { kind: 6, ..FIRST },
                    Rec {
                        wire: 1523,
                        ..FIRST
                    },
                    Rec {
                        cap: 2049,
                        wire: 2049,
                        ..FIRST
                    },
                    FIRST,
                ],
                0,
            ),
            end: End {
                first: [1, 1, 0, 0, 0, 1, 84],
                lost: [1, 1, 1, 1],
                meters: 1,
                marked: [[1, 0, 0], [0; 3]],
                ..EMPTY
            },
            outputs: [&[FIRST], &[]],
            ..NONE
        },
        marks: [&[(4, 0, 46, Green, Green)], &[]],
        arrived: [&[(4, Green)], &[]],
    },
];

static TIMED: [Metered<'static>; 3] = [
    // 46 bytes are earned in each 1,000 ns, and no more are kept. At 1,000 and at 0, after 2,000, nothing is earned.
    Metered {
        row: Row {
            note: "a stamp that goes back earns nothing",
            edits: &[(
                CODE,
                "code = dscp
meter = m
[meter m]
kind = srtcm
cir bytes = 46
cir period = 1000
cbs = 46
ebs = 0",
            )],
            input: Input::Capture(
                PLAIN,
                &[
                    FIRST,
                    Rec {
                        nanos: 2000,
                        ..FIRST
                    },
                    Rec {
                        nanos: 1000,
                        ..FIRST
                    },
                    Rec {
                        nanos: 2999,
                        ..FIRST
                    },
                    Rec {
                        nanos: 3000,
                        ..FIRST
                    },
                    Rec {
                        seconds: 50,
                        ..FIRST
                    },
                ],
                0,
            ),
            end: End {
                first: [3, 3, 0, 0, 0, 3, 3084],
                policed: 3,
                meters: 1,
                marked: [[3, 0, 3], [0; 3]],
                ..EMPTY
            },
            outputs: [
                &[
                    FIRST,
                    Rec {
                        nanos: 2000,
                        ..FIRST
                    },
                    Rec {
                        nanos: 3000,
                        ..FIRST
                    },
                ],
                &[],
            ],
            ..NONE
        },
        marks: [
            &[
                (0, 0, 46, Green, Green),
                (1, 2000, 46, Green, Green),
                (2, 1000, 46, Green, Red),
                (3, 2999, 46, Green, Red),
                (4, 3000, 46, Green, Green),
                (5, 0, 46, Green, Red),
            ],
            &[],
        ],
        arrived: [&[(0, Green), (1, Green), (4, Green)], &[]],
    },
    // A byte of P is earned in 1 ns, and one of C in 2. At 46, P has 46 and C 23; at 91, P has 45; at 92, both have 46.
    // The second packet goes at port time 84, as the pacer advances to 92, and the last one waits.
    Metered {
        row: Row {
            note: "two rates",
            edits: &[(
                CODE,
                "code = dscp
meter = m
[meter m]
kind = trtcm
cir rate = 500000000
pir rate = 1000000000
cbs = 46
pbs = 46",
            )],
            input: Input::Capture(
                PLAIN,
                &[
                    FIRST,
                    Rec { nanos: 46, ..FIRST },
                    Rec { nanos: 91, ..FIRST },
                    Rec { nanos: 92, ..FIRST },
                ],
                0,
            ),
            end: End {
                first: [3, 2, 1, 0, 0, 2, 168],
                policed: 1,
                meters: 1,
                marked: [[2, 1, 1], [0; 3]],
                ..EMPTY
            },
            outputs: [&[FIRST, Rec { nanos: 84, ..FIRST }], &[]],
            ..NONE
        },
        marks: [
            &[
                (0, 0, 46, Green, Green),
                (1, 46, 46, Green, Yellow),
                (2, 91, 46, Green, Red),
                (3, 92, 46, Green, Green),
            ],
            &[],
        ],
        arrived: [&[(0, Green), (1, Yellow), (3, Green)], &[]],
    },
    // A packet that the rule makes yellow takes of E, which earns 46 bytes in 1,000 ns.
    Metered {
        row: Row {
            note: "RFC 4115, and a colour of the rule",
            edits: &[(
                CODE,
                "code = fixed 12 1 yellow
meter = m
[meter m]
kind = rfc4115
mode = aware
cir rate = 0
eir bytes = 46
eir period = 1000
cbs = 46
ebs = 46",
            )],
            input: Input::Capture(
                PLAIN,
                &[
                    FIRST,
                    Rec {
                        nanos: 999,
                        ..FIRST
                    },
                    Rec {
                        nanos: 1000,
                        ..FIRST
                    },
                ],
                0,
            ),
            end: End {
                first: [2, 2, 0, 0, 0, 2, 1084],
                policed: 1,
                meters: 1,
                marked: [[0, 2, 1], [0; 3]],
                ..EMPTY
            },
            outputs: [
                &[
                    FIRST,
                    Rec {
                        nanos: 1000,
                        ..FIRST
                    },
                ],
                &[],
            ],
            ..NONE
        },
        marks: [
            &[
                (0, 0, 46, Yellow, Yellow),
                (1, 999, 46, Yellow, Red),
                (2, 1000, 46, Yellow, Yellow),
            ],
            &[],
        ],
        arrived: [&[(0, Yellow), (2, Yellow)], &[]],
    },
];

// A meter that has no packet.
const UNUSED: End = End { meters: 1, ..EMPTY };

static STOPPED: [Metered<'static>; 3] = [
    Metered {
        row: Row {
            edits: &[METERED],
            end: UNUSED,
            ..NONE
        },
        marks: [&[], &[]],
        arrived: [&[], &[]],
    },
    Metered {
        row: Row {
            note: "an absent input",
            edits: &[METERED],
            input: Input::Absent,
            end: End {
                status: 4,
                stopped: Stop::NotOpened,
                ..UNUSED
            },
            ..NONE
        },
        marks: [&[], &[]],
        arrived: [&[], &[]],
    },
    // Both whole records are marked.
    Metered {
        row: Row {
            note: "cut 10 bytes into the third body",
            input: Input::Capture(PLAIN, &[FIRST; 3], 50),
            end: End {
                status: 6,
                stopped: Stop::Fault(PcapFault::CutRecord(176)),
                policed: 0,
                marked: [[1, 1, 0], [0; 3]],
                ..FOUR_END
            },
            report: None,
            ..FOUR_ROW
        },
        marks: [&[(0, 0, 46, Green, Green), (1, 0, 46, Green, Yellow)], &[]],
        ..FOUR
    },
];

// The mark of this turn of a meter in a run over one input.
fn mark_of(meter: u32, turn: usize, mark: &Marked) -> Mark {
    let (index, at, len, pre, colour) = *mark;
    Mark {
        meter,
        turn: turn as u64,
        input: 0,
        index,
        at,
        len,
        pre,
        colour,
    }
}

// The log of a meter has these marks; one that is not there has none.
fn compare_marks<R: Abort>(
    rt: &R,
    log: Option<&MeterLog>,
    meter: u32,
    marks: &[Marked],
    note: &str,
) {
    let found = match log {
        Some(log) => log.marks.as_slice(),
        None => &[],
    };
    same(rt, &found.len(), &marks.len(), note);
    for (turn, mark) in marks.iter().enumerate() {
        let mark = mark_of(meter, turn, mark);
        same(rt, &found.get(turn), &Some(&mark), note);
    }
}

// Compares a packet that arrived, and counts it.
fn compare_packet<R: Abort>(rt: &R, entry: &Entry, packet: Option<&Arrived>, note: &str) -> usize {
    let Entry::Arrive(pkt) = entry else {
        return 0;
    };
    same(rt, &Some(&(pkt.index, pkt.colour)), &packet, note);
    1
}

// These packets arrived at a port; at one that is not there, none.
fn compare_arrived<R: Abort>(rt: &R, port: Option<&PortEnd>, packets: &[Arrived], note: &str) {
    let mut n = 0usize;
    if let Some(port) = port {
        for entry in port.journal.as_slice() {
            n = n.saturating_add(compare_packet(rt, entry, packets.get(n), note));
        }
    }
    same(rt, &n, &packets.len(), note);
}

fn compare<R: Abort>(rt: &R, ended: &Ended, row: &Metered<'_>) {
    let note = row.row.note;
    same(rt, &gather(ended), &wanted(&row.row.end), note);
    let (logs, ports) = (ended.meters.as_slice(), ended.ports.as_slice());
    compare_marks(rt, logs.first(), 0, row.marks[0], note);
    compare_marks(rt, logs.get(1), 1, row.marks[1], note);
    compare_arrived(rt, ports.first(), row.arrived[0], note);
    compare_arrived(rt, ports.get(1), row.arrived[1], note);
}

// Runs a row on its shelf, and compares what that ended with, and the report.
fn check_on<R: Threads + Wait + Sync + AllocGlobal + Abort>(
    rt: &R,
    shelf: &mut MemShelf,
    row: &Metered<'_>,
) {
    let words = words(rt, &row.row);
    let mut said = WholeSink::new(rt.alloc());
    compare(
        rt,
        &qos_top(rt, rt.alloc(), &words, shelf, &mut said, &OpenGate),
        row,
    );
    reports(rt, said.bytes(), &row.row);
}

fn check<R: Threads + Wait + Sync + AllocGlobal + Abort>(rt: &R, row: &Metered<'_>) {
    let mut shelf = shelf_of(rt, &row.row);
    check_on(rt, &mut shelf, row);
    wrote(rt, &shelf, &row.row);
    drop(shelf);
}

#[test]
fn red_is_policed(rt: HostRuntime) {
    check(&rt, &POLICED);
}

#[test]
fn meters_are_shared_or_unused(rt: HostRuntime) {
    for row in &SHARED {
        check(&rt, row);
    }
}

#[test]
fn colours_come_before_and_go_after(rt: HostRuntime) {
    for row in &COLOURED {
        check(&rt, row);
    }
}

#[test]
fn bytes_are_counted(rt: HostRuntime) {
    for row in &COUNTED {
        check(&rt, row);
    }
}

#[test]
fn bytes_are_earned(rt: HostRuntime) {
    for row in &TIMED {
        check(&rt, row);
    }
}

#[test]
fn inputs_stop(rt: HostRuntime) {
    for row in &STOPPED {
        check(&rt, row);
    }
}
