//! Runs over one port, as rows.
use crate::check::{NONE, Row, check};
use crate::input::{Input, frame};
use crate::profiles::{BUCKET_SIZE, CODE, DRAINS, Edit, QUEUES, SLOW};
use crate::reports;
use command_fixtures::{EMPTY, End, FIRST, Form, PLAIN, Rec};
use qos_main::{PcapFault, Stop};
use std::process::Abort;
use std::sync::Wait;
use std::thread::Threads;

// A record of 60 bytes with microseconds, big-endian, 1.5 seconds after the origin of the stamps.
const BIG_MICROSECONDS: [u8; 40] = [
    0xa1, 0xb2, 0xc3, 0xd4, 0, 2, 0, 4, 0, 0, 0, 0, 0, 0, 0, 0, 0, 0, 0xff, 0xff, 0, 0, 0, 1, //
    0, 0, 0, 1, 0, 0x07, 0xa1, 0x20, 0, 0, 0, 60, 0, 0, 0, 60,
];

// 1,500 bytes.
const LONG: Rec = Rec {
    cap: 1500,
    wire: 1500,
    ..FIRST
};

const ELEVEN: [Rec; 11] = [
    FIRST,
    Rec { nanos: 84, ..FIRST },
    Rec {
        nanos: 168,
        ..FIRST
    },
    Rec {
        nanos: 252,
        ..FIRST
    },
    Rec {
        nanos: 336,
        ..FIRST
    },
    Rec {
        nanos: 420,
        ..FIRST
    },
    Rec {
        nanos: 504,
        ..FIRST
    },
    Rec {
        nanos: 588,
        ..FIRST
    },
    Rec {
        nanos: 672,
        ..FIRST
    },
    Rec {
        nanos: 756,
        ..FIRST
    },
    Rec {
        nanos: 840,
        ..FIRST
    },
];

// A frame of 60 bytes costs 84, which is port time after the first.
static SENT: [Row<'static>; 3] = [
    NONE,
    Row {
        note: "microseconds, big-endian",
        input: Input::Raw(&BIG_MICROSECONDS, 1),
        end: End {
            first: [1, 1, 0, 0, 0, 1, 84],
            ..EMPTY
        },
        outputs: [
            &[Rec {
                seconds: 1,
                nanos: 500_000_000,
                ..FIRST
            }],
            &[],
        ],
        report: Some(reports::ONE_FRAME),
        ..NONE
    },
    // A stamp before the first one's: its moment is 0, where port time is 84 already, so it goes in the drain.
    Row {
        note: "a stamp before the first one's",
        edits: &[DRAINS],
        input: Input::Capture(
            PLAIN,
            &[
                FIRST,
                Rec {
                    seconds: 50,
                    ..FIRST
                },
            ],
            0,
        ),
        end: End {
            first: [2, 2, 0, 0, 0, 2, 168],
            ..EMPTY
        },
        outputs: [&[FIRST, Rec { nanos: 84, ..FIRST }], &[]],
        ..NONE
    },
];

// A bucket starts with half of its size.
static BUCKETS: [Row<'static>; 5] = [
    // The first goes at its arrival and leaves 916. The drain's first dequeue, at 84, sends ten and leaves 76. An idle
    // dequeue follows at 924, and 15 more at steps of 65,536 up to 983,964.
    Row {
        note: "twelve frames and a bucket for eleven",
        edits: &[SLOW, (BUCKET_SIZE, "tb size = 2000"), DRAINS],
        input: Input::Capture(PLAIN, &[FIRST; 12], 0),
        end: End {
            first: [12, 11, 1, 0, 0, 18, 983_964],
            ..EMPTY
        },
        outputs: [&ELEVEN, &[]],
        report: Some(reports::ELEVEN_OF_TWELVE),
        ..NONE
    },
    Row {
        note: "a bucket that just pays",
        edits: &[SLOW, (BUCKET_SIZE, "tb size = 168")],
        input: Input::Capture(PLAIN, &[FIRST], 0),
        end: End {
            first: [1, 1, 0, 0, 0, 1, 84],
            ..EMPTY
        },
        outputs: [&[FIRST], &[]],
        ..NONE
    },
    Row {
        note: "a bucket that is short by one",
        edits: &[SLOW, (BUCKET_SIZE, "tb size = 167")],
        input: Input::Capture(PLAIN, &[FIRST], 0),
        end: End {
            first: [1, 0, 1, 0, 0, 1, 0],
            ..EMPTY
        },
        ..NONE
    },
    // The first class needs 1,524 of 1,000, so the second goes.
    Row {
        note: "a lower class where the higher does not fit",
        edits: &[SLOW, (BUCKET_SIZE, "tb size = 2000")],
        input: Input::Capture(
            PLAIN,
            &[Rec { dscp: 46, ..LONG }, Rec { dscp: 48, ..FIRST }],
            0,
        ),
        end: End {
            first: [2, 1, 1, 0, 0, 2, 84],
            ..EMPTY
        },
        outputs: [&[Rec { dscp: 48, ..FIRST }], &[]],
        ..NONE
    },
    // The moments are 0, 0 and 2^50 ns. The advance to 2^50 has steps of 2^40 + 1: its first moment is 84, and 1,023
    // steps fit, with 1,024 idle dequeues. One more follows the last arrival.
    Row {
        note: "2^50 ns behind a frame that never goes",
        edits: &[(BUCKET_SIZE, "tb size = 1500")],
        input: Input::Capture(
            PLAIN,
            &[
                FIRST,
                Rec {
                    seconds: 40,
                    ..LONG
                },
                Rec {
                    seconds: 31_536_100,
                    ..LONG
                },
            ],
            0,
        ),
        end: End {
            first: [3, 1, 2, 0, 0, 1026, 1_125_899_906_842_624],
            ..EMPTY
        },
        outputs: [&[FIRST], &[]],
        ..NONE
    },
];

const IPV4: Edit<'static> = (CODE, "code = dscp\nproto = ipv4");

// What is not admitted, and what is turned away.
static LOST: [Row<'static>; 4] = [
    Row {
        note: "a record for each reason",
        edits: &[IPV4],
        input: Input::Capture(
            PLAIN,
            &[
                Rec {
                    cap: 10,
                    wire: 10,
                    ..FIRST
                },
                Rec { kind: 6, ..FIRST },
                Rec {
                    wire: 1523,
                    ..FIRST
                },
                Rec {
                    cap: 2049,
                    wire: 2049,
                    ..FIRST
                },
            ],
            0,
        ),
        end: End {
            lost: [1, 1, 1, 1],
            ..EMPTY
        },
        ..NONE
    },
    // It costs 1,546.
    Row {
        note: "1,522 bytes on the line",
        edits: &[IPV4],
        input: Input::Capture(
            PLAIN,
            &[Rec {
                wire: 1522,
                ..FIRST
            }],
            0,
        ),
        end: End {
            first: [1, 1, 0, 0, 0, 1, 1546],
            ..EMPTY
        },
        outputs: [
            &[Rec {
                wire: 1522,
                ..FIRST
            }],
            &[],
        ],
        ..NONE
    },
    // The first goes at its arrival, after which port time is past the clock; two fill the queue.
    Row {
        note: "a full queue",
        edits: &[(
            QUEUES,
            "queue sizes = 64 64 64 64 64 64 64 64 64 64 64 64 2",
        )],
        input: Input::Capture(PLAIN, &[FIRST; 4], 0),
        end: End {
            first: [4, 1, 2, 1, 0, 1, 84],
            ..EMPTY
        },
        outputs: [&[FIRST], &[]],
        report: Some(reports::FULL_QUEUE),
        ..NONE
    },
    Row {
        note: "no rule",
        edits: &[(22, ""), (23, ""), (24, ""), (25, ""), (26, "")],
        input: Input::Capture(PLAIN, &[FIRST; 2], 0),
        end: End {
            lost: [0, 2, 0, 0],
            ..EMPTY
        },
        ..NONE
    },
];

// Link type 113.
const OTHER_LINK: [u8; 24] = [
    0x4d, 0x3c, 0xb2, 0xa1, 2, 0, 4, 0, 0, 0, 0, 0, 0, 0, 0, 0, 0, 0, 4, 0, 113, 0, 0, 0,
];

// A capture that is no whole one: what came before its fault is scheduled.
const TORN: End = End { status: 6, ..EMPTY };

static STOPPED: [Row<'static>; 5] = [
    Row {
        note: "cut 10 bytes into the third body",
        edits: &[DRAINS],
        input: Input::Capture(PLAIN, &[FIRST; 3], 50),
        end: End {
            stopped: Stop::Fault(PcapFault::CutRecord(176)),
            first: [2, 2, 0, 0, 0, 2, 168],
            ..TORN
        },
        outputs: [&[FIRST, Rec { nanos: 84, ..FIRST }], &[]],
        report: Some(reports::CUT_RECORD),
        ..NONE
    },
    Row {
        note: "23 bytes",
        input: Input::Raw(&[0; 23], 0),
        end: End {
            stopped: Stop::Fault(PcapFault::CutHeader(23)),
            ..TORN
        },
        report: Some(reports::CUT_HEADER),
        ..NONE
    },
    Row {
        note: "24 zero bytes",
        input: Input::Raw(&[0; 24], 0),
        end: End {
            stopped: Stop::Fault(PcapFault::BadMagic),
            ..TORN
        },
        report: Some(reports::ANOTHER_MAGIC),
        ..NONE
    },
    Row {
        note: "another link type",
        input: Input::Raw(&OTHER_LINK, 1),
        end: End {
            stopped: Stop::Fault(PcapFault::BadLink),
            ..TORN
        },
        report: Some(reports::ANOTHER_LINK),
        ..NONE
    },
    Row {
        note: "an absent input",
        input: Input::Absent,
        end: End {
            status: 4,
            stopped: Stop::NotOpened,
            ..EMPTY
        },
        report: Some(reports::NOT_OPENED),
        ..NONE
    },
];

#[test]
fn frames_are_sent(rt: HostRuntime) {
    for row in &SENT {
        check(&rt, row);
    }
}

#[test]
fn buckets_pay(rt: HostRuntime) {
    for row in &BUCKETS {
        check(&rt, row);
    }
}

#[test]
fn records_are_lost(rt: HostRuntime) {
    for row in &LOST {
        check(&rt, row);
    }
}

#[test]
fn inputs_stop(rt: HostRuntime) {
    for row in &STOPPED {
        check(&rt, row);
    }
}

// Each frame goes at its arrival, which is a whole number of microseconds.
static EACH: Row<'static> = Row {
    note: "the four magic numbers",
    end: End {
        first: [3, 3, 0, 0, 0, 3, 7084],
        ..EMPTY
    },
    ..NONE
};

fn check_form<R: Threads + Wait + Sync + AllocGlobal + Abort>(rt: &R, form: Form, records: &[Rec]) {
    let row = Row {
        input: Input::Capture(form, records, 0),
        outputs: [records, &[]],
        ..EACH
    };
    check(rt, &row);
}

#[test]
fn each_form_gives_the_same_output(rt: HostRuntime) {
    let records = [frame(0), frame(5000), frame(7000)];
    for (big, micros) in [(false, false), (true, false), (false, true), (true, true)] {
        check_form(&rt, Form { big, micros }, &records);
    }
}
