//! Runs over two ports, as rows.
use crate::check::{NONE, Row, check};
use crate::input::Input;
use crate::profiles::{BY_ADDRESS, CODE, CREDITS, SECOND_PORT, SECOND_RULE};
use command_fixtures::{EMPTY, End, FAR, FIRST, PLAIN, Rec};

const NEAR: Rec = FIRST;

// So many nanoseconds after the first, and after 10,000.
const NEAR_LATER: Rec = Rec {
    nanos: 10_000,
    ..NEAR
};

const FAR_LATER: Rec = Rec {
    nanos: 10_000,
    ..FAR
};

// Each frame goes at its own arrival but for the second of two at one moment, which no drain follows.
static ROWS: [Row<'static>; 4] = [
    Row {
        note: "by the prefix of the address",
        edits: &[SECOND_PORT, SECOND_RULE, BY_ADDRESS],
        input: Input::Capture(PLAIN, &[NEAR, FAR, FAR_LATER, NEAR_LATER], 0),
        end: End {
            count: 2,
            first: [2, 2, 0, 0, 0, 2, 10_084],
            second: [2, 2, 0, 0, 0, 2, 10_084],
            ..EMPTY
        },
        outputs: [&[NEAR, NEAR_LATER], &[FAR, FAR_LATER]],
        ..NONE
    },
    Row {
        note: "a port without packets",
        edits: &[SECOND_PORT, SECOND_RULE, BY_ADDRESS],
        input: Input::Capture(PLAIN, &[FAR, FAR], 0),
        end: End {
            count: 2,
            second: [2, 1, 1, 0, 0, 1, 84],
            ..EMPTY
        },
        outputs: [&[], &[FAR]],
        ..NONE
    },
    // The other way round.
    Row {
        note: "a last port without packets",
        edits: &[SECOND_PORT, SECOND_RULE, BY_ADDRESS],
        input: Input::Capture(PLAIN, &[NEAR], 0),
        end: End {
            count: 2,
            first: [1, 1, 0, 0, 0, 1, 84],
            ..EMPTY
        },
        outputs: [&[NEAR], &[]],
        ..NONE
    },
    // The code of port 0's rule is of the first class, for which a pipe has no credits.
    Row {
        note: "by a code of the rule",
        edits: &[
            SECOND_PORT,
            SECOND_RULE,
            (CODE, "code = fixed 0 0 green\ndst = 10.0.0.0/25"),
            (CREDITS, "tc 0 credits = 0\ntc 1-12 credits = 1000000"),
        ],
        input: Input::Capture(PLAIN, &[NEAR, FAR], 0),
        end: End {
            count: 2,
            first: [1, 0, 1, 0, 0, 1, 0],
            second: [1, 1, 0, 0, 0, 1, 84],
            ..EMPTY
        },
        outputs: [&[], &[FAR]],
        ..NONE
    },
];

#[test]
fn ports_by_address(rt: HostRuntime) {
    for row in &ROWS {
        check(&rt, row);
    }
}
