//! What ports do, step by step, worked out by hand.
ghost use Rattle.std.specs.Prelude.{◌≡◌, ◌<◌};

use crate::play::{Row, Step, play};
use crate::profiles::{
    BUCKET, CLASSES, FAST_BUCKET, FREE, PRIORITY, SHARED_BUCKET, SHORT_QUEUES, TWO_PIPES,
    TWO_SUBPORTS, WATERMARK, WEIGHTS,
};
use qos_base::Steps;
use std::marker::Brand;
use std::process::Abort;
use std::sync::ledger::{Blank, Ledger};

// Pipe 0 comes first, as the cursor starts there. The room is then used up, so the cursor stays at pipe 0, which is empty;
// the next pipe from there is pipe 1.
const TWO_PIPES_ROW: Row<'static> = Row {
    note: "two pipes",
    profile: TWO_PIPES,
    steps: &[
        Step::Joins(1, (0, 1, 12), 60),
        Step::Joins(2, (0, 0, 12), 60),
        Step::Joins(3, (0, 1, 12), 60),
        Step::Sends(0, 1, &[(2, 0)], 84),
        Step::Sends(84, 2, &[(1, 84), (3, 168)], 252),
        Step::Sends(0, 0, &[], 252),
        Step::Left(&[]),
    ],
};

// 1,000 credits at the start pay for eleven packets of cost 84 and leave 76; eight periods later there are 84.
const BUCKET_ROW: Row<'static> = Row {
    note: "a bucket for eleven",
    profile: BUCKET,
    steps: &[
        Step::Joins(0, (0, 0, 12), 60),
        Step::Joins(1, (0, 0, 12), 60),
        Step::Joins(2, (0, 0, 12), 60),
        Step::Joins(3, (0, 0, 12), 60),
        Step::Joins(4, (0, 0, 12), 60),
        Step::Joins(5, (0, 0, 12), 60),
        Step::Joins(6, (0, 0, 12), 60),
        Step::Joins(7, (0, 0, 12), 60),
        Step::Joins(8, (0, 0, 12), 60),
        Step::Joins(9, (0, 0, 12), 60),
        Step::Joins(10, (0, 0, 12), 60),
        Step::Joins(11, (0, 0, 12), 60),
        Step::Sends(0, 1, &[(0, 0)], 84),
        Step::Sends(
            84,
            32,
            &[
                (1, 84),
                (2, 168),
                (3, 252),
                (4, 336),
                (5, 420),
                (6, 504),
                (7, 588),
                (8, 672),
                (9, 756),
                (10, 840),
            ],
            924,
        ),
        Step::Sends(924, 32, &[], 924),
        Step::Sends(7999999999, 32, &[], 7999999999),
        Step::Sends(8000000000, 32, &[(11, 8000000000)], 8000000084),
        Step::Left(&[]),
    ],
};

// 150 at the start, so 66 after a send; 166 at 100, so 82; at 250 another 100 came at 200, so 182 and 98 after a send, which
// pays for one more and leaves 14. That one is sent in the same visit, at 334.
const FAST_BUCKET_ROW: Row<'static> = Row {
    note: "a bucket that earns",
    profile: FAST_BUCKET,
    steps: &[
        Step::Joins(0, (0, 0, 12), 60),
        Step::Joins(1, (0, 0, 12), 60),
        Step::Joins(2, (0, 0, 12), 60),
        Step::Joins(3, (0, 0, 12), 60),
        Step::Sends(0, 32, &[(0, 0)], 84),
        Step::Sends(99, 32, &[], 99),
        Step::Sends(100, 1, &[(1, 100)], 184),
        Step::Sends(199, 32, &[], 199),
        Step::Sends(250, 32, &[(2, 250), (3, 334)], 418),
        Step::Left(&[]),
    ],
};

// The first renewal is due at 1,000; the one at 1,500 makes the next due at 2,500.
const CLASSES_ROW: Row<'static> = Row {
    note: "class credits that are renewed",
    profile: CLASSES,
    steps: &[
        Step::Joins(0, (0, 0, 0), 60),
        Step::Joins(1, (0, 0, 0), 60),
        Step::Joins(2, (0, 0, 0), 60),
        Step::Joins(3, (0, 0, 0), 60),
        Step::Sends(0, 32, &[(0, 0)], 84),
        Step::Sends(999, 32, &[], 999),
        Step::Sends(1500, 32, &[(1, 1500)], 1584),
        Step::Sends(2499, 32, &[], 2499),
        Step::Sends(2500, 32, &[(2, 2500)], 2584),
        Step::Left(&[3]),
    ],
};

// With factors 8, 4, 2 and 1 and cost 1 the picks are queues 0, 1, 2, 3, 3, 2, 3, 3, 1, 2, 3, while all have packets.
const PICKS_ROW: Row<'static> = Row {
    note: "weights 1 2 4 8 at cost 1",
    profile: FREE,
    steps: &[
        Step::Joins(0, (0, 0, 12), 1),
        Step::Joins(1, (0, 0, 12), 1),
        Step::Joins(10, (0, 0, 13), 1),
        Step::Joins(11, (0, 0, 13), 1),
        Step::Joins(12, (0, 0, 13), 1),
        Step::Joins(20, (0, 0, 14), 1),
        Step::Joins(21, (0, 0, 14), 1),
        Step::Joins(22, (0, 0, 14), 1),
        Step::Joins(23, (0, 0, 14), 1),
        Step::Joins(30, (0, 0, 15), 1),
        Step::Joins(31, (0, 0, 15), 1),
        Step::Joins(32, (0, 0, 15), 1),
        Step::Joins(33, (0, 0, 15), 1),
        Step::Joins(34, (0, 0, 15), 1),
        Step::Joins(35, (0, 0, 15), 1),
        Step::Sends(
            0,
            11,
            &[
                (0, 0),
                (10, 1),
                (20, 2),
                (30, 3),
                (31, 4),
                (21, 5),
                (32, 6),
                (33, 7),
                (11, 8),
                (22, 9),
                (34, 10),
            ],
            11,
        ),
        Step::Left(&[1, 12, 23, 35]),
    ],
};

// Without an overhead a packet of no bytes costs nothing: it is sent, and port time stays.
const FREE_ROW: Row<'static> = Row {
    note: "packets that cost nothing",
    profile: FREE,
    steps: &[
        Step::Joins(1, (0, 0, 0), 0),
        Step::Joins(2, (0, 0, 0), 0),
        Step::Sends(5, 1, &[(1, 5)], 5),
        Step::Sends(5, 1, &[(2, 5)], 5),
        Step::Left(&[]),
    ],
};

// A queue takes as many packets as its size, and one more once it has sent one; a closed queue takes none.
const FULL_ROW: Row<'static> = Row {
    note: "queues that are full",
    profile: SHORT_QUEUES,
    steps: &[
        Step::Joins(1, (0, 0, 12), 60),
        Step::Joins(2, (0, 0, 12), 60),
        Step::TurnedAway(3, (0, 0, 12), 60),
        Step::Joins(4, (0, 0, 13), 60),
        Step::TurnedAway(5, (0, 0, 11), 60),
        Step::Sends(0, 1, &[(1, 0)], 84),
        Step::Joins(6, (0, 0, 12), 60),
        Step::Left(&[2, 6, 4]),
    ],
};

// Class 0 pays for two packets, so the third waits and class 1 goes before it. Once its credits are whole it goes first again,
// and a packet of class 0 goes before one of class 1 that came earlier.
const PRIORITY_ROW: Row<'static> = Row {
    note: "priority, and a class out of credits",
    profile: PRIORITY,
    steps: &[
        Step::Joins(1, (0, 0, 0), 60),
        Step::Joins(2, (0, 0, 0), 60),
        Step::Joins(3, (0, 0, 0), 60),
        Step::Joins(11, (0, 0, 1), 60),
        Step::Joins(12, (0, 0, 1), 60),
        Step::Joins(121, (0, 0, 12), 60),
        Step::Sends(
            0,
            32,
            &[(1, 0), (2, 84), (11, 168), (12, 252), (121, 336)],
            420,
        ),
        Step::Joins(13, (0, 0, 1), 60),
        Step::Sends(1000000, 32, &[(3, 1000000), (13, 1000084)], 1000168),
        Step::Joins(14, (0, 0, 1), 60),
        Step::Joins(4, (0, 0, 0), 60),
        Step::Sends(1000168, 1, &[(4, 1000168)], 1000252),
        Step::Sends(1000252, 1, &[(14, 1000252)], 1000336),
        Step::Left(&[]),
    ],
};

// 200 at the start: class 0 takes 84 and class 3 takes 100, so 16 are left. At 1,000 there are 116, of which class 3 takes 100.
// At 2,000 there are 116 again, and class 0 takes 84 of them before class 3 is looked at.
const SHARED_BUCKET_ROW: Row<'static> = Row {
    note: "a bucket of two classes",
    profile: SHARED_BUCKET,
    steps: &[
        Step::Joins(1, (0, 0, 0), 60),
        Step::Joins(31, (0, 0, 3), 76),
        Step::Joins(32, (0, 0, 3), 76),
        Step::Sends(0, 32, &[(1, 0), (31, 84)], 184),
        Step::Sends(1000, 32, &[(32, 1000)], 1100),
        Step::Joins(2, (0, 0, 0), 60),
        Step::Joins(33, (0, 0, 3), 76),
        Step::Sends(1500, 32, &[], 1500),
        Step::Sends(2000, 32, &[(2, 2000)], 2084),
        Step::Left(&[33]),
    ],
};

// At 12,800 a pipe's share pays for two packets of 6,400, at 12,700 for one. 19,200 of 20,000 were used in the first period, so
// the watermark falls; 12,800 in the second, so it rises.
const WATERMARK_ROW: Row<'static> = Row {
    note: "a watermark that falls and rises",
    profile: WATERMARK,
    steps: &[
        Step::Joins(0, (0, 0, 12), 6376),
        Step::Joins(1, (0, 0, 12), 6376),
        Step::Joins(2, (0, 0, 12), 6376),
        Step::Joins(3, (0, 0, 12), 6376),
        Step::Joins(4, (0, 0, 12), 6376),
        Step::Joins(100, (0, 1, 12), 6376),
        Step::Joins(101, (0, 1, 12), 6376),
        Step::Joins(102, (0, 1, 12), 6376),
        Step::Joins(103, (0, 1, 12), 6376),
        Step::Joins(104, (0, 1, 12), 6376),
        Step::Sends(0, 32, &[(0, 0), (1, 6400), (100, 12800)], 19200),
        Step::Sends(100000, 32, &[(2, 100000), (101, 106400)], 112800),
        Step::Sends(
            200000,
            32,
            &[(3, 200000), (4, 206400), (102, 212800)],
            219200,
        ),
        Step::Left(&[103, 104]),
    ],
};

// A turn that uses up the room hands the next dequeue to the subport after it, and its pipe keeps the cursor. The fourth
// dequeue has room left over, so subport 1 is still first in the fifth.
const TWO_SUBPORTS_ROW: Row<'static> = Row {
    note: "two subports and little room",
    profile: TWO_SUBPORTS,
    steps: &[
        Step::Joins(1, (0, 0, 0), 60),
        Step::Joins(2, (0, 0, 0), 60),
        Step::Joins(3, (0, 0, 0), 60),
        Step::Joins(11, (0, 1, 0), 60),
        Step::Joins(101, (1, 0, 0), 60),
        Step::Joins(102, (1, 0, 0), 60),
        Step::Sends(0, 2, &[(1, 0), (2, 84)], 168),
        Step::Sends(168, 2, &[(101, 168), (102, 252)], 336),
        Step::Sends(336, 1, &[(3, 336)], 420),
        Step::Sends(420, 2, &[(11, 420)], 504),
        Step::Joins(4, (0, 0, 0), 60),
        Step::Joins(103, (1, 0, 0), 60),
        Step::Sends(504, 1, &[(103, 504)], 588),
        Step::Sends(588, 1, &[(4, 588)], 672),
        Step::Left(&[]),
    ],
};

// In tokens of 84: after four sends queues 12 to 15 have 8, 4, 0 and 1, since queue 14 was emptied. So its next packet goes first.
const WEIGHTS_ROW: Row<'static> = Row {
    note: "weights, and a queue that was empty",
    profile: WEIGHTS,
    steps: &[
        Step::Joins(1, (0, 0, 12), 60),
        Step::Joins(2, (0, 0, 12), 60),
        Step::Joins(11, (0, 0, 13), 60),
        Step::Joins(12, (0, 0, 13), 60),
        Step::Joins(21, (0, 0, 14), 60),
        Step::Joins(31, (0, 0, 15), 60),
        Step::Joins(32, (0, 0, 15), 60),
        Step::Joins(33, (0, 0, 15), 60),
        Step::Joins(34, (0, 0, 15), 60),
        Step::Joins(35, (0, 0, 15), 60),
        Step::Joins(36, (0, 0, 15), 60),
        Step::Sends(0, 4, &[(1, 0), (11, 84), (21, 168), (31, 252)], 336),
        Step::Joins(22, (0, 0, 14), 60),
        Step::Sends(
            336,
            32,
            &[
                (22, 336),
                (32, 420),
                (33, 504),
                (34, 588),
                (12, 672),
                (35, 756),
                (36, 840),
                (2, 924),
            ],
            1008,
        ),
        Step::Left(&[]),
    ],
};

static ROWS: [Row<'static>; 12] = [
    TWO_PIPES_ROW,
    BUCKET_ROW,
    FAST_BUCKET_ROW,
    CLASSES_ROW,
    PICKS_ROW,
    FREE_ROW,
    FULL_ROW,
    PRIORITY_ROW,
    SHARED_BUCKET_ROW,
    WATERMARK_ROW,
    TWO_SUBPORTS_ROW,
    WEIGHTS_ROW,
];

fn all_rows<R: Abort + AllocGlobal, L: Ledger>(rt: &R, blank: Blank)
    requires name { blank.name ≡ L.name }
    requires parts { blank.parts ≡ L.parts }
    requires some { 0 < L.parts }
{
    let mut steps = Steps::<L>::new(blank);
    for row in &ROWS {
        play(rt, row, &mut steps);
    }
}

#[test]
fn ports_send_as_worked_by_hand(rt: HostRuntime) {
    all_rows::<HostRuntime, Brand>(&rt, Blank::new(1));
}
