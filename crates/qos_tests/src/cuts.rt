//! A capture that is cut at each byte.
use crate::check::{NONE, Row, check};
use crate::input::{Input, frame};
use crate::profiles::DRAINS;
use command_fixtures::{EMPTY, End, FIRST, PLAIN, PortNumbers, Rec};
use qos_main::{PcapFault, Stop};
use std::process::Abort;
use std::sync::Wait;
use std::thread::Threads;

// The port's numbers for so many of three frames at one moment: the first goes at its arrival, and what follows with
// the first dequeue of the drain.
const PORTS: [PortNumbers; 4] = [
    [0; 7],
    [1, 1, 0, 0, 0, 1, 84],
    [2, 2, 0, 0, 0, 2, 168],
    [3, 3, 0, 0, 0, 2, 252],
];

// The header has 24 bytes, and each of three records 76: only between records is a capture whole.
fn stop_of(len: usize) -> Stop {
    if len < 24 {
        return Stop::Fault(PcapFault::CutHeader(len as u32));
    }
    if (len - 24) % 76 == 0 {
        return Stop::End;
    }
    let begin = len - (len - 24) % 76;
    Stop::Fault(PcapFault::CutRecord(begin as u64))
}

fn end_of(len: usize, whole: usize) -> End {
    let stopped = stop_of(len);
    End {
        status: if stopped == Stop::End { 0 } else { 6 },
        stopped,
        first: PORTS[whole.min(3)],
        ..EMPTY
    }
}

fn check_cut<R: Threads + Wait + Sync + AllocGlobal + Abort>(rt: &R, len: usize, sent: &[Rec; 3]) {
    let whole = (len.saturating_sub(24) / 76).min(3);
    let row = Row {
        note: "a cut capture",
        edits: &[DRAINS],
        input: Input::Capture(PLAIN, &[FIRST; 3], 252usize.saturating_sub(len)),
        end: end_of(len, whole),
        outputs: [&sent[..whole], &[]],
        ..NONE
    };
    check(rt, &row);
}

#[test]
fn a_capture_is_cut_at_each_byte(rt: HostRuntime) {
    let sent = [frame(0), frame(84), frame(168)];
    for len in 0..253 {
        check_cut(&rt, len, &sent);
    }
}
