//! Ends of commands that ran nothing, and their reports.
use crate::build::nothing_ran;
use crate::check::{Row, reports};
use qos_profile::{FaultKind, ProfileFault};
use run_report::{Note, Status};
use std::process::Abort;

const ROWS: [Row; 10] = [
    Row {
        note: "nothing to say",
        status: Status::Fine,
        why: Note::Nothing,
        fails: &[1],
        ends: Status::Fine,
        text: "status 0\n",
    },
    Row {
        note: "no command",
        status: Status::Usage,
        why: Note::Nothing,
        fails: &[],
        ends: Status::Usage,
        text: "usage\nstatus 2\n",
    },
    Row {
        note: "a faulty profile",
        status: Status::Profile,
        why: Note::Profile(ProfileFault {
            line: 2,
            kind: FaultKind::UnknownKey,
            total: 0,
        }),
        fails: &[],
        ends: Status::Profile,
        text: "profile line 2 fault 3\nstatus 3\n",
    },
    Row {
        note: "a profile too large",
        status: Status::Profile,
        why: Note::Profile(ProfileFault {
            line: 0,
            kind: FaultKind::TooLarge,
            total: 4_259_840,
        }),
        fails: &[],
        ends: Status::Profile,
        text: "profile line 0 fault 9\nstatus 3\n",
    },
    Row {
        note: "an unread profile",
        status: Status::Read,
        why: Note::ProfileRead,
        fails: &[],
        ends: Status::Read,
        text: "profile read fault\nstatus 4\n",
    },
    Row {
        note: "a write fault",
        status: Status::Write,
        why: Note::Nothing,
        fails: &[],
        ends: Status::Write,
        text: "status 5\n",
    },
    Row {
        note: "no memory",
        status: Status::Memory,
        why: Note::Nothing,
        fails: &[],
        ends: Status::Memory,
        text: "memory\nstatus 7\n",
    },
    Row {
        note: "a report that fails",
        status: Status::Fine,
        why: Note::Nothing,
        fails: &[0],
        ends: Status::Write,
        text: "",
    },
    Row {
        note: "a report that fails after a fault",
        status: Status::Capture,
        why: Note::Nothing,
        fails: &[0],
        ends: Status::Capture,
        text: "",
    },
    Row {
        note: "a report of no memory that fails",
        status: Status::Memory,
        why: Note::Nothing,
        fails: &[0],
        ends: Status::Memory,
        text: "",
    },
];

fn run_row<R: Abort + AllocGlobal>(rt: &R, row: &Row) {
    let ended = nothing_ran(rt.alloc(), row.status, row.why);
    reports(rt, &None, &ended, row);
}

#[test]
fn each_end_is_reported(rt: HostRuntime) {
    for row in &ROWS {
        run_row(&rt, row);
    }
}
