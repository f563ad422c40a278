//! A run with every line that a report of a run may have.
use crate::build::run_ended;
use crate::check::{Row, reports};
use crate::profiles::{PROFILE, profile};
use run_report::{Note, Status};

const RUN: &str = "note line 1 skipped
note line 5 skipped
input 0 read 101 sent 102 left 103 unparsed 104 unmatched 105 oversize 106 toolong 107 noslot 108 policed 109 tailfull 110 unwritten 111
input 1 read 201 sent 202 left 203 unparsed 204 unmatched 205 oversize 206 toolong 207 noslot 208 policed 209 tailfull 210 unwritten 211
input 1 fault 5 at 176
input 2 read 0 sent 0 left 0 unparsed 0 unmatched 0 oversize 0 toolong 0 noslot 0 policed 0 tailfull 0 unwritten 0
input 2 not opened
input 3 read 401 sent 402 left 403 unparsed 404 unmatched 405 oversize 406 toolong 407 noslot 408 policed 409 tailfull 410 unwritten 411
input 3 read fault
input 4 read 0 sent 0 left 0 unparsed 0 unmatched 0 oversize 0 toolong 0 noslot 0 policed 0 tailfull 0 unwritten 0
input 4 fault 4 at 23
input 5 read 0 sent 0 left 0 unparsed 0 unmatched 0 oversize 0 toolong 0 noslot 0 policed 0 tailfull 0 unwritten 0
input 5 fault 1 at 0
port 0 arrived 11 sent 12 left 13 tailfull 14 unwritten 15 dequeues 16 time 17
port 1 arrived 21 sent 22 left 23 tailfull 24 unwritten 25 dequeues 26 time 18446744073709551615
port 1 write fault
meter m1 green 3 yellow 1 red 2
meter gold green 0 yellow 2 red 1
meter  green 0 yellow 0 red 0
status 4
";

const A_RUN: Row = Row {
    note: "a run",
    status: Status::Read,
    why: Note::Nothing,
    fails: &[],
    ends: Status::Read,
    text: RUN,
};

#[test]
fn a_run_is_reported(rt: HostRuntime) {
    let p = Some(profile(&rt, PROFILE));
    let ended = run_ended(&rt, Status::Read);
    reports(&rt, &p, &ended, &A_RUN);
}
