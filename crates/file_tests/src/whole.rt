//! A run whose report has a line of each kind.
use crate::check::ends_with;
use crate::faults::{holds, shelf_over};
use crate::faulty::{Call, FaultyShelf, Planned};
use crate::two_ports::{FINE, FIRST_SENT, capture};
use command_fixtures::{End, FAR, FIRST, Rec, wanted};
use qos_io::{MemShelf, PutFault};
use qos_main::{PcapFault, Stop};
use std::process::Abort;

// Two ports, each with a meter of its own. The sections `[red]` are skipped: they begin at lines 5 and 33.
const PROFILE: &str = "[port 0]
line rate = 1000000000
subports = 1
drain ms = 1
[red]
tc 0 wred min = 48 40 32
[port 1]
line rate = 1000000000
subports = 1
drain ms = 1
[subport profile 0]
tb credits = 1
tb period = 1
tb size = 2000000
tc 0-12 credits = 1000000
tc period = 1000000
[subport 0 0]
profile = 0
pipes = 1
queue sizes = 64 64 64 64 64 64 64 64 64 64 64 64 64
pipe 0 = 0
[subport 1 0]
profile = 0
pipes = 1
queue sizes = 64 64 64 64 64 64 64 64 64 64 64 64 64
pipe 0 = 0
[pipe profile 0]
tb credits = 1
tb period = 1
tb size = 2000000
tc 0-12 credits = 1000000
tc period = 1000000
[red]
tc 1 wred min = 48 40 32
[rule 0]
dst = 10.0.0.0/25
port = 0
subport = 0
pipe = 0
code = dscp
meter = gold
[rule 1]
port = 1
subport = 0
pipe = 0
code = dscp
meter = m2
[meter gold]
kind = srtcm
cir bytes = 0
cir period = 1
cbs = 46
ebs = 46
[meter m2]
kind = trtcm
cir bytes = 0
cir period = 1
pir bytes = 0
pir period = 1
cbs = 92
pbs = 92
";

// Three frames to each port at one moment, in turn.
const FRAMES: [Rec; 6] = [FIRST, FAR, FIRST, FAR, FIRST, FAR];

// After their 24 + 6 * 76 bytes, a record of 10 bytes, and the first 7 bytes of another, which begins at 506.
const REST: [u8; 33] = [
    100, 0, 0, 0, 0, 0, 0, 0, 10, 0, 0, 0, 10, 0, 0, 0, //
    2, 0, 0, 0, 0, 1, 2, 0, 0, 0, //
    100, 0, 0, 0, 0, 0, 0,
];

// The first put of a record's body into the second output.
const UNPUT: [Planned<'static>; 1] = [Planned {
    name: "o.1.pcap",
    call: Call::Put(2),
    fault: PutFault::Failed,
}];

// Meter gold gives green, yellow and red, and meter m2 green twice and red. What isn't red is sent, a frame at its
// arrival and the other in the drain.
const END: End = End {
    status: 6,
    stopped: Stop::Fault(PcapFault::CutRecord(506)),
    first: [2, 2, 0, 0, 0, 2, 168],
    second: [2, 0, 0, 0, 2, 2, 168],
    write_faults: [false, true],
    lost: [1, 0, 0, 0],
    policed: 2,
    meters: 2,
    marked: [[1, 1, 1], [2, 0, 1]],
    ..FINE
};

const REPORT: &str = "\
note line 5 skipped
note line 33 skipped
input 0 read 7 sent 2 left 0 unparsed 1 unmatched 0 oversize 0 toolong 0 noslot 0 policed 2 tailfull 0 unwritten 2
input 0 fault 5 at 506
port 0 arrived 2 sent 2 left 0 tailfull 0 unwritten 0 dequeues 2 time 168
port 1 arrived 2 sent 0 left 0 tailfull 0 unwritten 2 dequeues 2 time 168
port 1 write fault
meter gold green 1 yellow 1 red 1
meter m2 green 2 yellow 0 red 1
status 6
";

fn shelf<R: AllocGlobal + Abort>(rt: &R) -> MemShelf {
    let mut bytes = capture(rt, &FRAMES);
    bytes.extend_from_slice(&REST).expect(rt, "memory");
    shelf_over(rt, PROFILE, bytes)
}

// The second output has its header and the head of a record.
fn wrote<R: AllocGlobal + Abort>(rt: &R, files: &MemShelf) {
    holds(rt, files, "o.0.pcap", &FIRST_SENT, Some(176));
    holds(
        rt,
        files,
        "o.1.pcap",
        &[FAR, Rec { nanos: 84, ..FAR }],
        Some(40),
    );
}

#[test]
fn each_line_is_reported(rt: HostRuntime) {
    let mut shelf = FaultyShelf::new(rt.alloc(), shelf(&rt), &UNPUT);
    let words = "run --profile p --out o a";
    ends_with(&rt, words, &mut shelf, &wanted(&END), REPORT);
    wrote(&rt, &shelf.files);
    drop(shelf);
}
