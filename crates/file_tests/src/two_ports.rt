//! A run over two ports: its profile, its capture, its outputs and what it comes to.
use command_fixtures::{EMPTY, End, FAR, FIRST, Rec, written};
use qos_main::Note;
use std::process::Abort;

/// Two ports on lines of 10^9 bytes per second, each with one pipe, ample credits and a drain of 1,000,000 byte times.
/// Port 0 takes the packets to 10.0.0.0 till 10.0.0.127, and port 1 the others.
pub const PROFILE: &str = "[port 0]
line rate = 1000000000
subports = 1
drain ms = 1
[port 1]
line rate = 1000000000
subports = 1
drain ms = 1
[subport profile 0]
tb credits = 1
tb period = 1
tb size = 2000000
tc 0-12 credits = 1000000
tc period = 1000000
[subport 0 0]
profile = 0
pipes = 1
queue sizes = 64 64 64 64 64 64 64 64 64 64 64 64 64
pipe 0 = 0
[subport 1 0]
profile = 0
pipes = 1
queue sizes = 64 64 64 64 64 64 64 64 64 64 64 64 64
pipe 0 = 0
[pipe profile 0]
tb credits = 1
tb period = 1
tb size = 2000000
tc 0-12 credits = 1000000
tc period = 1000000
[rule 0]
dst = 10.0.0.0/25
port = 0
subport = 0
pipe = 0
code = dscp
[rule 1]
port = 1
subport = 0
pipe = 0
code = dscp
";

// Three frames at one moment: two to port 0, and one to port 1 between them.
const INPUT: [Rec; 3] = [FIRST, FAR, FIRST];

/// What port 0 sends of them: the first at its arrival, and the second at port time 84 with the drain's first dequeue.
pub const FIRST_SENT: [Rec; 2] = [FIRST, Rec { nanos: 84, ..FIRST }];

/// What port 1 sends of them.
pub const SECOND_SENT: [Rec; 1] = [FAR];

/// Three frames at one moment are sent: a frame costs 84.
pub const FINE: End = End {
    count: 2,
    first: [2, 2, 0, 0, 0, 2, 168],
    second: [1, 1, 0, 0, 0, 1, 84],
    ..EMPTY
};

/// Nothing was scheduled.
pub const NOTHING: End = End { count: 0, ..EMPTY };

/// The profile could not be read.
pub const UNREAD: End = End {
    status: 4,
    note: Note::ProfileRead,
    ..NOTHING
};

/// The capture that the program writes of these frames.
pub fn capture<R: AllocGlobal + Abort>(rt: &R, frames: &[Rec]) -> Vec<u8> {
    written(rt.alloc(), frames).expect(rt, "memory")
}

/// The capture of three frames.
pub fn input<R: AllocGlobal + Abort>(rt: &R) -> Vec<u8> {
    capture(rt, &INPUT)
}
