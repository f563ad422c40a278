//! A run over 4,096 pipes.
use crate::check::{NONE, Row, check};
use crate::input::Input;
use crate::reports;
use command_fixtures::{EMPTY, End, FIRST, PLAIN, Rec};
use std::process::Abort;

// As many places in queues as a profile may have: 4,096 pipes with 16 queues of 64. The section `[red]` is skipped.
const MANY_PIPES: &str = "[port 0]
line rate = 1250000000
subports = 1
drain ms = 32
[subport profile 0]
tb rate = 1250000000
tb size = 1000000
tc 0-12 rate = 1250000000
tc period = 10
[subport 0 0]
profile = 0
pipes = 4096
queue sizes = 64 64 64 64 64 64 64 64 64 64 64 64 64
pipe 0-4095 = 0
[red]
tc 0 wred min = 48 40 32
[pipe profile 0]
tb rate = 305175
tb size = 1000000
tc 0-12 rate = 305175
tc period = 40
[rule 0]
port = 0
subport = 0
pipe = host
code = dscp
";

static MANY: Row<'static> = Row {
    note: "4,096 pipes",
    end: End {
        first: [1000, 1000, 0, 0, 0, 1000, 1_248_750_124],
        ..EMPTY
    },
    report: Some(reports::MANY_PIPES),
    ..NONE
};

// 1,000 frames of 100 bytes, a millisecond apart.
fn frames<R: AllocGlobal + Abort>(rt: &R) -> Vec<Rec> {
    let mut frames = Vec::new(rt.alloc());
    for k in 0..1000u32 {
        let frame = Rec {
            nanos: k.saturating_mul(1_000_000),
            cap: 100,
            wire: 100,
            ..FIRST
        };
        frames.push(frame).expect(rt, "memory");
    }
    frames
}

// Frame k arrives at byte time 1,250,000 k in pipe 2, costs 124 and goes there at once. Forty of them cost 4,960, and the
// pipe's class credits of 12,207 are renewed every forty; half of its bucket, 500,000, pays for all 124,000.
#[test]
fn each_packet_goes_at_its_arrival(rt: HostRuntime) {
    let frames = frames(&rt);
    let row = Row {
        text: Some(MANY_PIPES.as_bytes()),
        input: Input::Capture(PLAIN, &frames, 0),
        outputs: [&frames, &[]],
        ..MANY
    };
    check(&rt, &row);
}
