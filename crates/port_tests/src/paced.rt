//! A port that is paced: the packets that arrive at byte times of the line, and what comes of them.
ghost use Rattle.std.specs.Prelude.{◌≡◌, ◌≤◌};

use crate::check::same;
use crate::profiles::read;
use qos_base::{Colour, Departure, Pkt};
use qos_profile::Profile;
use run_journal::{MAX_ARRIVALS, PortCounts, PortRun};
use std::alloc::Global;
use std::process::Abort;

// A byte time, and the length of a packet that arrives then.
type Arrival = (u64, u32);

// Packets that arrived, that were sent, that still waited, that were turned away and that were not put; dequeues; and port
// time.
type Counts = [u64; 7];

// The lines of a profile that differ: the port's drain and what a frame takes beside its own bytes, the sizes of the queues,
// and the pipe's bucket. Then what arrives, what the port counts, and when its last packet goes.
#[derive(Clone, Copy)]
struct Row<'a> {
    note: &'a str,
    port: &'a str,
    queues: &'a str,
    bucket: &'a str,
    arrivals: &'a [Arrival],
    counts: Counts,
    last: Option<u64>,
}

const AT_ONCE: &str = "drain ms = 0\n";

const DRAINED: &str = "drain ms = 1\n";

const WITHOUT_OVERHEAD: &str = "drain ms = 1\nframe overhead = 0\n";

const PLACES_64: &str = "queue sizes = 64 64 64 64 64 64 64 64 64 64 64 64 64\n";

const PLACES_2: &str = "queue sizes = 2 2 2 2 2 2 2 2 2 2 2 2 2\n";

const FAST: &str = "tb credits = 1\ntb period = 1\ntb size = 2000000\n";

const FAST_1500: &str = "tb credits = 1\ntb period = 1\ntb size = 1500\n";

const SLOW_2000: &str = "tb credits = 1\ntb period = 1000000000\ntb size = 2000\n";

const SLOW_168: &str = "tb credits = 1\ntb period = 1000000000\ntb size = 168\n";

const SLOW_167: &str = "tb credits = 1\ntb period = 1000000000\ntb size = 167\n";

const NO_PACKET: Row<'static> = Row {
    note: "no packet",
    port: AT_ONCE,
    queues: PLACES_64,
    bucket: FAST,
    arrivals: &[],
    counts: [0, 0, 0, 0, 0, 0, 0],
    last: None,
};

const ONE: Row<'static> = Row {
    note: "one",
    port: AT_ONCE,
    queues: PLACES_64,
    bucket: FAST,
    arrivals: &[(0, 60)],
    counts: [1, 1, 0, 0, 0, 1, 84],
    last: Some(0),
};

const TWELVE: Row<'static> = Row {
    note: "twelve",
    port: DRAINED,
    queues: PLACES_64,
    bucket: SLOW_2000,
    arrivals: &[(0, 60); 12],
    counts: [12, 11, 1, 0, 0, 18, 983_964],
    last: Some(840),
};

const HALF_A_BUCKET: Row<'static> = Row {
    note: "half a bucket",
    port: AT_ONCE,
    queues: PLACES_64,
    bucket: SLOW_168,
    arrivals: &[(0, 60)],
    counts: [1, 1, 0, 0, 0, 1, 84],
    last: Some(0),
};

const A_BYTE_LESS: Row<'static> = Row {
    note: "a byte less",
    port: AT_ONCE,
    queues: PLACES_64,
    bucket: SLOW_167,
    arrivals: &[(0, 60)],
    counts: [1, 0, 1, 0, 0, 1, 0],
    last: None,
};

const TWO_PLACES: Row<'static> = Row {
    note: "two places",
    port: AT_ONCE,
    queues: PLACES_2,
    bucket: FAST,
    arrivals: &[(0, 60); 4],
    counts: [4, 1, 2, 1, 0, 1, 84],
    last: Some(0),
};

const FAR_APART: Row<'static> = Row {
    note: "far apart",
    port: AT_ONCE,
    queues: PLACES_64,
    bucket: FAST_1500,
    arrivals: &[(0, 60), (0, 1500), (1 << 50, 1500)],
    counts: [3, 1, 2, 0, 0, 1026, 1_125_899_906_842_624],
    last: Some(0),
};

// A packet of 60 bytes, and 40 of none, which cost nothing where the line takes no bytes beside a frame's.
const FREE: [Arrival; 41] = [
    (0, 60),
    (0, 0),
    (0, 0),
    (0, 0),
    (0, 0),
    (0, 0),
    (0, 0),
    (0, 0),
    (0, 0),
    (0, 0),
    (0, 0),
    (0, 0),
    (0, 0),
    (0, 0),
    (0, 0),
    (0, 0),
    (0, 0),
    (0, 0),
    (0, 0),
    (0, 0),
    (0, 0),
    (0, 0),
    (0, 0),
    (0, 0),
    (0, 0),
    (0, 0),
    (0, 0),
    (0, 0),
    (0, 0),
    (0, 0),
    (0, 0),
    (0, 0),
    (0, 0),
    (0, 0),
    (0, 0),
    (0, 0),
    (0, 0),
    (0, 0),
    (0, 0),
    (0, 0),
    (0, 0),
];

// 32 go at 60 and the other 8 at 60 too, in a dequeue that doesn't move the clock.
const AT_NO_COST: Row<'static> = Row {
    note: "at no cost",
    port: WITHOUT_OVERHEAD,
    queues: PLACES_64,
    bucket: FAST,
    arrivals: &FREE,
    counts: [41, 41, 0, 0, 0, 3, 60],
    last: Some(60),
};

static ROWS: [Row<'static>; 8] = [
    NO_PACKET,
    ONE,
    TWELVE,
    HALF_A_BUCKET,
    A_BYTE_LESS,
    TWO_PLACES,
    FAR_APART,
    AT_NO_COST,
];

// One port on a line of 10^9 bytes per second, with one pipe.
const PORT: &str = "[port 0]
line rate = 1000000000
subports = 1
";

const SUBPORT: &str = "[subport profile 0]
tb credits = 1
tb period = 1
tb size = 2000000
tc 0-12 credits = 1000000
tc period = 1000000
[subport 0 0]
profile = 0
pipes = 1
pipe 0 = 0
";

const PIPE: &str = "[pipe profile 0]
tc 0-12 credits = 1000000
tc period = 1000000
";

fn profile_of<R: Abort + AllocGlobal>(rt: &R, row: &Row<'_>) -> Profile {
    let mut text = String::new(rt.alloc());
    for part in [PORT, row.port, SUBPORT, row.queues, PIPE, row.bucket] {
        text.push_str(part).expect(rt, "memory");
    }
    read(rt, text.as_str())
}

// A packet for the one pipe's first best effort queue.
fn packet(wire: u32) -> Pkt {
    Pkt {
        input: 0,
        index: 0,
        wire,
        cap: wire,
        stamp: 100_000_000_000,
        port: 0,
        subport: 0,
        pipe: 0,
        queue: 12,
        colour: Colour::Green,
    }
}

// How many packets were sent, and when the last of them went.
#[derive(Clone, Copy)]
struct Sends {
    count: u64,
    last: Option<u64>,
}

fn add(sends: &mut Sends, out: &[Departure<Pkt>]) {
    sends.count = sends.count.saturating_add(out.len() as u64);
    if let Some(departure) = out.last() {
        sends.last = Some(departure.time);
    }
}

// A dequeue at a moment; what it sends is added.
fn dequeue(
    rt: &impl Abort,
    run: &mut PortRun<Pkt>,
    now: u64,
    out: &mut Vec<Departure<Pkt>>,
    sends: &mut Sends,
)
    ensures aim { run.new.pacer.aim ≡ run.old.pacer.aim }
    ensures clock { run.new.pacer.clock ≡ run.old.pacer.clock }
{
    out.clear();
    assert!(rt; now <= 1 << 57 && run.pace().burst as usize <= out.capacity());
    run.dequeue(now, out).expect(rt, "memory");
    add(sends, out.as_slice());
}

fn advance(
    rt: &impl Abort,
    run: &mut PortRun<Pkt>,
    to: u64,
    out: &mut Vec<Departure<Pkt>>,
    sends: &mut Sends,
)
    requires { run.old.pacer.aim ≤ run.old.pacer.clock }
    ensures { run.new.pacer.aim ≤ run.new.pacer.clock }
{
    assert!(rt; to <= 1 << 57);
    run.aim(to);
    for _ in 0..3000u32 {
        let Some(now) = run.next() else {
            return;
        };
        dequeue(rt, run, now, out, sends);
    }
    panic!(rt; "an advance without end");
}

fn arrive(
    rt: &impl Abort,
    run: &mut PortRun<Pkt>,
    at: u64,
    packet: Pkt,
    out: &mut Vec<Departure<Pkt>>,
    sends: &mut Sends,
)
    requires { run.old.pacer.aim ≤ run.old.pacer.clock }
    ensures { run.new.pacer.aim ≤ run.new.pacer.clock }
{
    advance(rt, run, at, out, sends);
    assert!(rt; run.has_place(&packet) && run.arrived() < MAX_ARRIVALS);
    let _away = run.arrive(packet).expect(rt, "memory");
    if let Some(now) = run.after_arrival() {
        dequeue(rt, run, now, out, sends);
    }
}

// These arrive, and the port is drained.
fn run_all(
    rt: &impl Abort,
    run: &mut PortRun<Pkt>,
    arrivals: &[Arrival],
    out: &mut Vec<Departure<Pkt>>,
    sends: &mut Sends,
)
    requires { run.old.pacer.aim ≤ run.old.pacer.clock }
{
    for (at, wire) in arrivals {
        arrive(rt, run, *at, packet(*wire), out, sends);
    }
    let end = run.clock().saturating_add(run.pace().drain);
    advance(rt, run, end, out, sends);
}

fn numbers(counts: &PortCounts) -> Counts {
    [
        counts.arrived,
        counts.sent,
        counts.left,
        counts.tailfull,
        counts.unwritten,
        counts.dequeues,
        counts.time,
    ]
}

// What a run ends with that sent so.
fn ends_so(rt: &impl Abort, run: PortRun<Pkt>, sends: Sends, row: &Row<'_>) {
    let sent = run.sent();
    let (end, left) = run.finish(sent, 0);
    same(rt, &numbers(&end.counts), &row.counts, row.note);
    let seen = (sends.count, left.queued(), sends.last);
    same(rt, &seen, &(sent, end.counts.left, row.last), row.note);
}

// The run of port 0 at its start.
fn run_of<'p>(rt: &impl Abort, alloc: Global, profile: &'p Profile) -> PortRun<'p, Pkt>
    ensures { result.pacer.aim ≤ result.pacer.clock }
{
    assert!(rt; profile.ports.as_slice().len() > 0);
    PortRun::new(alloc, profile, 0).expect(rt, "memory")
}

// What a run sends over these arrivals.
fn sends_of(rt: &impl Abort, alloc: Global, run: &mut PortRun<Pkt>, arrivals: &[Arrival]) -> Sends
    requires { run.old.pacer.aim ≤ run.old.pacer.clock }
{
    let mut sends = Sends {
        count: 0,
        last: None,
    };
    let mut out = Vec::with_capacity(alloc, 256).expect(rt, "memory");
    run_all(rt, run, arrivals, &mut out, &mut sends);
    sends
}

fn is_paced(rt: &impl Abort, alloc: Global, profile: &Profile, row: &Row<'_>) {
    let mut run = run_of(rt, alloc, profile);
    let sends = sends_of(rt, alloc, &mut run, row.arrivals);
    ends_so(rt, run, sends, row);
}

fn run_row<R: Abort + AllocGlobal>(rt: &R, row: &Row<'_>) {
    let profile = profile_of(rt, row);
    is_paced(rt, rt.alloc(), &profile, row);
}

#[test]
fn a_port_is_paced(rt: HostRuntime) {
    for row in &ROWS {
        run_row(&rt, row);
    }
}
