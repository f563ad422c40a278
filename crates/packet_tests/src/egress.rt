//! What a port writes of the frames that arrive at it.
ghost use Rattle.port_egress.specs.Egress.{IsReady};

use crate::capture::{HEADER, put_record};
use crate::check::same;
use crate::profiles::{ONE_PORT, read};
use pkt_slots::{Mbuf, Slots};
use port_egress::{Egress, Finished};
use profile_plan::Profile;
use qos_base::{Colour, Pkt};
use qos_io::{MemSink, PutFault};
use run_journal::{MAX_ARRIVALS, PortCounts};
use std::alloc::AllocGlobal;
use std::process::Abort;

// 100 seconds.
const ORIGIN: u64 = 100_000_000_000;

// A frame: its pipe, how many bytes of it were captured, how long it was, which byte it is made of, and when it is sent,
// in nanoseconds after the origin.
#[derive(Clone, Copy)]
struct Frame {
    pipe: u32,
    cap: u32,
    wire: u32,
    byte: u8,
    sent: u32,
}

// Both arrive 500 nanoseconds after the origin. The line takes 84 byte times for the first.
const FIRST: Frame = Frame {
    pipe: 0,
    cap: 60,
    wire: 60,
    byte: 1,
    sent: 500,
};

const SECOND: Frame = Frame {
    pipe: 1,
    cap: 50,
    wire: 100,
    byte: 2,
    sent: 584,
};

// A run: which puts its sink refuses, if there is one; the frames that arrive; how many are written, how many are not, the
// dequeues, and port time at the end; the first fault; and the frames of its output, of which so many bytes are missing at
// its end.
struct Row {
    note: &'static str,
    refused: Option<&'static [u32]>,
    frames: &'static [Frame],
    counts: [u64; 4],
    fault: Option<PutFault>,
    output: &'static [Frame],
    less: usize,
}

// The header is one put, and a record two: its head, and its body.
static ROWS: [Row; 8] = [
    Row {
        note: "a header alone",
        refused: Some(&[]),
        frames: &[],
        counts: [0, 0, 0, 0],
        fault: None,
        output: &[],
        less: 0,
    },
    Row {
        note: "a frame at its moment",
        refused: Some(&[]),
        frames: &[FIRST],
        counts: [1, 0, 1, 584],
        fault: None,
        output: &[FIRST],
        less: 0,
    },
    Row {
        note: "two pipes",
        refused: Some(&[]),
        frames: &[FIRST, SECOND],
        counts: [2, 0, 2, 708],
        fault: None,
        output: &[FIRST, SECOND],
        less: 0,
    },
    Row {
        note: "no header",
        refused: Some(&[0]),
        frames: &[FIRST, SECOND],
        counts: [0, 2, 2, 708],
        fault: Some(PutFault::Failed),
        output: &[],
        less: 24,
    },
    Row {
        note: "no first head",
        refused: Some(&[1]),
        frames: &[FIRST, SECOND],
        counts: [0, 2, 2, 708],
        fault: Some(PutFault::Failed),
        output: &[],
        less: 0,
    },
    Row {
        note: "no first body",
        refused: Some(&[2]),
        frames: &[FIRST, SECOND],
        counts: [0, 2, 2, 708],
        fault: Some(PutFault::Failed),
        output: &[FIRST],
        less: 60,
    },
    Row {
        note: "no second body",
        refused: Some(&[4]),
        frames: &[FIRST, SECOND],
        counts: [1, 1, 2, 708],
        fault: Some(PutFault::Failed),
        output: &[FIRST, SECOND],
        less: 50,
    },
    Row {
        note: "no sink",
        refused: None,
        frames: &[FIRST, SECOND],
        counts: [0, 2, 2, 708],
        fault: Some(PutFault::Failed),
        output: &[],
        less: 24,
    },
];

fn put_frame<R: Abort + AllocGlobal>(rt: &R, bytes: &mut Vec<u8>, frame: &Frame) {
    let body = vec![in rt.alloc(); frame.byte; frame.cap as usize].expect(rt, "memory");
    let head = [100, frame.sent, frame.cap, frame.wire];
    put_record(rt, bytes, head, &body);
}

// The output that a row wants.
fn wanted<R: Abort + AllocGlobal>(rt: &R, row: &Row) -> Vec<u8> {
    let mut bytes = HEADER.to_vec(rt.alloc()).expect(rt, "memory");
    for frame in row.output {
        put_frame(rt, &mut bytes, frame);
    }
    bytes.truncate(bytes.len().saturating_sub(row.less));
    bytes
}

fn sink<R: Abort + AllocGlobal>(rt: &R, refused: &[u32]) -> MemSink {
    MemSink::new(rt.alloc(), refused.to_vec(rt.alloc()).expect(rt, "memory"))
}

// A frame in a slot that is longer.
fn mbuf<R: Abort + AllocGlobal>(rt: &R, frame: &Frame) -> Mbuf {
    assert!(rt; frame.cap <= 64 && frame.cap <= frame.wire);
    Mbuf {
        bytes: vec![in rt.alloc(); frame.byte; 64].expect(rt, "memory"),
        pkt: Pkt {
            input: 0,
            index: 0,
            wire: frame.wire,
            cap: frame.cap,
            stamp: ORIGIN + 500,
            port: 0,
            subport: 0,
            pipe: frame.pipe,
            queue: 12,
            colour: Colour::Green,
        },
    }
}

fn begun<'p, R: Abort + AllocGlobal>(
    rt: &R,
    p: &'p Profile,
    sink: Option<MemSink>,
) -> Egress<'p, MemSink>
    ensures { IsReady result }
{
    assert!(rt; p.ports.as_slice().len() == 1);
    let _plan = p.port(0);
    let mut egress = Egress::new(rt.alloc(), p, 0, ORIGIN).expect(rt, "memory");
    egress.begin(sink);
    egress
}

fn arrive<'p, R: Abort + AllocGlobal>(
    rt: &R,
    egress: &mut Egress<'p, MemSink>,
    slots: &mut Slots,
    frame: &Frame,
)
    requires { IsReady egress.old }
    ensures { IsReady egress.new }
{
    let mbuf = mbuf(rt, frame);
    assert!(rt; egress.port.has_place(&mbuf.pkt) && egress.port.arrived() < MAX_ARRIVALS);
    egress.arrive(mbuf, slots).expect(rt, "memory");
}

// The port of the profile over the frames of a row.
fn run<R: Abort + AllocGlobal>(rt: &R, p: &Profile, row: &Row) -> Finished<MemSink> {
    let sink = match row.refused {
        Some(refused) => Some(sink(rt, refused)),
        None => None,
    };
    let mut slots = Slots::new(rt.alloc(), 64);
    let mut egress = begun(rt, p, sink);
    for frame in row.frames {
        arrive(rt, &mut egress, &mut slots, frame);
    }
    egress.drain(&mut slots).expect(rt, "memory");
    egress.finish()
}

// What a sink holds; nothing where there is none.
fn held(sink: &Option<MemSink>) -> &[u8] {
    match sink {
        Some(sink) => sink.bytes(),
        None => &[],
    }
}

// What a row counts: each frame of it is sent.
fn counts(row: &Row) -> PortCounts {
    let [sent, unwritten, dequeues, time] = row.counts;
    PortCounts {
        arrived: row.frames.len() as u64,
        sent,
        left: 0,
        tailfull: 0,
        unwritten,
        dequeues,
        time,
    }
}

fn run_row<R: Abort + AllocGlobal>(rt: &R, p: &Profile, row: &Row) {
    let finished = run(rt, p, row);
    same(
        rt,
        &(finished.end.counts, finished.fault),
        &(counts(row), row.fault),
        row.note,
    );
    same(
        rt,
        &held(&finished.sink),
        &wanted(rt, row).as_slice(),
        row.note,
    );
}

fn run_rows<R: Abort + AllocGlobal>(rt: &R, p: &Profile) {
    for row in &ROWS {
        run_row(rt, p, row);
    }
}

#[test]
fn each_send_is_written(rt: HostRuntime) {
    let p = read(&rt, ONE_PORT);
    run_rows(&rt, &p);
    drop(p);
}
