//! What a command ended with, in one value that tests compare.
use qos_base::Colour;
use qos_io::{OpenGate, Shelf, Sink};
use qos_main::{Ended, InputEnd, MeterLog, Note, PortEnd, Stop, qos_top};
use std::sync::Wait;
use std::thread::Threads;

/// The numbers of an input: read, sent, left, those lost for each reason, and not put.
pub type InputNumbers = [u64; 11];

/// The numbers of a port: arrived, sent, left, turned away, not put, dequeues and time.
pub type PortNumbers = [u64; 7];

/// How many packets a meter marked green, yellow and red.
pub type MeterNumbers = [u64; 3];

/// What a command ended with. Of ports and meters there are two at most; what stands for one that is not there is zero.
#[derive(Clone, Copy, Debug, PartialEq)]
pub struct Seen {
    pub status: u8,
    pub note: Note,
    /// How many ports, inputs, write faults and meters are listed.
    pub lists: [usize; 4],
    pub write_faults: [bool; 2],
    /// How many entries each journal has.
    pub entries: [usize; 2],
    pub ports: [PortNumbers; 2],
    pub input: InputNumbers,
    pub unslotted: usize,
    pub stopped: Stop,
    pub meters: [MeterNumbers; 2],
}

/// Nothing was scheduled.
pub(crate) const NOTHING: Seen = Seen {
    status: 0,
    note: Note::Nothing,
    lists: [0; 4],
    write_faults: [false; 2],
    entries: [0; 2],
    ports: [[0; 7]; 2],
    input: [0; 11],
    unslotted: 0,
    stopped: Stop::NotOpened,
    meters: [[0; 3]; 2],
};

/// A journal has an entry for each arrival and each dequeue.
pub(crate) fn entries(port: &PortNumbers) -> usize {
    port[0].saturating_add(port[5]) as usize
}

fn numbers(port: Option<&PortEnd>) -> PortNumbers {
    let Some(port) = port else {
        return [0; 7];
    };
    let counts = port.counts;
    [
        counts.arrived,
        counts.sent,
        counts.left,
        counts.tailfull,
        counts.unwritten,
        counts.dequeues,
        counts.time,
    ]
}

fn entries_of(port: Option<&PortEnd>) -> usize {
    port.map_or(0, |port| port.journal.as_slice().len())
}

fn marked(log: Option<&MeterLog>) -> MeterNumbers {
    let Some(log) = log else {
        return [0; 3];
    };
    let (mut green, mut yellow, mut red) = (0u64, 0u64, 0u64);
    for mark in log.marks.as_slice() {
        match mark.colour {
            Colour::Green => green = green.saturating_add(1),
            Colour::Yellow => yellow = yellow.saturating_add(1),
            Colour::Red => red = red.saturating_add(1),
        }
    }
    [green, yellow, red]
}

fn see_input(seen: &mut Seen, input: &InputEnd) {
    let [a, b, c, d, e, f, g] = input.reasons;
    let (read, sent, left) = (input.read, input.sent, input.left);
    seen.input = [read, sent, left, a, b, c, d, e, f, g, input.unwritten];
    seen.unslotted = input.unslotted.as_slice().len();
    seen.stopped = input.stopped;
}

/// What is seen of an end.
pub fn gather(ended: &Ended) -> Seen {
    let (ports, inputs) = (ended.ports.as_slice(), ended.inputs.as_slice());
    let (faults, logs) = (ended.write_fault.as_slice(), ended.meters.as_slice());
    let mut seen = Seen {
        status: ended.status,
        note: ended.note,
        lists: [ports.len(), inputs.len(), faults.len(), logs.len()],
        write_faults: [faults.first() == Some(&true), faults.get(1) == Some(&true)],
        entries: [entries_of(ports.first()), entries_of(ports.get(1))],
        ports: [numbers(ports.first()), numbers(ports.get(1))],
        meters: [marked(logs.first()), marked(logs.get(1))],
        ..NOTHING
    };
    if let [input] = inputs {
        see_input(&mut seen, input);
    }
    seen
}

/// Runs a command; the report goes to `said`.
pub fn run<R: Threads + Wait + Sync + AllocGlobal, H: Shelf, K: Sink>(
    rt: &R,
    words: &[String],
    shelf: &mut H,
    said: &mut K,
) -> Seen {
    gather(&qos_top(rt, rt.alloc(), words, shelf, said, &OpenGate))
}
