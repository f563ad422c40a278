//! What commands ended with.
use meter_table::{Mark, MeterLog};
use qos_base::{Colour, Sequence};
use qos_pcap::{PcapFault, Stop};
use run_journal::{PortCounts, PortEnd};
use run_report::{Ended, InputEnd, Note, Status};
use std::alloc::Global;
use std::process::Abort;

fn none<T>(alloc: Global) -> Sequence<T> {
    Sequence::of(Vec::new(alloc))
}

/// What a command ends with before anything ran.
pub(crate) fn nothing_ran(alloc: Global, status: Status, note: Note) -> Ended {
    Ended {
        status: status.number(),
        ports: none(alloc),
        meters: none(alloc),
        inputs: none(alloc),
        write_fault: none(alloc),
        note,
    }
}

// The numbers of each input in the order of its line, and how its reading stopped.
const INPUTS: [([u64; 11], Stop); 6] = [
    (
        [101, 102, 103, 104, 105, 106, 107, 108, 109, 110, 111],
        Stop::End,
    ),
    (
        [201, 202, 203, 204, 205, 206, 207, 208, 209, 210, 211],
        Stop::Fault(PcapFault::CutRecord(176)),
    ),
    ([0; 11], Stop::NotOpened),
    (
        [401, 402, 403, 404, 405, 406, 407, 408, 409, 410, 411],
        Stop::Fault(PcapFault::Read),
    ),
    ([0; 11], Stop::Fault(PcapFault::CutHeader(23))),
    ([0; 11], Stop::Fault(PcapFault::BadMagic)),
];

fn input(alloc: Global, numbers: [u64; 11], stopped: Stop) -> InputEnd {
    let [read, sent, left, a, b, c, d, e, f, g, unwritten] = numbers;
    InputEnd {
        read,
        sent,
        left,
        reasons: [a, b, c, d, e, f, g],
        unwritten,
        unslotted: none(alloc),
        stopped,
    }
}

fn inputs<R: Abort + AllocGlobal>(rt: &R) -> Sequence<InputEnd> {
    let mut inputs = Vec::new(rt.alloc());
    for (numbers, stopped) in INPUTS {
        inputs
            .push(input(rt.alloc(), numbers, stopped))
            .expect(rt, "memory");
    }
    Sequence::of(inputs)
}

// The numbers of each port in the order of its line.
const PORTS: [[u64; 7]; 2] = [
    [11, 12, 13, 14, 15, 16, 17],
    [21, 22, 23, 24, 25, 26, 18_446_744_073_709_551_615],
];

fn port(alloc: Global, numbers: [u64; 7]) -> PortEnd {
    let [arrived, sent, left, tailfull, unwritten, dequeues, time] = numbers;
    PortEnd {
        journal: none(alloc),
        counts: PortCounts {
            arrived,
            sent,
            left,
            tailfull,
            unwritten,
            dequeues,
            time,
        },
    }
}

fn ports<R: Abort + AllocGlobal>(rt: &R) -> Sequence<PortEnd> {
    let mut ports = Vec::new(rt.alloc());
    for numbers in PORTS {
        ports.push(port(rt.alloc(), numbers)).expect(rt, "memory");
    }
    Sequence::of(ports)
}

// The colours that each meter gave, by the meter's number. There is no meter 2.
const MARKS: [(u32, &[Colour]); 3] = [
    (
        0,
        &[
            Colour::Green,
            Colour::Yellow,
            Colour::Green,
            Colour::Red,
            Colour::Red,
            Colour::Green,
        ],
    ),
    (1, &[Colour::Red, Colour::Yellow, Colour::Yellow]),
    (2, &[]),
];

fn mark(meter: u32, colour: Colour) -> Mark {
    Mark {
        meter,
        turn: 0,
        input: 0,
        index: 0,
        at: 0,
        len: 0,
        pre: Colour::Green,
        colour,
    }
}

fn log<R: Abort + AllocGlobal>(rt: &R, meter: u32, colours: &[Colour]) -> MeterLog {
    let mut marks = Vec::new(rt.alloc());
    for colour in colours {
        marks.push(mark(meter, *colour)).expect(rt, "memory");
    }
    MeterLog {
        meter,
        marks: Sequence::of(marks),
    }
}

fn logs<R: Abort + AllocGlobal>(rt: &R) -> Sequence<MeterLog> {
    let mut logs = Vec::new(rt.alloc());
    for (meter, colours) in MARKS {
        logs.push(log(rt, meter, colours)).expect(rt, "memory");
    }
    Sequence::of(logs)
}

/// What a run ends with. The second port has a write fault.
pub(crate) fn run_ended<R: Abort + AllocGlobal>(rt: &R, status: Status) -> Ended {
    let faults = [false, true].to_vec(rt.alloc()).expect(rt, "memory");
    Ended {
        status: status.number(),
        ports: ports(rt),
        meters: logs(rt),
        inputs: inputs(rt),
        write_fault: Sequence::of(faults),
        note: Note::Nothing,
    }
}
