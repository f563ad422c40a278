//! More than one cause: the status is the first of want of memory, a read fault, a fault of the capture and a write fault.
use crate::faults::{NONE, Row, WHOLE, check};
use crate::faulty::{Call, Planned};
use crate::two_ports::{FINE, NOTHING};
use command_fixtures::End;
use qos_io::PutFault;
use qos_main::{PcapFault, Stop};
use std::process::Abort;
use std::sync::Wait;
use std::thread::Threads;

// A failure of the capture's opening, the start of the other plans.
const UNOPENED: Planned<'static> = Planned {
    name: "a",
    call: Call::Open,
    fault: PutFault::Failed,
};

// A failure of the first output's third put, of the first record's body.
const UNPUT: Planned<'static> = Planned {
    name: "o.0.pcap",
    call: Call::Put(2),
    fault: PutFault::Failed,
};

// The third record is cut, so that a packet comes to each port, which goes at once.
const TORN_END: End = End {
    status: 6,
    stopped: Stop::Fault(PcapFault::CutRecord(176)),
    first: [1, 1, 0, 0, 0, 1, 84],
    ..FINE
};

const TORN: Row<'static> = Row {
    less: 10,
    end: TORN_END,
    files: [Some(100), Some(100)],
    ..WHOLE
};

// A read fault stands before a write fault, and before a fault of the capture that was not come to; so does a fault of
// the capture before a write fault.
static FAULTS: [Row<'static>; 5] = [
    TORN,
    Row {
        plan: &[
            UNOPENED,
            Planned {
                name: "o.1.pcap",
                call: Call::Create,
                ..UNOPENED
            },
        ],
        end: End {
            status: 4,
            stopped: Stop::NotOpened,
            first: [0; 7],
            second: [0; 7],
            write_faults: [false, true],
            ..FINE
        },
        files: [Some(24), None],
        ..WHOLE
    },
    Row {
        plan: &[
            Planned {
                call: Call::Read(5),
                ..UNOPENED
            },
            UNPUT,
        ],
        end: End {
            status: 4,
            stopped: Stop::Fault(PcapFault::Read),
            first: [1, 0, 0, 0, 1, 1, 84],
            write_faults: [true, false],
            ..FINE
        },
        files: [Some(40), Some(100)],
        ..TORN
    },
    Row {
        plan: &[UNPUT],
        end: End {
            first: [1, 0, 0, 0, 1, 1, 84],
            write_faults: [true, false],
            ..TORN_END
        },
        files: [Some(40), Some(100)],
        ..TORN
    },
    Row {
        plan: &[Planned {
            name: "o.1.pcap",
            call: Call::Close,
            ..UNOPENED
        }],
        end: End {
            write_faults: [false, true],
            ..TORN_END
        },
        ..TORN
    },
];

#[test]
fn faults_have_an_order(rt: HostRuntime) {
    for row in &FAULTS {
        check(&rt, row);
    }
}

// Memory that is refused to a call on a name.
fn refused(name: &str, call: Call) -> Planned<'_> {
    Planned {
        name,
        call,
        fault: PutFault::NoMemory,
    }
}

const MEMORY: End = End {
    status: 7,
    ..NOTHING
};

// Which call is refused memory, and what the outputs hold then. One that was created before the run came to nothing is
// empty; where a put or the closing is refused, the other is whole.
static REFUSED: [(&str, Call, [Option<usize>; 2]); 7] = [
    ("p", Call::Open, [None, None]),
    ("a", Call::Open, [None, None]),
    ("o.0.pcap", Call::Create, [None, None]),
    ("o.1.pcap", Call::Create, [Some(0), None]),
    ("o.0.pcap", Call::Put(2), [Some(40), Some(100)]),
    ("o.1.pcap", Call::Put(0), [Some(176), Some(0)]),
    ("o.1.pcap", Call::Close, [Some(176), Some(100)]),
];

static NO_MEMORY: Row<'static> = Row {
    end: MEMORY,
    ..NONE
};

fn check_refused<R: Threads + Wait + Sync + AllocGlobal + Abort>(
    rt: &R,
    row: &(&str, Call, [Option<usize>; 2]),
) {
    let (name, call, files) = *row;
    let plan = [refused(name, call)];
    let row = Row {
        plan: &plan,
        files,
        ..NO_MEMORY
    };
    check(rt, &row);
}

#[test]
fn memory_is_refused(rt: HostRuntime) {
    for row in &REFUSED {
        check_refused(&rt, row);
    }
}

// Want of memory stands before a read fault, a fault of the capture and a write fault.
static FIRST: [Row<'static>; 3] = [
    Row {
        plan: &[
            UNOPENED,
            Planned {
                name: "o.1.pcap",
                call: Call::Create,
                fault: PutFault::NoMemory,
            },
        ],
        end: MEMORY,
        files: [Some(0), None],
        ..WHOLE
    },
    Row {
        plan: &[Planned {
            name: "o.1.pcap",
            call: Call::Close,
            fault: PutFault::NoMemory,
        }],
        end: MEMORY,
        ..TORN
    },
    Row {
        plan: &[
            UNPUT,
            Planned {
                name: "o.1.pcap",
                call: Call::Put(1),
                fault: PutFault::NoMemory,
            },
        ],
        end: MEMORY,
        files: [Some(40), Some(24)],
        ..WHOLE
    },
];

#[test]
fn memory_comes_first(rt: HostRuntime) {
    for row in &FIRST {
        check(&rt, row);
    }
}
