//! Calls of the outside that fail, one or more in a run of three frames over two ports.
use crate::check::{ends_as, same};
use crate::faulty::{Call, FaultyShelf, Planned};
use crate::two_ports::{FINE, FIRST_SENT, NOTHING, PROFILE, SECOND_SENT, UNREAD, capture, input};
use command_fixtures::{End, PortNumbers, Rec};
use qos_io::{MemShelf, PutFault};
use qos_main::{PcapFault, Stop};
use std::process::Abort;
use std::sync::Wait;
use std::thread::Threads;

/// Which calls fail, and what the run comes to.
#[derive(Clone, Copy)]
pub struct Row<'a> {
    pub plan: &'a [Planned<'a>],
    /// How many bytes the input lacks at its end.
    pub less: usize,
    pub end: End,
    /// How many bytes of its text each output holds, if it is there.
    pub files: [Option<usize>; 2],
}

/// Nothing fails.
pub const WHOLE: Row<'static> = Row {
    plan: &[],
    less: 0,
    end: FINE,
    files: [Some(176), Some(100)],
};

/// Nothing was created.
pub const NONE: Row<'static> = Row {
    end: NOTHING,
    files: [None, None],
    ..WHOLE
};

// The failure of a call on a name.
fn failed(name: &str, call: Call) -> Planned<'_> {
    Planned {
        name,
        call,
        fault: PutFault::Failed,
    }
}

fn put_file<R: Abort>(rt: &R, shelf: &mut MemShelf, name: &str, bytes: Vec<u8>) {
    shelf.put_file(name, bytes).expect(rt, "memory");
}

/// A shelf with this profile, `p`, and this capture, `a`.
pub fn shelf_over<R: AllocGlobal + Abort>(rt: &R, profile: &str, input: Vec<u8>) -> MemShelf {
    let mut shelf = MemShelf::new(rt.alloc());
    put_file(rt, &mut shelf, "a", input);
    let text = profile.as_bytes().to_vec(rt.alloc());
    put_file(rt, &mut shelf, "p", text.expect(rt, "memory"));
    shelf
}

fn shelf_of<R: AllocGlobal + Abort>(rt: &R, less: usize) -> MemShelf {
    let mut bytes = input(rt);
    bytes.truncate(bytes.len().saturating_sub(less));
    shelf_over(rt, PROFILE, bytes)
}

fn has<R: Abort>(rt: &R, shelf: &MemShelf, name: &str, whole: &[u8], size: Option<usize>) {
    let first = size.map(|size| &whole[..size.min(whole.len())]);
    same(rt, &shelf.file(name), &first, name);
}

/// The file of this name has so many bytes of the capture of these frames, or there is none.
pub fn holds<R: AllocGlobal + Abort>(
    rt: &R,
    shelf: &MemShelf,
    name: &str,
    frames: &[Rec],
    size: Option<usize>,
) {
    has(rt, shelf, name, &capture(rt, frames), size);
}

/// Runs a row.
pub fn check<R: Threads + Wait + Sync + AllocGlobal + Abort>(rt: &R, row: &Row<'_>) {
    let mut shelf = FaultyShelf::new(rt.alloc(), shelf_of(rt, row.less), row.plan);
    ends_as(rt, "run --profile p --out o a", &mut shelf, &row.end);
    holds(rt, &shelf.files, "o.0.pcap", &FIRST_SENT, row.files[0]);
    holds(rt, &shelf.files, "o.1.pcap", &SECOND_SENT, row.files[1]);
    drop(shelf);
}

#[test]
fn nothing_fails(rt: HostRuntime) {
    check(&rt, &WHOLE);
}

static NO_PROFILE: Row<'static> = Row {
    end: UNREAD,
    ..NONE
};

fn check_profile<R: Threads + Wait + Sync + AllocGlobal + Abort>(rt: &R, call: Call) {
    let plan = [failed("p", call)];
    let row = Row {
        plan: &plan,
        ..NO_PROFILE
    };
    check(rt, &row);
}

// The profile is read at once, and a second read finds its end. Nothing is created.
#[test]
fn the_profile_fails(rt: HostRuntime) {
    for call in [Call::Open, Call::Read(0), Call::Read(1)] {
        check_profile(&rt, call);
    }
}

const IDLE: PortNumbers = [0; 7];

// One frame was sent at its arrival.
const ONE: PortNumbers = [1, 1, 0, 0, 0, 1, 84];

// The reads are of the header, and then of a head and a body in turn; the eighth finds the end. So many records stand
// before the one that fails, and so many bytes are in the outputs.
static READS: [(u32, PortNumbers, PortNumbers, [usize; 2]); 8] = [
    (0, IDLE, IDLE, [24, 24]),
    (1, IDLE, IDLE, [24, 24]),
    (2, IDLE, IDLE, [24, 24]),
    (3, ONE, IDLE, [100, 24]),
    (4, ONE, IDLE, [100, 24]),
    (5, ONE, ONE, [100, 100]),
    (6, ONE, ONE, [100, 100]),
    (7, [2, 2, 0, 0, 0, 2, 168], ONE, [176, 100]),
];

static UNREADABLE: Row<'static> = Row {
    end: End {
        status: 4,
        stopped: Stop::Fault(PcapFault::Read),
        ..FINE
    },
    ..WHOLE
};

fn check_read<R: Threads + Wait + Sync + AllocGlobal + Abort>(
    rt: &R,
    row: &(u32, PortNumbers, PortNumbers, [usize; 2]),
) {
    let (nth, first, second, files) = *row;
    let plan = [failed("a", Call::Read(nth))];
    let row = Row {
        plan: &plan,
        end: End {
            first,
            second,
            ..UNREADABLE.end
        },
        files: [Some(files[0]), Some(files[1])],
        ..UNREADABLE
    };
    check(rt, &row);
}

#[test]
fn a_read_of_the_capture_fails(rt: HostRuntime) {
    for row in &READS {
        check_read(&rt, row);
    }
}

#[test]
fn the_capture_is_not_opened(rt: HostRuntime) {
    let plan = [failed("a", Call::Open)];
    let row = Row {
        plan: &plan,
        end: End {
            status: 4,
            stopped: Stop::NotOpened,
            first: IDLE,
            second: IDLE,
            ..FINE
        },
        files: [Some(24), Some(24)],
        ..WHOLE
    };
    check(&rt, &row);
}

// An output is put in pieces: the header, and each record's head and body. Which piece fails, how many records were put
// before it, and how many bytes.
static PUTS: [(u32, u64, usize); 5] = [(0, 0, 0), (1, 0, 24), (2, 0, 40), (3, 1, 100), (4, 1, 116)];

fn check_first<R: Threads + Wait + Sync + AllocGlobal + Abort>(
    rt: &R,
    call: Call,
    sent: u64,
    file: Option<usize>,
) {
    let plan = [failed("o.0.pcap", call)];
    let row = Row {
        plan: &plan,
        end: End {
            status: 5,
            first: [2, sent, 0, 0, 2u64.saturating_sub(sent), 2, 168],
            write_faults: [true, false],
            ..FINE
        },
        files: [file, Some(100)],
        ..WHOLE
    };
    check(rt, &row);
}

fn check_second<R: Threads + Wait + Sync + AllocGlobal + Abort>(
    rt: &R,
    call: Call,
    sent: u64,
    file: Option<usize>,
) {
    let plan = [failed("o.1.pcap", call)];
    let row = Row {
        plan: &plan,
        end: End {
            status: 5,
            second: [1, sent, 0, 0, 1u64.saturating_sub(sent), 1, 84],
            write_faults: [false, true],
            ..FINE
        },
        files: [Some(176), file],
        ..WHOLE
    };
    check(rt, &row);
}

// The other output is whole, whatever fails of one.
#[test]
fn the_first_output_fails(rt: HostRuntime) {
    check_first(&rt, Call::Create, 0, None);
    for (nth, sent, size) in &PUTS {
        check_first(&rt, Call::Put(*nth), *sent, Some(*size));
    }
    check_first(&rt, Call::Close, 2, Some(176));
}

#[test]
fn the_second_output_fails(rt: HostRuntime) {
    check_second(&rt, Call::Create, 0, None);
    for (nth, sent, size) in &PUTS[..3] {
        check_second(&rt, Call::Put(*nth), *sent, Some(*size));
    }
    check_second(&rt, Call::Close, 1, Some(100));
}
