//! What a command comes to, as tests state it.
use crate::ended::{MeterNumbers, NOTHING, PortNumbers, Seen, entries};
use qos_main::{Note, Stop};

/// What a command comes to; the other numbers follow.
#[derive(Clone, Copy)]
pub struct End {
    pub status: u8,
    pub note: Note,
    pub stopped: Stop,
    /// How many ports the profile has, at most two; none where nothing is scheduled.
    pub count: usize,
    pub first: PortNumbers,
    pub second: PortNumbers,
    pub write_faults: [bool; 2],
    /// How many records are unparsed, unmatched, oversize and too long.
    pub lost: [u64; 4],
    pub policed: u64,
    /// How many meters the profile has, at most two.
    pub meters: usize,
    pub marked: [MeterNumbers; 2],
}

/// One port, no meter and no record.
pub const EMPTY: End = End {
    status: 0,
    note: Note::Nothing,
    stopped: Stop::End,
    count: 1,
    first: [0; 7],
    second: [0; 7],
    write_faults: [false; 2],
    lost: [0; 4],
    policed: 0,
    meters: 0,
    marked: [[0; 3]; 2],
};

// The sums of the ports' numbers that a run's input has: arrived, sent, left, turned away and not put.
fn sums(end: &End) -> [u64; 5] {
    let (first, second) = (&end.first, &end.second);
    [
        first[0].saturating_add(second[0]),
        first[1].saturating_add(second[1]),
        first[2].saturating_add(second[2]),
        first[3].saturating_add(second[3]),
        first[4].saturating_add(second[4]),
    ]
}

// How many records were read: those that arrived, and those that were lost before.
fn read(end: &End, arrived: u64) -> u64 {
    let mut read = arrived.saturating_add(end.policed);
    for lost in end.lost {
        read = read.saturating_add(lost);
    }
    read
}

/// What is seen where a command comes to this.
pub fn wanted(end: &End) -> Seen {
    let (status, note) = (end.status, end.note);
    if end.count == 0 {
        return Seen {
            status,
            note,
            ..NOTHING
        };
    }
    let [arrived, sent, left, tailfull, unwritten] = sums(end);
    let (read, policed) = (read(end, arrived), end.policed);
    let [unparsed, unmatched, oversize, too_long] = end.lost;
    Seen {
        status,
        note,
        lists: [end.count, 1, end.count, end.meters],
        write_faults: end.write_faults,
        entries: [entries(&end.first), entries(&end.second)],
        ports: [end.first, end.second],
        input: [
            read, sent, left, unparsed, unmatched, oversize, too_long, 0, policed, tailfull,
            unwritten,
        ],
        unslotted: 0,
        stopped: end.stopped,
        meters: end.marked,
    }
}
