//! Commands whose report is refused.
ghost use Rattle.std.specs.Prelude.{None};

use crate::check::{NONE, Row, same, says, shelf_of, words, wrote};
use crate::input::Input;
use crate::profiles::DRAINS;
use command_fixtures::{EMPTY, End, FIRST, PLAIN, Seen, run, wanted};
use qos_io::{MemShelf, PutFault, Sink};
use qos_main::{PcapFault, Stop, put_memory};
use std::process::Abort;
use std::sync::Wait;
use std::thread::Threads;

// A sink that keeps what it is given, or refuses it.
#[derive(Drop)]
struct Said {
    text: Vec<u8>,
    refuses: Option<PutFault>,
    puts: u64,
    faults: u64,
}

impl Sink for Said {
    ghost contents = { λ _. None };

    ghost name = { λ _. None };

    ghost faults = { λ s. s.faults };

    ghost IsSure = { λ _. ⊥ };

    fn put(&mut self, bytes: &[u8]) -> Result<(), PutFault> {
        self.puts = self.puts.saturating_add(1);
        match self.refuses {
            Some(PutFault::Failed) => {
                self.faults = self.faults.saturating_add(1);
                Err(PutFault::Failed)
            }
            Some(PutFault::NoMemory) => Err(PutFault::NoMemory),
            None => Ok(self.text.extend_from_slice(bytes)?),
        }
    }
}

fn new_said<R: AllocGlobal>(rt: &R, refuses: Option<PutFault>) -> Said {
    Said {
        text: Vec::new(rt.alloc()),
        refuses,
        puts: 0,
        faults: 0,
    }
}

// Two frames, of which one is left.
const FINE: Row<'static> = Row {
    input: Input::Capture(PLAIN, &[FIRST; 2], 0),
    end: End {
        first: [2, 1, 1, 0, 0, 1, 84],
        ..EMPTY
    },
    outputs: [&[FIRST], &[]],
    ..NONE
};

// The second of two frames is cut.
const TORN: Row<'static> = Row {
    edits: &[DRAINS],
    input: Input::Capture(PLAIN, &[FIRST; 2], 1),
    end: End {
        status: 6,
        stopped: Stop::Fault(PcapFault::CutRecord(100)),
        first: [1, 1, 0, 0, 0, 1, 84],
        ..EMPTY
    },
    outputs: [&[FIRST], &[]],
    ..NONE
};

// A run, what its report is refused for, and its status then: a failure changes that of a good run alone, and want of
// memory each.
static ROWS: [(&str, Row<'static>, PutFault, u8); 4] = [
    ("fails", FINE, PutFault::Failed, 5),
    ("fails behind a fault", TORN, PutFault::Failed, 6),
    ("no memory", FINE, PutFault::NoMemory, 7),
    ("no memory behind a fault", TORN, PutFault::NoMemory, 7),
];

// Runs the words of a row with a report that is refused, and counts the puts.
fn refused<R: Threads + Wait + Sync + AllocGlobal + Abort>(
    rt: &R,
    shelf: &mut MemShelf,
    row: &Row<'_>,
    fault: PutFault,
) -> (Seen, u64) {
    let mut said = new_said(rt, Some(fault));
    let found = run(rt, &words(rt, row), shelf, &mut said);
    (found, said.puts)
}

// The report is put at once, and the run stays what it was.
fn check<R: Threads + Wait + Sync + AllocGlobal + Abort>(
    rt: &R,
    row: &(&str, Row<'_>, PutFault, u8),
) {
    let (note, row, fault, status) = row;
    let mut shelf = shelf_of(rt, row);
    let (found, puts) = refused(rt, &mut shelf, row, *fault);
    let expected = Seen {
        status: *status,
        ..wanted(&row.end)
    };
    same(rt, &found, &expected, note);
    same(rt, &puts, &1, note);
    wrote(rt, &shelf, row);
    drop(shelf);
}

#[test]
fn reports_are_refused(rt: HostRuntime) {
    for row in &ROWS {
        check(&rt, row);
    }
}

// Where there is no memory for the words, the program reports just that.
#[test]
fn want_of_memory_is_reported(rt: HostRuntime) {
    let mut said = new_said(&rt, None);
    let status = put_memory(&mut said).number();
    same(&rt, &status, &7, "its status");
    says(
        &rt,
        said.text.as_slice(),
        "memory\nstatus 7\n",
        "its report",
    );
}
