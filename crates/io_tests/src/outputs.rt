//! The files of outputs: what their creation and their closing come to.
ghost use Rattle.std.specs.Prelude.{◌≡◌, ◌≤◌, [], All, IfSome, IsSome, length, map, string_bytes, vec_capacity};
ghost use Rattle.port_files.specs.Among.{AreApart};

use crate::check::{length_of, same, shelf_with, text};
use crate::planned_shelf::{Fails, PlannedShelf};
use port_files::{close_all, create_all};
use qos_io::{MemShelf, PutFault, Shelf};
use std::process::Abort;

// What the creation and the closing of three outputs come to: whether no memory was refused, and for each name whether
// there is a sink, and whether its closing failed.
#[derive(Clone, Copy, Debug, PartialEq)]
struct Seen {
    created: bool,
    sinks: [Option<bool>; 3],
    closed: bool,
    failed: [Option<bool>; 3],
}

fn names<R: AllocGlobal + Abort>(rt: &R) -> Vec<String>
    ensures apart { AreApart (map string_bytes result.items) }
    ensures count { length result.items ≡ 3 }
{
    let first = text(rt, "a");
    let second = text(rt, "b");
    let third = text(rt, "c");
    vec![in rt.alloc(); first, second, third].expect(rt, "memory")
}

fn has_sink<K>(outs: &[Option<K>], place: usize) -> Option<bool> {
    match outs.get(place) {
        Some(out) => Some(out.is_some()),
        None => None,
    }
}

fn sinks_of<K>(outs: &[Option<K>]) -> [Option<bool>; 3] {
    [has_sink(outs, 0), has_sink(outs, 1), has_sink(outs, 2)]
}

fn first_three(failed: &[bool]) -> [Option<bool>; 3] {
    [
        failed.first().copied(),
        failed.get(1).copied(),
        failed.get(2).copied(),
    ]
}

// Creates the outputs, and tells whether no memory was refused.
fn create<H: Shelf, R: AllocGlobal + Abort>(
    rt: &R,
    shelf: &mut H,
    outs: &mut Vec<Option<H::Out>>,
) -> bool
    requires empty { outs.old.items ≡ [] }
    requires room { 3 ≤ vec_capacity outs.old }
    ensures few { length outs.new.items ≤ 3 }
    ensures named { All (λ out. IfSome out (λ k. IsSome (H.Out.name k))) outs.new.items }
{
    create_all(shelf, names(rt).as_slice(), outs).is_ok()
}

// Closes the outputs, and tells whether no memory was refused and which closings failed.
fn close<H: Shelf, R: AllocGlobal + Abort>(
    rt: &R,
    shelf: &mut H,
    outs: Vec<Option<H::Out>>,
) -> (bool, [Option<bool>; 3])
    requires few { length outs.items ≤ 3 }
    requires named { All (λ out. IfSome out (λ k. IsSome (H.Out.name k))) outs.items }
{
    let mut failed = Vec::with_capacity(rt.alloc(), 3).expect(rt, "memory");
    let closed = close_all(shelf, outs, &mut failed).is_ok();
    (closed, first_three(failed.as_slice()))
}

fn run<H: Shelf, R: AllocGlobal + Abort>(rt: &R, shelf: &mut H) -> Seen {
    let mut outs = Vec::with_capacity(rt.alloc(), 3).expect(rt, "memory");
    let created = create(rt, shelf, &mut outs);
    let sinks = sinks_of(outs.as_slice());
    let (closed, failed) = close(rt, shelf, outs);
    Seen {
        created,
        sinks,
        closed,
        failed,
    }
}

const FAILED: Option<PutFault> = Some(PutFault::Failed);

const REFUSED: Option<PutFault> = Some(PutFault::NoMemory);

// What fails, what is seen, and how many creations, closings and faults the shelf has counted.
struct Row {
    fails: Fails,
    seen: Seen,
    counts: [u64; 3],
    note: &'static str,
}

const ALL_FINE: Seen = Seen {
    created: true,
    sinks: [Some(true); 3],
    closed: true,
    failed: [Some(false); 3],
};

const FINE_ROW: Row = Row {
    fails: Fails {
        creates: [None; 3],
        closes: [None; 3],
    },
    seen: ALL_FINE,
    counts: [3, 3, 0],
    note: "all fine",
};

const CREATION_ROW: Row = Row {
    fails: Fails {
        creates: [None, FAILED, None],
        closes: [None; 3],
    },
    seen: Seen {
        created: true,
        sinks: [Some(true), Some(false), Some(true)],
        closed: true,
        failed: [Some(false); 3],
    },
    counts: [3, 2, 1],
    note: "the second creation fails",
};

const NO_MEMORY_ROW: Row = Row {
    fails: Fails {
        creates: [None, REFUSED, None],
        closes: [None; 3],
    },
    seen: Seen {
        created: false,
        sinks: [Some(true), None, None],
        closed: true,
        failed: [Some(false), None, None],
    },
    counts: [2, 1, 0],
    note: "memory is refused for the second creation",
};

const CLOSING_ROW: Row = Row {
    fails: Fails {
        creates: [None; 3],
        closes: [None, FAILED, None],
    },
    seen: Seen {
        created: true,
        sinks: [Some(true); 3],
        closed: true,
        failed: [Some(false), Some(true), Some(false)],
    },
    counts: [3, 3, 1],
    note: "the second closing fails",
};

const BOTH_ROW: Row = Row {
    fails: Fails {
        creates: [None; 3],
        closes: [REFUSED, None, FAILED],
    },
    seen: Seen {
        created: true,
        sinks: [Some(true); 3],
        closed: false,
        failed: [Some(false), Some(false), Some(true)],
    },
    counts: [3, 3, 1],
    note: "memory is refused for the first closing, and the last fails",
};

fn ends_so<R: AllocGlobal + Abort>(rt: &R, row: &Row) {
    let mut shelf = PlannedShelf::new(rt.alloc(), row.fails);
    let seen = run(rt, &mut shelf);
    let found = (seen, shelf.counts());
    same(rt, &found, &(row.seen, row.counts), row.note);
}

#[test]
fn each_output_ends_by_itself(rt: HostRuntime) {
    ends_so(&rt, &FINE_ROW);
    ends_so(&rt, &CREATION_ROW);
    ends_so(&rt, &NO_MEMORY_ROW);
    ends_so(&rt, &CLOSING_ROW);
    ends_so(&rt, &BOTH_ROW);
}

// What the files "a" to "d" of a shelf hold, by their lengths.
fn lengths(shelf: &MemShelf) -> [Option<usize>; 4] {
    [
        length_of(shelf, "a"),
        length_of(shelf, "b"),
        length_of(shelf, "c"),
        length_of(shelf, "d"),
    ]
}

#[test]
fn a_file_that_was_there_is_emptied(rt: HostRuntime) {
    let mut shelf = shelf_with(&rt, &[("b", &[1, 2]), ("d", &[1, 2])]);
    let seen = run(&rt, &mut shelf);
    let wanted = [Some(0), Some(0), Some(0), Some(2)];
    let found = (seen, lengths(&shelf));
    same(&rt, &found, &(ALL_FINE, wanted), "in memory");
}
