//! Callers of a table of meters, each with its seat and the marks that it made.
ghost use Rattle.std.specs.Prelude.{◌≡◌, ℕ, ◌+◌, ◌<◌, ◌≤◌, [], ◌∷◌, length, vec_len, All};
ghost use Rattle.meter_table.specs.Logs.{AreAllMarks};
ghost use Rattle.meter_table.specs.Seats.{AreAllSeats, IsFresh, IsSeatOf, marks_by, parts_at, settings_of};

use meter_table::{Mark, MeterLog, MeterSeat, MeterTable, laws};
use qos_base::Colour::Green;
use std::process::Abort;
use std::sync::Wait;

/// How often a caller asks.
pub(crate) const TIMES: u32 = 100;

/// A seat, and the marks that it made.
#[derive(Drop)]
pub(crate) struct Caller {
    pub(crate) seat: MeterSeat,
    pub(crate) marks: Vec<Mark>,
    ghost few: { (n : ℕ) → length (marks_by n seat) ≤ vec_len marks },
}

// A caller that has made no mark.
fn begin<R: AllocGlobal>(rt: &R, table: &MeterTable, seat: MeterSeat) -> Caller
    requires { IsFresh table.now seat }
    ensures seat { IsSeatOf table.now result.seat × (result.seat ≡ seat) }
    ensures its { AreAllMarks (result.seat ∷ []) result.marks.items }
    ensures none { vec_len result.marks ≡ 0 }
{
    let _ = table;
    Caller {
        seat,
        marks: Vec::new(rt.alloc()),
    }
}

/// One more packet of an input, green so far.
pub(crate) fn ask<R: Wait + Abort>(
    rt: &R,
    table: &MeterTable,
    caller: Caller,
    meter: u32,
    pkt: (u32, u32),
    len: u32,
) -> Caller
    requires seat { IsSeatOf table.now caller.seat }
    requires meter { meter < length (settings_of table.now) }
    requires its { AreAllMarks (caller.seat ∷ []) caller.marks.items }
    requires few { vec_len caller.marks < 1000 }
    ensures seat { IsSeatOf table.now result.seat }
    ensures parts { (n : ℕ) → parts_at n result.seat ≡ parts_at n caller.seat }
    ensures its { AreAllMarks (result.seat ∷ []) result.marks.items }
    ensures count { vec_len result.marks ≡ vec_len caller.marks + 1 }
{
    let Caller {
        mut seat,
        mut marks,
    } = caller;
    laws::one_more_made();
    let mark = table.mark(rt, &mut seat, meter, pkt, 0, len, Green);
    marks.push(mark).expect(rt, "memory");
    Caller { seat, marks }
}

/// Packets of 46 bytes, many times.
pub(crate) fn ask_often<R: Wait + Abort>(
    rt: &R,
    table: &MeterTable,
    first: Caller,
    input: u32,
) -> Caller
    requires seat { IsSeatOf table.now first.seat }
    requires meter { 0 < length (settings_of table.now) }
    requires its { AreAllMarks (first.seat ∷ []) first.marks.items }
    requires none { vec_len first.marks ≡ 0 }
    ensures seat { IsSeatOf table.now result.seat }
    ensures its { AreAllMarks (result.seat ∷ []) result.marks.items }
    ensures parts { (n : ℕ) → parts_at n result.seat ≡ parts_at n first.seat }
{
    let mut caller = first;
    for index in 0..TIMES {
        caller = ask(rt, table, caller, 0, (input, index), 46);
    }
    caller
}

/// The two seats of a table, as callers.
pub(crate) fn two<R: AllocGlobal + Abort>(
    rt: &R,
    table: &MeterTable,
    mut seats: Vec<MeterSeat>,
) -> (Caller, Caller)
    requires fresh { All (IsFresh table.now) seats.items }
    requires all { AreAllSeats table.now seats.items }
    requires count { length seats.items ≡ 2 }
    ensures seats { IsSeatOf table.now result.0.seat × IsSeatOf table.now result.1.seat }
    ensures its { AreAllMarks (result.0.seat ∷ []) result.0.marks.items × AreAllMarks (result.1.seat ∷ []) result.1.marks.items }
    ensures none { (vec_len result.0.marks ≡ 0) × (vec_len result.1.marks ≡ 0) }
    ensures parts { (n : ℕ) → n < length table.now.cells.items → parts_at n result.0.seat + parts_at n result.1.seat ≡ 48 }
{
    let second = seats.pop().unwrap();
    let first = seats.pop().unwrap();
    (begin(rt, table, first), begin(rt, table, second))
}

/// The one seat of a table, as a caller.
pub(crate) fn sole<R: AllocGlobal + Abort>(
    rt: &R,
    table: &MeterTable,
    mut seats: Vec<MeterSeat>,
) -> Caller
    requires fresh { All (IsFresh table.now) seats.items }
    requires all { AreAllSeats table.now seats.items }
    requires count { length seats.items ≡ 1 }
    ensures seat { IsSeatOf table.now result.seat }
    ensures its { AreAllMarks (result.seat ∷ []) result.marks.items }
    ensures none { vec_len result.marks ≡ 0 }
    ensures parts { (n : ℕ) → n < length table.now.cells.items → parts_at n result.seat ≡ 48 }
{
    begin(rt, table, seats.pop().unwrap())
}

/// The logs of a table of one caller.
pub(crate) fn ended_alone<R: AllocGlobal + Wait + Abort>(
    rt: &R,
    table: MeterTable,
    alone: Caller,
) -> Vec<MeterLog>
    requires seat { IsSeatOf table alone.seat }
    requires its { AreAllMarks (alone.seat ∷ []) alone.marks.items }
    requires parts { (n : ℕ) → n < length table.cells.items → parts_at n alone.seat ≡ 48 }
    ensures { length result.items ≡ length (settings_of table) }
{
    let Caller { seat, marks } = alone;
    let seats = vec![in rt.alloc(); seat].expect(rt, "memory");
    table.gather(rt, seats, marks).expect(rt, "memory")
}

/// The logs of a table of two callers.
pub(crate) fn ended<R: AllocGlobal + Wait + Abort>(
    rt: &R,
    table: MeterTable,
    first: Caller,
    second: Caller,
) -> Vec<MeterLog>
    requires seats { IsSeatOf table first.seat × IsSeatOf table second.seat }
    requires parts { (n : ℕ) → n < length table.cells.items → parts_at n first.seat + parts_at n second.seat ≡ 48 }
    requires its { AreAllMarks (first.seat ∷ []) first.marks.items × AreAllMarks (second.seat ∷ []) second.marks.items }
    ensures { length result.items ≡ length (settings_of table) }
{
    laws::together_made();
    let Caller { seat, mut marks } = first;
    let Caller {
        seat: other,
        marks: others,
    } = second;
    let seats = vec![in rt.alloc(); seat, other].expect(rt, "memory");
    marks
        .extend_from_slice(others.as_slice())
        .expect(rt, "memory");
    table.gather(rt, seats, marks).expect(rt, "memory")
}
