//! Tables of meters, and the logs that their marks form.
ghost use Rattle.std.specs.Prelude.{◌≡◌, ℕ, ◌<◌, [], ◌∷◌, length, vec_len};
ghost use Rattle.meter_table.specs.Logs.{AreAllMarks};
ghost use Rattle.meter_table.specs.Seats.{IsSeatOf, parts_at, settings_of};

use crate::callers::{Caller, TIMES, ask, ask_often, ended, ended_alone, sole, two};
use crate::check::same;
use crate::profiles::table_of;
use meter_table::{Mark, MeterLog, laws};
use qos_base::Colour::{self, Green, Red, Yellow};
use std::process::Abort;
use std::sync::Wait;
use std::thread::{Threads, join};

// How many marks have each colour, whether each stands at its turn, and how many of each of two inputs come in order.
#[derive(Clone, Copy, Debug, PartialEq)]
struct Counted {
    colours: [usize; 3],
    in_turn: bool,
    in_order: [u32; 2],
}

fn in_order(marks: &[Mark], input: u32) -> u32 {
    let mut next = 0u32;
    for mark in marks {
        if mark.input == input && mark.index == next {
            next = next.wrapping_add(1);
        }
    }
    next
}

fn coloured(marks: &[Mark], colour: Colour) -> usize {
    marks.iter().filter(|mark| mark.colour == colour).count()
}

fn count_up(marks: &[Mark]) -> Counted {
    Counted {
        colours: [
            coloured(marks, Green),
            coloured(marks, Yellow),
            coloured(marks, Red),
        ],
        in_turn: marks
            .iter()
            .enumerate()
            .all(|(place, mark)| mark.turn == place as u64),
        in_order: [in_order(marks, 0), in_order(marks, 1)],
    }
}

// A mark of input 0, green so far.
fn made(meter: u32, turn: u64, index: u32, len: u32, colour: Colour) -> Mark {
    Mark {
        meter,
        turn,
        input: 0,
        index,
        at: 0,
        len,
        pre: Green,
        colour,
    }
}

// The marks of a log are these.
fn has_marks(rt: &impl Abort, log: &MeterLog, wanted: &[Mark], note: &str) {
    same(rt, &log.marks.as_slice(), &wanted, note);
}

// Two callers ask one meter by turns.
fn asked_by_turns<R: AllocGlobal + Wait + Abort>(rt: &R) -> Vec<MeterLog>
    ensures { length result.items ≡ 1 }
{
    let (table, seats) = table_of(rt, &[("m", 46, 46)], 2);
    let (first, second) = two(rt, &table, seats);
    let first = ask(rt, &table, first, 0, (0, 0), 46);
    let second = ask(rt, &table, second, 0, (0, 1), 46);
    let first = ask(rt, &table, first, 0, (0, 2), 46);
    let second = ask(rt, &table, second, 0, (0, 3), 46);
    ended(rt, table, first, second)
}

#[test]
fn four_packets_are_green_yellow_red_red(rt: HostRuntime) {
    let logs = asked_by_turns(&rt);
    has_marks(
        &rt,
        &logs[0],
        &[
            made(0, 0, 0, 46, Green),
            made(0, 1, 1, 46, Yellow),
            made(0, 2, 2, 46, Red),
            made(0, 3, 3, 46, Red),
        ],
        "CBS 46, EBS 46",
    );
}

// One of two callers asks two meters.
fn both_asked<R: AllocGlobal + Wait + Abort>(rt: &R) -> Vec<MeterLog>
    ensures { length result.items ≡ 2 }
{
    let (table, seats) = table_of(rt, &[("a", 46, 46), ("b", 100, 0)], 2);
    let (first, second) = two(rt, &table, seats);
    let first = ask(rt, &table, first, 0, (0, 0), 46);
    let first = ask(rt, &table, first, 1, (0, 1), 60);
    let first = ask(rt, &table, first, 1, (0, 2), 60);
    let first = ask(rt, &table, first, 0, (0, 3), 46);
    let first = ask(rt, &table, first, 1, (0, 4), 40);
    ended(rt, table, first, second)
}

#[test]
fn each_meter_has_its_own_log(rt: HostRuntime) {
    let logs = both_asked(&rt);
    has_marks(
        &rt,
        &logs[0],
        &[made(0, 0, 0, 46, Green), made(0, 1, 3, 46, Yellow)],
        "CBS 46, EBS 46",
    );
    has_marks(
        &rt,
        &logs[1],
        &[
            made(1, 0, 1, 60, Green),
            made(1, 1, 2, 60, Red),
            made(1, 2, 4, 40, Green),
        ],
        "CBS 100, EBS 0",
    );
}

fn at_once<R: AllocGlobal + Threads + Wait + Sync + Abort>(rt: &R) -> Counted {
    let (made, seats) = table_of(rt, &[("m", 2_300, 2_300)], 2);
    let table = &made;
    let (first, second) = two(rt, table, seats);
    let (first, second) = join(
        rt,
        move || -> Caller
            requires { IsSeatOf table.now first.seat
                × (0 < length (settings_of table.now))
                × AreAllMarks (first.seat ∷ []) first.marks.items
                × (vec_len first.marks ≡ 0) }
            ensures { IsSeatOf table.entry.now result.seat
                × ((n : ℕ) → parts_at n result.seat ≡ parts_at n first.seat)
                × AreAllMarks (result.seat ∷ []) result.marks.items }
        { ask_often(rt, table, first, 0) },
        move || -> Caller
            requires { IsSeatOf table.now second.seat
                × (0 < length (settings_of table.now))
                × AreAllMarks (second.seat ∷ []) second.marks.items
                × (vec_len second.marks ≡ 0) }
            ensures { IsSeatOf table.entry.now result.seat
                × ((n : ℕ) → parts_at n result.seat ≡ parts_at n second.seat)
                × AreAllMarks (result.seat ∷ []) result.marks.items }
        { ask_often(rt, table, second, 1) },
    );
    let logs = ended(rt, made, first, second);
    count_up(logs[0].marks.as_slice())
}

#[test]
fn two_threads_share_one_meter(rt: HostRuntime) {
    let wanted = Counted {
        colours: [50, 50, 100],
        in_turn: true,
        in_order: [TIMES, TIMES],
    };
    for _ in 0..20 {
        same(&rt, &at_once(&rt), &wanted, "CBS 2300, EBS 2300");
    }
}

#[test]
fn one_seat_marks_alone(rt: HostRuntime) {
    let (table, seats) = table_of(&rt, &[("m", 100, 0)], 1);
    let alone = sole(&rt, &table, seats);
    let alone = ask(&rt, &table, alone, 0, (0, 7), 101);
    let logs = ended_alone(&rt, table, alone);
    laws::one_seats_log();
    has_marks(&rt, &logs[0], &[made(0, 0, 7, 101, Red)], "CBS 100, EBS 0");
}

#[test]
fn no_meter_has_no_log(rt: HostRuntime) {
    let (table, seats) = table_of(&rt, &[], 2);
    let (first, second) = two(&rt, &table, seats);
    same(
        &rt,
        &ended(&rt, table, first, second).len(),
        &0,
        "no meters",
    );
}
