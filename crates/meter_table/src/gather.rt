//! The end of a table: its seats as one, and the log of each meter.
ghost use Rattle.std.specs.Prelude.{◌≡◌, ℕ, ◌+◌, ◌<◌, ◌≤◌, ◌++◌, List, length, vec_len, All, IfOk};
ghost use Rattle.std.specs.List.{sum_by};
ghost use Rattle.meter_table.specs.Gathered.{Fills};
ghost use Rattle.meter_table.specs.Kept.{StandsIn};
ghost use Rattle.meter_table.specs.Log.{made_at};
ghost use Rattle.meter_table.specs.Seats.{HasPasses, marks_by, parts_at};
ghost use Rattle.meter_table.specs.declared.mark.Mark.{Mark};

use crate::cell::join;
use crate::mark::{Mark, MeterLog};
use crate::seat::MeterSeat;
use crate::table::MeterTable;
use qos_base::{Colour, NoMemory, Sequence};
use std::alloc::Global;

impl MeterTable {
    // Two seats as one.
    fn join(&self, seat: &mut MeterSeat, other: MeterSeat)
        requires seat { HasPasses self.now seat.old }
        requires other { HasPasses self.now other }
        ensures seat { HasPasses self.now seat.new }
        ensures parts { (n : ℕ) → parts_at n seat.new ≡ parts_at n seat.old + parts_at n other }
        ensures made { (n : ℕ) → marks_by n seat.new ≡ marks_by n seat.old ++ marks_by n other }
    {
        let MeterSeat { mut passes } = other;
        while let Some(pass) = passes.pop() {
            let n = passes.len();
            join(&self.cells[n], &mut seat.passes[n], pass);
        }
    }

    /// A seat and others as one.
    pub(crate) fn join_all(&self, first: MeterSeat, mut seats: Vec<MeterSeat>) -> MeterSeat
        requires first { HasPasses self.now first }
        requires seats { All (HasPasses self.now) seats.items }
        ensures seat { HasPasses self.now result }
        ensures parts { (n : ℕ) → parts_at n result ≡ sum_by (parts_at n) seats.items + parts_at n first }
        ensures made { (n turn : ℕ) → made_at turn (marks_by n result) ≡ sum_by (λ s. made_at turn (marks_by n s)) seats.items + made_at turn (marks_by n first) }
        ensures stand { (n : ℕ) (log : List Mark) → All (StandsIn log) (marks_by n result) → All (λ s. All (StandsIn log) (marks_by n s)) seats.items × All (StandsIn log) (marks_by n first) }
    {
        let mut all = first;
        while let Some(seat) = seats.pop() {
            self.join(&mut all, seat);
        }
        all
    }
}

// A mark that stands for none.
fn no_mark(meter: u32) -> Mark {
    Mark {
        meter,
        turn: 0,
        input: 0,
        index: 0,
        at: 0,
        len: 0,
        pre: Colour::Green,
        colour: Colour::Green,
    }
}

// Puts each mark of a meter at its turn.
fn place(marks: &[Mark], meter: u32, log: &mut Vec<Mark>)
    requires { (full : List Mark) × Fills meter marks.now full × (length full ≡ vec_len log.old) }
    ensures { (full : List Mark) → Fills meter marks.now full → length full ≡ vec_len log.old → log.new.items ≡ full }
{
    for mark in marks {
        if mark.meter == meter {
            log[mark.turn as usize] = *mark;
        }
    }
}

/// The log of a meter that made so many of these marks.
pub fn log_of(alloc: Global, meter: u32, count: u64, marks: &[Mark]) -> Result<MeterLog, NoMemory>
    requires { (full : List Mark) × Fills meter marks.now full × (length full ≡ count) }
    ensures meter { IfOk result (λ r. r.meter ≡ meter) }
    ensures marks { IfOk result (λ r. (full : List Mark) → Fills meter marks.now full → length full ≡ count → r.marks ≡ full) }
{
    let mut log = Vec::from_elem(alloc, no_mark(meter), count as usize)?;
    place(marks, meter, &mut log);
    Ok(MeterLog {
        meter,
        marks: Sequence::of(log),
    })
}
