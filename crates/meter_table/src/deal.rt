//! Seats for the callers of a table.
ghost use Rattle.std.specs.Prelude.{◌≡◌, ℕ, ◌+◌, ◌<◌, ◌≤◌, [], length, map, vec_capacity, All, IfOk};
ghost use Rattle.profile_plan.specs.Limits.{IsMeter};
ghost use Rattle.color_meter.specs.Setting.{setting_of};
ghost use Rattle.meter_table.specs.Seats.{AreAllSeats, HasParts, IsFresh, parts_at, settings_of};

use crate::cell::{make, split};
use crate::seat::MeterSeat;
use crate::table::MeterTable;
use color_meter::Meter;
use profile_plan::MeterPlan;
use qos_base::NoMemory;
use std::alloc::Global;
use std::sync::Wait;

/// A table of these meters, and the seat that has all parts of their cells.
pub fn set_up<R: Wait>(
    rt: &R,
    alloc: Global,
    plans: &[MeterPlan],
) -> Result<(MeterTable, MeterSeat), NoMemory>
    requires plans { All IsMeter plans.now }
    requires count { length plans.now ≤ 64 }
    ensures settings { IfOk result (λ r. settings_of r.0 ≡ map setting_of plans.now) }
    ensures fresh { IfOk result (λ r. IsFresh r.0 r.1) }
    ensures parts { IfOk result (λ r. HasParts r.0 48 r.1) }
{
    let mut meters = Vec::with_capacity(alloc, plans.len())?;
    let mut cells = Vec::with_capacity(alloc, plans.len())?;
    let mut passes = Vec::with_capacity(alloc, plans.len())?;
    for (i, plan) in plans.iter().enumerate() {
        let (cell, pass) = make(rt, alloc, i as u32, plan)?;
        meters.push_reserved(Meter::new(plan));
        cells.push_reserved(cell);
        passes.push_reserved(pass);
    }
    let table = MeterTable {
        meters,
        cells,
        alloc,
    };
    Ok((table, MeterSeat { passes }))
}

impl MeterTable {
    /// So many seats out of one.
    pub(crate) fn deal(
        &self,
        mut first: MeterSeat,
        mut dealt: Vec<MeterSeat>,
        seats: u32,
    ) -> Result<Vec<MeterSeat>, NoMemory>
        requires fresh { IsFresh self.now first }
        requires parts { HasParts self.now 48 first }
        requires seats { (1 ≤ seats) × (seats ≤ 48) }
        requires room { (dealt.items ≡ []) × (seats ≤ vec_capacity dealt) }
        ensures seats { IfOk result (λ r. length r.items ≡ seats) }
        ensures fresh { IfOk result (λ r. All (IsFresh self.now) r.items) }
        ensures all { IfOk result (λ r. AreAllSeats self.now r.items) }
    {
        for _ in 1..seats {
            let seat = self.split(&mut first)?;
            dealt.push_reserved(seat);
        }
        dealt.push_reserved(first);
        Ok(dealt)
    }

    // One part of each cell from a fresh seat, as another fresh seat.
    fn split(&self, seat: &mut MeterSeat) -> Result<MeterSeat, NoMemory>
        requires fresh { IsFresh self.now seat.old }
        requires parts { (n : ℕ) → n < length self.now.cells.items → 1 < parts_at n seat.old }
        ensures kept { IfOk result (λ _. IsFresh self.now seat.new) }
        ensures fewer { IfOk result (λ _. (n : ℕ) → n < length self.now.cells.items → parts_at n seat.new + 1 ≡ parts_at n seat.old) }
        ensures fresh { IfOk result (λ r. IsFresh self.now r) }
        ensures parts { IfOk result (λ r. HasParts self.now 1 r) }
    {
        let mut passes = Vec::with_capacity(self.alloc, self.cells.len())?;
        for i in 0..self.cells.len() {
            passes.push_reserved(split(&self.cells[i], &mut seat.passes[i]));
        }
        Ok(MeterSeat { passes })
    }
}
