//! The table, and what its seats do.
ghost use Rattle.std.specs.Prelude.{◌≡◌, ◌≤◌, All, length};
ghost use Rattle.color_meter.specs.Meter.{full};

use crate::cell::{Cell, enter, look};
use crate::deal::set_up;
use crate::gather::log_of;
use crate::mark::{Mark, MeterLog};
use crate::seat::MeterSeat;
use crate::words::Ask;
use color_meter::Meter;
use profile_plan::Profile;
use qos_base::{Colour, NoMemory};
use std::alloc::Global;
use std::sync::Wait;

/// The meters of a profile, which callers share.
#[derive(Drop)]
pub struct MeterTable {
    // Each meter as it was when it began.
    pub(crate) meters: Vec<Meter>,
    pub(crate) cells: Vec<Cell>,
    pub(crate) alloc: Global,
    ghost few: { length meters.items ≤ 64 },
    ghost same: { length cells.items ≡ length meters.items },
    ghost begins_full: { All (λ m. m ≡ full m.setting) meters.items },
}

impl MeterTable {
    ghost use Rattle.std.specs.Prelude.{ℕ, ◌≢◌, ◌<◌, ◌^◌, ◌++◌, ◌∷◌, [], map, IfOk};
    ghost use Rattle.color_meter.specs.Setting.{setting_of};
    ghost use Rattle.meter_table.specs.Asked.{Request, request_in};
    ghost use Rattle.meter_table.specs.Logs.{AreAllMarks, AreLogs};
    ghost use Rattle.meter_table.specs.Seats.{AreAllSeats, IsFresh, IsSeatOf, marks_by, parts_at, settings_of};

    /// The meters of a profile, each full at time 0, and so many seats, of which none has made a mark.
    ///
    /// There are 1 to 48 seats. The call may wait.
    pub fn new<R: Wait>(
        rt: &R,
        alloc: Global,
        p: &Profile,
        jobs: u32,
    ) -> Result<(MeterTable, Vec<MeterSeat>), NoMemory>
        requires some_job { 1 ≤ jobs }
        requires jobs { jobs ≤ 48 }
        ensures settings { IfOk result (λ r. settings_of r.0 ≡ map setting_of p.now.meters) }
        ensures seats { IfOk result (λ r. length r.1.items ≡ jobs) }
        ensures fresh { IfOk result (λ r. All (IsFresh r.0) r.1.items) }
        ensures all { IfOk result (λ r. AreAllSeats r.0 r.1.items) }
    {
        let room = Vec::with_capacity(alloc, jobs as usize)?;
        let (table, seat) = set_up(rt, alloc, p.meters.as_slice())?;
        let seats = table.deal(seat, room, jobs)?;
        Ok((table, seats))
    }

    /// Marks a packet: its meter colours it, in one step. The packet is given as its input and its index there, `at` is its
    /// moment in nanoseconds since the origin, `len` its length in bytes, and `pre` the colour that it had.
    ///
    /// The meter is one of the table's, the seat is one of this table's and has made fewer than 2^56 marks, and `at` is at
    /// most 2^50. The call may wait for another caller.
    pub fn mark<R: Wait>(
        &self,
        rt: &R,
        seat: &mut MeterSeat,
        meter: u32,
        pkt: (u32, u32),
        at: u64,
        len: u32,
        pre: Colour,
    ) -> Mark
        requires seat { IsSeatOf self.now seat.old }
        requires meter { meter < length (settings_of self.now) }
        requires at { at ≤ 2 ^ 50 }
        requires few { length (marks_by meter seat.old) < 2 ^ 56 }
        ensures asked { request_in result ≡ record { meter = meter; input = pkt.0; index = pkt.1; at = at; len = len; pre = pre } }
        ensures seat { IsSeatOf self.now seat.new }
        ensures parts { (n : ℕ) → parts_at n seat.new ≡ parts_at n seat.old }
        ensures made { marks_by meter seat.new ≡ marks_by meter seat.old ++ result ∷ [] }
        ensures others { (n : ℕ) → n ≢ meter → marks_by n seat.new ≡ marks_by n seat.old }
        ensures turn { All (λ mark. mark.turn < result.turn) (marks_by meter seat.old) }
    {
        let n = meter as usize;
        let (input, index) = pkt;
        let ask = Ask {
            meter,
            input,
            index,
            at,
            len,
            pre,
        };
        enter(
            rt,
            &self.cells[n],
            &mut seat.passes[n],
            &self.meters[n],
            &ask,
        )
    }

    /// Ends the table: the log of each meter, by number. `seats` are all seats of the table, and `marks` all that they made,
    /// in any order.
    ///
    /// `NoMemory`: a log was refused memory. The call may wait.
    pub fn gather<R: Wait>(
        self,
        rt: &R,
        seats: Vec<MeterSeat>,
        marks: Vec<Mark>,
    ) -> Result<Vec<MeterLog>, NoMemory>
        requires seats { AreAllSeats self seats.items }
        requires marks { AreAllMarks seats.items marks.items }
        ensures { IfOk result (λ logs. AreLogs self seats.items logs.items) }
    {
        let mut logs = Vec::with_capacity(self.alloc, self.cells.len())?;
        let mut seats = seats;
        let Some(first) = seats.pop() else {
            return Ok(logs);
        };
        let mut all = self.join_all(first, seats);
        for n in 0..self.cells.len() {
            let seen = look(rt, &self.cells[n], &mut all.passes[n]);
            logs.push_reserved(log_of(self.alloc, n as u32, seen[0], marks.as_slice())?);
        }
        Ok(logs)
    }
}
