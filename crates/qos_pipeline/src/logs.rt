//! The logs of the meters of a run.
ghost use Rattle.std.specs.Prelude.{◌≡◌, ◌≤◌, ℕ, [], ◌∷◌, IfOk, vec_capacity};
ghost use Rattle.meter_table.specs.Seats.{AreAllSeats, marks_by};
ghost use Rattle.pkt_receive.specs.Colours.{marks_at};
ghost use Rattle.qos_pipeline.specs.Logs.{AreLogsOf};

use meter_table::laws::one_seats_log;
use meter_table::{Mark, MeterLog, MeterSeat, MeterTable};
use qos_base::NoMemory;
use std::sync::Wait;

// The logs of a table's meters, where one seat has made these marks; `seats` has room for it.
pub(crate) fn gather_one<R: Wait>(
    rt: &R,
    table: MeterTable,
    seat: MeterSeat,
    marks: Vec<Mark>,
    mut seats: Vec<MeterSeat>,
) -> Result<Vec<MeterLog>, NoMemory>
    requires all { AreAllSeats table (seat ∷ []) }
    requires kept { (meter : ℕ) → marks_by meter seat ≡ marks_at meter marks.items }
    requires room { (seats.items ≡ []) × (1 ≤ vec_capacity seats) }
    ensures { IfOk result (λ logs. AreLogsOf table marks.items logs.items) }
{
    one_seats_log();
    seats.push_reserved(seat);
    table.gather(rt, seats, marks)
}
