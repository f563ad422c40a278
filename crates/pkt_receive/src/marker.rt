//! The marks of an input's packets.
ghost use Rattle.std.specs.Prelude.{◌≡◌, ◌==◌, ◌<◌, ℕ, [], filter, length};
ghost use Rattle.meter_table.specs.Seats.{IsSeatOf, marks_by};

use crate::classify::Classified;
use meter_table::{Mark, MeterSeat, MeterTable};
use qos_base::{Colour, MAX_MOMENT, NoMemory};
use qos_pcap::Head;
use std::alloc::Global;
use std::sync::Wait;

/// Marks the packets of an input, by a seat of its own at the meters' table.
#[derive(Drop)]
pub struct Marker<'t> {
    /// The meters.
    pub table: &'t MeterTable,
    /// The seat.
    pub seat: MeterSeat,
    /// Where moments begin, in nanoseconds.
    pub origin: u64,
    /// The marks that were made, oldest first.
    pub marks: Vec<Mark>,
    ghost seat_is: { IsSeatOf table.now seat },
    ghost kept: { (meter : ℕ) → marks_by meter seat ≡ filter (λ mark. mark.meter == meter) marks.items },
}

impl<'t> Marker<'t> {
    ghost use Rattle.std.specs.Prelude.{◌≤◌, ◌∷◌, ◌++◌, ◌^◌, IfOk, OnOk};
    ghost use Rattle.meter_table.specs.Asked.{request_in};
    ghost use Rattle.meter_table.specs.Seats.{IsFresh, settings_of};
    ghost use Rattle.pkt_receive.specs.Marks.{StaysMarker, request_of};

    /// No marks yet. The seat has made none.
    pub fn new(alloc: Global, table: &'t MeterTable, seat: MeterSeat, origin: u64) -> Marker<'t>
        requires fresh { IsFresh table.now seat }
        ensures { (result.table.now ≡ table.now) × (result.seat ≡ seat) × (result.origin ≡ origin) × (result.marks.items ≡ []) }
    {
        Marker {
            table,
            seat,
            origin,
            marks: Vec::new(alloc),
        }
    }

    // Marks the record of this head of an input, which has come to a place with this meter.
    //
    // `NoMemory`: the list of marks was refused memory, and nothing was marked.
    pub(crate) fn mark<R: Wait>(
        &mut self,
        rt: &R,
        meter: u32,
        input: u32,
        head: &Head,
        class: &Classified,
    ) -> Result<Colour, NoMemory>
        requires meter { meter < length (settings_of self.old.table.now) }
        requires few { length self.old.marks.items < 2 ^ 56 }
        ensures made { IfOk result (λ colour. (mark : Mark) × (self.new.marks.items ≡ self.old.marks.items ++ mark ∷ [])
            × (mark.colour ≡ colour) × (request_in mark ≡ request_of self.old.origin input head.now.index head.now.stamp class.now meter)) }
        ensures stays { StaysMarker self.old self.new }
    {
        self.marks.reserve(1)?;
        let at = head.stamp.saturating_sub(self.origin).min(MAX_MOMENT);
        let packet = (input, head.index);
        let (len, pre) = (class.len, class.place.pre);
        let mark = self
            .table
            .mark(rt, &mut self.seat, meter, packet, at, len, pre);
        self.marks.push_reserved(mark);
        Ok(mark.colour)
    }
}
