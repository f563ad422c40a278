//! What becomes of a record when it is received.
ghost use Rattle.std.specs.Prelude.{◌≡◌, ◌<◌, ◌≤◌, ◌++◌, ◌^◌, ℕ, List, IfOk, length, map};
ghost use Rattle.color_meter.specs.Setting.{setting_of};
ghost use Rattle.meter_table.specs.declared.mark.Mark.{Mark};
ghost use Rattle.meter_table.specs.Seats.{settings_of};
ghost use Rattle.qos_base.specs.declared.reason.Reason.{Reason};
ghost use Rattle.qos_pcap.specs.Heads.{recorded};
ghost use Rattle.pkt_slots.specs.Placed.{IsPlaced};
ghost use Rattle.pkt_receive.specs.Classes.{IsLoss};
ghost use Rattle.pkt_receive.specs.Fate.{fate_of, packet_of, policed};
ghost use Rattle.pkt_receive.specs.Marks.{IsFateOf, StaysMarker};
ghost use Rattle.pkt_receive.specs.declared.fate.Fate.TheVariants.{Admitted, Lost};

use crate::classify::classify;
use crate::marker::Marker;
use port_classify::Place;
use profile_plan::Profile;
use qos_base::{Colour, NoMemory, Pkt, Reason};
use qos_pcap::Head;
use std::sync::Wait;

/// What becomes of a record when it is received.
#[derive(Clone, Copy, Debug, PartialEq, Eq)]
pub enum Fate {
    /// Its packet arrives at a port, at this place and with this colour.
    Admitted(Place, Colour),
    /// It is lost, for the first reason that applies.
    Lost(Reason),
}

impl Fate {
    /// What becomes of the record of an input with this head and body, where a slot holds the body: lost where it comes to
    /// no place; policed where it has a meter that gives it a colour which the profile drops; else admitted.
    ///
    /// `NoMemory`: a mark was refused memory.
    pub(crate) fn of<R: Wait>(
        rt: &R,
        p: &Profile,
        input: u32,
        head: &Head,
        body: &[u8],
        marker: &mut Marker<'_>,
    ) -> Result<Fate, NoMemory>
        requires slot { head.now.cap ≤ p.now.pool.slot_bytes }
        requires settings { settings_of marker.old.table.now ≡ map setting_of p.now.meters }
        requires few { length marker.old.marks.items < 2 ^ 56 }
        ensures value { IfOk result (λ fate. (made : List Mark) × (marker.new.marks.items ≡ marker.old.marks.items ++ made)
            × IsFateOf p.now marker.old.origin input head.now.index (recorded head.now body.now) made fate) }
        ensures reason { IfOk result (λ fate. (reason : Reason) → fate ≡ Lost reason → IsLoss reason) }
        ensures place { IfOk result (λ fate. (place : Place) (colour : Colour) → fate ≡ Admitted place colour
            → (index : ℕ) → IsPlaced p.now (packet_of input index (recorded head.now body.now) place colour)) }
        ensures stays { StaysMarker marker.old marker.new }
    {
        let class = match classify(p, input, head, body) {
            Ok(class) => class,
            Err(reason) => return Ok(Fate::Lost(reason)),
        };
        let Some(meter) = class.place.meter else {
            return Ok(Fate::Admitted(class.place, class.place.pre));
        };
        let colour = marker.mark(rt, meter, input, head, &class)?;
        Ok(policed(p, meter, colour, class.place))
    }
}

// At its place a packet of this colour is policed where the profile drops that colour of its meter, else it is admitted.
fn policed(p: &Profile, meter: u32, colour: Colour, place: Place) -> Fate
    requires meter { meter < length p.now.meters }
    ensures { result ≡ policed p.now meter colour place }
{
    let [green, yellow, red] = p.meters.as_slice()[meter as usize].drops;
    let drops = match colour {
        Colour::Green => green,
        Colour::Yellow => yellow,
        Colour::Red => red,
    };
    if drops {
        Fate::Lost(Reason::Policed)
    } else {
        Fate::Admitted(place, colour)
    }
}

/// The packet of the record of an input with this head, at its place and with its colour.
pub(crate) fn packet(input: u32, head: &Head, place: Place, colour: Colour) -> Pkt
    ensures { (body : List ℕ) → result ≡ packet_of input head.now.index (recorded head.now body) place colour }
{
    Pkt {
        input,
        index: head.index,
        wire: head.wire,
        cap: head.cap,
        stamp: head.stamp,
        port: place.port,
        subport: place.subport,
        pipe: place.pipe,
        queue: place.queue,
        colour,
    }
}
