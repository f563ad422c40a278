//! An input through all ports, one packet after another.
ghost use Rattle.std.specs.Prelude.{◌≡◌, ◌<◌, ◌+◌, ℕ, List, length, true, false, None, Some, slice_get, IfOk, OnOk, OnErr};
ghost use Rattle.qos_pcap.specs.Format.{Record};
ghost use Rattle.pkt_receive.specs.Marks.{IsMarking, StaysMarker};
ghost use Rattle.pkt_receive.specs.Receiver.{IsFresh, IsReading, StaysReceiver, ToCome};
ghost use Rattle.port_egress.specs.declared.egress.Egress.{Egress};
ghost use Rattle.port_egress.specs.Egress.{IsDrained, IsReady};
ghost use Rattle.qos_pipeline.specs.Changes.{ChangesAt};
ghost use Rattle.qos_pipeline.specs.Ports.{AllCarry, AtPorts, SendersStay, bodies_of, journals_of};
ghost use Rattle.qos_pipeline.specs.Took.{HasBegun, HasStopped, IsSummed, TookBy};
ghost use Rattle.qos_pipeline.specs.Turns.{Goes, GoesOn, Halts, HasTaken, HaveDrained, MayTake};

use pkt_receive::laws::marks_agree;
use pkt_receive::{Marker, Received, Receiver};
use pkt_slots::{Mbuf, Slots};
use port_egress::Egress;
use port_egress::laws::places_are_there;
use profile_plan::Profile;
use qos_base::NoMemory;
use qos_io::{Sink, Source};
use qos_pcap::Stop;
use run_journal::laws::advances_go_by_steps;
use std::sync::Wait;

/// Runs an input through the ports of a profile to its end: each admitted packet arrives at its port at its moment, in the
/// input's order, and after the last each port is drained. There is an egress for each port.
///
/// `NoMemory`: a journal, a slot or a mark was refused memory, and the run is over. The call may wait for another caller of
/// the meters.
pub fn run_ports<R: Wait, S: Source, K: Sink>(
    rt: &R,
    p: &Profile,
    input: &mut Receiver<S>,
    egresses: &mut Vec<Egress<'_, K>>,
    slots: &mut Slots,
    marker: &mut Marker<'_>,
) -> Result<(), NoMemory>
    requires reading { IsReading S.Source input.old }
    requires fresh { IsFresh 0 input.old }
    requires marking { IsMarking p.now 0 marker.old }
    requires origin { marker.old.origin ≡ input.old.origin }
    requires slots { slots.old.slot_bytes ≡ p.now.pool.slot_bytes }
    requires begun { AtPorts p.now input.old.origin HasBegun egresses.old.items }
    ensures drained { OnOk result (AtPorts p.now input.old.origin (λ n s e. IsDrained s e) egresses.new.items) }
    ensures summed { OnOk result (IsSummed input.new (journals_of egresses.new.items)) }
    ensures took { OnOk result ((records : List Record) (stop : Stop) → ToCome S.Source input.old records stop
        → TookBy p.now records stop input.new marker.new.marks.items (journals_of egresses.new.items)) }
    ensures halted { OnErr result ((records : List Record) (stop : Stop) → ToCome S.Source input.old records stop
        → AtPorts p.now input.old.origin (HasStopped 0 records) egresses.new.items) }
    ensures carries { (records : List Record) (stop : Stop) → ToCome S.Source input.old records stop
        → AllCarry K.Sink (bodies_of records) egresses.old.items → AllCarry K.Sink (bodies_of records) egresses.new.items }
    ensures senders { SendersStay K.Sink egresses.old.items egresses.new.items }
    ensures input { OnOk result (StaysReceiver S.Source input.old input.new) }
    ensures marker { OnOk result (StaysMarker marker.old marker.new) }
{
    marks_agree();
    take_all(rt, p, input, egresses, slots, marker)?;
    drain_all(egresses, slots)
}

// Takes an input to its stop: each admitted packet arrives at its port at its moment.
fn take_all<R: Wait, S: Source, K: Sink>(
    rt: &R,
    p: &Profile,
    input: &mut Receiver<S>,
    egresses: &mut Vec<Egress<'_, K>>,
    slots: &mut Slots,
    marker: &mut Marker<'_>,
) -> Result<(), NoMemory>
    requires goes { Goes p.now input.old marker.old egresses.old.items }
    requires slots { slots.old.slot_bytes ≡ p.now.pool.slot_bytes }
    ensures goes_on { OnOk result (GoesOn p.now input.old input.new marker.old marker.new egresses.old.items egresses.new.items) }
    ensures stopped { OnOk result (input.new.head ≡ None) }
    ensures halts { OnErr result (Halts p.now input.old marker.old.marks.items egresses.old.items egresses.new.items) }
{
    while take_one(rt, p, input, egresses, slots, marker)? {}
    Ok(())
}

// Takes the next record of an input; false where it has come to its stop.
fn take_one<R: Wait, S: Source, K: Sink>(
    rt: &R,
    p: &Profile,
    input: &mut Receiver<S>,
    egresses: &mut Vec<Egress<'_, K>>,
    slots: &mut Slots,
    marker: &mut Marker<'_>,
) -> Result<bool, NoMemory>
    requires goes { Goes p.now input.old marker.old egresses.old.items }
    requires slots { slots.old.slot_bytes ≡ p.now.pool.slot_bytes }
    ensures goes_on { OnOk result (GoesOn p.now input.old input.new marker.old marker.new egresses.old.items egresses.new.items) }
    ensures more { IfOk result (λ more. more ≡ true → input.new.read ≡ input.old.read + 1) }
    ensures stopped { IfOk result (λ more. more ≡ false → input.new.head ≡ None) }
    ensures halts { OnErr result (Halts p.now input.old marker.old.marks.items egresses.old.items egresses.new.items) }
    ensures slots { slots.new.slot_bytes ≡ slots.old.slot_bytes }
{
    p.limits();
    marks_agree();
    places_are_there();
    advances_go_by_steps::<Mbuf>();
    match input.turn(rt, p, slots, marker)? {
        Received::Stopped => Ok(false),
        Received::Lost(_) => Ok(true),
        Received::Admitted(mbuf) => {
            arrive_at(egresses, mbuf, slots)?;
            Ok(true)
        }
    }
}

// A packet arrives at its port.
fn arrive_at<K: Sink>(
    egresses: &mut Vec<Egress<'_, K>>,
    mbuf: Mbuf,
    slots: &mut Slots,
) -> Result<(), NoMemory>
    requires port { mbuf.pkt.port < length egresses.old.items }
    requires may { (e : Egress K K.Sink) → slice_get egresses.old.items mbuf.pkt.port ≡ Some e → MayTake mbuf.pkt e }
    ensures taken { ChangesAt (HasTaken result mbuf) mbuf.pkt.port egresses.old.items egresses.new.items }
    ensures slots { slots.new.slot_bytes ≡ slots.old.slot_bytes }
{
    let port = mbuf.pkt.port as usize;
    egresses[port].arrive(mbuf, slots)
}

// Drains every port.
fn drain_all<K: Sink>(egresses: &mut Vec<Egress<'_, K>>, slots: &mut Slots) -> Result<(), NoMemory>
    requires ready { (n : ℕ) (e : Egress K K.Sink) → slice_get egresses.old.items n ≡ Some e → IsReady e }
    ensures { HaveDrained result egresses.old.items egresses.new.items }
{
    advances_go_by_steps::<Mbuf>();
    for egress in egresses.iter_mut() {
        egress.drain(slots)?;
    }
    Ok(())
}
