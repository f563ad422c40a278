//! Send: what is sent is put into the output and counted, and the first fault is kept.
ghost use Rattle.std.specs.Prelude.{◌≡◌, ◌≤◌, ◌<◌, ◌+◌, ◌^◌, ◌++◌, [], ◌∷◌, ℕ, List, All, Some, None, map, length, IsErrOf, OnOk, OnErr};
ghost use Rattle.std.specs.Prelude.{IfSome, IsSome};
ghost use Rattle.qos_base.specs.declared.packet.Departure.{Departure};
ghost use Rattle.qos_base.specs.declared.packet.Pkt.{Pkt};
ghost use Rattle.qos_io.specs.Bytes.{held_after, PutSome};
ghost use Rattle.qos_io.specs.Fault.{Counts};
ghost use Rattle.pkt_slots.specs.declared.mbuf.Mbuf.{Mbuf};
ghost use Rattle.pkt_slots.specs.Mbuf.{IsBodyIn, packet_in};
ghost use Rattle.port_egress.specs.Output.{send_text};
ghost use Rattle.port_egress.specs.Sender.{HasWritten, StaysSender, seen, target_by, unbegun};

use crate::stamps::Stamps;
use pkt_slots::Mbuf;
use qos_base::Departure;
use qos_io::{PutFault, Sink};
use qos_pcap::{put_header, put_record};

/// The output of a port, as far as it was written.
#[derive(Drop)]
pub struct Sender<K: Sink> {
    /// Where it is written; None where it could not be created.
    pub sink: Option<K>,
    /// The stamps of its records.
    pub stamps: Stamps,
    /// How many sends' records were put whole.
    pub sent: u64,
    /// How many sends' records were not.
    pub unwritten: u64,
    /// The first fault. After it nothing more is put.
    pub fault: Option<PutFault>,
}

impl<K: Sink> Sender<K> {
    // An output that is not begun.
    pub(crate) fn new(stamps: Stamps) -> Sender<K>
        ensures { result ≡ unbegun None stamps }
    {
        Sender {
            sink: None,
            stamps,
            sent: 0,
            unwritten: 0,
            fault: None,
        }
    }

    // Begins the output: its header is put, where there is a sink.
    pub(crate) fn begin(&mut self, sink: Option<K>)
        requires { self.old ≡ unbegun None self.old.stamps }
        ensures written { IfSome sink (λ k. K.contents k ≡ Some []) → (body : Pkt → List ℕ) → HasWritten K.Sink body [] self.new }
        ensures numbers { (self.new.sent ≡ 0) × (self.new.unwritten ≡ 0) }
        ensures stays { StaysSender K.Sink (unbegun sink self.old.stamps) self.new }
    {
        let Some(mut sink) = sink else {
            self.fault = Some(PutFault::Failed);
            return;
        };
        self.fault = put_header(&mut sink).err();
        self.sink = Some(sink);
    }

    // Writes the record of a send, unless there was a fault, and counts it.
    pub(crate) fn send(&mut self, departure: &Departure<Mbuf>)
        requires { self.old.sent + self.old.unwritten < 2 ^ 62 }
        ensures written { (body : Pkt → List ℕ) (sends : List (Departure Pkt)) → IsBodyIn body departure.now.parcel
            → HasWritten K.Sink body sends self.old → HasWritten K.Sink body (sends ++ seen departure.now ∷ []) self.new }
        ensures counted { self.new.sent + self.new.unwritten ≡ self.old.sent + self.old.unwritten + 1 }
        ensures stays { StaysSender K.Sink self.old self.new }
    {
        if self.fault.is_some() {
            self.unwritten += 1;
            return;
        }
        let Some(sink) = &mut self.sink else {
            self.unwritten += 1;
            return;
        };
        match put_send(sink, &self.stamps, departure) {
            Ok(()) => self.sent += 1,
            Err(fault) => {
                self.fault = Some(fault);
                self.unwritten += 1;
            }
        }
    }

    // Writes the records of a dequeue's sends, in their order.
    pub(crate) fn send_all(&mut self, sends: &[Departure<Mbuf>])
        requires { self.old.sent + self.old.unwritten + length sends.now < 2 ^ 62 }
        ensures written { (body : Pkt → List ℕ) (before : List (Departure Pkt)) → All
            (λ (d : Departure Mbuf). IsBodyIn body d.parcel) sends.now
            → HasWritten K.Sink body before self.old → HasWritten K.Sink body (before ++ map seen sends.now) self.new }
        ensures counted { self.new.sent + self.new.unwritten ≡ self.old.sent + self.old.unwritten + length sends.now }
        ensures stays { StaysSender K.Sink self.old self.new }
    {
        for departure in sends {
            self.send(departure);
        }
    }
}

// Puts the record of a send.
fn put_send<K: Sink>(
    out: &mut K,
    stamps: &Stamps,
    departure: &Departure<Mbuf>,
) -> Result<(), PutFault>
    ensures added { (body : Pkt → List ℕ) → IsBodyIn body departure.now.parcel
        → OnOk result (K.contents out.new ≡ held_after (send_text (target_by stamps.now body) (seen departure.now)) (K.contents out.old)) }
    ensures refused { (body : Pkt → List ℕ) → IsBodyIn body departure.now.parcel
        → OnErr result (PutSome (send_text (target_by stamps.now body) (seen departure.now)) (K.contents out.old) (K.contents out.new)) }
    ensures told { IsSome (K.contents out.old) → IsSome (K.contents out.new) }
    ensures name { K.name out.new ≡ K.name out.old }
    ensures faults { Counts K.faults K.IsSure out.old out.new (IsErrOf result PutFault.Failed) }
{
    let mbuf = &departure.parcel;
    put_record(out, stamps.of(departure.time), mbuf.pkt.wire, mbuf.frame())
}
