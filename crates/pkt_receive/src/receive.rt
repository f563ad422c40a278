//! Receive: one record after another, each into a slot of its own or lost for a reason.
ghost use Rattle.std.specs.Prelude.{◌≡◌, ◌≢◌, ◌+◌, ◌≤◌, ◌⊎◌, ◌++◌, ◌∷◌, [], ℕ, List, Option, Some, None, OnOk, IfOk, IfErr, IfSome, IfNone, IsErrOf};
ghost use Rattle.std.specs.Prelude.{length, take};
ghost use Rattle.std.specs.Option.{option_map};
ghost use Rattle.qos_io.specs.Fault.{Counts};
ghost use Rattle.qos_pcap.specs.Format.{Record};
ghost use Rattle.qos_pcap.specs.Heads.{recorded};
ghost use Rattle.qos_pcap.specs.Given.{StillGives, NextStamp, HasGiven, HasPassedBody, given, limit_of, source_of, untaken};
ghost use Rattle.pkt_receive.specs.declared.receive.Halt.{Halt};
ghost use Rattle.pkt_receive.specs.Halts.{IfFault};
ghost use Rattle.pkt_receive.specs.Losses.{no_losses};
ghost use Rattle.meter_table.specs.declared.mark.Mark.{Mark};
ghost use Rattle.pkt_receive.specs.Marks.{IsMarking, StaysMarker};
ghost use Rattle.pkt_receive.specs.Receiver.{IsReadFault, IsReceived, IsSorted, HasPlace};
ghost use Rattle.qos_io.specs.Bytes.{bytes_in};
ghost use Rattle.qos_io.specs.Shelves.{ChangesOnly};
ghost use Rattle.qos_pcap.specs.Reads.{Reads};
ghost use Rattle.pkt_receive.specs.Receiver.{IsReading, IsFine, ToCome, IsFresh, HasOrigin, StaysReceiver};

use crate::fate::{Fate, packet};
use crate::limits::MAX_RECORDS;
use crate::losses::Losses;
use crate::marker::Marker;
use pkt_slots::{Mbuf, Slots};
use profile_plan::Profile;
use qos_base::{NoMemory, Reason};
use qos_io::{PutFault, Shelf, Source};
use qos_pcap::{Capture, Head, PcapFault, Stop, open_capture};
use std::sync::Wait;

/// What was received.
#[derive(Drop)]
pub enum Received {
    /// A packet that is admitted, in its slot.
    Admitted(Mbuf),
    /// A record that is lost, and why.
    Lost(Reason),
    /// Nothing more: the input has come to its stop.
    Stopped,
}

/// An input that is received, one record after another.
#[derive(Drop)]
pub struct Receiver<S: Source> {
    /// Its number, from 0.
    pub input: u32,
    /// Its capture; None where it could not be opened.
    pub capture: Option<Capture<S>>,
    /// The head of the next record; None once it has stopped.
    pub head: Option<Head>,
    /// How it stopped, once it has.
    pub stopped: Stop,
    /// The stamp of its first head in nanoseconds, or 0 where there is none.
    pub origin: u64,
    /// How many whole records were received.
    pub read: u64,
    /// How many of them were lost.
    pub losses: Losses,
}

// Why a record was not received.
enum Halt {
    Memory,
    Fault(PcapFault),
}

// Moves the body of the last head to the front of a slot.
fn body_into_front<S: Source>(
    capture: &mut Capture<S>,
    slot: &mut [u8],
    cap: usize,
) -> Result<(), PcapFault>
    requires next { option_map (λ head. head.cap) (untaken capture.old) ≡ Some cap }
    requires fits { cap ≤ length slot.old }
    ensures passed { OnOk result (HasPassedBody capture.old capture.new) }
    ensures body { OnOk result ((head : Head) (records : List Record) (stop : Stop) → untaken capture.old ≡ Some head
        → StillGives S.remaining capture.old records stop
        → (rest : List Record) × (records ≡ recorded head (take cap slot.new) ∷ rest) × StillGives S.remaining capture.new rest stop) }
    ensures fault { IfErr result (λ fault. fault ≢ PcapFault.Read → (records : List Record) (stop : Stop)
        → StillGives S.remaining capture.old records stop → (records ≡ []) × (stop ≡ Stop.Fault fault)) }
    ensures limit { limit_of capture.new ≡ limit_of capture.old }
    ensures faults { Counts S.faults S.IsSure (source_of capture.old) (source_of capture.new) (IsErrOf result PcapFault.Read) }
{
    capture.body_into(&mut slot[..cap])
}

// The head of the next record, or how the capture stops.
#[inline(always)]
fn next_of<S: Source>(capture: &mut Capture<S>) -> (Option<Head>, Stop)
    requires { untaken capture.old ≡ None }
    ensures head { IfSome result.0 (HasGiven capture.old capture.new) }
    ensures keeps { IfSome result.0 (λ head. (records : List Record) (stop : Stop) → StillGives S.remaining capture.old records stop
        → StillGives S.remaining capture.new records stop) }
    ensures stops { IfNone result.0 ((records : List Record) (stop : Stop) → StillGives S.remaining capture.old records stop
        → IsReadFault result.1 ⊎ ((records ≡ []) × (result.1 ≡ stop))) }
    ensures stamp { (stamp : Option ℕ) → NextStamp S.remaining capture.old stamp → IsReadFault result.1 ⊎ (option_map
        (λ head. head.stamp) result.0 ≡ stamp) }
    ensures goes_on { IfSome result.0 (λ head. IsReadFault result.1 → ⊥) }
    ensures opened { result.1 ≢ Stop.NotOpened }
    ensures limit { limit_of capture.new ≡ limit_of capture.old }
    ensures faults { Counts S.faults S.IsSure (source_of capture.old) (source_of capture.new) (IsReadFault result.1) }
{
    match capture.next_head() {
        Ok(Some(head)) => (Some(head), Stop::End),
        Ok(None) => (None, Stop::End),
        Err(fault) => (None, Stop::Fault(fault)),
    }
}

// A record whose body is at the front of a slot: its packet in that slot, or the reason for which it is lost.
fn sort<R: Wait>(
    rt: &R,
    p: &Profile,
    input: u32,
    head: &Head,
    bytes: Vec<u8>,
    slots: &mut Slots,
    marker: &mut Marker<'_>,
) -> Result<Received, NoMemory>
    requires fits { head.now.cap ≤ length bytes.items }
    requires slot { head.now.cap ≤ p.now.pool.slot_bytes }
    requires captured { head.now.cap ≤ head.now.wire }
    requires marking { IsMarking p.now MAX_RECORDS marker.old }
    ensures received { IfOk result (λ received. (made : List Mark) × (marker.new.marks.items ≡ marker.old.marks.items ++ made)
        × IsReceived p.now marker.old.origin input head.now.index (recorded head.now (take head.now.cap bytes.items)) made received) }
    ensures something { IfOk result (λ received. received ≢ Received.Stopped) }
    ensures place { IfOk result (HasPlace p.now) }
    ensures stays { StaysMarker marker.old marker.new }
    ensures slots { slots.new.slot_bytes ≡ slots.old.slot_bytes }
{
    p.limits();
    match Fate::of(rt, p, input, head, &bytes[..head.cap as usize], marker)? {
        Fate::Lost(reason) => {
            slots.give_bytes(bytes);
            Ok(Received::Lost(reason))
        }
        Fate::Admitted(place, colour) => Ok(Received::Admitted(Mbuf {
            bytes,
            pkt: packet(input, head, place, colour),
        })),
    }
}

// Receives the record of this head, which is the last that the capture gave.
fn receive<R: Wait, S: Source>(
    rt: &R,
    p: &Profile,
    input: u32,
    capture: &mut Capture<S>,
    head: &Head,
    slots: &mut Slots,
    marker: &mut Marker<'_>,
) -> Result<Received, Halt>
    requires next { untaken capture.old ≡ Some head.now }
    requires captured { head.now.cap ≤ head.now.wire }
    requires slots { slots.old.slot_bytes ≡ p.now.pool.slot_bytes }
    requires marking { IsMarking p.now MAX_RECORDS marker.old }
    ensures passed { OnOk result (HasPassedBody capture.old capture.new) }
    ensures received { IfOk result (λ received. (records : List Record) (stop : Stop) → StillGives S.remaining capture.old records stop
        → (r : Record) × (rest : List Record) × (records ≡ r ∷ rest)
        × IsSorted p.now marker.old marker.new input head.now.index r received × StillGives S.remaining capture.new rest stop) }
    ensures marks { IfOk result (λ _. length marker.new.marks.items ≤ length marker.old.marks.items + 1) }
    ensures something { IfOk result (λ received. received ≢ Received.Stopped) }
    ensures place { IfOk result (HasPlace p.now) }
    ensures halted { IfErr result (IfFault (λ fault. (marker.new.marks.items ≡ marker.old.marks.items)
        × ((records : List Record) (stop : Stop) → StillGives S.remaining capture.old records stop
        → IsReadFault (Stop.Fault fault) ⊎ ((records ≡ []) × (Stop.Fault fault ≡ stop))))) }
    ensures limit { limit_of capture.new ≡ limit_of capture.old }
    ensures given { OnOk result (given capture.new ≡ given capture.old) }
    ensures faults { Counts S.faults S.IsSure (source_of capture.old) (source_of capture.new) (result ≡ Err (Halt.Fault PcapFault.Read)) }
    ensures stays { StaysMarker marker.old marker.new }
    ensures slots { slots.new.slot_bytes ≡ slots.old.slot_bytes }
{
    if head.cap > p.pool.slot_bytes {
        return match capture.skip_body() {
            Ok(()) => Ok(Received::Lost(Reason::TooLong)),
            Err(fault) => Err(Halt::Fault(fault)),
        };
    }
    let Ok(mut bytes) = slots.take() else {
        return Err(Halt::Memory);
    };
    match body_into_front(capture, &mut bytes, head.cap as usize) {
        Ok(()) => sort(rt, p, input, head, bytes, slots, marker).map_err(|_| Halt::Memory),
        Err(fault) => Err(Halt::Fault(fault)),
    }
}

impl<S: Source> Receiver<S> {
    ghost use Rattle.std.specs.Prelude.{◌<◌, ◌^◌};
    ghost use Rattle.pkt_receive.specs.Receiver.{Gives, Counted, IsCounted, with_received};

    /// Receives the next record. A packet that is admitted comes in a slot of its own; a record that is not keeps
    /// none and is passed over. One that reaches a meter is marked.
    ///
    /// `NoMemory`: a slot or a mark was refused memory. The call may wait for another caller of the meters.
    pub fn turn<R: Wait>(
        &mut self,
        rt: &R,
        p: &Profile,
        slots: &mut Slots,
        marker: &mut Marker<'_>,
    ) -> Result<Received, NoMemory>
        requires reading { IsReading S.Source self.old }
        requires slots { slots.old.slot_bytes ≡ p.now.pool.slot_bytes }
        requires marking { IsMarking p.now self.old.read marker.old }
        ensures reading { OnOk result (IsReading S.Source self.new) }
        ensures marking { OnOk result (IsMarking p.now self.new.read marker.new) }
        ensures received { IfOk result (λ received. (records : List Record) (stop : Stop) → ToCome S.Source self.old records stop
            → Gives S.Source p.now marker.old marker.new self.new received self.old.read records stop) }
        ensures counted { IfOk result (Counted self.old self.new) }
        ensures place { IfOk result (HasPlace p.now) }
        ensures stays { StaysReceiver S.Source self.old self.new }
        ensures marker { StaysMarker marker.old marker.new }
        ensures slots { slots.new.slot_bytes ≡ slots.old.slot_bytes }
    {
        let Some(head) = self.head else {
            return Ok(Received::Stopped);
        };
        let Some(capture) = &mut self.capture else {
            return Ok(Received::Stopped);
        };
        match receive(rt, p, self.input, capture, &head, slots, marker) {
            Err(Halt::Memory) => Err(NoMemory),
            Err(Halt::Fault(fault)) => {
                self.head = None;
                self.stopped = Stop::Fault(fault);
                Ok(Received::Stopped)
            }
            Ok(received) => {
                (self.head, self.stopped) = next_of(capture);
                self.count(&received);
                Ok(received)
            }
        }
    }

    // Counts a record that was received.
    fn count(&mut self, received: &Received)
        requires read { self.old.read < 2 ^ 32 }
        requires lost { IsCounted S.Source self.old }
        ensures { self.new ≡ record self.old { read = self.old.read + 1; losses = with_received self.old.losses received.now } }
    {
        self.read += 1;
        if let Received::Lost(reason) = received {
            self.losses.count(*reason);
        }
    }
}

// An input that stops before its first head.
fn stopped<S: Source>(input: u32, stopped: Stop) -> Receiver<S>
    ensures { result ≡ record { input = input; capture = None; head = None; stopped = stopped; origin = 0; read = 0; losses = no_losses } }
{
    Receiver {
        input,
        capture: None,
        head: None,
        stopped,
        origin: 0,
        read: 0,
        losses: Losses::none(),
    }
}

// Reads the header of a capture and its first head.
fn begin<S: Source>(input: u32, source: S) -> Receiver<S>
    ensures told { (bytes : List ℕ) (records : List Record) (stop : Stop) → S.remaining source ≡ Some bytes
        → Reads bytes MAX_RECORDS records stop → ToCome S.Source result records stop }
    ensures origin { (bytes : List ℕ) → S.remaining source ≡ Some bytes → HasOrigin bytes result }
    ensures reading { IsReading S.Source result }
    ensures numbers { IsFresh input result }
    ensures opened { result.stopped ≢ Stop.NotOpened }
    ensures fine { S.IsSure source → IsFine S.Source result }
{
    let mut capture = match open_capture(source, MAX_RECORDS) {
        Ok(capture) => capture,
        Err(fault) => return stopped(input, Stop::Fault(fault)),
    };
    let (head, stopped) = next_of(&mut capture);
    Receiver {
        input,
        capture: Some(capture),
        head,
        stopped,
        origin: head.map_or(0, |head| head.stamp),
        read: 0,
        losses: Losses::none(),
    }
}

/// Opens the input of a number and a name, and reads the header of its capture and its first head. At most 2,000,000,000
/// records are read of it.
///
/// `NoMemory`: the shelf was refused memory.
pub fn open_input<H: Shelf>(
    shelf: &mut H,
    name: &str,
    input: u32,
) -> Result<Receiver<H::In>, NoMemory>
    ensures told { H.Tells shelf.old → IfOk result (λ rx. (records : List Record) (stop : Stop)
        → Reads (bytes_in (H.file shelf.old name.now)) MAX_RECORDS records stop → ToCome H.In.Source rx records stop) }
    ensures origin { H.Tells shelf.old → IfOk result (λ rx. HasOrigin (bytes_in (H.file shelf.old name.now)) rx) }
    ensures absent { H.Tells shelf.old → H.file shelf.old name.now ≡ None → (H.IsSureToRead shelf.old name.now → ⊥) → IfOk result
        (λ rx. (rx.head ≡ None) × (rx.stopped ≡ Stop.NotOpened)) }
    ensures reading { IfOk result (IsReading H.In.Source) }
    ensures numbers { IfOk result (IsFresh input) }
    ensures fine { H.IsSureToRead shelf.old name.now → IfOk result (IsFine H.In.Source) }
    ensures others { ChangesOnly H.Shelf None shelf.old shelf.new }
    ensures closed { H.Tells shelf.old → H.closed shelf.new ≡ H.closed shelf.old }
    ensures never_falls { H.faults shelf.old ≤ H.faults shelf.new }
{
    match shelf.open_in(name) {
        Ok(source) => Ok(begin(input, source)),
        Err(PutFault::Failed) => Ok(stopped(input, Stop::NotOpened)),
        Err(PutFault::NoMemory) => Err(NoMemory),
    }
}
