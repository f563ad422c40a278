//! A run with its outputs: they are created, the input is run through the ports, and they are closed.
ghost use Rattle.std.specs.Prelude.{◌≡◌, ◌≤◌, ℕ, List, [], None, Some, true, map, length, slice_get, string_bytes, vec_capacity};
ghost use Rattle.std.specs.Prelude.{All, IsSome, IfSome, IfOk, OnOk, OnErr};
ghost use Rattle.std.specs.Prelude.{Bool, Option};
ghost use Rattle.qos_io.specs.declared.sink.PutFault.{PutFault};
ghost use Rattle.qos_pcap.specs.Format.{Record};
ghost use Rattle.pkt_receive.specs.Marks.{AreLegalLogs};
ghost use Rattle.pkt_receive.specs.Receiver.{IsFresh, IsReading, StaysReceiver, ToCome};
ghost use Rattle.port_egress.specs.declared.egress.Egress.{Egress};
ghost use Rattle.port_egress.specs.Sender.{IsFine, unbegun};
ghost use Rattle.port_files.specs.Among.{AreApart, ChangesAmong};
ghost use Rattle.port_files.specs.Change.{change_of};
ghost use Rattle.port_files.specs.Outs.{AllTell, AreNamed, IsCreated};
ghost use Rattle.qos_words.specs.Names.{output_name, output_names};
ghost use Rattle.qos_pipeline.specs.Took.{IsSummed, Took};
ghost use Rattle.qos_pipeline.specs.Outputs.{AreEndings, AreShut, HaveBegunWith, HaveEnded, IsDropped, IsSettled, faults_of, sinks_of};
ghost use Rattle.qos_pipeline.specs.PortEnds.{AreLeft, ArePortEnds, AreWritten, journals};
ghost use Rattle.qos_pipeline.specs.Ports.{journals_of};
ghost use Rattle.qos_pipeline.specs.Prepared.{HasRoom};

use crate::logs::gather_one;
use crate::ports::run_ports;
use crate::prepare::{Prepared, Rooms, prepare};
use meter_table::{MeterLog, MeterTable};
use pkt_receive::laws::{logs_agree, marks_agree};
use pkt_receive::{Marker, Receiver};
use pkt_slots::Slots;
use port_egress::Egress;
use port_files::{close_all, create_all};
use profile_plan::Profile;
use qos_base::NoMemory;
use qos_io::{PutFault, Shelf, Sink};
use qos_pcap::Stop;
use qos_words::laws::names_are_apart;
use run_journal::PortEnd;
use std::alloc::Global;
use std::sync::Wait;

/// What the ports and the meters of a run ended with, by number.
#[derive(Drop)]
pub struct RunEnd {
    /// The journals and numbers of the ports.
    pub ports: Vec<PortEnd>,
    /// The logs of the meters.
    pub meters: Vec<MeterLog>,
    /// Whether the creation, a put or the closing of each output failed.
    pub write_fault: Vec<bool>,
}

/// Creates the output of each port of a profile, `PREFIX.n.pcap` for port n, runs an input through the ports into them,
/// and closes them. The input has been opened, and nothing was received of it yet. All memory but that of journals, slots,
/// marks and the meters' logs is taken before an output is created.
///
/// `NoMemory`: memory was refused, and the run is over; outputs that were created are closed all the same. The call may wait.
pub fn run_outputs<R: Wait, H: Shelf>(
    rt: &R,
    alloc: Global,
    shelf: &mut H,
    p: &Profile,
    prefix: &str,
    input: &mut Receiver<H::In>,
) -> Result<RunEnd, NoMemory>
    requires reading { IsReading H.In.Source input.old }
    requires fresh { IsFresh 0 input.old }
    ensures count { IfOk result (λ r. (length r.ports.items ≡ length p.now.ports) × (length r.write_fault.items ≡ length p.now.ports)) }
    ensures ports { IfOk result (λ r. ArePortEnds p.now input.old.origin r.ports.items) }
    ensures summed { IfOk result (λ r. IsSummed input.new (journals r.ports.items)) }
    ensures took { H.Tells shelf.old → IfOk result (λ r. (records : List Record) (stop : Stop) → ToCome H.In.Source input.old records stop
        → Took p.now records stop input.new (journals r.ports.items) r.meters.items) }
    ensures meters { IfOk result (λ r. AreLegalLogs p.now r.meters.items) }
    ensures written { H.Tells shelf.old → IfOk result (λ r. (records : List Record) (stop : Stop) → ToCome H.In.Source input.old records stop
        → AreWritten p.now input.old.origin records (λ n. change_of H.Shelf (output_name prefix.now n) shelf.old shelf.new)
        r.ports.items r.write_fault.items) }
    ensures left { H.Tells shelf.old → OnErr result ((records : List Record) (stop : Stop) → ToCome H.In.Source input.old records stop
        → AreLeft p.now input.old.origin 0 records (λ n. change_of H.Shelf (output_name prefix.now n) shelf.old shelf.new)) }
    ensures sure { IfOk result (λ r. (n : ℕ) → H.IsSureToWrite shelf.old (output_name prefix.now n)
        → slice_get r.write_fault.items n ≡ Some true → ⊥) }
    ensures others { ChangesAmong H.Shelf (output_names prefix.now (length p.now.ports)) shelf.old shelf.new }
    ensures input { OnOk result (StaysReceiver H.In.Source input.old input.new) }
{
    names_are_apart();
    marks_agree();
    logs_agree();
    p.limits();
    let (table, mut seats) = MeterTable::new(rt, alloc, p, 1)?;
    let Some(seat) = seats.pop() else {
        unreachable!()
    };
    let Prepared {
        mut egresses,
        names,
        outs,
        mut rooms,
    } = prepare(alloc, p, prefix, input.origin)?;
    let outs = create_outputs(shelf, &names, outs, &mut rooms.failed)?;
    let mut slots = Slots::new(alloc, p.pool.slot_bytes);
    begin_all(&mut egresses, outs);
    let mut marker = Marker::new(alloc, &table, seat, input.origin);
    let ran = run_ports(rt, p, input, &mut egresses, &mut slots, &mut marker);
    let Marker { seat, marks, .. } = marker;
    let ended = end_all(shelf, egresses, rooms);
    ran?;
    let meters = gather_one(rt, table, seat, marks, seats)?;
    let (ports, write_fault) = ended?;
    Ok(RunEnd {
        ports,
        meters,
        write_fault,
    })
}

// Creates the outputs of these names. Where memory was refused, those that were created are closed.
fn create_outputs<H: Shelf>(
    shelf: &mut H,
    names: &[String],
    mut outs: Vec<Option<H::Out>>,
    failed: &mut Vec<bool>,
) -> Result<Vec<Option<H::Out>>, NoMemory>
    requires apart { AreApart (map string_bytes names.now) }
    requires outs { (outs.items ≡ []) × (length names.now ≤ vec_capacity outs) }
    requires failed { (failed.old.items ≡ []) × (length names.now ≤ vec_capacity failed.old) }
    ensures count { IfOk result (λ outs. length outs.items ≡ length names.now) }
    ensures named { IfOk result (λ outs. AreNamed H.Out.Sink (map string_bytes names.now) outs.items) }
    ensures created { H.Tells shelf.old → IfOk result (λ outs. (n : ℕ) (name : List ℕ) → slice_get (map string_bytes names.now) n ≡ Some name
        → IfSome (slice_get outs.items n) (IsCreated H.Out.Sink (change_of H.Shelf name shelf.old shelf.new))) }
    ensures dropped { H.Tells shelf.old → OnErr result ((n : ℕ) (name : List ℕ) → slice_get (map string_bytes names.now) n ≡ Some name
        → IsDropped (change_of H.Shelf name shelf.old shelf.new)) }
    ensures sure { IfOk result (λ outs. (n : ℕ) (name : List ℕ) → slice_get (map string_bytes names.now) n ≡ Some name
        → H.IsSureToWrite shelf.old name → IfSome (slice_get outs.items n) (λ out. IsSome out × IfSome out H.Out.IsSure)) }
    ensures others { ChangesAmong H.Shelf (map string_bytes names.now) shelf.old shelf.new }
    ensures failed { OnOk result (failed.new ≡ failed.old) }
{
    if create_all(shelf, names, &mut outs).is_err() {
        let _ = close_all(shelf, outs, failed);
        return Err(NoMemory);
    }
    Ok(outs)
}

// Begins each output with its sink.
fn begin_all<K: Sink>(egresses: &mut Vec<Egress<'_, K>>, outs: Vec<Option<K>>)
    requires count { length outs.items ≡ length egresses.old.items }
    requires unbegun { (n : ℕ) (e : Egress K K.Sink) → slice_get egresses.old.items n ≡ Some e → e.sender ≡ unbegun None e.sender.stamps }
    ensures { HaveBegunWith outs.items egresses.old.items egresses.new.items }
{
    let mut sinks = outs.into_iter();
    for egress in egresses.iter_mut() {
        egress.begin(sinks.next().flatten());
    }
}

// Ends each port and closes its output, and tells which have a fault.
fn end_all<H: Shelf>(
    shelf: &mut H,
    egresses: Vec<Egress<'_, H::Out>>,
    mut rooms: Rooms<H::Out>,
) -> Result<(Vec<PortEnd>, Vec<bool>), NoMemory>
    requires room { HasRoom (length egresses.items) rooms }
    requires named { All (λ out. IfSome out (λ k. IsSome (H.Out.name k))) (sinks_of egresses.items) }
    ensures count { IfOk result (λ r. length r.1.items ≡ length egresses.entry.items) }
    ensures ended { IfOk result (λ r. HaveEnded egresses.entry.items r.0.items) }
    ensures journals { IfOk result (λ r. journals r.0.items ≡ journals_of egresses.entry.items) }
    ensures shut { H.Tells shelf.old → AllTell H.Out.Sink (sinks_of egresses.entry.items)
        → AreShut H.Out.Sink H.Shelf shelf.old shelf.new egresses.entry.items }
    ensures endings { H.Tells shelf.old → AllTell H.Out.Sink (sinks_of egresses.entry.items)
        → IfOk result (λ r. AreEndings H.Out.Sink H.Shelf shelf.old shelf.new egresses.entry.items r.1.items) }
    ensures sure { IfOk result (λ r. (n : ℕ) (e : Egress H.Out H.Out.Sink) → slice_get egresses.entry.items n ≡ Some e
        → IsFine H.Out.Sink e.sender → slice_get r.1.items n ≡ Some true → ⊥) }
    ensures others { (names : List (List ℕ)) → AreNamed H.Out.Sink names (sinks_of egresses.entry.items)
        → (H.Tells shelf.old → AllTell H.Out.Sink (sinks_of egresses.entry.items)) → ChangesAmong H.Shelf names shelf.old shelf.new }
{
    finish_all(
        egresses,
        &mut rooms.ends,
        &mut rooms.sinks,
        &mut rooms.faults,
    );
    close_all(shelf, rooms.sinks, &mut rooms.failed)?;
    settle_all(&rooms.faults, &rooms.failed, &mut rooms.write_fault)?;
    Ok((rooms.ends, rooms.write_fault))
}

// Ends each port.
fn finish_all<K: Sink>(
    egresses: Vec<Egress<'_, K>>,
    ends: &mut Vec<PortEnd>,
    sinks: &mut Vec<Option<K>>,
    faults: &mut Vec<Option<PutFault>>,
)
    requires ends { (ends.old.items ≡ []) × (length egresses.items ≤ vec_capacity ends.old) }
    requires sinks { (sinks.old.items ≡ []) × (length egresses.items ≤ vec_capacity sinks.old) }
    requires faults { (faults.old.items ≡ []) × (length egresses.items ≤ vec_capacity faults.old) }
    ensures ended { HaveEnded egresses.entry.items ends.new.items }
    ensures journals { journals ends.new.items ≡ journals_of egresses.entry.items }
    ensures sinks { sinks.new.items ≡ sinks_of egresses.entry.items }
    ensures faults { faults.new.items ≡ faults_of egresses.entry.items }
{
    for egress in egresses {
        let finished = egress.finish();
        ends.push_reserved(finished.end);
        sinks.push_reserved(finished.sink);
        faults.push_reserved(finished.fault);
    }
}

// Whether each output has a fault, by its puts and its closing.
fn settle_all(
    faults: &[Option<PutFault>],
    failed: &[bool],
    write_fault: &mut Vec<bool>,
) -> Result<(), NoMemory>
    requires count { length failed.now ≡ length faults.now }
    requires room { (write_fault.old.items ≡ []) × (length faults.now ≤ vec_capacity write_fault.old) }
    ensures count { OnOk result (length write_fault.new.items ≡ length faults.now) }
    ensures settled { OnOk result ((n : ℕ) (fault : Option PutFault) (fails wrong : Bool) → slice_get faults.now n ≡ Some fault
        → slice_get failed.now n ≡ Some fails → slice_get write_fault.new.items n ≡ Some wrong → IsSettled fault fails wrong) }
{
    for (fault, failed) in faults.iter().zip(failed) {
        write_fault.push_reserved(settle(*fault, *failed)?);
    }
    Ok(())
}

// Whether an output has a fault.
fn settle(fault: Option<PutFault>, failed: bool) -> Result<bool, NoMemory>
    ensures { IfOk result (IsSettled fault failed) }
{
    match fault {
        None => Ok(failed),
        Some(PutFault::Failed) => Ok(true),
        Some(PutFault::NoMemory) => Err(NoMemory),
    }
}
