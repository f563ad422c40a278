//! The port and its output: each dequeue's sends are handed on before the next dequeue.
ghost use Rattle.std.specs.Prelude.{◌≡◌, ◌≤◌, ◌+◌, ◌^◌, [], length, vec_capacity};
ghost use Rattle.qos_base.specs.Time.{IsLineRate};
ghost use Rattle.run_journal.specs.PortRun.{schedule};

use crate::send::Sender;
use crate::stamps::Stamps;
use pkt_slots::{Mbuf, Slots};
use port_sched::laws::{arrivals_join, dequeues_serve, starts_within};
use profile_plan::Profile;
use qos_base::{Departure, MAX_MOMENT, NoMemory, Pkt, byte_time};
use qos_io::{PutFault, Sink};
use run_journal::laws::{
    advances_go_by_steps, advances_move_on, arrivals_go_by_steps, open_courses_go_on,
};
use run_journal::{PortEnd, PortRun};
use std::alloc::Global;

/// A port of a profile, and the output of what it sends.
#[derive(Drop)]
pub struct Egress<'p, K: Sink> {
    /// The port.
    pub port: PortRun<'p, Mbuf>,
    /// The sends of one dequeue.
    pub out: Vec<Departure<Mbuf>>,
    /// The output.
    pub sender: Sender<K>,
    ghost empty: { out.items ≡ [] },
    ghost room: { port.pace.burst ≤ vec_capacity out },
    ghost counted: { sender.sent + sender.unwritten ≡ length (schedule port).sends },
    ghost drain: { port.pace.drain ≤ 2 ^ 41 },
}

/// What a port ended with, its sink and its first fault.
#[derive(Drop)]
pub struct Finished<K: Sink> {
    /// The journal and the numbers.
    pub end: PortEnd,
    /// The sink; None where the output could not be created.
    pub sink: Option<K>,
    /// The first fault of its puts, or of its creation.
    pub fault: Option<PutFault>,
}

impl<'p, K: Sink> Egress<'p, K> {
    ghost use Rattle.std.specs.Prelude.{◌<◌, ◌++◌, ◌∷◌, ℕ, List, Some, true, max, slice_get, IfOk, IfSome, IsTrue, OnOk, OnErr};
    ghost use Rattle.profile_plan.specs.declared.port.PortPlan.{PortPlan};
    ghost use Rattle.qos_base.specs.declared.packet.Pkt.{Pkt};
    ghost use Rattle.port_sched.specs.Port.{Port, has_place};
    ghost use Rattle.pkt_slots.specs.Mbuf.{IsBodyIn};
    ghost use Rattle.run_journal.specs.declared.entry.Entry.TheVariants.{Arrive, Dequeue};
    ghost use Rattle.run_journal.specs.declared.limits.TheConstants.{MAX_ARRIVALS};
    ghost use Rattle.run_journal.specs.Laws.{AreAccounted, Begins};
    ghost use Rattle.run_journal.specs.Paced.{Course, advance, after_arrival};
    ghost use Rattle.run_journal.specs.PortRun.{RunState, after_entry_of, course_of, HasCounts};
    ghost use Rattle.run_journal.specs.Schedule.{arrivals_of};
    ghost use Rattle.port_egress.specs.Run.{Setup, arrival_time, paced_journal};
    ghost use Rattle.port_egress.specs.Sender.{StaysSender, unbegun};
    ghost use Rattle.port_egress.specs.Egress.{Serves, IsUnbegun, IsReady, IsOpen, IsDrained, HasHalted, Carries};

    /// The port of a number of a profile, with times after an origin in nanoseconds. The profile has the port. All memory is
    /// taken here but that of the journal; the output is not begun.
    pub fn new(
        alloc: Global,
        p: &'p Profile,
        port: u32,
        origin: u64,
    ) -> Result<Egress<'p, K>, NoMemory>
        requires port { port < length p.now.ports }
        ensures { IfOk result (λ e. (plan : PortPlan) → slice_get p.now.ports port ≡ Some plan
            → IsUnbegun (record { profile = p.now; plan = plan; origin = origin }) e) }
    {
        let line = p.port(port as usize).line;
        let run = PortRun::new(alloc, p, port)?;
        let out = Vec::with_capacity(alloc, run.pace().burst as usize)?;
        Ok(Egress {
            port: run,
            out,
            sender: Sender::new(Stamps::new(origin, line)),
        })
    }

    /// Begins the output: its header is put, where there is a sink.
    pub fn begin(&mut self, sink: Option<K>)
        requires unbegun { self.old.sender ≡ unbegun None self.old.sender.stamps }
        ensures port { self.new.port ≡ self.old.port }
        ensures ready { (s : Setup) → IsUnbegun s self.old → IsReady self.new }
        ensures opened { (s : Setup) → IsUnbegun s self.old → IsOpen s self.new }
        ensures carries { IfSome sink (λ k. K.contents k ≡ Some []) → (s : Setup) → IsUnbegun s self.old
            → (body : Pkt → List ℕ) → Carries K.Sink body self.new }
        ensures stays { StaysSender K.Sink (unbegun sink self.old.sender.stamps) self.new.sender }
    {
        starts_within::<Mbuf>();
        open_courses_go_on();
        self.sender.begin(sink);
    }

    // The byte time at which a packet arrives.
    fn arrival(&self, pkt: Pkt) -> u64
        ensures exact { (s : Setup) → Serves s self.now → result ≡ arrival_time s pkt }
        ensures within { result ≤ 2 ^ 54 }
    {
        let stamps = self.sender.stamps;
        let moment = pkt.stamp.saturating_sub(stamps.origin).min(MAX_MOMENT);
        byte_time(moment, stamps.line)
    }

    // Dequeues at a moment, to which the clock has come, and hands on what is sent.
    fn dequeue(&mut self, now: u64, slots: &mut Slots) -> Result<(), NoMemory>
        requires { now ≤ 2 ^ 57 }
        ensures state { OnOk result
            (self.new.port ≡ after_entry_of self.old.port (Dequeue now self.old.port.pace.burst) self.new.port.port) }
        ensures refused { OnErr result (self.new.port ≡ self.old.port) }
        ensures carries { (body : Pkt → List ℕ) → Carries K.Sink body self.old → Carries K.Sink body self.new }
        ensures stays { StaysSender K.Sink self.old.sender self.new.sender }
        ensures slots { slots.new.slot_bytes ≡ slots.old.slot_bytes }
    {
        dequeues_serve::<Mbuf>();
        self.port.dequeue(now, &mut self.out)?;
        self.sender.send_all(&self.out);
        slots.give_all(&mut self.out);
        Ok(())
    }

    // Advances the clock to a byte time, with the dequeues of the pacing rule on the way.
    fn advance(&mut self, to: u64, slots: &mut Slots) -> Result<(), NoMemory>
        requires to { to ≤ 2 ^ 57 }
        requires aimed { self.old.port.pacer.aim ≤ self.old.port.pacer.clock }
        ensures course { OnOk result
            (course_of self.new.port ≡ advance self.old.port.pace self.old.port.start to (course_of self.old.port)) }
        ensures arrivals { arrivals_of self.new.port.journal ≡ arrivals_of self.old.port.journal }
        ensures clock { OnOk result (self.new.port.pacer.clock ≡ max self.old.port.pacer.clock to) }
        ensures aimed { OnOk result (self.new.port.pacer.aim ≤ self.new.port.pacer.clock) }
        ensures pace { self.new.port.pace ≡ self.old.port.pace }
        ensures start { self.new.port.start ≡ self.old.port.start }
        ensures refused { OnErr result
            (Begins self.new.port.journal (advance self.old.port.pace self.old.port.start to (course_of self.old.port)).journal) }
        ensures carries { (body : Pkt → List ℕ) → Carries K.Sink body self.old → Carries K.Sink body self.new }
        ensures stays { StaysSender K.Sink self.old.sender self.new.sender }
        ensures slots { slots.new.slot_bytes ≡ slots.old.slot_bytes }
    {
        advances_go_by_steps::<Mbuf>();
        advances_move_on();
        self.port.aim(to);
        while let Some(now) = self.port.next() {
            self.dequeue(now, slots)?;
        }
        Ok(())
    }

    // A packet joins its queue, or a full queue turns it away and its slot is given back.
    fn join(&mut self, mbuf: Mbuf, slots: &mut Slots) -> Result<(), NoMemory>
        requires place { IsTrue (has_place mbuf.pkt self.old.port.start) }
        requires few { length (arrivals_of self.old.port.journal) < MAX_ARRIVALS }
        ensures state { OnOk result (self.new.port ≡ after_entry_of self.old.port (Arrive mbuf.pkt) self.new.port.port) }
        ensures refused { OnErr result (self.new.port ≡ self.old.port) }
        ensures carries { (body : Pkt → List ℕ) → IsBodyIn body mbuf → Carries K.Sink body self.old → Carries K.Sink body self.new }
        ensures sender { self.new.sender ≡ self.old.sender }
        ensures slots { slots.new.slot_bytes ≡ slots.old.slot_bytes }
    {
        arrivals_join::<Mbuf>();
        let away = self.port.arrive(mbuf)?;
        slots.give_if(away);
        Ok(())
    }

    /// A packet arrives at its moment: the clock is advanced to it, the packet joins its queue or is turned away, and a
    /// dequeue follows where port time is not past the clock.
    ///
    /// The packet has a place at the port, and fewer than 32,000,000,000 have arrived. `NoMemory`: the journal was refused
    /// memory, and the run is over.
    pub fn arrive(&mut self, mbuf: Mbuf, slots: &mut Slots) -> Result<(), NoMemory>
        requires ready { IsReady self.old }
        requires place { IsTrue (has_place mbuf.pkt self.old.port.start) }
        requires few { length (arrivals_of self.old.port.journal) < MAX_ARRIVALS }
        ensures ready { OnOk result (IsReady self.new) }
        ensures opened { OnOk result ((s : Setup) → IsOpen s self.old → IsOpen s self.new) }
        ensures arrivals { OnOk result (arrivals_of self.new.port.journal ≡ arrivals_of self.old.port.journal ++ mbuf.pkt ∷ []) }
        ensures halted { OnErr result ((s : Setup) → IsOpen s self.old
            → HasHalted s (arrivals_of self.old.port.journal ++ mbuf.pkt ∷ []) self.new) }
        ensures carries { (body : Pkt → List ℕ) → IsBodyIn body mbuf → Carries K.Sink body self.old → Carries K.Sink body self.new }
        ensures stays { StaysSender K.Sink self.old.sender self.new.sender }
        ensures slots { slots.new.slot_bytes ≡ slots.old.slot_bytes }
    {
        advances_go_by_steps::<Mbuf>();
        arrivals_go_by_steps::<Mbuf>();
        open_courses_go_on();
        let at = self.arrival(mbuf.pkt);
        self.advance(at, slots)?;
        self.join(mbuf, slots)?;
        if let Some(now) = self.port.after_arrival() {
            self.dequeue(now, slots)?;
        }
        Ok(())
    }

    /// Advances the clock by the drain, with the dequeues of the pacing rule.
    ///
    /// `NoMemory`: the journal was refused memory, and the run is over.
    pub fn drain(&mut self, slots: &mut Slots) -> Result<(), NoMemory>
        requires ready { IsReady self.old }
        ensures drained { OnOk result ((s : Setup) → IsOpen s self.old → IsDrained s self.new) }
        ensures arrivals { arrivals_of self.new.port.journal ≡ arrivals_of self.old.port.journal }
        ensures halted { OnErr result ((s : Setup) → IsOpen s self.old → HasHalted s (arrivals_of self.old.port.journal) self.new) }
        ensures carries { (body : Pkt → List ℕ) → Carries K.Sink body self.old → Carries K.Sink body self.new }
        ensures stays { StaysSender K.Sink self.old.sender self.new.sender }
        ensures slots { slots.new.slot_bytes ≡ slots.old.slot_bytes }
    {
        let to = self.port.clock() + self.port.pace().drain;
        self.advance(to, slots)
    }

    /// Ends the run: the journal and its numbers, with the sink and its first fault. What still waits is let go.
    pub fn finish(self) -> Finished<K>
        ensures journal { result.end.journal ≡ self.entry.port.journal }
        ensures counts { HasCounts self.entry.port.journal (schedule self.entry.port) result.end.counts }
        ensures account { AreAccounted (arrivals_of self.entry.port.journal) (schedule self.entry.port) }
        ensures sent { result.end.counts.sent ≡ self.entry.sender.sent }
        ensures sink { result.sink ≡ self.entry.sender.sink }
        ensures fault { result.fault ≡ self.entry.sender.fault }
    {
        self.port.stands();
        let Egress {
            port,
            out: _,
            sender,
        } = self;
        let Sender {
            sink,
            stamps: _,
            sent,
            unwritten,
            fault,
        } = sender;
        let (end, _) = port.finish(sent, unwritten);
        Finished { end, sink, fault }
    }
}
