//! The run of a port: one entry of its journal a call, an arrival or a dequeue at a moment of the pacing rule.
ghost use Rattle.std.specs.Prelude.{◌≡◌, ◌≤◌, ◌<◌, ◌+◌, ◌^◌, ◌++◌, [], length, max, IsTrue, IfOk, IfSome, IfNone, OnOk, OnErr, Some, vec_len, vec_capacity};
ghost use Rattle.std.specs.Option.{unwrap_or};
ghost use Rattle.port_sched.specs.Port.{Port, queued, has_place, after_arrival};
ghost use Rattle.port_sched.specs.PortDequeue.{dequeue_port};
ghost use Rattle.port_sched.specs.StartLaws.{HasAllSizes};
ghost use Rattle.run_journal.specs.declared.entry.Entry.TheVariants.{Arrive};

use crate::ended::{PortCounts, PortEnd};
use crate::entry::Entry;
use crate::laws::every_arrival_ends;
use crate::limits::MAX_ARRIVALS;
use crate::pace::Pace;
use crate::pacer::Pacer;
use crate::tally::Tally;
use port_sched::PortSched;
use port_sched::laws::{
    arrivals_join, dequeues_keep_setting, dequeues_serve, packets_decide, starts_within,
};
use profile_plan::{CLASSES, PortPlan, Profile};
use qos_base::{Departure, NoMemory, Parcel, Pkt, Sequence, Steps, TailFull};
use std::alloc::Global;
use std::marker::{Brand, Model};
use std::sync::ledger::{Blank, Ledger};

/// A port of a profile that is driven by arrivals and dequeues, with the journal of both.
#[derive(Drop)]
pub struct PortRun<'p, T: Parcel> {
    profile: &'p Profile,
    plan: &'p PortPlan,
    pace: Pace,
    sched: PortSched<T>,
    pacer: Pacer,
    journal: Vec<Entry>,
    tally: Tally,
}

impl<'p, T: Parcel> Model for PortRun<'p, T> {
    ghost use Rattle.run_journal.specs.PortRun.{RunState, IsSound, started};

    ghost Value = { RunState T };

    ghost view = { λ r. record {
      pace = r.pace;
      start = started r.profile.now r.plan.now;
      journal = r.journal.items;
      pacer = r.pacer;
      port = r.sched;
    } };

    ghost invariant = { λ r. IsSound T.packet (started r.profile.now r.plan.now) r.pace r.sched r.pacer r.journal.items r.tally };
}

// Each subport of a port has a size for every class.
fn has_all_sizes(plan: &PortPlan)
    ensures { HasAllSizes plan.now }
{
    for subport in plan.subports.as_slice() {
        is_all_sizes(&subport.sizes);
    }
}

fn is_all_sizes(sizes: &[u32; CLASSES])
    ensures { length sizes.now ≡ 13 }
{
    let _ = sizes;
}

// A dequeue, whose steps nobody counts.
fn serve<T: Parcel, L: Ledger>(
    sched: &mut PortSched<T>,
    now: u64,
    room: u32,
    out: &mut Vec<Departure<T>>,
    blank: Blank,
) -> u32
    requires name { blank.name ≡ L.name }
    requires parts { blank.parts ≡ L.parts }
    requires some { 0 < L.parts }
    requires space { vec_len out.old + room ≤ vec_capacity out.old }
    requires room { room ≤ 256 }
    requires now { now ≤ 2 ^ 62 }
    requires time { sched.old.time ≤ 2 ^ 62 }
    ensures state { sched.new ≡ (dequeue_port T.packet now room sched.old).port }
    ensures sends { out.new.items ≡ out.old.items ++ (dequeue_port T.packet now room sched.old).sends }
    ensures count { result ≡ length (dequeue_port T.packet now room sched.old).sends }
    ensures capacity { vec_capacity out.new ≡ vec_capacity out.old }
{
    sched.dequeue(now, room, out, &mut Steps::<L>::new(blank))
}

impl<'p, T: Parcel> PortRun<'p, T> {
    ghost use Rattle.run_journal.specs.Pacer.{PacerState, after_aim, next_in, after_at};
    ghost use Rattle.run_journal.specs.Schedule.{arrivals_of};
    ghost use Rattle.run_journal.specs.PortRun.{RunState, run_start, schedule, after_entry_of, HasDequeued, HasCounts, Stands};

    /// The run of the port of this number of a profile, at its start. The profile has the port. The memory of its
    /// queues is taken here.
    pub fn new(alloc: Global, p: &'p Profile, port: u32) -> Result<PortRun<'p, T>, NoMemory>
        requires { port < length p.now.ports }
        ensures { IfOk result (λ run. run_start p.now port ≡ Some run) }
    {
        starts_within::<T>();
        starts_within::<Pkt>();
        let plan = p.port(port as usize);
        has_all_sizes(plan);
        Ok(PortRun {
            profile: p,
            plan,
            pace: Pace::of(plan),
            sched: PortSched::new(alloc, p, port)?,
            pacer: Pacer::new(plan.quantum),
            journal: Vec::new(alloc),
            tally: Tally {
                arrived: 0,
                dropped: 0,
                sent: 0,
                dequeues: 0,
            },
        })
    }

    /// The scheduler stands where the schedule of the journal stands, and each packet that arrived was sent, waits or was
    /// turned away.
    pub fn stands(&self)
        ensures { Stands T.packet self.now }
    {
        every_arrival_ends();
        let _ = &self.journal;
    }

    /// Whether a packet is one for this port: it is no longer than the port's longest frame, and its subport, pipe and
    /// queue are there.
    pub fn has_place(&self, packet: &Pkt) -> bool
        ensures { result ≡ has_place packet.now self.now.start }
    {
        packets_decide::<T>();
        self.sched.has_place(packet)
    }

    /// How many packets have arrived.
    pub fn arrived(&self) -> u64
        ensures { result ≡ length (arrivals_of self.now.journal) }
    {
        self.tally.arrived
    }

    /// How many packets have been sent.
    pub fn sent(&self) -> u64
        ensures { result ≡ length (schedule self.now).sends }
    {
        self.tally.sent
    }

    // How many packets wait.
    fn waiting(&self) -> u64
        ensures { result ≡ queued (schedule self.now).port }
    {
        self.tally.arrived - self.tally.dropped - self.tally.sent
    }

    /// The numbers by which it is paced.
    pub fn pace(&self) -> Pace
        ensures { result ≡ self.now.pace }
    {
        self.pace
    }

    /// Begins an advance of the clock to a byte time, at most 2^57. The one before has come to its end.
    pub fn aim(&mut self, to: u64)
        requires to { to ≤ 2 ^ 57 }
        requires there { self.old.pacer.aim ≤ self.old.pacer.clock }
        ensures aimed { self.new ≡ record self.old { pacer = after_aim to self.old.pacer } }
        ensures quantum { self.old.pacer.quantum ≡ self.old.pace.quantum }
    {
        self.pacer.aim(to);
    }

    /// The moment of the advance's next dequeue, to which the clock goes. None where the advance is over.
    pub fn next(&mut self) -> Option<u64>
        ensures moment { result ≡ next_in self.old.pacer (queued (schedule self.old).port) (schedule self.old).port.time }
        ensures clock { self.new ≡ record self.old { pacer = record self.old.pacer { clock = unwrap_or result (max self.old.pacer.clock self.old.pacer.aim) } } }
        ensures went { self.old.pacer.went ≡ (schedule self.old).went }
    {
        packets_decide::<T>();
        let waiting = self.waiting();
        self.pacer.next(waiting, self.sched.time())
    }

    /// The moment of the dequeue that follows an arrival. None where port time is past the clock.
    pub fn after_arrival(&self) -> Option<u64>
        ensures { result ≡ after_at self.now.pacer (schedule self.now).port.time }
    {
        self.pacer.after(self.sched.time())
    }

    /// The clock, in byte times of the line.
    pub fn clock(&self) -> u64
        ensures { result ≡ self.now.pacer.clock }
    {
        self.pacer.clock()
    }

    /// Dequeues at a moment, at most 2^57 byte times. What is sent goes into `out`, which is empty and has room for
    /// one dequeue. `NoMemory`: the journal was refused memory, and nothing has changed.
    pub fn dequeue(&mut self, now: u64, out: &mut Vec<Departure<T>>) -> Result<(), NoMemory>
        requires now { now ≤ 2 ^ 57 }
        requires empty { out.old.items ≡ [] }
        requires room { self.old.pace.burst ≤ vec_capacity out.old }
        ensures dequeued { OnOk result (HasDequeued T.packet now self.old self.new out.new.items) }
        ensures refused { OnErr result ((self.new ≡ self.old) × (out.new.items ≡ [])) }
        ensures few { length (schedule self.new).sends ≤ MAX_ARRIVALS }
        ensures capacity { vec_capacity out.new ≡ vec_capacity out.old }
    {
        packets_decide::<T>();
        dequeues_serve::<Pkt>();
        dequeues_keep_setting::<Pkt>();
        self.journal.reserve(1)?;
        let room = self.pace.burst;
        let sent = serve::<T, Brand>(&mut self.sched, now, room, out, Blank::new(1));
        self.journal.push_reserved(Entry::Dequeue { now, room });
        self.pacer.went(sent > 0);
        self.tally.sent += u64::from(sent);
        self.tally.dequeues += 1;
        Ok(())
    }

    /// A packet arrives at the clock: it joins its queue, or a full queue turns it away and it is given back.
    ///
    /// It is one for this port, and fewer than 32,000,000,000 have arrived. `NoMemory`: the journal was refused
    /// memory, and nothing has changed.
    pub fn arrive(&mut self, parcel: T) -> Result<Option<T>, NoMemory>
        requires place { IsTrue (has_place (T.packet parcel) self.old.start) }
        requires few { length (arrivals_of self.old.journal) < MAX_ARRIVALS }
        ensures state { OnOk result (self.new ≡ after_entry_of self.old (Arrive (T.packet parcel)) self.new.port) }
        ensures joined { IfOk result (λ away. IfNone away (self.new.port ≡ after_arrival T.packet parcel self.old.port)) }
        ensures turned_away { IfOk result (λ away. IfSome away (λ t. (t ≡ parcel) × (self.new.port ≡ self.old.port))) }
        ensures refused { OnErr result (self.new ≡ self.old) }
    {
        packets_decide::<T>();
        arrivals_join::<Pkt>();
        self.journal.reserve(1)?;
        self.journal.push_reserved(Entry::Arrive(parcel.pkt()));
        self.tally.arrived += 1;
        match self.sched.arrive(parcel) {
            Ok(()) => Ok(None),
            Err(TailFull { parcel }) => {
                self.tally.dropped += 1;
                Ok(Some(parcel))
            }
        }
    }

    /// Ends the run: its journal and its numbers, where so many of its sends were put whole and so many were not, and
    /// the scheduler with what still waits.
    pub fn finish(self, sent: u64, unwritten: u64) -> (PortEnd, PortSched<T>)
        requires { sent + unwritten ≡ length (schedule self).sends }
        ensures journal { result.0.journal ≡ self.entry.journal }
        ensures counts { HasCounts self.entry.journal (schedule self.entry) result.0.counts }
        ensures sent { result.0.counts.sent ≡ sent }
        ensures left { result.1 ≡ self.entry.port }
    {
        packets_decide::<T>();
        let left = self.waiting();
        let PortRun {
            profile: _,
            plan: _,
            pace: _,
            sched,
            pacer: _,
            journal,
            tally,
        } = self;
        let counts = PortCounts {
            arrived: tally.arrived,
            sent,
            left,
            tailfull: tally.dropped,
            unwritten,
            dequeues: tally.dequeues,
            time: sched.time(),
        };
        let end = PortEnd {
            journal: Sequence::of(journal),
            counts,
        };
        (end, sched)
    }
}
