//! What an arrival does.
ghost use Rattle.std.specs.Prelude.{◌≡◌, ◌≤◌, ◌<◌, ◌↔◌, ℕ, length, slice_get, All, IsTrue, OnOk, IfErr, IsErr};
ghost use Rattle.profile_plan.specs.declared.limits.TheConstants.{MAX_MTU};
ghost use Rattle.port_sched.specs.Port.{has_place, is_full, is_full_at, with_arrival, in_subport, after_arrival};
ghost use Rattle.port_sched.specs.Books.{pipe_of, Stands, Moves, KnowsActive, IsPipeBooks, IsSubportBooks};

use crate::pipe::{PIPE_QUEUES, PipeBooks};
use crate::port::PortSched;
use crate::subport::SubportBooks;
use qos_base::{Parcel, Pkt, TailFull};

impl<T: Parcel> PortSched<T> {
    /// Whether a packet is one for this port: it is no longer than the port's longest frame, and its subport, pipe and queue
    /// are there.
    pub fn has_place(&self, packet: &Pkt) -> bool
        ensures { result ≡ has_place packet.now self.now }
    {
        if packet.wire > self.mtu || packet.queue >= PIPE_QUEUES {
            return false;
        }
        match self.subports.get(packet.subport as usize) {
            Some(subport) => (packet.pipe as usize) < subport.pipes.len(),
            None => false,
        }
    }

    /// A packet arrives: it joins the back of its queue. A queue that holds as many packets as its size gives it back
    /// (tail drop).
    ///
    /// The packet is one for this port ([`PortSched::has_place`]). No memory is taken.
    pub fn arrive(&mut self, t: T) -> Result<(), TailFull<T>>
        requires { IsTrue (has_place (T.packet t) self.old) }
        ensures full { IsErr result ↔ IsTrue (is_full (T.packet t) self.old) }
        ensures joined { OnOk result (self.new ≡ after_arrival T.packet t self.old) }
        ensures refused { IfErr result (λ e. (e.parcel ≡ t) × (self.new ≡ self.old)) }
    {
        let packet = t.pkt();
        let subport = &mut self.subports[packet.subport as usize];
        subport.arrive(packet.pipe, packet.queue, t)
    }
}

impl<T: Parcel> SubportBooks<T> {
    fn arrive(&mut self, pipe: u32, queue: u32, t: T) -> Result<(), TailFull<T>>
        requires pipe { pipe < length self.old.pipes.items }
        requires queue { queue < 16 }
        requires wire { (T.packet t).wire ≤ MAX_MTU }
        requires queues { All (λ p. length p.queues.lists ≡ 16) self.old.pipes.items }
        requires active { KnowsActive self.old }
        ensures full { Stands (λ s. IsErr result ↔ IsTrue (is_full_at queue (slice_get s.pipes pipe))) self.old }
        ensures joined { OnOk result (Moves (λ from to. to ≡ in_subport pipe (with_arrival queue t) from) self.old self.new) }
        ensures refused { IfErr result (λ e. (e.parcel ≡ t) × Moves (λ from to. to ≡ from) self.old self.new) }
        ensures sound { (ticked : ℕ) → IsSubportBooks T.packet ticked self.old → IsSubportBooks T.packet ticked self.new }
    {
        let books = &mut self.pipes[pipe as usize];
        let had = books.has_packet();
        let arrived = books.arrive(queue, t);
        let has = books.has_packet();
        self.active.change(pipe as usize, had, has);
        arrived
    }
}

impl<T: Parcel> PipeBooks<T> {
    fn arrive(&mut self, queue: u32, t: T) -> Result<(), TailFull<T>>
        requires queue { queue < length self.old.queues.lists }
        requires wire { (T.packet t).wire ≤ MAX_MTU }
        ensures full { IsErr result ↔ IsTrue (is_full_at queue (Some (pipe_of self.old))) }
        ensures joined { OnOk result (pipe_of self.new ≡ with_arrival queue t (pipe_of self.old)) }
        ensures refused { IfErr result (λ e. (e.parcel ≡ t) × (pipe_of self.new ≡ pipe_of self.old)) }
        ensures level { self.new.level ≡ self.old.level }
        ensures sound { (ticked : ℕ) → IsPipeBooks T.packet ticked self.old → IsPipeBooks T.packet ticked self.new }
    {
        self.queues.put(queue, t)
    }
}
