//! The packets that wait.
ghost use Rattle.std.specs.Prelude.{◌≡◌, ◌≤◌, ◌<◌, ◌*◌, ◌^◌, ℕ, length, drop, slice_get, All};
ghost use Rattle.profile_plan.specs.declared.limits.TheConstants.{MAX_SUBPORT_PIPES};
ghost use Rattle.port_sched.specs.Port.{left_in, left_in_subport, left_of, queued, emptied, pipe_emptied, subport_emptied};
ghost use Rattle.port_sched.specs.Books.{pipe_of, Stands, Moves, KnowsActive, IsPipeBooks, IsSubportBooks};

use crate::pipe::{PIPE_QUEUES, PipeBooks};
use crate::port::PortSched;
use crate::subport::SubportBooks;
use qos_base::Parcel;

impl<T: Parcel> PortSched<T> {
    /// How many packets wait.
    pub fn queued(&self) -> u64
        ensures { result ≡ queued self.now }
    {
        let mut total = 0;
        for subport in &self.subports {
            total += subport.queued();
        }
        total
    }

    /// Takes a packet that still waits, in the order of subport, pipe and queue; None exactly where none does. All
    /// else stays as it is.
    pub fn drain_out(&mut self) -> Option<T>
        ensures first { result ≡ slice_get (left_of self.old) 0 }
        ensures rest { left_of self.new ≡ drop 1 (left_of self.old) }
        ensures same { emptied self.new ≡ emptied self.old }
    {
        for subport in 0..self.subports.len() {
            if let Some(t) = self.subports[subport].drain_out() {
                return Some(t);
            }
        }
        None
    }
}

impl<T: Parcel> SubportBooks<T> {
    fn queued(&self) -> u64
        requires few { length self.now.pipes.items ≤ MAX_SUBPORT_PIPES }
        requires queues { All (λ p. length p.queues.lists ≡ 16) self.now.pipes.items }
        ensures exact { Stands (λ s. result ≡ length (left_in_subport s)) self.now }
        ensures limit { result ≤ 2 ^ 48 }
    {
        let mut total = 0;
        for pipe in &self.pipes {
            total += pipe.queued();
        }
        total
    }

    fn drain_out(&mut self) -> Option<T>
        requires active { KnowsActive self.old }
        requires queues { All (λ p. length p.queues.lists ≡ 16) self.old.pipes.items }
        ensures first { Stands (λ s. result ≡ slice_get (left_in_subport s) 0) self.old }
        ensures rest { Moves (λ from to. left_in_subport to ≡ drop 1 (left_in_subport from)) self.old self.new }
        ensures same { Moves (λ from to. subport_emptied to ≡ subport_emptied from) self.old self.new }
        ensures sound { (ticked : ℕ) → IsSubportBooks T.packet ticked self.old → IsSubportBooks T.packet ticked self.new }
    {
        for pipe in 0..self.pipes.len() {
            let books = &mut self.pipes[pipe];
            let had = books.has_packet();
            let first = books.drain_out();
            let has = books.has_packet();
            self.active.change(pipe, had, has);
            if let Some(t) = first {
                return Some(t);
            }
        }
        None
    }
}

impl<T: Parcel> PipeBooks<T> {
    fn queued(&self) -> u64
        requires { length self.now.queues.lists ≡ 16 }
        ensures exact { result ≡ length (left_in (pipe_of self.now)) }
        ensures limit { result ≤ 2 ^ 36 }
    {
        if !self.has_packet() {
            return 0;
        }
        let mut total = 0;
        for queue in 0..PIPE_QUEUES {
            total += u64::from(self.queues.len(queue));
        }
        total
    }

    fn drain_out(&mut self) -> Option<T>
        requires { length self.old.queues.lists ≡ 16 }
        ensures queues { length self.new.queues.lists ≡ 16 }
        ensures first { result ≡ slice_get (left_in (pipe_of self.old)) 0 }
        ensures rest { left_in (pipe_of self.new) ≡ drop 1 (left_in (pipe_of self.old)) }
        ensures same { pipe_emptied (pipe_of self.new) ≡ pipe_emptied (pipe_of self.old) }
        ensures level { self.new.level ≡ self.old.level }
        ensures sound { (ticked : ℕ) → IsPipeBooks T.packet ticked self.old → IsPipeBooks T.packet ticked self.new }
    {
        if !self.has_packet() {
            return None;
        }
        for queue in 0..PIPE_QUEUES {
            if let Some(t) = self.queues.pop(queue) {
                return Some(t);
            }
        }
        None
    }
}
