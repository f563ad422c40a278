//! A ring buffer for each queue.
ghost use Rattle.std.specs.Prelude.{◌≡◌, ◌<◌, ◌≤◌, ◌↔◌, length, IfOk, OnOk, IfErr, IsErr, count_by, slice_get, option_copied};

use circular_buffer::HeapCircularBuffer;
use qos_base::{NoMemory, Parcel, TailFull};
use std::alloc::Global;
use std::marker::Model;

/// Queues of packets, numbered from 0, each of a fixed size.
///
/// A queue's number is the place of its ring in one row, so it is found at once. A ring's own numbers are
/// 32 bytes, and its packets lie in a block of their own: a call touches that entry of the row and one place
/// of the block. How many queues have a packet is counted, so whether any has one is known without a look at them.
#[derive(Drop)]
pub struct QueueStore<T: Parcel> {
    rings: Vec<HeapCircularBuffer<T>>,
    // how many queues have a packet
    filled: usize,
}

impl<T: Parcel> Model for QueueStore<T> {
    ghost use Rattle.queue_store.specs.Queues.{Queues};
    ghost use Rattle.queue_store.specs.Rings.{queues_of, IsStore};

    ghost Value = { Queues T };

    ghost view = { λ s. queues_of s.rings.items };

    ghost invariant = { λ s. IsStore s.rings.items s.filled };
}

impl<T: Parcel> QueueStore<T> {
    ghost use Rattle.queue_store.specs.Queues.{Queues, empty_queues, size_of, list_of, joined, without_front, is_filled, has_packet};

    /// Empty queues of these sizes, in packets. A queue of size 0 is closed: it turns every packet away.
    ///
    /// All memory is taken here, and no later call takes any: 32 bytes a queue, and for each place what a
    /// parcel takes.
    pub fn new(alloc: Global, sizes: &[u32]) -> Result<QueueStore<T>, NoMemory>
        ensures { IfOk result (λ s. s ≡ empty_queues sizes.now) }
    {
        let mut rings = Vec::with_capacity(alloc, sizes.len())?;
        for size in sizes {
            rings.push(HeapCircularBuffer::with_capacity(alloc, *size as usize)?)?;
        }
        Ok(QueueStore { rings, filled: 0 })
    }

    /// A packet joins the back of a queue. A queue that holds as many packets as its size gives it back
    /// (tail drop).
    pub fn put(&mut self, queue: u32, t: T) -> Result<(), TailFull<T>>
        requires { queue < length self.old.lists }
        ensures full { IsErr result ↔ (length (list_of queue self.old) ≡ size_of queue self.old) }
        ensures joined { OnOk result (self.new ≡ joined queue t self.old) }
        ensures refused { IfErr result (λ e. (e.parcel ≡ t) × (self.new ≡ self.old)) }
    {
        let ring = &mut self.rings[queue as usize];
        let first = ring.is_empty();
        match ring.try_push_back(t) {
            Ok(()) => {
                self.filled += usize::from(first);
                Ok(())
            }
            Err(parcel) => Err(TailFull { parcel }),
        }
    }

    /// The packet at the front of a queue, which is the oldest one; None exactly where the queue is empty.
    pub fn front(&self, queue: u32) -> Option<&T>
        requires { queue < length self.now.lists }
        ensures { option_copied result ≡ slice_get (list_of queue self.now) 0 }
    {
        self.rings[queue as usize].front()
    }

    /// Takes the packet at the front of a queue; None exactly where the queue is empty.
    pub fn pop(&mut self, queue: u32) -> Option<T>
        requires { queue < length self.old.lists }
        ensures first { result ≡ slice_get (list_of queue self.old) 0 }
        ensures rest { self.new ≡ without_front queue self.old }
    {
        let ring = &mut self.rings[queue as usize];
        let popped = ring.pop_front()?;
        if ring.is_empty() {
            self.filled -= 1;
        }
        Some(popped)
    }

    /// How many packets wait in a queue; at most its size.
    pub fn len(&self, queue: u32) -> u32
        requires { queue < length self.now.lists }
        ensures exact { result ≡ length (list_of queue self.now) }
        ensures within { result ≤ size_of queue self.now }
    {
        self.rings[queue as usize].len() as u32
    }

    /// How many queues have a packet.
    pub fn filled(&self) -> usize
        ensures { result ≡ count_by is_filled self.now.lists }
    {
        self.filled
    }

    /// Whether a packet waits in any queue.
    pub fn has_packet(&self) -> bool
        ensures { result ≡ has_packet self.now }
    {
        self.filled > 0
    }
}
