//! What a thread holds of a pool.
ghost use Rattle.std.specs.Prelude.{◌≡◌, ◌<◌, [], length};
ghost use Rattle.crossbeam_queue.specs.Passes.{view};

use crate::mbuf::Mbuf;
use atomic_table::Seat;
use crossbeam_queue::Pass;
use std::collections::LinkedList;

/// What a pass knows of the free list, which exists in contracts alone: no value of it is made.
pub struct Slots {
    /// Its parts of the pool, of which there are 48 in all.
    pub parts: u64,
    /// How many slots the pool has.
    pub slots: u64,
    /// How many bytes each slot has.
    pub bytes: u64,
    /// The slots that it took, oldest first.
    pub taken: LinkedList<u32>,
    /// The slots that it gave, oldest first.
    pub given: LinkedList<u32>,
}

/// What a pass knows of the count of free slots, which exists in contracts alone.
pub struct Count {
    /// Its parts of the count, of which there are 48 in all.
    pub parts: u64,
    /// How often it lowered the count.
    pub lowered: u64,
    /// How often it raised the count.
    pub raised: u64,
    /// It has met a count of 0.
    pub met_zero: bool,
    /// Of each of its calls of `take`, in order, whether it gave a slot.
    pub answers: LinkedList<bool>,
}

/// A thread's right to take slots from a pool and to give them back. It has no bytes.
#[derive(Drop)]
pub struct PoolPass {
    pub(crate) pass: Pass<Mbuf, Slots>,
    pub(crate) seat: Seat<u8, Count>,
    ghost no_slot_out: { pass.me.1 ≡ [] },
    ghost no_seat_slot: { seat.me.1 ≡ [] },
    ghost has_a_part: { 0 < (view pass).parts },
    ghost same_parts: { seat.me.0.parts ≡ (view pass).parts },
    pub ghost one_lowering_each: { seat.me.0.lowered ≡ length (view pass).taken },
    pub ghost one_raising_each: { seat.me.0.raised ≡ length (view pass).given },
}
