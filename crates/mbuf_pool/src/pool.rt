//! The pool, and what its passes do.
ghost use Rattle.std.specs.Prelude.{◌≡◌, ◌^◌, ◌<◌, ◌≤◌, [], vec_capacity};
ghost use Rattle.crossbeam_queue.specs.Passes.{ruled_capacity};

use crate::count::{Counter, lower, raise};
use crate::free_list::{drain, fill, give_one, take_one};
use crate::mbuf::Mbuf;
use crate::pass::PoolPass;
use crate::plays::{Both, FreeQueue, OnePart};
use atomic_table::Table;
use qos_base::NoMemory;
use std::alloc::Global;
use std::sync::Wait;

/// Slots for packets, which threads take and give back, and the count of those that are free.
#[derive(Drop)]
pub struct Pool {
    list: FreeQueue,
    count: Counter,
    room: Vec<u32>,
    slots: u32,
    bytes: u32,
    ghost few: { slots < 2 ^ 32 },
    ghost counted: { count.shared.key ≡ slots },
    ghost one_word: { count.shared.table_id.words ≡ 1 },
    ghost no_slots: { count.shared.table_id.slots ≡ 0 },
    ghost holds_all: { ruled_capacity list ≡ slots },
    ghost room_is_empty: { room.items ≡ [] },
    ghost room_for_all: { slots ≤ vec_capacity room },
}

/// What is left of a pool.
#[derive(Drop)]
pub struct PoolEnd {
    /// The free slots, in rising order.
    pub free: Vec<u32>,
}

impl Pool {
    ghost use Rattle.std.specs.Prelude.{ℕ, ◌+◌, ◌^◌, ◌<◌, ◌∷◌, ◌++◌, ◌||◌, true, false, Some, None, length, IfOk, IfSome, MatchOption};
    ghost use Rattle.std.specs.List.{sum_by, All};
    ghost use Rattle.std.specs.List.Sorted.{IsSorted};
    ghost use Rattle.std.specs.Option.{is_some};
    ghost use Rattle.std.specs.Ordering.{nat_cmp};
    ghost use Rattle.mbuf_pool.specs.FreeList.{IsSlot, weigh};
    ghost use Rattle.mbuf_pool.specs.Passes.{slots_of, bytes_of, IsPassOf, IsFresh, parts_of, taken_by, given_by, has_met_zero, answers_of, IsAllOf, takes_in_all};

    /// A pool of `slots` slots of `bytes` bytes, all free and numbered from 0, and its passes.
    ///
    /// All three are at least 1, and there are at most 48 passes. It may wait.
    pub fn new<R: Wait>(
        rt: &R,
        alloc: Global,
        slots: u32,
        bytes: u32,
        passes: u32,
    ) -> Result<(Pool, Vec<PoolPass>), NoMemory>
        requires slots { 1 ≤ slots }
        requires bytes { 1 ≤ bytes }
        requires some_pass { 1 ≤ passes }
        requires passes { passes ≤ 48 }
        ensures slots { IfOk result (λ r. slots_of r.0 ≡ slots) }
        ensures bytes { IfOk result (λ r. bytes_of r.0 ≡ bytes) }
        ensures passes { IfOk result (λ r. length r.1.items ≡ passes) }
        ensures fresh { IfOk result (λ r. All (IsFresh r.0) r.1.items) }
        ensures parts { IfOk result (λ r. sum_by parts_of r.1.items ≡ 48) }
    {
        let dealt = Vec::with_capacity(alloc, passes as usize)?;
        let room = Vec::with_capacity(alloc, slots as usize)?;
        let all = u64::from(slots);
        let (count, seat) = Table::of_words(alloc, &[all], &all)?;
        let (list, mut pass) = FreeQueue::ruled(alloc, slots as usize)?;
        fill(rt, alloc, &list, &mut pass, slots, bytes)?;
        let pool = Pool {
            list,
            count,
            room,
            slots,
            bytes,
        };
        let dealt = pool.deal(PoolPass { pass, seat }, dealt, passes);
        Ok((pool, dealt))
    }

    // So many passes out of one.
    fn deal(&self, mut first: PoolPass, mut dealt: Vec<PoolPass>, passes: u32) -> Vec<PoolPass>
        requires fresh { IsFresh self.now first × (parts_of first ≡ 48) }
        requires passes { (1 ≤ passes) × (passes ≤ 48) }
        requires room { (dealt.items ≡ []) × (passes ≤ vec_capacity dealt) }
        ensures passes { length result.items ≡ passes }
        ensures fresh { All (IsFresh self.now) result.items }
        ensures parts { sum_by parts_of result.items ≡ 48 }
    {
        for _ in 1..passes {
            dealt.push_reserved(self.split(&mut first));
        }
        dealt.push_reserved(first);
        dealt
    }

    // One part of a fresh pass, as another fresh pass.
    fn split(&self, pass: &mut PoolPass) -> PoolPass
        requires fresh { IsFresh self.now pass.old }
        requires parts { 1 < parts_of pass.old }
        ensures kept { IsFresh self.now pass.new × (parts_of pass.new + 1 ≡ parts_of pass.old) }
        ensures new { IsFresh self.now result × (parts_of result ≡ 1) }
    {
        PoolPass {
            pass: self.list.another::<OnePart>(&mut pass.pass),
            seat: self.count.shared.split_seat::<OnePart>(&mut pass.seat),
        }
    }

    /// Takes a slot: lowers the count by one where it is above 0, and then takes a slot out of the free
    /// list. None only where the count was 0 at one moment of the call, and then no slot was taken.
    ///
    /// It may wait for another thread that is just giving or taking a slot.
    pub fn take<R: Wait>(&self, rt: &R, pass: &mut PoolPass) -> Option<Mbuf>
        requires { IsPassOf self.now pass.old }
        ensures pass { IsPassOf self.now pass.new }
        ensures parts { parts_of pass.new ≡ parts_of pass.old }
        ensures slot { IfSome result (IsSlot (slots_of self.now) (bytes_of self.now)) }
        ensures taken { MatchOption result (taken_by pass.new ≡ taken_by pass.old) (λ m. taken_by pass.new ≡ taken_by pass.old ++ m.slot ∷ []) }
        ensures given { given_by pass.new ≡ given_by pass.old }
        ensures answers { answers_of pass.new ≡ answers_of pass.old ++ is_some result ∷ [] }
        ensures met_zero { MatchOption result (has_met_zero pass.new ≡ true) (λ _. has_met_zero pass.new ≡ has_met_zero pass.old) }
    {
        if lower(rt, &self.count, &mut pass.seat) {
            Some(take_one(rt, &self.list, &mut pass.pass))
        } else {
            None
        }
    }

    /// Gives a slot back: tries until it is in the free list, and then raises the count by one.
    ///
    /// The slot is one of the pool's, in its whole length, and the pass has given fewer than 2^56 slots.
    pub fn give<R: Wait>(&self, rt: &R, pass: &mut PoolPass, m: Mbuf)
        requires pass { IsPassOf self.now pass.old }
        requires slot { IsSlot (slots_of self.now) (bytes_of self.now) m }
        requires limit { length (given_by pass.old) < 2 ^ 56 }
        ensures pass { IsPassOf self.now pass.new }
        ensures parts { parts_of pass.new ≡ parts_of pass.old }
        ensures given { given_by pass.new ≡ given_by pass.old ++ m.slot ∷ [] }
        ensures taken { taken_by pass.new ≡ taken_by pass.old }
        ensures answers { answers_of pass.new ≡ answers_of pass.old }
        ensures met_zero { has_met_zero pass.new ≡ has_met_zero pass.old }
    {
        give_one(rt, &self.list, &mut pass.pass, m);
        raise(&self.count, &mut pass.seat);
    }

    // Two passes as one.
    fn join(&self, pass: &mut PoolPass, other: PoolPass)
        requires pass { IsPassOf self.now pass.old }
        requires other { IsPassOf self.now other }
        ensures pass { IsPassOf self.now pass.new }
        ensures parts { parts_of pass.new ≡ parts_of pass.old + parts_of other }
        ensures taken { taken_by pass.new ≡ taken_by pass.old ++ taken_by other }
        ensures given { given_by pass.new ≡ given_by pass.old ++ given_by other }
        ensures met_zero { has_met_zero pass.new ≡ (has_met_zero pass.old || has_met_zero other) }
    {
        let PoolPass {
            pass: slots,
            seat: count,
        } = other;
        self.list.absorb::<Both>(&mut pass.pass, slots);
        self.count.shared.join_seat::<Both>(&mut pass.seat, count);
    }

    // All passes as one.
    fn join_all(&self, mut passes: Vec<PoolPass>) -> PoolPass
        requires mine { All (IsPassOf self.now) passes.items }
        requires some { 1 ≤ sum_by parts_of passes.items }
        ensures pass { IsPassOf self.now result }
        ensures parts { parts_of result ≡ sum_by parts_of passes.items }
        ensures taken { (h : ℕ → ℕ) → weigh h (taken_by result) ≡ sum_by (λ p. weigh h (taken_by p)) passes.items }
        ensures given { (h : ℕ → ℕ) → weigh h (given_by result) ≡ sum_by (λ p. weigh h (given_by p)) passes.items }
        ensures count { length (taken_by result) ≡ takes_in_all passes.items }
        ensures met_zero { All (λ p. has_met_zero p ≡ true → has_met_zero result ≡ true) passes.items }
    {
        let Some(mut all) = passes.pop() else {
            unreachable!()
        };
        while let Some(pass) = passes.pop() {
            self.join(&mut all, pass);
        }
        all
    }

    /// Ends the pool and gives the free slots, in rising order. As bags, these with all slots that the
    /// passes took are the numbers below the pool's number of slots with all slots that the passes gave.
    /// Where any pass was ever turned away, all passes together have taken at least as many slots as
    /// there are.
    ///
    /// All passes of the pool are given back. It takes no memory, and may wait.
    pub fn end<R: Wait>(self, rt: &R, passes: Vec<PoolPass>) -> PoolEnd
        requires mine { All (IsPassOf self) passes.items }
        requires all { sum_by parts_of passes.items ≡ 48 }
        ensures rising { IsSorted nat_cmp result.free.items }
        ensures bags { IsAllOf self passes.items result.free.items }
        ensures turned_away { All (λ p. has_met_zero p ≡ true → slots_of self ≤ takes_in_all passes.items) passes.items }
    {
        let all = self.join_all(passes);
        let Pool {
            list,
            count,
            room,
            slots: _,
            bytes: _,
        } = self;
        let PoolPass { pass, seat } = all;
        count.close_with(seat).free();
        let mut free = drain(rt, &list, pass, room);
        free.sort_unstable();
        PoolEnd { free }
    }
}
