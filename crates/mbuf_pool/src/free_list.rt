//! The steps on the free list. Each tries until it is made.
ghost use Rattle.std.specs.Prelude.{◌≡◌, ℕ, ◌+◌, ◌<◌, ◌≤◌, [], length, IfOk, vec_capacity};
ghost use Rattle.std.specs.List.{sum_by};
ghost use Rattle.crossbeam_queue.specs.Passes.{view, IsSamePass, IsPassOf, ruled_capacity};
ghost use Rattle.mbuf_pool.specs.FreeList.{IsSlot, Makes, Takes, Gives, weigh, first_slots, slots_of_pass};

use crate::mbuf::Mbuf;
use crate::pass::Slots;
use crate::plays::{FreeQueue, Give, Make, Take, Total};
use crossbeam_queue::Pass;
use qos_base::{Colour, NoMemory, Pkt};
use std::alloc::Global;
use std::sync::Wait;
use std::thread;

// What a slot carries before it is taken for the first time.
const BLANK: Pkt = Pkt {
    input: 0,
    index: 0,
    wire: 0,
    cap: 0,
    stamp: 0,
    port: 0,
    subport: 0,
    pipe: 0,
    queue: 0,
    colour: Colour::Green,
};

// Puts a new slot into the list of a pool that is being made.
fn make<R: Wait>(rt: &R, list: &FreeQueue, pass: &mut Pass<Mbuf, Slots>, mut m: Mbuf)
    requires pass { IsPassOf list.now pass.old }
    requires alone { ((view pass.old).parts ≡ 48) × ((view pass.old).taken ≡ []) × ((view pass.old).given ≡ []) }
    requires next { m.slot ≡ (view pass.old).slots }
    requires bytes { 0 < (view pass.old).slots → (view pass.old).bytes ≡ length m.bytes.items }
    ensures pass { IsSamePass pass.old pass.new }
    ensures made { Makes (view pass.old) m (view pass.new) }
{
    for _ in rt.forever() {
        match list.try_push_as::<Make>(pass, m) {
            Ok(()) => return,
            Err(back) => m = back,
        }
        thread::yield_now();
    }
    unreachable!()
}

/// Fills the list of a pool that is being made with all its slots.
pub(crate) fn fill<R: Wait>(
    rt: &R,
    alloc: Global,
    list: &FreeQueue,
    pass: &mut Pass<Mbuf, Slots>,
    slots: u32,
    bytes: u32,
) -> Result<(), NoMemory>
    requires pass { IsPassOf list.now pass.old }
    requires first { view pass.old ≡ slots_of_pass 48 0 0 [] [] }
    requires some { 1 ≤ slots }
    ensures pass { IsSamePass pass.old pass.new }
    ensures filled { IfOk result (λ _. view pass.new ≡ slots_of_pass 48 slots bytes [] []) }
{
    for slot in 0..slots {
        let m = Mbuf {
            slot,
            bytes: Vec::from_elem(alloc, 0u8, bytes as usize)?,
            pkt: BLANK,
            due: 0,
        };
        make(rt, list, pass, m);
    }
    Ok(())
}

/// Takes a slot out of the list.
pub(crate) fn take_one<R: Wait>(rt: &R, list: &FreeQueue, pass: &mut Pass<Mbuf, Slots>) -> Mbuf
    requires pass { IsPassOf list.now pass.old }
    requires part { 0 < (view pass.old).parts }
    ensures pass { IsSamePass pass.old pass.new }
    ensures taken { Takes (view pass.old) result (view pass.new) }
{
    for _ in rt.forever() {
        if let Some(m) = list.try_pop_as::<Take>(pass) {
            return m;
        }
        thread::yield_now();
    }
    unreachable!()
}

/// Puts a slot back into the list.
pub(crate) fn give_one<R: Wait>(rt: &R, list: &FreeQueue, pass: &mut Pass<Mbuf, Slots>, mut m: Mbuf)
    requires pass { IsPassOf list.now pass.old }
    requires part { 0 < (view pass.old).parts }
    requires slot { IsSlot (view pass.old).slots (view pass.old).bytes m }
    ensures pass { IsSamePass pass.old pass.new }
    ensures given { Gives (view pass.old) m (view pass.new) }
{
    for _ in rt.forever() {
        match list.try_push_as::<Give>(pass, m) {
            Ok(()) => return,
            Err(back) => m = back,
        }
        thread::yield_now();
    }
    unreachable!()
}

/// Takes all slots out of a list that no other pass uses any more, into a list with room for them.
pub(crate) fn drain<R: Wait>(
    rt: &R,
    list: &FreeQueue,
    mut pass: Pass<Mbuf, Slots>,
    mut free: Vec<u32>,
) -> Vec<u32>
    requires pass { IsPassOf list.now pass × ((view pass).parts ≡ 48) }
    requires room { (free.items ≡ []) × (ruled_capacity list.now ≤ vec_capacity free) }
    ensures { (h : ℕ → ℕ) → weigh h result.items + weigh h (view pass).taken ≡ weigh h (first_slots (view pass).slots) + weigh h (view pass).given }
{
    let count = list.len_as::<Total, R>(rt, &mut pass);
    for _ in 0..count {
        let m = take_one(rt, list, &mut pass);
        free.push_reserved(m.slot);
    }
    list.learn_as::<Total>(&mut pass);
    free
}
