//! Pools of packet slots.
ghost use Rattle.std.specs.Prelude.{◌≡◌, ◌+◌, length};
ghost use Rattle.std.specs.List.{sum_by, All};
ghost use Rattle.mbuf_pool.specs.Passes.{IsPassOf, IsFresh, parts_of};

use crate::check::same;
use mbuf_pool::{Pool, PoolPass};
use qos_base::Parcel;
use std::alloc::Global;
use std::process::Abort;
use std::sync::Wait;
use std::thread::{Threads, join};

const TIMES: u32 = 10_000;

// Takes a slot and gives it back, many times; and how often it did.
fn work<R: Wait>(rt: &R, pool: &Pool, mut pass: PoolPass) -> (PoolPass, u32)
    requires { IsFresh pool.now pass }
    ensures pass { IsPassOf pool.now result.0 }
    ensures parts { parts_of result.0 ≡ parts_of pass }
{
    let mut given = 0;
    for _ in 0..TIMES {
        if let Some(m) = pool.take(rt, &mut pass) {
            pool.give(rt, &mut pass, m);
            given += 1;
        }
    }
    (pass, given)
}

// Two threads at work.
fn pair<R: Threads + Wait + Sync>(
    rt: &R,
    pool: &Pool,
    first: PoolPass,
    second: PoolPass,
) -> (PoolPass, PoolPass, u32)
    requires first { IsFresh pool.now first }
    requires second { IsFresh pool.now second }
    ensures passes { IsPassOf pool.now result.0 × IsPassOf pool.now result.1 }
    ensures parts { parts_of result.0 + parts_of result.1 ≡ parts_of first + parts_of second }
{
    let (a, b) = join(
        rt,
        move || -> (PoolPass, u32)
            requires { IsFresh pool.now first }
            ensures { IsPassOf pool.entry.now result.0 × (parts_of result.0 ≡ parts_of first) }
        { work(rt, pool, first) },
        move || -> (PoolPass, u32)
            requires { IsFresh pool.now second }
            ensures { IsPassOf pool.entry.now result.0 × (parts_of result.0 ≡ parts_of second) }
        { work(rt, pool, second) },
    );
    (a.0, b.0, a.1.wrapping_add(b.1))
}

// Four threads at work, two at a time in a pair.
fn four<R: Threads + Wait + Sync>(
    rt: &R,
    pool: &Pool,
    passes: (PoolPass, PoolPass, PoolPass, PoolPass),
) -> (PoolPass, PoolPass, PoolPass, PoolPass, u32)
    requires first { IsFresh pool.now passes.0 × IsFresh pool.now passes.1 }
    requires second { IsFresh pool.now passes.2 × IsFresh pool.now passes.3 }
    ensures first { IsPassOf pool.now result.0 × IsPassOf pool.now result.1 }
    ensures second { IsPassOf pool.now result.2 × IsPassOf pool.now result.3 }
    ensures parts { ((parts_of result.0 + parts_of result.1) + parts_of result.2) + parts_of result.3
        ≡ ((parts_of passes.0 + parts_of passes.1) + parts_of passes.2) + parts_of passes.3 }
{
    let (a, b, c, d) = passes;
    let (x, y) = join(
        rt,
        move || -> (PoolPass, PoolPass, u32)
            requires { IsFresh pool.now a × IsFresh pool.now b }
            ensures { IsPassOf pool.entry.now result.0 × IsPassOf pool.entry.now result.1
                × (parts_of result.0 + parts_of result.1 ≡ parts_of a + parts_of b) }
        { pair(rt, pool, a, b) },
        move || -> (PoolPass, PoolPass, u32)
            requires { IsFresh pool.now c × IsFresh pool.now d }
            ensures { IsPassOf pool.entry.now result.0 × IsPassOf pool.entry.now result.1
                × (parts_of result.0 + parts_of result.1 ≡ parts_of c + parts_of d) }
        { pair(rt, pool, c, d) },
    );
    (x.0, x.1, y.0, y.1, x.2.wrapping_add(y.2))
}

// The four passes of a pool.
fn dealt(mut passes: Vec<PoolPass>, pool: &Pool) -> (PoolPass, PoolPass, PoolPass, PoolPass)
    requires fresh { All (IsFresh pool.now) passes.items }
    requires parts { sum_by parts_of passes.items ≡ 48 }
    requires count { length passes.items ≡ 4 }
    ensures first { IsFresh pool.now result.0 × IsFresh pool.now result.1 }
    ensures second { IsFresh pool.now result.2 × IsFresh pool.now result.3 }
    ensures parts { ((parts_of result.0 + parts_of result.1) + parts_of result.2) + parts_of result.3 ≡ 48 }
{
    let d = passes.pop().unwrap();
    let c = passes.pop().unwrap();
    let b = passes.pop().unwrap();
    let a = passes.pop().unwrap();
    (a, b, c, d)
}

// Ends a pool with its four passes.
fn ended<R: Wait + Abort>(
    rt: &R,
    alloc: Global,
    pool: Pool,
    passes: (PoolPass, PoolPass, PoolPass, PoolPass, u32),
) -> (Vec<u32>, u32)
    requires first { IsPassOf pool passes.0 × IsPassOf pool passes.1 }
    requires second { IsPassOf pool passes.2 × IsPassOf pool passes.3 }
    requires parts { ((parts_of passes.0 + parts_of passes.1) + parts_of passes.2) + parts_of passes.3 ≡ 48 }
{
    let (a, b, c, d, given) = passes;
    let mut all = Vec::with_capacity(alloc, 4).expect(rt, "memory");
    all.push_reserved(a);
    all.push_reserved(b);
    all.push_reserved(c);
    all.push_reserved(d);
    (pool.end(rt, all).free, given)
}

fn shared<R: Threads + Wait + Sync + Abort>(rt: &R, alloc: Global) -> (Vec<u32>, u32) {
    let (pool, passes) = Pool::new(rt, alloc, 4, 64, 4).expect(rt, "memory");
    let back = four(rt, &pool, dealt(passes, &pool));
    ended(rt, alloc, pool, back)
}

// A slot's number, its room, its packet's bytes, and whether no other was left.
type Taken = (u32, usize, u32, bool);

// A slot is taken, none is left, and it is given back.
fn turn<R: Wait + Abort>(rt: &R, pool: &Pool, mut pass: PoolPass) -> (PoolPass, Taken)
    requires { IsFresh pool.now pass }
    ensures pass { IsPassOf pool.now result.0 }
    ensures parts { parts_of result.0 ≡ parts_of pass }
{
    let m = pool.take(rt, &mut pass).expect(rt, "a slot");
    let none = pool.take(rt, &mut pass).is_none();
    let taken = (m.slot, m.bytes.len(), m.pkt().cap, none);
    pool.give(rt, &mut pass, m);
    (pass, taken)
}

fn alone<R: Wait + Abort>(rt: &R, alloc: Global) -> (Taken, Vec<u32>) {
    let (pool, mut passes) = Pool::new(rt, alloc, 1, 64, 1).expect(rt, "memory");
    let (pass, taken) = turn(rt, &pool, passes.pop().unwrap());
    passes.push_reserved(pass);
    (taken, pool.end(rt, passes).free)
}

#[test]
fn one_slot(rt: HostRuntime) {
    let (taken, free) = alone(&rt, rt.alloc());
    same(&rt, &taken, &(0, 64, 0, true), "taken");
    same(&rt, &free.as_slice(), &[0].as_slice(), "free at the end");
}

#[test]
fn threads_give_all_slots_back(rt: HostRuntime) {
    for _ in 0..50 {
        let (free, given) = shared(&rt, rt.alloc());
        same(
            &rt,
            &free.as_slice(),
            &[0, 1, 2, 3].as_slice(),
            "free at the end",
        );
        same(&rt, &given, &40_000, "given");
    }
}
