//! Rings between stages.
ghost use Rattle.std.specs.Prelude.{◌≡◌, ℕ, ◌+◌, ◌^◌, ◌<◌, [], length, slice_index_or};
ghost use Rattle.stage_ring.specs.Ends.{outlet_ring, sent_ring, inlet_ring, parcels_put};

use crate::check::same;
use mbuf_pool::Mbuf;
use qos_base::{Colour, Pkt};
use stage_ring::{Inlet, Msg, Outlet, Sent, laws, ring};
use std::alloc::Global;
use std::process::Abort;
use std::sync::Wait;
use std::thread;
use std::thread::{Threads, join};

const COUNT: u32 = 1_000;

// The parcel of a packet, by its sender and its place.
fn parcel(alloc: Global, input: u32, index: u32) -> Mbuf {
    Mbuf {
        slot: 0,
        bytes: Vec::new(alloc),
        pkt: Pkt {
            input,
            index,
            wire: 60,
            cap: 0,
            stamp: 0,
            port: 0,
            subport: 0,
            pipe: 0,
            queue: 0,
            colour: Colour::Green,
        },
        due: 0,
    }
}

// What was taken: nothing, a parcel of a sender and a place, or a Fin of a sender.
fn seen(taken: Option<Msg>) -> (u32, u32, u32) {
    match taken {
        None => (0, 0, 0),
        Some(Msg::Parcel(m)) => (1, m.pkt.input, m.pkt.index),
        Some(Msg::Fin(sender)) => (2, sender, 0),
    }
}

// Puts a parcel, however long it takes.
fn put<R: Wait>(rt: &R, outlet: &mut Outlet, mut m: Mbuf)
    requires { length (parcels_put outlet.old) < 2 ^ 56 }
    ensures ring { outlet_ring outlet.new ≡ outlet_ring outlet.old }
    ensures count { length (parcels_put outlet.new) ≡ length (parcels_put outlet.old) + 1 }
{
    for _ in rt.forever() {
        match outlet.push(rt, m) {
            Ok(()) => return,
            Err(full) => m = full.parcel,
        }
        thread::yield_now();
    }
    unreachable!()
}

// Ends a sender, however long it takes.
fn end<R: Wait>(rt: &R, mut outlet: Outlet) -> Sent
    ensures { sent_ring result ≡ outlet_ring outlet }
{
    for _ in rt.forever() {
        match outlet.finish(rt) {
            Ok(sent) => return sent,
            Err(back) => outlet = back,
        }
        thread::yield_now();
    }
    unreachable!()
}

// Sends so many parcels, and then the Fin.
fn send<R: Wait>(rt: &R, alloc: Global, input: u32, mut outlet: Outlet) -> Sent
    requires { parcels_put outlet ≡ [] }
    ensures { sent_ring result ≡ outlet_ring outlet }
{
    for index in 0..COUNT {
        put(rt, &mut outlet, parcel(alloc, input, index));
    }
    end(rt, outlet)
}

// What arrived: how many parcels of each sender, whether each was in its place, and the Fins.
#[derive(Clone, Copy, Debug, PartialEq)]
struct Arrived {
    next: [u32; 2],
    in_order: bool,
    fins: u32,
}

fn noted(mut all: Arrived, taken: (u32, u32, u32)) -> Arrived {
    if taken.0 == 2 {
        all.fins = all.fins.wrapping_add(1);
    }
    if taken.0 == 1 && taken.1 < 2 {
        let place = taken.1 as usize;
        all.in_order = all.in_order && all.next[place] == taken.2;
        all.next[place] = taken.2.wrapping_add(1);
    }
    all
}

// Takes until the ring has ended.
fn receive<R: Wait>(rt: &R, mut inlet: Inlet) -> (Inlet, Arrived)
    ensures { inlet_ring result.0 ≡ inlet_ring inlet }
{
    let mut all = Arrived {
        next: [0; 2],
        in_order: true,
        fins: 0,
    };
    for _ in rt.forever() {
        if inlet.ended() {
            break;
        }
        let taken = seen(inlet.take(rt));
        if taken.0 == 0 {
            thread::yield_now();
        }
        all = noted(all, taken);
    }
    (inlet, all)
}

// The two outlets of a ring.
fn two(rt: &impl Abort, mut outlets: Vec<Outlet>, inlet: &Inlet) -> (Outlet, Outlet)
    requires count { length outlets.items ≡ 2 }
    requires new { (k : ℕ) (d : Outlet) → k < 2
        → (outlet_ring (slice_index_or outlets.items k d) ≡ inlet_ring inlet.now)
        × (parcels_put (slice_index_or outlets.items k d) ≡ []) }
    ensures first { (outlet_ring result.0 ≡ inlet_ring inlet.now) × (parcels_put result.0 ≡ []) }
    ensures second { (outlet_ring result.1 ≡ inlet_ring inlet.now) × (parcels_put result.1 ≡ []) }
{
    let second = outlets.pop().expect(rt, "a sender");
    let first = outlets.pop().expect(rt, "a sender");
    (first, second)
}

// Two senders, each in a thread of its own.
fn send_both<R: Threads + Wait + Sync>(
    rt: &R,
    alloc: Global,
    first: Outlet,
    second: Outlet,
) -> (Sent, Sent)
    requires { (parcels_put first ≡ []) × (parcels_put second ≡ []) }
    ensures { (sent_ring result.0 ≡ outlet_ring first) × (sent_ring result.1 ≡ outlet_ring second) }
{
    join(
        rt,
        move || -> Sent
            requires { parcels_put first ≡ [] }
            ensures { sent_ring result ≡ outlet_ring first }
        { send(rt, alloc, 0, first) },
        move || -> Sent
            requires { parcels_put second ≡ [] }
            ensures { sent_ring result ≡ outlet_ring second }
        { send(rt, alloc, 1, second) },
    )
}

// What arrives of two senders over a ring of 8, and how many parcels each says that it sent.
fn relayed<R: Threads + Wait + Sync + Abort>(rt: &R, alloc: Global) -> (Arrived, u64, u64) {
    let (outlets, inlet) = ring(rt, alloc, 8, 2).expect(rt, "memory");
    let (first, second) = two(rt, outlets, &inlet);
    let ((a, b), (mut inlet, all)) = join(
        rt,
        move || -> (Sent, Sent)
            requires { (parcels_put first ≡ []) × (parcels_put second ≡ []) }
            ensures { (sent_ring result.0 ≡ outlet_ring first) × (sent_ring result.1 ≡ outlet_ring second) }
        { send_both(rt, alloc, first, second) },
        move || -> (Inlet, Arrived)
            ensures { inlet_ring result.0 ≡ inlet_ring inlet }
        { receive(rt, inlet) },
    );
    let a = laws::meet(rt, &mut inlet, a);
    let b = laws::meet(rt, &mut inlet, b);
    (all, a.count, b.count)
}

// Puts a parcel of each sender: whether the first one has room, and the place of the second, which comes back.
fn put_two<R: Wait + Abort>(
    rt: &R,
    alloc: Global,
    first: &mut Outlet,
    second: &mut Outlet,
) -> (bool, u32)
    requires { (parcels_put first.old ≡ []) × (parcels_put second.old ≡ []) }
{
    let put = first.push(rt, parcel(alloc, 0, 7)).is_ok();
    let full = second.push(rt, parcel(alloc, 1, 8));
    (put, full.err().expect(rt, "full").parcel.pkt.index)
}

// Ends a sender: whether there was room for its Fin, and what is taken then.
fn end_now<R: Wait>(rt: &R, outlet: Outlet, inlet: &mut Inlet) -> (bool, (u32, u32, u32)) {
    let ended = outlet.finish(rt).is_ok();
    (ended, seen(inlet.take(rt)))
}

fn answers<R: Wait + Abort>(rt: &R, alloc: Global) -> ([(u32, u32, u32); 4], u32, bool) {
    let (outlets, mut inlet) = ring(rt, alloc, 1, 2).expect(rt, "memory");
    let (mut first, mut second) = two(rt, outlets, &inlet);
    let (put, back) = put_two(rt, alloc, &mut first, &mut second);
    let parcel_taken = seen(inlet.take(rt));
    let none = seen(inlet.take(rt));
    let (one, first_fin) = end_now(rt, first, &mut inlet);
    let early = inlet.ended();
    let (other, second_fin) = end_now(rt, second, &mut inlet);
    (
        [parcel_taken, none, first_fin, second_fin],
        back,
        put && one && other && !early && inlet.ended(),
    )
}

#[test]
fn a_ring_of_one(rt: HostRuntime) {
    let (taken, back, rest) = answers(&rt, rt.alloc());
    same(
        &rt,
        &taken,
        &[(1, 0, 7), (0, 0, 0), (2, 0, 0), (2, 1, 0)],
        "taken",
    );
    same(
        &rt,
        &(back, rest),
        &(8, true),
        "the parcel back, and the ends",
    );
}

#[test]
fn two_senders_arrive_in_order(rt: HostRuntime) {
    let wanted = Arrived {
        next: [COUNT; 2],
        in_order: true,
        fins: 2,
    };
    for _ in 0..50 {
        same(
            &rt,
            &relayed(&rt, rt.alloc()),
            &(wanted, 1_000, 1_000),
            "two senders",
        );
    }
}
