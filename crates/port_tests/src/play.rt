//! A port that is played step by step.
use crate::check::same;
use crate::profiles::read;
use port_sched::PortSched;
use qos_base::{Colour, Departure, Pkt, Steps};
use qos_profile::Profile;
use std::alloc::Global;
use std::process::Abort;
use std::sync::ledger::Ledger;

/// The subport, the pipe and the queue of a packet.
pub type Place = (u32, u32, u32);

/// A step of a row. A packet is told by a number.
#[derive(Clone, Copy)]
pub enum Step<'a> {
    /// A packet arrives at a place, with so many bytes, and joins the queue.
    Joins(u32, Place, u32),
    /// A packet arrives at a place, and is turned away.
    TurnedAway(u32, Place, u32),
    /// A dequeue at a moment, with so much room: the packets that it sends, each with its time, and port time after it.
    Sends(u64, u32, &'a [(u32, u64)], u64),
    /// These packets are left, in the order in which they are drained.
    Left(&'a [u32]),
}

/// A profile, and what its port 0 does step by step.
#[derive(Clone, Copy)]
pub struct Row<'a> {
    pub note: &'a str,
    pub profile: &'a str,
    pub steps: &'a [Step<'a>],
}

fn packet(name: u32, place: Place, wire: u32) -> Pkt {
    let (subport, pipe, queue) = place;
    Pkt {
        input: 0,
        index: name,
        wire,
        cap: wire,
        stamp: 0,
        port: 0,
        subport,
        pipe,
        queue,
        colour: Colour::Green,
    }
}

fn start(rt: &impl Abort, alloc: Global, profile: &Profile) -> PortSched<Pkt> {
    assert!(rt; profile.ports.as_slice().len() > 0);
    PortSched::new(alloc, profile, 0).expect(rt, "memory")
}

fn port_of<R: Abort + AllocGlobal>(rt: &R, text: &str) -> PortSched<Pkt> {
    let profile = read(rt, text);
    start(rt, rt.alloc(), &profile)
}

// A packet arrives, and this one comes back, if any.
fn arrives(rt: &impl Abort, port: &mut PortSched<Pkt>, packet: Pkt, back: Option<u32>, note: &str) {
    assert!(rt; port.has_place(&packet));
    let came = port.arrive(packet).err().map(|full| full.parcel.index);
    same(rt, &came, &back, note);
}

fn dequeue<L: Ledger>(
    rt: &impl Abort,
    port: &mut PortSched<Pkt>,
    moment: u64,
    room: u32,
    out: &mut Vec<Departure<Pkt>>,
    steps: &mut Steps<L>,
) -> u32 {
    out.clear();
    assert!(rt; moment <= 1 << 62 && port.time() <= 1 << 62);
    assert!(rt; room <= 256 && out.capacity() >= 256);
    port.dequeue(moment, room, out, steps)
}

fn is_sent(rt: &impl Abort, departure: &Departure<Pkt>, wanted: (u32, u64), note: &str) {
    same(rt, &(departure.parcel.index, departure.time), &wanted, note);
}

fn are_sent(rt: &impl Abort, out: &[Departure<Pkt>], wanted: &[(u32, u64)], note: &str) {
    same(rt, &out.len(), &wanted.len(), note);
    for (departure, wanted) in out.iter().zip(wanted) {
        is_sent(rt, departure, *wanted, note);
    }
}

fn is_drained(rt: &impl Abort, port: &mut PortSched<Pkt>, name: Option<u32>, note: &str) {
    same(rt, &port.drain_out().map(|p| p.index), &name, note);
}

fn drain(rt: &impl Abort, port: &mut PortSched<Pkt>, names: &[u32], note: &str) {
    same(rt, &port.queued(), &(names.len() as u64), note);
    for name in names {
        is_drained(rt, port, Some(*name), note);
    }
    is_drained(rt, port, None, note);
    same(rt, &port.queued(), &0, note);
}

fn take_step<L: Ledger>(
    rt: &impl Abort,
    port: &mut PortSched<Pkt>,
    step: &Step<'_>,
    out: &mut Vec<Departure<Pkt>>,
    steps: &mut Steps<L>,
    note: &str,
) {
    match *step {
        Step::Joins(name, place, wire) => arrives(rt, port, packet(name, place, wire), None, note),
        Step::TurnedAway(name, place, wire) => {
            arrives(rt, port, packet(name, place, wire), Some(name), note)
        }
        Step::Sends(moment, room, wanted, time) => {
            let sent = dequeue(rt, port, moment, room, out, steps);
            let seen = (sent as usize, port.time());
            same(rt, &seen, &(wanted.len(), time), note);
            are_sent(rt, out.as_slice(), wanted, note);
        }
        Step::Left(names) => drain(rt, port, names, note),
    }
}

/// Plays a row.
pub fn play<R: Abort + AllocGlobal, L: Ledger>(rt: &R, row: &Row<'_>, steps: &mut Steps<L>) {
    let mut port = port_of(rt, row.profile);
    let mut out = Vec::with_capacity(rt.alloc(), 256).expect(rt, "memory");
    for step in row.steps {
        take_step(rt, &mut port, step, &mut out, steps, row.note);
    }
}
