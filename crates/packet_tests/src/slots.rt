//! Slots that are given back and taken again.
use crate::check::same;
use pkt_slots::{Mbuf, Slots};
use qos_base::{Colour, Departure, Pkt};
use std::alloc::AllocGlobal;
use std::process::Abort;

const EMPTY: Pkt = Pkt {
    input: 0,
    index: 0,
    wire: 60,
    cap: 0,
    stamp: 0,
    port: 0,
    subport: 0,
    pipe: 0,
    queue: 0,
    colour: Colour::Green,
};

fn slot_of<R: Abort + AllocGlobal>(rt: &R, byte: u8) -> Mbuf {
    Mbuf {
        bytes: vec![in rt.alloc(); byte; 64].expect(rt, "memory"),
        pkt: EMPTY,
    }
}

// The last that was given back is taken first, and one more is made where none is free.
#[test]
fn slots_are_taken_again(rt: HostRuntime) {
    let mut slots = Slots::new(rt.alloc(), 64);
    let departure = Departure {
        parcel: slot_of(&rt, 1),
        time: 0,
    };
    let mut sent = vec![in rt.alloc(); departure].expect(&rt, "memory");
    slots.give_all(&mut sent);
    slots.give_if(Some(slot_of(&rt, 2)));
    slots.give_if(None);
    for byte in [2, 1, 0] {
        let slot = slots.take().expect(&rt, "memory");
        same(&rt, &slot.as_slice(), &[byte; 64].as_slice(), "a slot");
    }
}
