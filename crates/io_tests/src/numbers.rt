//! Reasons, times, divisors, packets, sequences and steps.
ghost use Rattle.std.specs.Prelude.{◌≡◌, ◌<◌};

use crate::check::{owned, same};
use qos_base::{
    Colour, LAST_STAMP, MAX_LINE, MAX_MOMENT, MIN_LINE, Parcel, Pkt, Reason, Sequence, Steps,
    byte_time, gcd, send_stamp,
};
use std::marker::Brand;
use std::process::Abort;
use std::sync::ledger::{Blank, Ledger};

const PACKET: Pkt = Pkt {
    input: 0,
    index: 3,
    wire: 60,
    cap: 60,
    stamp: 100_000_000_000,
    port: 0,
    subport: 0,
    pipe: 0,
    queue: 12,
    colour: Colour::Green,
};

const REASONS: [Reason; 7] = [
    Reason::Unparsed,
    Reason::Unmatched,
    Reason::Oversize,
    Reason::TooLong,
    Reason::NoSlot,
    Reason::Policed,
    Reason::TailFull,
];

// Nanoseconds, a line, and how many bytes it carries in them. A line of 10^9 bytes per second has one byte time a
// nanosecond; 84 bytes at 125,000,000 take 672 ns.
const BYTE_TIMES: [(u64, u64, u64); 5] = [
    (0, 1_000_000_000, 0),
    (84, 1_000_000_000, 84),
    (671, 125_000_000, 83),
    (672, 125_000_000, 84),
    (
        1_125_899_906_842_624,
        12_500_000_000,
        14_073_748_835_532_800,
    ),
];

// An origin, a byte time, a line, and the stamp.
const STAMPS: [(u64, u64, u64, u64); 5] = [
    (100_000_000_000, 168, 1_000_000_000, 100_000_000_168),
    (5, 84, 125_000_000, 677),
    (LAST_STAMP - 1, 1, 1_000_000_000, LAST_STAMP),
    (LAST_STAMP, 1, 1_000_000_000, LAST_STAMP),
    (0, u64::MAX, 1_000_000, LAST_STAMP),
];

// Two numbers and their greatest common divisor: two primes, a rate and a line with the divisor 25, and the cases with a 0.
const DIVISORS: [(u64, u64, u64); 8] = [
    (12, 18, 6),
    (97, 89, 1),
    (305_175, 1_250_000_000, 25),
    (1_250_000_000, 305_175, 25),
    (0, 7, 7),
    (7, 0, 7),
    (0, 0, 0),
    (u64::MAX, u64::MAX, u64::MAX),
];

#[test]
fn reasons_are_numbered_in_order(rt: HostRuntime) {
    let numbers = REASONS.map(|reason| reason.number());
    same(&rt, &numbers, &[1, 2, 3, 4, 5, 6, 7], "the numbers");
}

fn is_byte_time(rt: &impl Abort, row: (u64, u64, u64)) {
    let (ns, line, _) = row;
    assert!(rt; ns <= MAX_MOMENT && MIN_LINE <= line && line <= MAX_LINE);
    let found = (ns, line, byte_time(ns, line));
    same(rt, &found, &row, "nanoseconds, the line and bytes");
}

fn is_stamp(rt: &impl Abort, row: (u64, u64, u64, u64)) {
    let (origin, time, line, _) = row;
    assert!(rt; MIN_LINE <= line && line <= MAX_LINE);
    let found = (origin, time, line, send_stamp(origin, time, line));
    same(
        rt,
        &found,
        &row,
        "the origin, the time, the line and the stamp",
    );
}

#[test]
fn times_are_converted(rt: HostRuntime) {
    for row in BYTE_TIMES {
        is_byte_time(&rt, row);
    }
    for row in STAMPS {
        is_stamp(&rt, row);
    }
}

#[test]
fn the_greatest_common_divisor_is_found(rt: HostRuntime) {
    for (a, b, divisor) in DIVISORS {
        same(
            &rt,
            &(a, b, gcd(a, b)),
            &(a, b, divisor),
            "two numbers and their divisor",
        );
    }
}

#[test]
fn a_packet_carries_itself(rt: HostRuntime) {
    same(&rt, &PACKET.pkt(), &PACKET, "a packet");
}

#[test]
fn a_sequence_gives_its_items_back(rt: HostRuntime) {
    let items = Sequence::of(owned(&rt, &[1, 2]));
    same(&rt, &items.as_slice(), &[1, 2].as_slice(), "as a slice");
    let items = items.into_vec();
    same(&rt, &items.as_slice(), &[1, 2].as_slice(), "as a vector");
}

fn counted<L: Ledger>(blank: Blank)
    requires name { blank.name ≡ L.name }
    requires parts { blank.parts ≡ L.parts }
    requires some { 0 < L.parts }
{
    Steps::<L>::new(blank).tick();
}

#[test]
fn a_step_is_counted() {
    counted::<Brand>(Blank::new(1));
}
