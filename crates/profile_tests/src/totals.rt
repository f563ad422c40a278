//! Totals that are too large, and large profiles that are not.
use crate::texts::{NONE, edited, edited_finds, faulty, finds, put, put_number, too_large};
use qos_profile::FaultKind;
use std::alloc::Global;
use std::process::Abort;

fn queues_are_too_many(rt: &impl Abort, alloc: Global) {
    let edits = [
        (12, "pipes = 4096\npipe 1-4095 = 0"),
        (13, "queue sizes = 65 65 65 65 65 65 65 65 65 65 65 65 65"),
    ];
    edited_finds(rt, alloc, &edits, too_large(4_259_840), "queues");
}

fn slots_are_too_many(rt: &impl Abort, alloc: Global) {
    let edits = [(0, "[pool]\nslots = 1048576\nslot bytes = 4096\n[port 0]")];
    edited_finds(rt, alloc, &edits, too_large(4_294_967_296), "slots");
}

fn text_is_too_long(rt: &impl Abort, alloc: Global) {
    let text = vec![in alloc; 0u8; 1_048_577].expect(rt, "memory");
    finds(rt, alloc, text.as_slice(), too_large(1_048_577), "text");
}

#[test]
fn totals_are_too_large(rt: HostRuntime) {
    queues_are_too_many(&rt, rt.alloc());
    slots_are_too_many(&rt, rt.alloc());
    text_is_too_long(&rt, rt.alloc());
}

fn add_meter(rt: &impl Abort, text: &mut String, number: u32) {
    put_number(rt, text, "[meter m", number, "]\n");
    put(rt, text, "kind = srtcm\ncir rate = 0\ncbs = 1\nebs = 1\n");
}

// The first profile with so many meters.
fn with_meters(rt: &impl Abort, alloc: Global, count: u32) -> String {
    let mut text = edited(rt, alloc, &[]);
    for number in 0..count {
        add_meter(rt, &mut text, number);
    }
    text
}

#[test]
fn more_than_64_meters_are_too_many(rt: HostRuntime) {
    let text = with_meters(&rt, rt.alloc(), 64);
    finds(&rt, rt.alloc(), text.as_bytes(), NONE, "64 meters");
    let text = with_meters(&rt, rt.alloc(), 65);
    finds(&rt, rt.alloc(), text.as_bytes(), too_large(65), "65 meters");
}

const KINDS: &str = "[subport profile 0]
tb credits = 1
tb period = 1
tb size = 2000000
tc 0-12 credits = 1000000
tc period = 1000000
[pipe profile 0]
tb credits = 1
tb period = 1
tb size = 2000000
tc 0-12 credits = 1000000
tc period = 1000000
";

// The keys of a subport with 4,096 pipes and no queue.
const SUBPORT: &str = "profile = 0
pipes = 4096
queue sizes = 0 0 0 0 0 0 0 0 0 0 0 0 0
pipe 0-4095 = 0
";

fn add_subport(rt: &impl Abort, text: &mut String, port: u32, subport: u32) {
    put_number(rt, text, "[subport ", port, " ");
    put_number(rt, text, "", subport, "]\n");
    put(rt, text, SUBPORT);
}

fn add_port(rt: &impl Abort, text: &mut String, port: u32, subports: u32) {
    put_number(rt, text, "[port ", port, "]\nline rate = 1000000000\n");
    put_number(rt, text, "subports = ", subports, "\n");
    for subport in 0..subports {
        add_subport(rt, text, port, subport);
    }
}

// Three ports of 8, 8 and 1 subports.
#[test]
fn more_than_65536_pipes_are_too_many(rt: HostRuntime) {
    let mut text = String::new(rt.alloc());
    for (port, subports) in [(0, 8), (1, 8), (2, 1)] {
        add_port(&rt, &mut text, port, subports);
    }
    put(&rt, &mut text, KINDS);
    finds(&rt, rt.alloc(), text.as_bytes(), too_large(69_632), "pipes");
}

// A line for each of 4,096 pipes, the last pipe first.
#[test]
fn pipes_may_fall(rt: HostRuntime) {
    let mut pipes = String::new(rt.alloc());
    put(&rt, &mut pipes, "pipes = 4096");
    for pipe in (1..4_096).rev() {
        put_number(&rt, &mut pipes, "\npipe ", pipe, " = 0");
    }
    edited_finds(&rt, rt.alloc(), &[(12, pipes.as_str())], NONE, "falling");
}

// As many heads as a text can have: each is looked up among all that stand before it.
#[test]
fn many_heads_are_read(rt: HostRuntime) {
    let mut text = String::new(rt.alloc());
    for number in 0..65_000 {
        put_number(&rt, &mut text, "[meter m", number, "]\n");
    }
    let wanted = faulty(0, FaultKind::Missing);
    finds(&rt, rt.alloc(), text.as_bytes(), wanted, "heads");
}
