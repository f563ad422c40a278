//! Texts with a fault, and the fault by hand.
use crate::texts::{FIRST, NONE, SKIPPING, edited_finds, faulty, finds, joined};
use qos_profile::FaultKind;
use std::alloc::Global;
use std::process::Abort;

#[test]
fn the_first_profiles_are_profiles(rt: HostRuntime) {
    finds(&rt, rt.alloc(), FIRST.as_bytes(), NONE, "first");
    finds(&rt, rt.alloc(), SKIPPING.as_bytes(), NONE, "skipping");
}

// A line of the first profile that is left out, by its number from 0, and the fault.
static LEFT_OUT: [(usize, u32, FaultKind); 25] = [
    (0, 1, FaultKind::BadLine),
    (1, 1, FaultKind::Missing),
    (2, 1, FaultKind::Missing),
    (4, 5, FaultKind::UnknownKey),
    (5, 5, FaultKind::Missing),
    (6, 5, FaultKind::Missing),
    (7, 5, FaultKind::Missing),
    (8, 5, FaultKind::Missing),
    (9, 5, FaultKind::Missing),
    (10, 11, FaultKind::UnknownKey),
    (11, 11, FaultKind::Missing),
    (12, 11, FaultKind::Missing),
    (13, 11, FaultKind::Missing),
    (14, 11, FaultKind::Missing),
    (15, 16, FaultKind::UnknownKey),
    (16, 16, FaultKind::Missing),
    (17, 16, FaultKind::Missing),
    (18, 16, FaultKind::Missing),
    (19, 16, FaultKind::Missing),
    (20, 16, FaultKind::Missing),
    (21, 22, FaultKind::UnknownKey),
    (22, 22, FaultKind::Missing),
    (23, 22, FaultKind::Missing),
    (24, 22, FaultKind::Missing),
    (25, 22, FaultKind::Missing),
];

fn is_missed(rt: &impl Abort, alloc: Global, place: usize, line: u32, kind: FaultKind) {
    let note = FIRST.lines().nth(place).expect(rt, "a line");
    edited_finds(rt, alloc, &[(place, "")], faulty(line, kind), note);
}

// Each line of the first profile left out in turn.
#[test]
fn a_line_left_out_is_missed(rt: HostRuntime) {
    for (place, line, kind) in &LEFT_OUT {
        is_missed(&rt, rt.alloc(), *place, *line, *kind);
    }
    edited_finds(&rt, rt.alloc(), &[(3, "")], NONE, "the drain has a default");
}

// A text, and its fault.
type Faulty = (&'static str, u32, FaultKind);

fn has_fault(rt: &impl Abort, alloc: Global, row: &Faulty) {
    let (text, line, kind) = *row;
    finds(rt, alloc, text.as_bytes(), faulty(line, kind), text);
}

static LINES: [Faulty; 48] = [
    ("a\u{1}\n", 1, FaultKind::NotText),
    ("; \u{e4}\n\r\n[pool]\r\r\n", 3, FaultKind::NotText),
    ("[red]\n\u{7f}\n", 2, FaultKind::NotText),
    ("[pool]\r", 1, FaultKind::NotText),
    ("slots = 1", 1, FaultKind::BadLine),
    ("[pool]\nslots", 2, FaultKind::BadLine),
    ("[x", 1, FaultKind::BadLine),
    ("[x = 1", 1, FaultKind::BadLine),
    ("= 1", 1, FaultKind::BadLine),
    ("[meter m]\ncbs = 1", 2, FaultKind::BadLine),
    ("[meter m]\n= 1", 2, FaultKind::BadLine),
    ("[meter m]\nfoo = 1", 2, FaultKind::BadLine),
    ("[port 0]\nline rat = 1000000000", 2, FaultKind::UnknownKey),
    ("[]", 1, FaultKind::UnknownKey),
    ("[a=b]", 1, FaultKind::UnknownKey),
    ("[red 1]", 1, FaultKind::UnknownKey),
    ("[red]\n[x\n[y]", 3, FaultKind::UnknownKey),
    ("[pool]\n[x = 1", 2, FaultKind::UnknownKey),
    ("[pool]\n= 1", 2, FaultKind::UnknownKey),
    (
        "[pipe profile 0]\ntc 012 wrr weights = 1 1 1 1",
        2,
        FaultKind::UnknownKey,
    ),
    ("[codes dscp]\na b = 1", 2, FaultKind::UnknownKey),
    (
        "[subport profile 0]\ntb rate = 1\ntc x credits = 1",
        3,
        FaultKind::UnknownKey,
    ),
    ("[meter m]\nkind = srtcm\npbs = 1", 3, FaultKind::UnknownKey),
    ("[pool]\nslots =", 2, FaultKind::BadNumber),
    ("[port x]", 1, FaultKind::BadNumber),
    ("[meter A]", 1, FaultKind::BadNumber),
    (
        "[meter abcdefghijklmnopqrstuvwxyz0123456]",
        1,
        FaultKind::BadNumber,
    ),
    (
        "[pool]\nslots = 18446744073709551616",
        2,
        FaultKind::BadNumber,
    ),
    ("[codes dscp]\nx = 1 0 green", 2, FaultKind::BadNumber),
    ("[rule 0]\nsrc = 10.0.0/8", 2, FaultKind::BadNumber),
    ("[rule 0]\nmeter = Q", 2, FaultKind::BadNumber),
    (
        "[subport profile 0]\ntc 13 credits = x",
        2,
        FaultKind::BadNumber,
    ),
    ("[port 16]", 1, FaultKind::OutOfRange),
    ("[pool]\nslots = 0", 2, FaultKind::OutOfRange),
    ("[rule 0]\nsrc = 10.0.0.256/8", 2, FaultKind::OutOfRange),
    ("[rule 0]\ndst = 01.2.3.4/33", 2, FaultKind::OutOfRange),
    (
        "[subport profile 0]\ntc 5-3 rate = 1",
        2,
        FaultKind::OutOfRange,
    ),
    ("[codes dscp]\n5 = 1 1 green", 2, FaultKind::OutOfRange),
    ("[subport 0 0]\npipe 3-1 = 0", 2, FaultKind::OutOfRange),
    ("[pool]\n[pool]", 2, FaultKind::Twice),
    ("[port 00]\n[port 0]", 2, FaultKind::Twice),
    (
        "[codes dscp]\n5 = 0 0 green\n05 = 0 0 red",
        3,
        FaultKind::Twice,
    ),
    ("[port 0]\ndrain = 1\ndrain ms = 1", 3, FaultKind::Twice),
    (
        "[subport 0 0]\npipe 5000-6000 = 0\npipe 6000 = 0",
        3,
        FaultKind::Twice,
    ),
    (
        "[meter m]\nkind = srtcm\ncir bytes = 1\ncir rate = 1",
        4,
        FaultKind::Twice,
    ),
    (
        "[meter m]\nkind = srtcm\ncir rate = 1\ncir period = 1",
        4,
        FaultKind::Twice,
    ),
    (
        "[meter m]\nkind = srtcm\ncir bytes = 1\ncir rate = x",
        4,
        FaultKind::BadNumber,
    ),
    (
        "[subport profile 0]\ntc 0-3 rate = 1\ntc 3 rate = 1",
        3,
        FaultKind::Twice,
    ),
];

// Faults of lines, which go before all faults of the whole.
#[test]
fn lines_have_their_faults(rt: HostRuntime) {
    for row in &LINES {
        has_fault(&rt, rt.alloc(), row);
    }
}

// A line of the first profile, by its number from 0, what stands in its place, and the fault.
type Replaced = (usize, &'static str, u32, FaultKind);

static WHOLE: [Replaced; 16] = [
    (0, "[red]\n[port 1]", 0, FaultKind::Missing),
    (2, "subports = 2", 0, FaultKind::Missing),
    (21, "[meter m]\n[rule 0]", 22, FaultKind::Missing),
    (12, "pipes = 2", 11, FaultKind::Missing),
    (12, "pipes = 2\npipe 5000 = 0", 11, FaultKind::Missing),
    (14, "pipe 0 = 0\npipe 5000 = 0", 16, FaultKind::NoSuchName),
    (14, "pipe 0 = 256", 15, FaultKind::NoSuchName),
    (11, "profile = 64", 12, FaultKind::NoSuchName),
    (22, "port = 16", 23, FaultKind::NoSuchName),
    (23, "subport = 8", 24, FaultKind::NoSuchName),
    (24, "pipe = 4096", 25, FaultKind::NoSuchName),
    (25, "code = dscp\nmeter = q", 27, FaultKind::NoSuchName),
    (9, "tc period = 0", 5, FaultKind::OutOfRange),
    (20, "tc period = 1099511627777", 16, FaultKind::OutOfRange),
    (
        21,
        "[meter m]\nkind = srtcm\ncir rate = 0\ncbs = 0\nebs = 0\n[rule 0]",
        22,
        FaultKind::OutOfRange,
    ),
    (
        21,
        "[meter m]\nkind = trtcm\ncir rate = 3\npir bytes = 1\npir period = 333333334\ncbs = 1\npbs = 1\n[rule 0]",
        22,
        FaultKind::OutOfRange,
    ),
];

static EMPTY: [Faulty; 2] = [
    ("", 0, FaultKind::Missing),
    ("[red]\n[red]\n", 0, FaultKind::Missing),
];

fn replaced_has_fault(rt: &impl Abort, alloc: Global, row: &Replaced) {
    let (place, with, line, kind) = *row;
    edited_finds(rt, alloc, &[(place, with)], faulty(line, kind), with);
}

// Faults of the whole: one line of the first profile replaced.
#[test]
fn the_whole_has_its_faults(rt: HostRuntime) {
    for row in &WHOLE {
        replaced_has_fault(&rt, rt.alloc(), row);
    }
    for row in &EMPTY {
        has_fault(&rt, rt.alloc(), row);
    }
}

const KEYS: &str = "profile = 0
pipes = 1
queue sizes = 1 1 1 1 1 1 1 1 1 1 1 1 1
pipe 0 = 0
";

// The first profile with a section of this head and these keys before its pipe profile, in line 16.
fn section_has_fault(rt: &impl Abort, alloc: Global, head: &str, keys: &str, kind: FaultKind) {
    let with = joined(rt, alloc, &[head, "\n", keys, "[pipe profile 0]"]);
    edited_finds(rt, alloc, &[(15, with.as_str())], faulty(16, kind), head);
}

static HEADS: [(&str, FaultKind); 3] = [
    ("[subport 16 0]", FaultKind::NoSuchName),
    ("[subport 0 8]", FaultKind::NoSuchName),
    ("[subport 0 1]", FaultKind::NoSuchName),
];

fn is_not_there(rt: &impl Abort, alloc: Global, head: &str, kind: FaultKind) {
    section_has_fault(rt, alloc, head, KEYS, kind);
    section_has_fault(rt, alloc, head, "", FaultKind::Missing);
}

// A section of a subport or port that is not there comes after a missing key of it.
#[test]
fn subports_of_no_port_are_not_there(rt: HostRuntime) {
    for (head, kind) in &HEADS {
        is_not_there(&rt, rt.alloc(), head, *kind);
    }
}
