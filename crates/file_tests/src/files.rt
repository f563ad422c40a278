//! Commands on the files of the system. Each test has names of its own in the folder where the tests run.
use crate::check::{ends_as, same};
use crate::two_ports::{FINE, FIRST_SENT, PROFILE, SECOND_SENT, UNREAD, capture, input};
use command_fixtures::{End, Rec};
use qos_main::{FileShelf, PcapFault, Stop};
use std::fs;
use std::fs::File;
use std::os::unix;
use std::process::Abort;
use std::rt::Files;
use std::sync::Wait;
use std::thread::Threads;

// Makes a file.
fn make<R: Files + Abort>(rt: &R, name: &str, bytes: &[u8]) {
    fs::write(rt, name, bytes).expect(rt, "a file");
}

// Makes the profile and the capture.
fn make_both<R: Files + AllocGlobal + Abort>(rt: &R, profile: &str, capture: &str) {
    make(rt, profile, PROFILE.as_bytes());
    make(rt, capture, &input(rt));
}

// A file has these bytes.
fn has<R: Files + AllocGlobal + Abort>(rt: &R, name: &str, bytes: &[u8], note: &str) {
    let held = fs::read(rt, name).expect(rt, "a file");
    same(rt, &held.as_slice(), &bytes, note);
}

// A file is the capture that the program writes of these frames.
fn holds<R: Files + AllocGlobal + Abort>(rt: &R, name: &str, frames: &[Rec], note: &str) {
    has(rt, name, &capture(rt, frames), note);
}

fn check<
    R: Files<File = File> + Threads + Wait + Copy + Send + Sync + AllocGlobal + Abort + 'static,
>(rt: &R, words: &str, end: &End) {
    let mut shelf = FileShelf::new(rt).expect(rt, "a shelf");
    ends_as(rt, words, &mut shelf, end);
}

#[test]
fn a_command_on_files(rt: HostRuntime) {
    make_both(&rt, "plan", "whole");
    let words = "run --profile plan --out shaped whole";
    check(&rt, words, &FINE);
    holds(&rt, "shaped.0.pcap", &FIRST_SENT, "a new file");
    holds(&rt, "shaped.1.pcap", &SECOND_SENT, "a new file");
    make(&rt, "shaped.0.pcap", &[7; 1000]);
    check(&rt, words, &FINE);
    holds(
        &rt,
        "shaped.0.pcap",
        &FIRST_SENT,
        "a longer one that was there",
    );
}

// The output of port 0 is refused.
static KEPT: End = End {
    status: 5,
    first: [2, 0, 0, 0, 2, 2, 168],
    write_faults: [true, false],
    ..FINE
};

// The output of port 0 is the capture or the profile under another name: with a folder before it, and by a link of either
// kind. With the words, the output of port 1.
static OVERWRITING: [(&str, &str); 7] = [
    (
        "run --profile rules.0.pcap --out ./kept kept.0.pcap",
        "kept.1.pcap",
    ),
    (
        "run --profile rules.0.pcap --out soft kept.0.pcap",
        "soft.1.pcap",
    ),
    (
        "run --profile rules.0.pcap --out hard kept.0.pcap",
        "hard.1.pcap",
    ),
    (
        "run --profile rules.0.pcap --out kept soft.0.pcap",
        "kept.1.pcap",
    ),
    (
        "run --profile rules.0.pcap --out ./rules kept.0.pcap",
        "rules.1.pcap",
    ),
    (
        "run --profile rules.0.pcap --out softer kept.0.pcap",
        "softer.1.pcap",
    ),
    (
        "run --profile rules.0.pcap --out harder kept.0.pcap",
        "harder.1.pcap",
    ),
];

// Makes a file with a soft and a hard link.
fn linked<R: Files + Abort>(rt: &R, name: &str, bytes: &[u8], soft: &str, hard: &str) {
    make(rt, name, bytes);
    unix::fs::symlink(rt, name, soft).expect(rt, "a link");
    fs::hard_link(rt, name, hard).expect(rt, "a link");
}

fn check_kept<
    R: Files<File = File> + Threads + Wait + Copy + Send + Sync + AllocGlobal + Abort + 'static,
>(rt: &R, row: &(&str, &str)) {
    let (words, other) = *row;
    check(rt, words, &KEPT);
    has(rt, "kept.0.pcap", &input(rt), words);
    has(rt, "rules.0.pcap", PROFILE.as_bytes(), words);
    holds(rt, other, &SECOND_SENT, words);
    fs::remove_file(rt, other).expect(rt, "a file");
}

#[test]
fn inputs_are_not_overwritten(rt: HostRuntime) {
    let bytes = input(&rt);
    linked(&rt, "kept.0.pcap", &bytes, "soft.0.pcap", "hard.0.pcap");
    let text = PROFILE.as_bytes();
    linked(&rt, "rules.0.pcap", text, "softer.0.pcap", "harder.0.pcap");
    for row in &OVERWRITING {
        check_kept(&rt, row);
    }
}

static FULL: End = End {
    status: 5,
    write_faults: [true, false],
    ..FINE
};

// A full device takes what fits into the program's buffer, and fails when it is flushed.
#[test]
fn an_output_is_full(rt: HostRuntime) {
    make_both(&rt, "layout", "frames");
    unix::fs::symlink(&rt, "/dev/full", "full.0.pcap").expect(&rt, "a link");
    check(&rt, "run --profile layout --out full frames", &FULL);
    holds(&rt, "full.1.pcap", &SECOND_SENT, "the other output");
}

const UNWRITTEN: End = End {
    status: 5,
    first: [2, 0, 0, 0, 2, 2, 168],
    second: [1, 0, 0, 0, 1, 1, 84],
    write_faults: [true, true],
    ..FINE
};

const NO_CAPTURE: End = End {
    status: 4,
    stopped: Stop::Fault(PcapFault::Read),
    first: [0; 7],
    second: [0; 7],
    ..FINE
};

const UNOPENED: End = End {
    stopped: Stop::NotOpened,
    ..NO_CAPTURE
};

// A folder opens, and fails when it is read; in a folder that is not there nothing is opened or created.
static OUTSIDE: [(&str, End); 5] = [
    ("run --profile terms --out absent/o ours", UNWRITTEN),
    ("run --profile terms --out unread .", NO_CAPTURE),
    ("run --profile terms --out unopened absent/a", UNOPENED),
    ("run --profile . --out never ours", UNREAD),
    ("run --profile absent/p --out never ours", UNREAD),
];

static RECORDLESS: [&str; 4] = [
    "unread.0.pcap",
    "unread.1.pcap",
    "unopened.0.pcap",
    "unopened.1.pcap",
];

#[test]
fn the_outside_fails(rt: HostRuntime) {
    make_both(&rt, "terms", "ours");
    for (words, end) in &OUTSIDE {
        check(&rt, words, end);
    }
    for name in &RECORDLESS {
        holds(&rt, name, &[], "an output of no record");
    }
    let made = fs::read(&rt, "never.0.pcap").is_ok();
    same(&rt, &made, &false, "an output without a profile");
}
