//! Two whole profiles, and how a text's answer is compared.
use crate::check::same;
use qos_profile::{FaultKind, Profile, ProfileError, read_profile};
use std::alloc::Global;
use std::fmt::Write;
use std::process::Abort;

pub(crate) const FIRST: &str = "[port 0]
line rate = 1000000000
subports = 1
drain ms = 0
[subport profile 0]
tb credits = 1
tb period = 1
tb size = 2000000
tc 0-12 credits = 1000000
tc period = 1000000
[subport 0 0]
profile = 0
pipes = 1
queue sizes = 64 64 64 64 64 64 64 64 64 64 64 64 64
pipe 0 = 0
[pipe profile 0]
tb credits = 1
tb period = 1
tb size = 2000000
tc 0-12 credits = 1000000
tc period = 1000000
[rule 0]
port = 0
subport = 0
pipe = 0
code = dscp
";

pub(crate) const SKIPPING: &str = "[port 0]
line rate = 1250000000
subports = 1
drain ms = 32
[subport profile 0]
tb rate = 1250000000
tb size = 1000000
tc 0-12 rate = 1250000000
tc period = 10
[subport 0 0]
profile = 0
pipes = 4096
queue sizes = 64 64 64 64 64 64 64 64 64 64 64 64 64
pipe 0-4095 = 0
[red]
tc 0 wred min = 48 40 32
[pipe profile 0]
tb rate = 305175
tb size = 1000000
tc 0-12 rate = 305175
tc period = 40
[rule 0]
port = 0
subport = 0
pipe = host
code = dscp
";

// The line, the kind and the total of the first fault.
pub(crate) type Found = (u32, Option<FaultKind>, u64);

pub(crate) const NONE: Found = (0, None, 0);

pub(crate) fn faulty(line: u32, kind: FaultKind) -> Found {
    (line, Some(kind), 0)
}

pub(crate) fn too_large(total: u64) -> Found {
    (0, Some(FaultKind::TooLarge), total)
}

pub(crate) fn read(rt: &impl Abort, alloc: Global, text: &[u8]) -> Profile {
    read_profile(alloc, text).expect(rt, "a profile")
}

fn found(alloc: Global, text: &[u8]) -> Found {
    match read_profile(alloc, text) {
        Ok(_) => NONE,
        Err(ProfileError::Fault(fault)) => (fault.line, Some(fault.kind), fault.total),
        Err(ProfileError::NoMemory) => (u32::MAX, None, 0),
    }
}

// The answer for a text.
pub(crate) fn finds(rt: &impl Abort, alloc: Global, text: &[u8], wanted: Found, note: &str) {
    same(rt, &found(alloc, text), &wanted, note);
}

// A line of the first profile, by its number from 0, and what stands in its place: another line, more than one, or
// nothing.
pub(crate) type Edit<'a> = (usize, &'a str);

// What stands in the place of a line.
fn edit_of<'a>(number: usize, edits: &[Edit<'a>]) -> Option<&'a str> {
    for (place, with) in edits {
        if *place == number {
            return Some(*with);
        }
    }
    None
}

pub(crate) fn put(rt: &impl Abort, text: &mut String, more: &str) {
    text.push_str(more).expect(rt, "memory");
}

// A number between two texts.
pub(crate) fn put_number(
    rt: &impl Abort,
    text: &mut String,
    before: &str,
    number: u32,
    after: &str,
) {
    write!(text, "{before}{number}{after}").expect(rt, "memory");
}

// Some texts one behind the other.
pub(crate) fn joined(rt: &impl Abort, alloc: Global, parts: &[&str]) -> String {
    let mut text = String::new(alloc);
    for part in parts {
        put(rt, &mut text, part);
    }
    text
}

fn put_line(rt: &impl Abort, text: &mut String, line: &str) {
    if !line.is_empty() {
        put(rt, text, line);
        put(rt, text, "\n");
    }
}

// A line, or what stands in its place.
fn put_edited(rt: &impl Abort, text: &mut String, number: usize, line: &str, edits: &[Edit<'_>]) {
    match edit_of(number, edits) {
        Some(with) => put_line(rt, text, with),
        None => put_line(rt, text, line),
    }
}

// The first profile with these lines replaced.
pub(crate) fn edited(rt: &impl Abort, alloc: Global, edits: &[Edit<'_>]) -> String {
    let mut text = String::new(alloc);
    for (number, line) in FIRST.lines().enumerate() {
        put_edited(rt, &mut text, number, line, edits);
    }
    text
}

// The answer for the first profile with these lines replaced.
pub(crate) fn edited_finds(
    rt: &impl Abort,
    alloc: Global,
    edits: &[Edit<'_>],
    wanted: Found,
    note: &str,
) {
    let text = edited(rt, alloc, edits);
    finds(rt, alloc, text.as_str().as_bytes(), wanted, note);
}
