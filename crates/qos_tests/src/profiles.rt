//! Profiles, as text.
use std::process::Abort;

/// One port on a line of 10^9 bytes per second, where byte times are nanoseconds, with one pipe, ample credits and no drain.
const BASE: &str = "[port 0]
line rate = 1000000000
subports = 1
drain ms = 0
[subport profile 0]
tb credits = 1
tb period = 1
tb size = 2000000
tc 0-12 credits = 1000000
tc period = 1000000
[subport 0 0]
profile = 0
pipes = 1
queue sizes = 64 64 64 64 64 64 64 64 64 64 64 64 64
pipe 0 = 0
[pipe profile 0]
tb credits = 1
tb period = 1
tb size = 2000000
tc 0-12 credits = 1000000
tc period = 1000000
[rule 0]
port = 0
subport = 0
pipe = 0
code = dscp
";

// The lines of the base that tests replace, counted from 1.
pub const DRAIN: usize = 4;

pub const SUBPORT_PROFILE: usize = 5;

pub const PIPES: usize = 13;

pub const QUEUES: usize = 14;

pub const PIPE: usize = 15;

pub const BUCKET_PERIOD: usize = 18;

pub const BUCKET_SIZE: usize = 19;

pub const CREDITS: usize = 20;

pub const RULE: usize = 22;

pub const CODE: usize = 26;

/// A line of the base, by its number, and what stands in its place: another line, or more than one.
pub type Edit<'a> = (usize, &'a str);

/// A pipe that earns hardly anything: a credit in a second.
pub const SLOW: Edit<'static> = (BUCKET_PERIOD, "tb period = 1000000000");

/// A drain of 1,000,000 byte times.
pub const DRAINS: Edit<'static> = (DRAIN, "drain ms = 1");

/// A second port like the first.
pub const SECOND_PORT: Edit<'static> = (
    SUBPORT_PROFILE,
    "[port 1]
line rate = 1000000000
subports = 1
drain ms = 0
[subport 1 0]
profile = 0
pipes = 1
queue sizes = 64 64 64 64 64 64 64 64 64 64 64 64 64
pipe 0 = 0
[subport profile 0]",
);

/// Every packet that port 0 does not take goes to port 1.
pub const SECOND_RULE: Edit<'static> = (
    RULE,
    "[rule 1]
port = 1
subport = 0
pipe = 0
code = dscp
[rule 0]",
);

/// Port 0 takes the packets to 10.0.0.0 till 10.0.0.127.
pub const BY_ADDRESS: Edit<'static> = (CODE, "code = dscp\ndst = 10.0.0.0/25");

/// A single rate three color marker, which the rule names: 46 bytes are green, 46 more are yellow, and no others.
pub const METERED: Edit<'static> = (
    CODE,
    "code = dscp
meter = m
[meter m]
kind = srtcm
cir bytes = 0
cir period = 1
cbs = 46
ebs = 46",
);

// What stands in the place of a line of the base.
fn edit_of<'a>(number: usize, edits: &[Edit<'a>]) -> Option<&'a str> {
    for (place, text) in edits {
        if *place == number {
            return Some(*text);
        }
    }
    None
}

fn put_line<R: Abort>(rt: &R, text: &mut Vec<u8>, line: &str) {
    text.extend_from_slice(line.as_bytes()).expect(rt, "memory");
    text.push(b'\n').expect(rt, "memory");
}

/// The base with these lines replaced.
pub fn profile<R: AllocGlobal + Abort>(rt: &R, edits: &[Edit<'_>]) -> Vec<u8> {
    let mut text = Vec::new(rt.alloc());
    for (number, line) in BASE.lines().enumerate() {
        let edit = edit_of(number.saturating_add(1), edits);
        put_line(rt, &mut text, edit.unwrap_or(line));
    }
    text
}

/// The base, and behind it one comment that makes it a text of so many bytes.
pub fn profile_of_size<R: AllocGlobal + Abort>(rt: &R, size: usize) -> Vec<u8> {
    let mut text = profile(rt, &[]);
    text.resize(size, b';').expect(rt, "memory");
    text
}
