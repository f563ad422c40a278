//! Profiles written, and read back.
use crate::check::same;
use crate::texts::{FIRST, SKIPPING, joined, put_number, read};
use qos_profile::{Profile, profile_text};
use std::alloc::Global;
use std::process::Abort;

// A profile's text in two parts, and the text that is written of it: what comes first, so many pipes of pipe profile 0, and
// what comes behind the code points.
struct Row<'a> {
    note: &'a str,
    before: &'a str,
    text: &'a str,
    front: &'a str,
    pipes: u32,
    behind: &'a str,
}

static ROWS: [Row<'static>; 3] = [
    Row {
        note: "the first",
        before: "",
        text: FIRST,
        front: FIRST_FRONT,
        pipes: 1,
        behind: FIRST_RULE,
    },
    Row {
        note: "rates, and many pipes",
        before: "",
        text: SKIPPING,
        front: SECOND_FRONT,
        pipes: 4_096,
        behind: SECOND_RULE,
    },
    Row {
        note: "two ports, two subport profiles, a meter and two rules",
        before: METERED,
        text: FIRST,
        front: THIRD_FRONT,
        pipes: 1,
        behind: METER_AND_RULES,
    },
];

fn pipes(rt: &impl Abort, alloc: Global, count: u32) -> String {
    let mut text = String::new(alloc);
    for pipe in 0..count {
        put_number(rt, &mut text, "pipe ", pipe, " = 0\n");
    }
    text
}

fn by_hand(rt: &impl Abort, alloc: Global, row: &Row<'_>) -> String {
    let pipes = pipes(rt, alloc, row.pipes);
    let parts = [row.front, pipes.as_str(), UNSHARED, CODES, row.behind];
    joined(rt, alloc, &parts)
}

fn writes(rt: &impl Abort, alloc: Global, profile: &Profile, wanted: &[u8], note: &str) {
    let text = profile_text(alloc, profile).expect(rt, "memory");
    same(rt, &text.as_slice(), &wanted, note);
}

// This is written of the profile that a text says.
fn rewrites(rt: &impl Abort, alloc: Global, text: &[u8], wanted: &[u8], note: &str) {
    let profile = read(rt, alloc, text);
    writes(rt, alloc, &profile, wanted, note);
}

// A row is written as by hand, and what is written is read back as the same profile.
fn is_written(rt: &impl Abort, alloc: Global, row: &Row<'_>) {
    let wanted = by_hand(rt, alloc, row);
    let text = joined(rt, alloc, &[row.before, row.text]);
    rewrites(rt, alloc, text.as_bytes(), wanted.as_bytes(), row.note);
    rewrites(rt, alloc, wanted.as_bytes(), wanted.as_bytes(), row.note);
}

#[test]
fn profiles_are_written_and_read_back(rt: HostRuntime) {
    for row in &ROWS {
        is_written(&rt, rt.alloc(), row);
    }
}

const UNSHARED: &str = "oversubscription = no\n";

// What is read before the first profile.
const METERED: &str = "[rule 255]
input = 15
vlan = none
proto = ipv4
dst = 10.1.2.128/25
port = 1
subport = 7
pipe = host
code = fixed 12 3 yellow
meter = m1
[meter m1]
kind = trtcm
mode = aware
cir rate = 10000000
pir bytes = 2
pir period = 100
cbs = 20000
pbs = 40000
[subport profile 63]
tb rate = 305175
tb size = 1000000
tc 0-12 rate = 305175
tc period = 40
[port 1]
line rate = 1250000000
subports = 8
drain ms = 0
[subport 1 0]
profile = 0
pipes = 1
queue sizes = 64 64 64 64 64 64 64 64 64 64 64 64 64
pipe 0 = 0
[subport 1 1]
profile = 0
pipes = 1
queue sizes = 64 64 64 64 64 64 64 64 64 64 64 64 64
pipe 0 = 0
[subport 1 2]
profile = 0
pipes = 1
queue sizes = 64 64 64 64 64 64 64 64 64 64 64 64 64
pipe 0 = 0
[subport 1 3]
profile = 0
pipes = 1
queue sizes = 64 64 64 64 64 64 64 64 64 64 64 64 64
pipe 0 = 0
[subport 1 4]
profile = 0
pipes = 1
queue sizes = 64 64 64 64 64 64 64 64 64 64 64 64 64
pipe 0 = 0
[subport 1 5]
profile = 0
pipes = 1
queue sizes = 64 64 64 64 64 64 64 64 64 64 64 64 64
pipe 0 = 0
[subport 1 6]
profile = 0
pipes = 1
queue sizes = 64 64 64 64 64 64 64 64 64 64 64 64 64
pipe 0 = 0
[subport 1 7]
profile = 63
pipes = 1
queue sizes = 64 64 64 64 64 64 64 64 64 64 64 64 64
pipe 0 = 0
";

const FIRST_FRONT: &str = "[pool]
slots = 65536
slot bytes = 2048
ring size = 8192
[port 0]
line rate = 1000000000
subports = 1
frame overhead = 24
mtu = 1522
burst = 32
quantum = 65536
drain ms = 0
[subport profile 0]
tb credits = 1
tb period = 1
tb size = 2000000
tc 0 credits = 1000000
tc 1 credits = 1000000
tc 2 credits = 1000000
tc 3 credits = 1000000
tc 4 credits = 1000000
tc 5 credits = 1000000
tc 6 credits = 1000000
tc 7 credits = 1000000
tc 8 credits = 1000000
tc 9 credits = 1000000
tc 10 credits = 1000000
tc 11 credits = 1000000
tc 12 credits = 1000000
tc period = 1000000
[pipe profile 0]
tb credits = 1
tb period = 1
tb size = 2000000
tc 0 credits = 1000000
tc 1 credits = 1000000
tc 2 credits = 1000000
tc 3 credits = 1000000
tc 4 credits = 1000000
tc 5 credits = 1000000
tc 6 credits = 1000000
tc 7 credits = 1000000
tc 8 credits = 1000000
tc 9 credits = 1000000
tc 10 credits = 1000000
tc 11 credits = 1000000
tc 12 credits = 1000000
tc period = 1000000
tc 12 wrr weights = 1 1 1 1
tc 12 oversubscription weight = 1
[subport 0 0]
profile = 0
pipes = 1
queue sizes = 64 64 64 64 64 64 64 64 64 64 64 64 64
";

const FIRST_RULE: &str = "[rule 0]
input = any
vlan = any
proto = any
src = any
dst = any
port = 0
subport = 0
pipe = 0
code = dscp
";

const SECOND_FRONT: &str = "[pool]
slots = 65536
slot bytes = 2048
ring size = 8192
[port 0]
line rate = 1250000000
subports = 1
frame overhead = 24
mtu = 1522
burst = 32
quantum = 65536
drain ms = 32
[subport profile 0]
tb rate = 1250000000
tb size = 1000000
tc 0 rate = 1250000000
tc 1 rate = 1250000000
tc 2 rate = 1250000000
tc 3 rate = 1250000000
tc 4 rate = 1250000000
tc 5 rate = 1250000000
tc 6 rate = 1250000000
tc 7 rate = 1250000000
tc 8 rate = 1250000000
tc 9 rate = 1250000000
tc 10 rate = 1250000000
tc 11 rate = 1250000000
tc 12 rate = 1250000000
tc period = 10
[pipe profile 0]
tb rate = 305175
tb size = 1000000
tc 0 rate = 305175
tc 1 rate = 305175
tc 2 rate = 305175
tc 3 rate = 305175
tc 4 rate = 305175
tc 5 rate = 305175
tc 6 rate = 305175
tc 7 rate = 305175
tc 8 rate = 305175
tc 9 rate = 305175
tc 10 rate = 305175
tc 11 rate = 305175
tc 12 rate = 305175
tc period = 40
tc 12 wrr weights = 1 1 1 1
tc 12 oversubscription weight = 1
[subport 0 0]
profile = 0
pipes = 4096
queue sizes = 64 64 64 64 64 64 64 64 64 64 64 64 64
";

const SECOND_RULE: &str = "[rule 0]
input = any
vlan = any
proto = any
src = any
dst = any
port = 0
subport = 0
pipe = host
code = dscp
";

const THIRD_FRONT: &str = "[pool]
slots = 65536
slot bytes = 2048
ring size = 8192
[port 0]
line rate = 1000000000
subports = 1
frame overhead = 24
mtu = 1522
burst = 32
quantum = 65536
drain ms = 0
[port 1]
line rate = 1250000000
subports = 8
frame overhead = 24
mtu = 1522
burst = 32
quantum = 65536
drain ms = 0
[subport profile 0]
tb credits = 1
tb period = 1
tb size = 2000000
tc 0 credits = 1000000
tc 1 credits = 1000000
tc 2 credits = 1000000
tc 3 credits = 1000000
tc 4 credits = 1000000
tc 5 credits = 1000000
tc 6 credits = 1000000
tc 7 credits = 1000000
tc 8 credits = 1000000
tc 9 credits = 1000000
tc 10 credits = 1000000
tc 11 credits = 1000000
tc 12 credits = 1000000
tc period = 1000000
[subport profile 63]
tb rate = 305175
tb size = 1000000
tc 0 rate = 305175
tc 1 rate = 305175
tc 2 rate = 305175
tc 3 rate = 305175
tc 4 rate = 305175
tc 5 rate = 305175
tc 6 rate = 305175
tc 7 rate = 305175
tc 8 rate = 305175
tc 9 rate = 305175
tc 10 rate = 305175
tc 11 rate = 305175
tc 12 rate = 305175
tc period = 40
[pipe profile 0]
tb credits = 1
tb period = 1
tb size = 2000000
tc 0 credits = 1000000
tc 1 credits = 1000000
tc 2 credits = 1000000
tc 3 credits = 1000000
tc 4 credits = 1000000
tc 5 credits = 1000000
tc 6 credits = 1000000
tc 7 credits = 1000000
tc 8 credits = 1000000
tc 9 credits = 1000000
tc 10 credits = 1000000
tc 11 credits = 1000000
tc 12 credits = 1000000
tc period = 1000000
tc 12 wrr weights = 1 1 1 1
tc 12 oversubscription weight = 1
[subport 0 0]
profile = 0
pipes = 1
queue sizes = 64 64 64 64 64 64 64 64 64 64 64 64 64
pipe 0 = 0
oversubscription = no
[subport 1 0]
profile = 0
pipes = 1
queue sizes = 64 64 64 64 64 64 64 64 64 64 64 64 64
pipe 0 = 0
oversubscription = no
[subport 1 1]
profile = 0
pipes = 1
queue sizes = 64 64 64 64 64 64 64 64 64 64 64 64 64
pipe 0 = 0
oversubscription = no
[subport 1 2]
profile = 0
pipes = 1
queue sizes = 64 64 64 64 64 64 64 64 64 64 64 64 64
pipe 0 = 0
oversubscription = no
[subport 1 3]
profile = 0
pipes = 1
queue sizes = 64 64 64 64 64 64 64 64 64 64 64 64 64
pipe 0 = 0
oversubscription = no
[subport 1 4]
profile = 0
pipes = 1
queue sizes = 64 64 64 64 64 64 64 64 64 64 64 64 64
pipe 0 = 0
oversubscription = no
[subport 1 5]
profile = 0
pipes = 1
queue sizes = 64 64 64 64 64 64 64 64 64 64 64 64 64
pipe 0 = 0
oversubscription = no
[subport 1 6]
profile = 0
pipes = 1
queue sizes = 64 64 64 64 64 64 64 64 64 64 64 64 64
pipe 0 = 0
oversubscription = no
[subport 1 7]
profile = 63
pipes = 1
queue sizes = 64 64 64 64 64 64 64 64 64 64 64 64 64
";

const METER_AND_RULES: &str = "[meter m1]
kind = trtcm
mode = aware
cir rate = 10000000
pir bytes = 2
pir period = 100
cbs = 20000
pbs = 40000
green = pass
yellow = pass
red = drop
[rule 0]
input = any
vlan = any
proto = any
src = any
dst = any
port = 0
subport = 0
pipe = 0
code = dscp
[rule 255]
input = 15
vlan = none
proto = ipv4
src = any
dst = 10.1.2.128/25
port = 1
subport = 7
pipe = host
code = fixed 12 3 yellow
meter = m1
";

const CODES: &str = "[codes dscp]
0 = 12 0 green
1 = 12 1 green
2 = 12 1 green
3 = 12 1 green
4 = 12 1 green
5 = 12 1 green
6 = 12 1 green
7 = 12 1 green
8 = 12 3 green
9 = 12 1 green
10 = 7 0 green
11 = 12 1 green
12 = 7 0 yellow
13 = 12 1 green
14 = 7 0 red
15 = 12 1 green
16 = 9 0 green
17 = 12 1 green
18 = 6 0 green
19 = 12 1 green
20 = 6 0 yellow
21 = 12 1 green
22 = 6 0 red
23 = 12 1 green
24 = 8 0 green
25 = 12 1 green
26 = 5 0 green
27 = 12 1 green
28 = 5 0 yellow
29 = 12 1 green
30 = 5 0 red
31 = 12 1 green
32 = 3 0 green
33 = 12 1 green
34 = 4 0 green
35 = 12 1 green
36 = 4 0 yellow
37 = 12 1 green
38 = 4 0 red
39 = 12 1 green
40 = 2 0 green
41 = 12 1 green
42 = 12 1 green
43 = 12 1 green
44 = 12 1 green
45 = 12 1 green
46 = 0 0 green
47 = 12 1 green
48 = 1 0 green
49 = 12 1 green
50 = 12 1 green
51 = 12 1 green
52 = 12 1 green
53 = 12 1 green
54 = 12 1 green
55 = 12 1 green
56 = 1 0 green
57 = 12 1 green
58 = 12 1 green
59 = 12 1 green
60 = 12 1 green
61 = 12 1 green
62 = 12 1 green
63 = 12 1 green
";
