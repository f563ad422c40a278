//! What profiles say, part by part.
use crate::check::same;
use crate::texts::{FIRST, SKIPPING, read};
use code_table::Entry;
use qos_base::Colour;
use qos_profile::{
    CLASSES, CodeChoice, MeterKind, MeterPlan, MeterRate, PipeChoice, PipeKind, PoolPlan, PortPlan,
    Prefix, Profile, Proto, Rates, RulePlan, Shaping, Span, SubportPlan, VlanTest, Whole,
};
use std::alloc::Global;
use std::process::Abort;

fn first<'a, T>(rt: &impl Abort, items: &'a [T]) -> &'a T {
    items.first().expect(rt, "a first item")
}

fn last<'a, T>(rt: &impl Abort, items: &'a [T]) -> &'a T {
    items.last().expect(rt, "a last item")
}

// The line rate, overhead, longest frame, burst, quantum and drain of a port, and how many subports it has.
type PortSeen = (u64, u32, u32, u32, u64, Span, usize);

fn port_seen(port: &PortPlan) -> PortSeen {
    (
        port.line,
        port.overhead,
        port.mtu,
        port.burst,
        port.quantum,
        port.drain,
        port.subports.as_slice().len(),
    )
}

fn has_port(rt: &impl Abort, profile: &Profile, wanted: &PortSeen) {
    let port = first(rt, profile.ports.as_slice());
    same(rt, &port_seen(port), wanted, "port");
}

// The profile and the queue sizes of a subport, how many pipes it has, the profiles of the first and the last, and whether
// it may be oversubscribed.
type SubportSeen = (u32, [u32; CLASSES], usize, Option<u32>, Option<u32>, bool);

fn subport_seen(subport: &SubportPlan) -> SubportSeen {
    let pipes = subport.pipes.as_slice();
    (
        subport.kind,
        subport.sizes,
        pipes.len(),
        pipes.first().copied(),
        pipes.last().copied(),
        subport.oversub,
    )
}

// The last subport of the first port.
fn has_subport(rt: &impl Abort, profile: &Profile, wanted: &SubportSeen) {
    let port = first(rt, profile.ports.as_slice());
    let subport = last(rt, port.subports.as_slice());
    same(rt, &subport_seen(subport), wanted, "subport");
}

// The first letter of a meter's name, its kind, whether it is aware, both rates, both sizes, and the colours that it drops.
type MeterSeen = (
    Option<u8>,
    MeterKind,
    bool,
    [MeterRate; 2],
    [u64; 2],
    [bool; 3],
);

fn meter_seen(meter: &MeterPlan) -> MeterSeen {
    (
        meter.name.as_slice().first().copied(),
        meter.kind,
        meter.aware,
        [meter.cir, meter.other],
        [meter.cbs, meter.other_size],
        meter.drops,
    )
}

const WHOLE: Shaping = Shaping::Whole(Whole {
    tb_credits: 1,
    tb_period: 1,
    tb_size: 2_000_000,
    tc_credits: [1_000_000; CLASSES],
    tc_period: 1_000_000,
});

const RULE: RulePlan = RulePlan {
    number: 0,
    input: None,
    vlan: VlanTest::Any,
    proto: None,
    src: None,
    dst: None,
    port: 0,
    subport: 0,
    pipe: PipeChoice::Fixed(0),
    code: CodeChoice::Dscp,
    meter: None,
};

const FIRST_PORT: PortSeen = (1_000_000_000, 24, 1_522, 32, 65_536, Span::Ms(0), 1);

const FIRST_SUBPORT: SubportSeen = (0, [64; CLASSES], 1, Some(0), Some(0), false);

const FIRST_POOL: PoolPlan = PoolPlan {
    slots: 65_536,
    slot_bytes: 2_048,
    ring: 8_192,
};

const FIRST_PIPE_KIND: PipeKind = PipeKind {
    number: 0,
    shaping: WHOLE,
    weights: [1; 4],
    ov_weight: 1,
};

fn has_first_kinds(rt: &impl Abort, profile: &Profile) {
    let kind = first(rt, profile.subport_kinds.as_slice());
    same(rt, kind, &(0, WHOLE), "subport profile");
    let kind = first(rt, profile.pipe_kinds.as_slice());
    same(rt, kind, &FIRST_PIPE_KIND, "pipe profile");
}

fn has_counts(rt: &impl Abort, profile: &Profile) {
    let counts = (
        profile.ports.as_slice().len(),
        profile.meters.as_slice().len(),
        profile.skipped.as_slice().len(),
    );
    same(rt, &counts, &(1, 0, 0), "counts");
}

fn has_first_parts(rt: &impl Abort, profile: &Profile) {
    same(rt, &profile.pool, &FIRST_POOL, "pool");
    has_port(rt, profile, &FIRST_PORT);
    has_subport(rt, profile, &FIRST_SUBPORT);
    has_first_kinds(rt, profile);
    same(rt, first(rt, profile.rules.as_slice()), &RULE, "rule");
    has_counts(rt, profile);
}

const CODES: [(usize, Entry); 4] = [
    (
        34,
        Entry {
            class: 4,
            queue: 0,
            colour: Colour::Green,
        },
    ),
    (
        36,
        Entry {
            class: 4,
            queue: 0,
            colour: Colour::Yellow,
        },
    ),
    (
        8,
        Entry {
            class: 12,
            queue: 3,
            colour: Colour::Green,
        },
    ),
    (
        1,
        Entry {
            class: 12,
            queue: 1,
            colour: Colour::Green,
        },
    ),
];

fn has_default_codes(rt: &impl Abort, profile: &Profile) {
    for (code, entry) in CODES {
        same(rt, &profile.codes.get(code), &entry, "code");
    }
}

const MANY_PIPES: SubportSeen = (0, [64; CLASSES], 4_096, Some(0), Some(0), false);

const RATES: Shaping = Shaping::Rate(Rates {
    tb_rate: 305_175,
    tb_size: 1_000_000,
    tc_rates: [305_175; CLASSES],
    tc_period_ms: 40,
});

fn has_skipped(rt: &impl Abort, profile: &Profile) {
    same(rt, &profile.skipped.as_slice(), &[15].as_slice(), "lines");
    has_subport(rt, profile, &MANY_PIPES);
    let kind = first(rt, profile.pipe_kinds.as_slice());
    same(rt, &kind.shaping, &RATES, "rates");
    let rule = first(rt, profile.rules.as_slice());
    same(rt, &rule.pipe, &PipeChoice::Host, "pipe");
}

// Every key that the first two profiles leave to its default.
const EVERY: &str = "[rule 7]
port = 0
subport = 1
pipe = vlan
code = fixed 12 3 red
meter = a
[rule 2]
input = 15
vlan = none
proto = mpls
src = 10.1.2.3/8
dst = 255.255.255.255/0
port = 0
subport = 0
pipe = 1
code = dscp
meter = b
[meter b]
kind = trtcm
mode = aware
cir bytes = 3
cir period = 4
pir rate = 1000000000
cbs = 5
pbs = 6
green = drop
red = pass
[meter a]
kind = srtcm
cir rate = 7
cbs = 8
ebs = 9
[codes dscp]
46 = 11 0 yellow
[pool]
slots = 1
slot bytes = 64
ring size = 2
[subport profile 63]
tb credits = 1
tb period = 1
tb size = 2000000
tc 0-12 credits = 1000000
tc period = 1000000
[subport 0 1]
profile = 63
pipes = 3
queue sizes = 0 1 2 3 4 5 6 7 8 9 10 11 12
pipe 2 = 255
pipe 0-1 = 3
oversubscription = yes
[subport 0 0]
profile = 63
pipes = 2
queue sizes = 0 0 0 0 0 0 0 0 0 0 0 0 1
pipe 0-1 = 3
[port 0]
line rate = 1000000
subports = 2
frame overhead = 0
mtu = 60
burst = 256
quantum = 1
drain = 17
[pipe profile 255]
tb credits = 1
tb period = 1
tb size = 2000000
tc 0-12 credits = 1000000
tc period = 1000000
tc 12 wrr weights = 1 2 3 255
tc 12 oversubscription weight = 255
[pipe profile 3]
tb credits = 1
tb period = 1
tb size = 2000000
tc 0-12 credits = 1000000
tc period = 1000000
";

const EVERY_POOL: PoolPlan = PoolPlan {
    slots: 1,
    slot_bytes: 64,
    ring: 2,
};

const EVERY_PORT: PortSeen = (1_000_000, 0, 60, 256, 1, Span::Bytes(17), 2);

const EVERY_SUBPORT: SubportSeen = (
    63,
    [0, 1, 2, 3, 4, 5, 6, 7, 8, 9, 10, 11, 12],
    3,
    Some(3),
    Some(255),
    true,
);

const EVERY_PIPE_KIND: PipeKind = PipeKind {
    number: 255,
    shaping: WHOLE,
    weights: [1, 2, 3, 255],
    ov_weight: 255,
};

const EVERY_ENTRY: Entry = Entry {
    class: 11,
    queue: 0,
    colour: Colour::Yellow,
};

fn has_every_key(rt: &impl Abort, profile: &Profile) {
    same(rt, &profile.pool, &EVERY_POOL, "pool");
    has_port(rt, profile, &EVERY_PORT);
    has_subport(rt, profile, &EVERY_SUBPORT);
    let kind = last(rt, profile.pipe_kinds.as_slice());
    same(rt, kind, &EVERY_PIPE_KIND, "pipe profile");
    same(rt, &profile.codes.get(46), &EVERY_ENTRY, "code");
}

const FIRST_METER: MeterSeen = (
    Some(b'b'),
    MeterKind::TrTcm,
    true,
    [
        MeterRate::Periods {
            bytes: 3,
            period: 4,
        },
        MeterRate::PerSecond(1_000_000_000),
    ],
    [5, 6],
    [true, false, false],
);

const SECOND_METER: MeterSeen = (
    Some(b'a'),
    MeterKind::SrTcm,
    false,
    [
        MeterRate::PerSecond(7),
        MeterRate::Periods {
            bytes: 0,
            period: 1,
        },
    ],
    [8, 9],
    [false, false, true],
);

fn has_meters(rt: &impl Abort, profile: &Profile) {
    let meters = profile.meters.as_slice();
    same(rt, &meter_seen(first(rt, meters)), &FIRST_METER, "first");
    same(rt, &meter_seen(last(rt, meters)), &SECOND_METER, "second");
}

const RULE_2: RulePlan = RulePlan {
    number: 2,
    input: Some(15),
    vlan: VlanTest::Untagged,
    proto: Some(Proto::Mpls),
    src: Some(Prefix {
        addr: 0x0a00_0000,
        bits: 8,
    }),
    dst: Some(Prefix { addr: 0, bits: 0 }),
    port: 0,
    subport: 0,
    pipe: PipeChoice::Fixed(1),
    code: CodeChoice::Dscp,
    meter: Some(0),
};

const RULE_7: RulePlan = RulePlan {
    number: 7,
    input: None,
    vlan: VlanTest::Any,
    proto: None,
    src: None,
    dst: None,
    port: 0,
    subport: 1,
    pipe: PipeChoice::Vlan,
    code: CodeChoice::Fixed(Entry {
        class: 12,
        queue: 3,
        colour: Colour::Red,
    }),
    meter: Some(1),
};

fn has_rules(rt: &impl Abort, profile: &Profile) {
    let rules = profile.rules.as_slice();
    same(rt, first(rt, rules), &RULE_2, "first");
    same(rt, last(rt, rules), &RULE_7, "last");
}

// What is looked at in a profile.
#[derive(Clone, Copy)]
enum Part {
    First,
    DefaultCodes,
    Skipped,
    EveryKey,
    Meters,
    Rules,
}

fn has(rt: &impl Abort, profile: &Profile, part: Part) {
    match part {
        Part::First => has_first_parts(rt, profile),
        Part::DefaultCodes => has_default_codes(rt, profile),
        Part::Skipped => has_skipped(rt, profile),
        Part::EveryKey => has_every_key(rt, profile),
        Part::Meters => has_meters(rt, profile),
        Part::Rules => has_rules(rt, profile),
    }
}

// The profile that a text says has this part.
fn says(rt: &impl Abort, alloc: Global, text: &str, part: Part) {
    let profile = read(rt, alloc, text.as_bytes());
    has(rt, &profile, part);
}

#[test]
fn the_first_profile_has_its_parts(rt: HostRuntime) {
    says(&rt, rt.alloc(), FIRST, Part::First);
}

#[test]
fn the_default_codes_stand(rt: HostRuntime) {
    says(&rt, rt.alloc(), FIRST, Part::DefaultCodes);
}

#[test]
fn a_skipped_section_is_told(rt: HostRuntime) {
    says(&rt, rt.alloc(), SKIPPING, Part::Skipped);
}

#[test]
fn every_key_is_read(rt: HostRuntime) {
    says(&rt, rt.alloc(), EVERY, Part::EveryKey);
}

#[test]
fn meters_stand_in_the_order_of_the_text(rt: HostRuntime) {
    says(&rt, rt.alloc(), EVERY, Part::Meters);
}

#[test]
fn rules_stand_by_number(rt: HostRuntime) {
    says(&rt, rt.alloc(), EVERY, Part::Rules);
}
