//! What meters reply, packet by packet.
ghost use Rattle.std.specs.Prelude.{◌≡◌, ◌+◌, ◌^◌, ◌<◌, ◌≤◌, [], ◌∷◌};
ghost use Rattle.profile_plan.specs.Limits.{IsMeterRate};
ghost use Rattle.profile_plan.specs.Meter.{periods_of, IsAtMost};

use crate::check::same;
use color_meter::Meter;
use profile_plan::MeterRate::{self, PerSecond, Periods};
use profile_plan::{MeterKind, MeterPlan};
use qos_base::Colour::{self, Green, Red, Yellow};
use qos_base::Sequence;
use std::alloc::AllocGlobal;
use std::process::Abort;

// A moment, a length and the colour before; the colour after, and the counts.
type Row = (u64, u32, Colour, Colour, (u64, u64));

const NOTHING: MeterRate = Periods {
    bytes: 0,
    period: 1,
};

// The greatest rate, and the greatest size of a bucket.
const FASTEST: MeterRate = Periods {
    bytes: MOST,
    period: 1,
};

const MOST: u64 = 1 << 40;

// What the longest packet leaves of such a bucket: 2^40 - (2^32 - 1).
const LEFT: u64 = 1_095_216_660_481;

const LAST: u64 = 1 << 50;

// The meter, made again from its words.
fn again(meter: &Meter) -> Meter
    ensures { result ≡ meter.now }
{
    let words = meter.words();
    meter.with_words(&words)
}

fn check_row(rt: &impl Abort, meter: &mut Meter, row: &Row, note: &str) {
    let (at, len, pre, colour, counts) = *row;
    let checked = meter.check(at.min(LAST), len, pre);
    *meter = again(meter);
    same(rt, &(checked, meter.counts()), &(colour, counts), note);
}

fn check_rows(rt: &impl Abort, meter: Meter, rows: &[Row], note: &str) {
    let mut meter = meter;
    for row in rows {
        check_row(rt, &mut meter, row, note);
    }
}

fn name<R: AllocGlobal + Abort>(rt: &R) -> Sequence<u8>
    ensures { result ≡ 109 ∷ [] }
{
    Sequence::of(vec![in rt.alloc(); b'm'].expect(rt, "memory"))
}

fn single<R: AllocGlobal + Abort>(rt: &R, aware: bool, cir: MeterRate, sizes: (u64, u64)) -> Meter
    requires cir { IsMeterRate cir }
    requires cbs { sizes.0 ≤ 2 ^ 40 }
    requires other_size { sizes.1 ≤ 2 ^ 40 }
    requires some { 0 < sizes.0 + sizes.1 }
{
    Meter::new(&MeterPlan {
        name: name(rt),
        kind: MeterKind::SrTcm,
        aware,
        cir: cir,
        other: NOTHING,
        cbs: sizes.0,
        other_size: sizes.1,
        drops: [false; 3],
    })
}

// A period of C ends every 10 ns. CBS is 1,000 and EBS 500.
const SINGLE_BLIND: [Row; 10] = [
    (0, 1_000, Green, Green, (0, 500)),
    (0, 500, Green, Yellow, (0, 0)),
    (0, 1, Green, Red, (0, 0)),
    // One nanosecond before the first period ends, and as it ends.
    (9, 1, Green, Red, (0, 0)),
    (10, 100, Red, Green, (0, 0)),
    // Twelve periods: C takes 1,000 bytes, and E the other 200.
    (130, 1, Yellow, Green, (999, 200)),
    // Back at 50, where nothing is earned, and forth again by less than a period.
    (50, 1_000, Green, Red, (999, 200)),
    (139, 999, Green, Green, (0, 200)),
    (140, 300, Green, Red, (100, 200)),
    (1_000, 1_001, Green, Red, (1_000, 500)),
];

const SINGLE_AWARE: [Row; 5] = [
    (0, 100, Yellow, Yellow, (1_000, 400)),
    (0, 401, Yellow, Red, (1_000, 400)),
    (0, 100, Red, Red, (1_000, 400)),
    (0, 100, Green, Green, (900, 400)),
    (0, 901, Green, Red, (900, 400)),
];

// What one bucket pays, the other keeps.
const SINGLE_MOST: [Row; 2] = [
    (0, u32::MAX, Green, Green, (LEFT, MOST)),
    (LAST, u32::MAX, Green, Green, (LEFT, MOST)),
];

#[test]
fn single_rate(rt: HostRuntime) {
    let cir = Periods {
        bytes: 100,
        period: 10,
    };
    let blind = single(&rt, false, cir, (1_000, 500));
    check_rows(&rt, blind, &SINGLE_BLIND, "single rate, blind");
    let aware = single(&rt, true, NOTHING, (1_000, 500));
    check_rows(&rt, aware, &SINGLE_AWARE, "single rate, aware");
    let most = single(&rt, false, FASTEST, (MOST, MOST));
    check_rows(&rt, most, &SINGLE_MOST, "single rate, most");
}

fn two<R: AllocGlobal + Abort>(
    rt: &R,
    aware: bool,
    rates: (MeterRate, MeterRate),
    sizes: (u64, u64),
) -> Meter
    requires cir { IsMeterRate rates.0 }
    requires pir { IsMeterRate rates.1 }
    requires order { IsAtMost (periods_of rates.0) (periods_of rates.1) }
    requires cbs { sizes.0 ≤ 2 ^ 40 }
    requires other_size { sizes.1 ≤ 2 ^ 40 }
    requires some_cbs { 0 < sizes.0 }
    requires some_pbs { 0 < sizes.1 }
{
    Meter::new(&MeterPlan {
        name: name(rt),
        kind: MeterKind::TrTcm,
        aware,
        cir: rates.0,
        other: rates.1,
        cbs: sizes.0,
        other_size: sizes.1,
        drops: [false; 3],
    })
}

// A period of C ends every 10 ns and one of P every 7 ns. CBS is 1,000 and PBS 1,500.
const TWO_BLIND: [Row; 8] = [
    (0, 1_000, Green, Green, (0, 500)),
    (0, 400, Green, Yellow, (0, 100)),
    (0, 101, Green, Red, (0, 100)),
    // A period of P ends, and then one of C.
    (7, 200, Green, Yellow, (0, 0)),
    (10, 100, Green, Red, (100, 0)),
    // Back at 3, where nothing is earned.
    (3, 1, Green, Red, (100, 0)),
    // One period of each: that of C ends at 20, that of P at 14.
    (20, 100, Green, Green, (100, 0)),
    // Twelve periods of C and eighteen of P are more than the buckets hold.
    (140, 1_000, Green, Green, (0, 500)),
];

const TWO_AWARE: [Row; 4] = [
    (0, 100, Yellow, Yellow, (1_000, 900)),
    (0, 100, Red, Red, (1_000, 900)),
    (0, 900, Green, Green, (100, 0)),
    (0, 1, Yellow, Red, (100, 0)),
];

// Both buckets pay.
const TWO_MOST: [Row; 2] = [
    (0, u32::MAX, Green, Green, (LEFT, LEFT)),
    (LAST, u32::MAX, Green, Green, (LEFT, LEFT)),
];

#[test]
fn two_rates(rt: HostRuntime) {
    let rates = (
        Periods {
            bytes: 100,
            period: 10,
        },
        Periods {
            bytes: 100,
            period: 7,
        },
    );
    let blind = two(&rt, false, rates, (1_000, 1_500));
    check_rows(&rt, blind, &TWO_BLIND, "two rates, blind");
    let aware = two(&rt, true, (NOTHING, NOTHING), (1_000, 1_000));
    check_rows(&rt, aware, &TWO_AWARE, "two rates, aware");
    let most = two(&rt, false, (FASTEST, FASTEST), (MOST, MOST));
    check_rows(&rt, most, &TWO_MOST, "two rates, most");
}

fn excess<R: AllocGlobal + Abort>(
    rt: &R,
    aware: bool,
    rates: (MeterRate, MeterRate),
    sizes: (u64, u64),
) -> Meter
    requires cir { IsMeterRate rates.0 }
    requires eir { IsMeterRate rates.1 }
    requires cbs { sizes.0 ≤ 2 ^ 40 }
    requires other_size { sizes.1 ≤ 2 ^ 40 }
{
    Meter::new(&MeterPlan {
        name: name(rt),
        kind: MeterKind::Rfc4115,
        aware,
        cir: rates.0,
        other: rates.1,
        cbs: sizes.0,
        other_size: sizes.1,
        drops: [false; 3],
    })
}

// C earns a byte every 100 ns, and E three every 250 ns. CBS is 100 and EBS 50.
const EXCESS_BLIND: [Row; 6] = [
    (0, 100, Green, Green, (0, 50)),
    (0, 50, Green, Yellow, (0, 0)),
    (99, 1, Green, Red, (0, 0)),
    // Two periods of C are over, and one of E ends.
    (250, 3, Red, Yellow, (2, 0)),
    // Back at 240, where nothing is earned.
    (240, 2, Green, Green, (0, 0)),
    // C earns 103 bytes, of which none goes to E, and E earns 123.
    (10_500, 101, Green, Red, (100, 50)),
];

const EXCESS_AWARE: [Row; 5] = [
    (0, 10, Yellow, Yellow, (100, 40)),
    (0, 41, Yellow, Red, (100, 40)),
    (0, 10, Red, Red, (100, 40)),
    (0, 60, Green, Green, (40, 40)),
    (0, 41, Green, Red, (40, 40)),
];

const EXCESS_NONE: [Row; 2] = [(0, 100, Green, Green, (0, 0)), (0, 1, Green, Red, (0, 0))];

#[test]
fn excess_rate(rt: HostRuntime) {
    let rates = (
        PerSecond(10_000_000),
        Periods {
            bytes: 3,
            period: 250,
        },
    );
    let blind = excess(&rt, false, rates, (100, 50));
    check_rows(&rt, blind, &EXCESS_BLIND, "excess rate, blind");
    let aware = excess(&rt, true, (NOTHING, NOTHING), (100, 50));
    check_rows(&rt, aware, &EXCESS_AWARE, "excess rate, aware");
    let none = excess(&rt, true, (NOTHING, NOTHING), (100, 0));
    check_rows(&rt, none, &EXCESS_NONE, "excess rate, none");
    let most = excess(&rt, false, (FASTEST, FASTEST), (MOST, MOST));
    check_rows(&rt, most, &SINGLE_MOST, "excess rate, most");
}
