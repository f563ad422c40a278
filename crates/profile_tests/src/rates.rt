//! Rates as whole-period numbers.
use crate::check::same;
use profile_plan::{CLASSES, MeterRate, Rates, Shaping, Whole};
use std::process::Abort;

const LINE: u64 = 1_250_000_000;

// A rate of 305,175 bytes per second has the divisor 25 with this line; so have the classes in 40 ms.
const RATES: Rates = Rates {
    tb_rate: 305_175,
    tb_size: 1_000_000,
    tc_rates: [305_175; CLASSES],
    tc_period_ms: 40,
};

const WHOLE: Whole = Whole {
    tb_credits: 12_207,
    tb_period: 50_000_000,
    tb_size: 1_000_000,
    tc_credits: [12_207; CLASSES],
    tc_period: 50_000_000,
};

// The greatest rates, where nothing is divided out but the line itself.
const FASTEST: Rates = Rates {
    tb_rate: 12_500_000_000,
    tb_size: 1,
    tc_rates: [12_500_000_000; CLASSES],
    tc_period_ms: 10_000,
};

const AT_ONCE: Whole = Whole {
    tb_credits: 1,
    tb_period: 1,
    tb_size: 1,
    tc_credits: [125_000_000_000; CLASSES],
    tc_period: 125_000_000_000,
};

#[test]
fn shapings_have_whole_period_numbers(rt: HostRuntime) {
    let rates = Shaping::Rate(RATES).whole(LINE);
    same(&rt, &rates, &WHOLE, "305,175 in 40 ms");
    let whole = Shaping::Whole(WHOLE).whole(1_000_000);
    same(&rt, &whole, &WHOLE, "whole");
    let fastest = Shaping::Rate(FASTEST).whole(12_500_000_000);
    same(&rt, &fastest, &AT_ONCE, "fastest");
}

const PERIODS: [(MeterRate, (u64, u64)); 4] = [
    (MeterRate::PerSecond(0), (0, 1)),
    (MeterRate::PerSecond(10_000_000), (1, 100)),
    (MeterRate::PerSecond(305_175), (12_207, 40_000_000)),
    (
        MeterRate::Periods {
            bytes: 6,
            period: 4,
        },
        (6, 4),
    ),
];

fn has_periods(rt: &impl Abort, rate: MeterRate, periods: (u64, u64)) {
    same(rt, &rate.periods(), &periods, "rate");
}

#[test]
fn meter_rates_have_periods(rt: HostRuntime) {
    for (rate, periods) in PERIODS {
        has_periods(&rt, rate, periods);
    }
}
