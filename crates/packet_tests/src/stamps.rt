//! The stamps of byte times.
use crate::check::same;
use port_egress::Stamps;

// A line's rate, an origin, a byte time, and the stamp.
const STAMPS: [(u64, u64, u64, u64); 7] = [
    (1_000_000, 0, 1, 1_000),
    (1_000_003, 0, 1_000_002, 999_999_000),
    (3_000_000, 0, 1_500_000, 500_000_000),
    (3_000_000, 7, 10_000_001, 3_333_333_673),
    (
        12_500_000_000,
        100_000_000_000,
        12_499_999_999,
        100_999_999_999,
    ),
    (
        1_000_000,
        4_294_967_295_999_999_998,
        1,
        4_294_967_295_999_999_999,
    ),
    (1_000_000, 0, u64::MAX, 4_294_967_295_999_999_999),
];

#[test]
fn a_byte_time_has_its_stamp(rt: HostRuntime) {
    for (line, origin, time, stamp) in STAMPS {
        assert!(&rt; 1_000_000 <= line && line <= 12_500_000_000);
        same(&rt, &Stamps::new(origin, line).of(time), &stamp, "a stamp");
    }
}
