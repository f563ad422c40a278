//! A meter, which colours the packets of a flow.
ghost use Rattle.std.specs.Prelude.{◌≡◌};

use qos_base::{NANOSECONDS, Sequence, gcd};

/// The meter's standard.
#[derive(Clone, Copy, Debug, PartialEq, Eq)]
pub enum MeterKind {
    /// The single rate three colour marker of RFC 2697.
    SrTcm,
    /// The two rate three colour marker of RFC 2698.
    TrTcm,
    /// The two rate three colour marker of RFC 4115.
    Rfc4115,
}

/// How fast a bucket of a meter fills.
#[derive(Clone, Copy, Debug, PartialEq, Eq)]
pub enum MeterRate {
    /// At most 2^40 bytes for each period of 1 to 2^40 nanoseconds.
    Periods { bytes: u64, period: u64 },
    /// At most 12,500,000,000 bytes per second.
    PerSecond(u64),
}

/// A meter.
#[derive(Debug, Drop)]
pub struct MeterPlan {
    /// Its name: 1 to 32 of the letters a to z, the digits and `_`.
    pub name: Sequence<u8>,
    /// Its standard.
    pub kind: MeterKind,
    /// Whether it is aware of a packet's colour.
    pub aware: bool,
    /// The committed information rate.
    pub cir: MeterRate,
    /// The peak rate of RFC 2698 or the excess rate of RFC 4115; 0 bytes each nanosecond for RFC 2697.
    pub other: MeterRate,
    /// The committed burst size in bytes, at most 2^40.
    pub cbs: u64,
    /// The peak burst size of RFC 2698, else the excess burst size, in bytes, at most 2^40.
    pub other_size: u64,
    /// Whether packets that come out green, yellow and red are dropped.
    pub drops: [bool; 3],
}

impl MeterRate {
    ghost use Rattle.profile_plan.specs.Meter.{periods_of};

    /// The bytes, and the nanoseconds in which the bucket earns them: a rate per second and 10^9, both over
    /// their greatest common divisor.
    pub fn periods(&self) -> (u64, u64)
        ensures { result ≡ periods_of self.now }
    {
        match *self {
            MeterRate::Periods { bytes, period } => (bytes, period),
            MeterRate::PerSecond(rate) => {
                let divisor = gcd(rate, NANOSECONDS);
                (rate / divisor, NANOSECONDS / divisor)
            }
        }
    }
}
