//! How fast a subport or a pipe may send: a token bucket and thirteen class limits.
ghost use Rattle.std.specs.Prelude.{◌≡◌, ◌≤◌, ◌^◌, map, All};
ghost use Rattle.qos_base.specs.Time.{IsLineRate};
ghost use Rattle.profile_plan.specs.Limits.{IsShaping, IsRates, IsWhole};
ghost use Rattle.profile_plan.specs.Whole.{bytes_in, whole_of};

use qos_base::gcd;

/// The traffic classes of a pipe, 0 to 12.
pub const CLASSES: usize = 13;

/// Milliseconds in a second.
const MILLISECONDS: u64 = 1_000;

/// How fast a subport or a pipe may send, in one of two forms (DPDK Programmer's Guide, chapter Quality of
/// Service, traffic shaping and the classes' upper limits).
#[derive(Clone, Copy, Debug, PartialEq, Eq)]
pub enum Shaping {
    /// Credits per periods that are given in byte times of the line.
    Whole(Whole),
    /// Rates, which mean whole-period numbers only at a port's line rate.
    Rate(Rates),
}

/// A shaping in whole-period numbers. Credits and sizes are in bytes, periods in byte times of the line; all
/// are at most 2^40, and all but the credits of a class are at least 1.
#[derive(Clone, Copy, Debug, PartialEq, Eq)]
pub struct Whole {
    /// The bytes that the token bucket earns each `tb_period`.
    pub tb_credits: u64,
    /// The token bucket's period.
    pub tb_period: u64,
    /// The token bucket's size.
    pub tb_size: u64,
    /// The bytes that each class may send in a `tc_period`.
    pub tc_credits: [u64; CLASSES],
    /// The period after which the class credits are renewed.
    pub tc_period: u64,
}

/// A shaping by rates in bytes per second, at most 12,500,000,000.
#[derive(Clone, Copy, Debug, PartialEq, Eq)]
pub struct Rates {
    /// The token bucket's rate, at least 1.
    pub tb_rate: u64,
    /// The token bucket's size in bytes, 1 to 2^40.
    pub tb_size: u64,
    /// The rate of each class.
    pub tc_rates: [u64; CLASSES],
    /// The period after which the class credits are renewed, 1 to 10,000 milliseconds.
    pub tc_period_ms: u64,
}

/// A pipe profile.
#[derive(Clone, Copy, Debug, PartialEq, Eq)]
pub struct PipeKind {
    /// Its number, 0 to 255.
    pub number: u32,
    /// How fast the pipe may send.
    pub shaping: Shaping,
    /// The weights of the four best effort queues, at least 1.
    pub weights: [u8; 4],
    /// The pipe's weight where its subport is oversubscribed, at least 1.
    pub ov_weight: u8,
}

impl Shaping {
    /// The whole-period numbers at a line of this rate in bytes per second: a rate R is R over the greatest
    /// common divisor of R and the rate, for each rate over it; a class rate and a period in milliseconds
    /// are rounded down to whole bytes and byte times.
    pub fn whole(&self, line: u64) -> Whole
        requires line { IsLineRate line }
        requires shaping { IsShaping self.now }
        ensures value { result ≡ whole_of self.now line }
        ensures limits { IsWhole result }
    {
        match self {
            Shaping::Whole(whole) => *whole,
            Shaping::Rate(rates) => whole_at(rates, line),
        }
    }
}

fn whole_at(rates: &Rates, line: u64) -> Whole
    requires line { IsLineRate line }
    requires rates { IsRates rates.now }
    ensures value { result ≡ whole_of (Shaping.Rate rates.now) line }
    ensures limits { IsWhole result }
{
    let divisor = gcd(rates.tb_rate, line);
    let period = rates.tc_period_ms;
    Whole {
        tb_credits: rates.tb_rate / divisor,
        tb_period: line / divisor,
        tb_size: rates.tb_size,
        tc_credits: bytes_of_all(&rates.tc_rates, period),
        tc_period: line * period / MILLISECONDS,
    }
}

// The whole bytes that each rate makes in so many milliseconds.
fn bytes_of_all(rates: &[u64; CLASSES], ms: u64) -> [u64; CLASSES]
    requires rates { All (λ n. n ≤ 12500000000) rates.now }
    requires ms { ms ≤ 10000 }
    ensures value { result ≡ map (λ rate. bytes_in rate ms) rates.now }
    ensures limits { All (λ n. n ≤ 2 ^ 40) result }
{
    let mut bytes = *rates;
    for class in 0..CLASSES {
        bytes[class] = rates[class] * ms / MILLISECONDS;
    }
    bytes
}
